//! What an update of the superblocks records.

use sb_codec::Sb;

/// What a slot becomes: as before, the holder of a role, whole or with a recovery offset, or a spare.
#[derive(Clone, Copy, Debug, PartialEq, Eq)]
pub enum Give {
    Same,
    Role { role: u32, recovery: Option<u64> },
    Spare,
}

/// The fields of the array and of its reshape, what each slot becomes, and a slot that is made a spare, with its
/// superblock.
#[derive(Clone, Copy)]
pub struct Change {
    pub shared: Sb,
    pub gives: [Give; 32],
    pub added: Option<(u32, Sb)>,
}

/// The slots that were lost, one bit for each.
pub type Lostness = u32;

/// Which slots a pass writes: those whose event count is behind, those that get a role with a recovery offset, the
/// others, or all.
#[derive(Clone, Copy, Debug, PartialEq, Eq)]
pub enum Part {
    Behind,
    Recoveries,
    Others,
    All,
}
