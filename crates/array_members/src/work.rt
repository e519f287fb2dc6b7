//! What an array has under way.

/// The stripes that a pending resync has mended, None where none is pending; how many stripes of each role are rebuilt on
/// the slot that recovers it; and for each of the first 128 device numbers the slots whose superblock may bear it.
#[derive(Clone, Copy)]
pub struct Work {
    pub resync: Option<u64>,
    pub rebuilt: [u64; 16],
    pub carried: [u32; 128],
}
