//! What a tally's history and calls are made of.

/// One answered request: who asked, and what was added.
#[derive(Clone, Copy, Drop)]
pub struct Entry {
    pub caller: u32,
    pub amount: u64,
}

#[derive(Clone, Copy, Drop)]
pub enum Request {
    Add(u32),
    Read,
}

/// The place of the entry and the sum before it; or nothing was done, since there was no room.
#[derive(Clone, Copy, Drop)]
pub enum Reply {
    Done { at: u64, sum: u64 },
    NoRoom,
}
