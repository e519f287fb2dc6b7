//! A row of a cache.

use raid_types::{Sectors, Side, Span};

/// One row, its sectors role after role, with the set of its changed roles: role r by the bit r.
#[derive(Drop)]
pub struct Cached {
    pub side: Side,
    pub row: u64,
    pub body: Sectors,
    pub changed: u32,
}

/// What became of a row that was to be kept: it is here, it is here and this delayed row has left, or it is not.
#[derive(Drop)]
pub enum Kept {
    Here,
    Evicted(Cached),
    NoMemory,
}

/// Which delayed rows are meant: all, or those of one side from row `lo` up to row `hi`.
#[derive(Clone, Copy)]
pub enum Delayed {
    Anywhere,
    Within(Side, Span),
}
