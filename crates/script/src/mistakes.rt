//! What can be wrong with a line.

use crate::tables::{Key, Verb};

/// Where a word stands that is to begin what a line asks: outside of every block, in a block, or behind the name of a lane.
#[derive(Clone, Copy, Debug, PartialEq, Eq)]
pub enum Place {
    Outside,
    Block,
    Lane,
}

/// A value that stands behind a word, in its place.
#[derive(Clone, Copy, Debug, PartialEq, Eq)]
pub enum Value {
    Word,
    Start,
    Count,
    Seed,
    Role,
    Slot,
    Steps,
    Limit,
    Uuid,
    AnyKey,
}

/// What is wrong, at the place where a line goes wrong.
#[derive(Clone, Copy, Debug, PartialEq, Eq)]
pub enum Mistake {
    /// A byte that isn't printable ASCII.
    BadByte { byte: u8 },
    /// No word that a line knows.
    UnknownWord { place: Place },
    /// A word that a line knows, but in another place.
    WordElsewhere { place: Place },
    /// A word behind a line that is whole.
    TooMany,
    /// The line ends before this value.
    Missing { value: Value },
    /// The line ends without this key.
    MissingKey { key: Key },
    /// No key of this line.
    UnknownKey { verb: Verb },
    /// A key that stands there already.
    TwiceKey { key: Key },
    /// No number; one from `least` to `most` is wanted.
    NotANumber { least: u64, most: u64 },
    /// Digits, but the first of several is a zero.
    LeadingZero { least: u64, most: u64 },
    /// A number below `least` or above `most`.
    OutOfRange { least: u64, most: u64 },
    /// No number, and not `max`.
    NotALimit,
    NotAUuid,
    /// No layout's name; behind `grow` `preserve` and `normalise` are there too.
    NotALayout { key: Key },
}

/// A mistake in a line's words.
#[derive(Clone, Copy, Debug, PartialEq, Eq)]
pub struct Wrong {
    /// How many words of the line are left where it goes wrong, with the word that is wrong; none at its end.
    pub left: usize,
    /// How many bytes of that word are right: a key and its `=`.
    pub skip: usize,
    pub mistake: Mistake,
}
