//! Bytes of a stream: exact reads of a source, and big-endian numbers.
#![tactic(auto)]

mod exact;
mod numbers;

pub use exact::{ReadError, read_exact, skip};
pub use numbers::{take_u16, take_u32, take_u64};
