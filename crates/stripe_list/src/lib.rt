//! Sectors of an array's flat list, read and written while some of its members are missing.
#![tactic(auto)]

mod buffers;
mod held;
pub mod laws;
mod lists;
mod outcome;
mod puts;
mod rows;
mod sectors;

pub use buffers::{ROW_BYTES, missing_data, read_touched};
pub use lists::read_list;
pub use outcome::{Outcome, Unavailable, are_too_many, tolerance};
pub use puts::{Written, write_touched};
pub use stripe_row::{data_offset, is_missing, lose_slot, lose_slots, missing_count};
