//! One row of the members, read and written while some of them are missing.
#![tactic(auto)]

mod fill;
mod held;
pub mod laws;
mod lose;
mod new_row;
mod read;
mod sets;
mod write;

pub use held::{data_offset, is_missing};
pub use lose::{lose_slot, lose_slots, missing_count};
pub use read::read_row;
pub use sb_specs::says::{is_reshaping, shape_of, target_of};
pub use sb_specs::sets::{contains, with};
pub use sb_specs::{Bank, BankFault, Features, Members, Sb};
pub use write::write_row;
