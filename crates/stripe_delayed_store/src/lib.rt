//! A delayed row, written to the members of an array so that each moment of it is safe.
#![tactic(auto)]

mod laws;
mod row;
mod storing;

pub use laws::{delayed_writes_stay_safe, stored_rows_can_be_written, stored_rows_stand};
pub use row::store_row;
pub use sb_safe_updates::refusing::too_many_of;
pub use sb_safe_updates::{Bank, Members, Refusal, Shape, Side};
pub use storing::{Stored, store_delayed};
