//! The parity of a row, and what it gives of roles that are lacking.
#![tactic(auto)]

pub mod laws;
mod row;
mod sectors;
mod sums;

pub use raid_gf256::{inv, mul, pow_g};
pub use raid_types::RowRoles;
pub use row::{fill_one, fill_two, syndromes};
