//! What a cache holds of a list, laid over what was read of it.
#![tactic(auto)]

mod rows;
mod sectors;

pub use rows::overlay_rows;
pub use sectors::overlay_sectors;
