//! Writes of the list of an array in a reshape, split by region.
#![tactic(auto)]

pub mod runs;
pub mod writing;

pub use stripe_region_read::fetching::first_list_refusal;
pub use stripe_region_read::stretches::{shape_for, stretch_at};
pub use stripe_region_read::{
    Filled, Mended, fill, final_in, first_write_refusal, read_listed, recovering_slot, resync_rows,
    shape_in, synced_rows, too_many, too_many_of, write_listed,
};
