//! The resync of an array in a reshape, stripe by stripe over both regions.
#![tactic(auto)]

pub mod counting;
pub mod laws;
pub mod mending;
pub mod stripes;

pub use stripe_region_write::runs::{first_runs_refusal, runs_of};
pub use stripe_region_write::writing::write_list;
pub use stripe_region_write::{
    Filled, fill, final_in, first_list_refusal, read_listed, recovering_slot, resync_rows,
    shape_in, stretch_at, synced_rows, too_many_of, write_listed,
};
