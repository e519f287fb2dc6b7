//! The course of a reshape while a resync is pending: what stands in it, and what a mended stripe makes of it.
#![tactic(auto)]

pub mod laws;

pub use reshape_progress::{
    Course, Finished, PhasesLeft, Window, begin, copy, finish, first_read_refusal,
    first_write_refusal, flush_and_mark, flush_and_record, give_role, has_unnamed, is_spare,
    is_unassigned, list_length, newly_unassigned, record, record_missing, too_many,
    unassigned_roles, zero,
};
pub use stripe_region_resync::counting::resync_left;
pub use stripe_region_resync::mending::{first_resync_refusal, resync_list};
pub use stripe_region_resync::stripes::relied_sector;
pub use stripe_region_resync::{
    Filled, fill, final_in, read_listed, recovering_slot, resync_rows, shape_in, synced_rows,
    write_list, write_listed,
};
