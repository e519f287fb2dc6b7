//! What the members of an array in a reshape, and how far that has come, say of it: its windows and the step that is next, what it tells of
//! itself, and why its calls aren't done. No device is touched.
#![tactic(auto)]

pub mod asking;
pub mod holding;
pub mod left_laws;
pub mod refusing;
pub mod reshape;
pub mod stepping;
pub mod windows;

pub use array_call_specs::{Role, Span};
pub use reshape_progress::{
    Bank, BankFault, Course, Members, Window, find_section, is_spare, lose_slots, with,
};
pub use stripe_region_resync::counting::{resync_left, resyncs_at};
pub use stripe_region_resync::stripes::{next_resync, relied_sector, resync_stripes};
pub use stripe_region_resync::{final_in, shape_in};
