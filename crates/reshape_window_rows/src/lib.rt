//! The rows of a window that is copied: read by the old shape, written by the new one stripe by stripe, and zeroed behind the list.
#![tactic(auto)]

pub mod laws;
mod reads;
mod rows;
mod runs;
mod stripes;

pub use raid_layout::{Refusal, Shape, Span};
pub use reads::read_window;
pub use reshape_begin_end::{
    Bank, Finished, Members, Outcome, SectionFault, Unavailable, begin, finish, first_read_refusal,
    first_write_refusal, flush_and_mark, flush_and_record, flush_naming, give_role, has_unnamed,
    holders, is_spare, is_unassigned, list_length, newly_unassigned, record_missing,
    record_position, too_many, unassigned_roles, without, write_section,
};
pub use rows::window_row;
pub use stripes::{Copied, copy_stripe, zero_stripe};
