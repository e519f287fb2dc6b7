//! The steps of a reshape's window, each safe at each moment: it is entered, and recorded, and what they leave of an array that is steady.
#![tactic(auto)]

mod copying;
mod entering;
pub mod laws;
mod recording;
mod zeroing;

pub use copying::{Stepped, copy};
pub use entering::{Entered, NotEntered, enter_window};
pub use recording::record;
pub use reshape_window_rows::{
    Finished, begin, finish, first_read_refusal, first_write_refusal, flush_and_mark,
    flush_and_record, give_role, has_unnamed, is_spare, is_unassigned, list_length,
    newly_unassigned, record_missing, too_many, unassigned_roles,
};
pub use zeroing::zero;
