//! How far a reshape has come, what is kept of that between its steps, and laws of what each step makes of it.
#![tactic(auto)]

pub mod course;
pub mod laws;

pub use course::Course;
pub use reshape_request::left::{next_window, stripes_in};
pub use reshape_request::shapes::is_backward;
pub use reshape_request::{
    Bank, BankFault, Members, PhasesLeft, SectionFault, Window, clear_section, find_section,
    is_critical, list_end, lose_slots, reshape_left, stripe_sectors, with, write_section,
};
pub use reshape_window_steps::{
    Finished, begin, copy, finish, first_read_refusal, first_write_refusal, flush_and_mark,
    flush_and_record, give_role, has_unnamed, is_spare, is_unassigned, list_length,
    newly_unassigned, record, record_missing, too_many, unassigned_roles, zero,
};
