//! Calls of an array without an active reshape: reads, writes, and slots that are made spares.
#![tactic(auto)]

mod reading;
mod writing;

pub use array_type::{
    Array, Bank, Entries, Epoch, Event, Fault, Filled, Members, PhasesLeft, Pieces, Refusal, Role,
    Shape, StepKind, Who, Work, append_after_losses, append_entry, append_lost, check_going, fill,
    first_resync_refusal, first_spare, flush_and_mark, flush_and_record, give_role, is_missing,
    is_unassigned, left_at_rest, newly_unassigned, planned_left, record_missing, recovering_slot,
    resync_rows, set_rebuilt, shape_in, steps_left, too_many, unassigned_roles, with, without,
};
pub use reading::read;
pub use writing::write;
