//! The steps of an array in a reshape, those of a pending resync among them.
#![tactic(auto)]

mod clearing;
mod copying;
mod entering;
mod finishing;
mod recording;
mod resyncing;
mod stepping;
mod zeroing;

pub use array_type::{
    Array, Bank, Course, Due, Entries, Epoch, Event, Fault, Finished, Members, PhasesLeft, Pieces,
    Refusal, Role, Room, Sectors, Shape, Span, StepKind, Who, Window, Work, add_member,
    append_absent, append_after_losses, append_entry, append_failure, append_lost, backed_up_span,
    bear, begin, check_going, check_number, contains, due_step, final_in, finish,
    first_read_refusal_from, first_write_refusal_from, found_numbers, free_number,
    grow_asked_all_left as all_left, has_unnamed, holds_role, is_backward, is_missing, is_spare,
    judge_grow, list_length, list_sectors, look_at, meets, newly_unassigned, open_span, plan_of,
    planned_left, read_around_window, relied_sector, reshape_left, room_for, shape_in, spare_for,
    steps_left, too_many, unaddable, unassigned_roles, uncertain_span, visible, with, without,
    write_list, zeros,
};
pub use clearing::clear;
pub use finishing::finish_open;
pub use stepping::step;
