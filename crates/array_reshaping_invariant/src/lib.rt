//! What an array keeps from call to call that is in a reshape: definitions, and laws of its record.
#![tactic(auto)]

pub use reshape_progress_resync_laws::{
    Course, Filled, Finished, PhasesLeft, Window, begin, copy, fill, final_in, finish,
    first_read_refusal, first_resync_refusal, first_write_refusal, flush_and_mark,
    flush_and_record, give_role, has_unnamed, is_spare, is_unassigned, list_length,
    newly_unassigned, read_listed, record, record_missing, recovering_slot, relied_sector,
    resync_left, resync_list, resync_rows, shape_in, synced_rows, too_many, unassigned_roles,
    write_list, write_listed, zero,
};
pub use reshape_window_io::{finish_window, read_around_window};
