//! What the calls of an array in a reshape leave, from what is done below them. Definitions and laws alone.
#![tactic(auto)]

pub use array_fixed_laws::{
    Due, Filled, backed_up_span, due_step, fill, first_read_refusal, first_read_refusal_from,
    first_write_refusal, first_write_refusal_from, flush_and_record, give_role, is_unassigned,
    is_window_critical, list_sectors, meets, next_window_of, open_span, read_listed,
    recovering_slot, resync_rows, stripe_to_copy, stripe_to_zero, synced_rows, uncertain_span,
    visible, visible_of, write_listed,
};
pub use array_reshaping_resync_laws::{
    Course, Finished, begin, copy, final_in, finish, finish_window, first_resync_refusal,
    flush_and_mark, has_unnamed, is_spare, list_length, newly_unassigned, read_around_window,
    record, record_missing, relied_sector, resync_left, resync_list, shape_in, too_many,
    unassigned_roles, write_list, zero,
};
pub use reshape_window_backup::{clear_window, enter_next};
