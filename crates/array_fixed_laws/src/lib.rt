//! What the calls of an array without an active reshape leave, from what is done below them. Definitions and laws alone.
#![tactic(auto)]

pub use array_fixed_invariant::{
    Filled, fill, first_read_refusal, first_write_refusal, flush_and_mark, flush_and_record,
    give_role, has_unnamed, is_unassigned, newly_unassigned, read_listed, record_missing,
    recovering_slot, resync_rows, shape_in, synced_rows, too_many, unassigned_roles, write_listed,
};
pub use array_specs::{
    Due, backed_up_span, due_step, first_read_refusal_from, first_write_refusal_from, is_spare,
    is_window_critical, list_sectors, meets, next_window_of, open_span, stripe_to_copy,
    stripe_to_zero, uncertain_span, visible, visible_of,
};
