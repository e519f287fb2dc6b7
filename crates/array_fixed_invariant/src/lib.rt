//! What an array keeps from call to call that has no active reshape, whatever its history: definitions, and laws of its record.
#![tactic(auto)]

pub use array_call_laws::{
    Fault, NoMemory, Refusal, Role, Sectors, Shape, Span, Who, append_after_losses, append_entry,
    append_failure, append_lost,
};
pub use array_reshaping_invariant::{
    Filled, fill, first_read_refusal, first_write_refusal, flush_and_mark, flush_and_record,
    give_role, has_unnamed, is_unassigned, newly_unassigned, read_listed, record_missing,
    recovering_slot, resync_rows, shape_in, synced_rows, too_many, unassigned_roles, write_listed,
};
