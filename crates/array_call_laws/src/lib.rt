//! What each call of an array keeps: laws over what the array keeps.
#![tactic(auto)]

pub use array_call_specs::{
    BusyKind, Entries, Epoch, Event, Fault, LostCause, NoMemory, Refusal, Role, RoleList, Sectors,
    Shape, SlotList, Span, Status, Who, append_after_losses, append_entry, append_failure,
    append_lost, check_number,
};
