//! What an array keeps from call to call: definitions, and laws of its record.
#![tactic(auto)]

pub use history_append::calls::{
    append_after_losses, append_entry, append_failure, append_lost, check_number,
};
pub use history_append::{Entries, Epoch, Event, LostCause};
pub use raid_types::{
    BusyKind, Fault, NoMemory, Refusal, Role, RoleList, Sectors, Shape, ShapeField, SlotList, Span,
    Status, Who,
};
