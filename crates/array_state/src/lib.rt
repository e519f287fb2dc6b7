//! What the members of an array and its work say of it, before it runs and between its calls.
#![tactic(auto)]

pub mod absent;
pub mod adding;
pub mod asking;
pub mod holders;
pub mod refusing;
pub mod room;
pub mod work;

pub use array_call_laws::{
    BusyKind, Fault, NoMemory, Sectors, Status, Who, append_after_losses, append_entry,
    append_failure, append_lost, check_number,
};
pub use sb_add_spare::adding::{add_member, look_at};
pub use sb_add_spare::device::{bear, free_number};
pub use stripe_io::mending::stripes;
pub use stripe_io::{Refusal, Role, Shape, Span};
