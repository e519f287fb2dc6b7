//! The entries that a call of an array makes in its history.
#![tactic(auto)]

pub mod calls;
pub mod losses;

pub use calls::{append_entry, check_number};
pub use history_laws::{Entries, Epoch, Event, LostCause, Request};
pub use losses::append_losses;
