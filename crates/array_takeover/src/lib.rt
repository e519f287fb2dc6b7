//! The level of an array without an active reshape is taken over.
#![tactic(auto)]

mod choosing;
mod taking;

pub use array_fixed_sync::{
    Epoch, Event, Members, PhasesLeft, Pieces, first_recovering, read, still_step, write,
};
pub use taking::take_over;
