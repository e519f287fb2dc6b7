//! The background steps of an array without a reshape: which is the next one.
#![tactic(auto)]

mod choosing;
mod filling;
mod mending;
mod naming;
mod rebuilding;
mod refusing;
mod resyncing;
mod stepping;

pub use array_fixed_io::{
    Array, Bank, Entries, Epoch, Event, Members, PhasesLeft, Pieces, StepKind, Work, first_spare,
    is_missing, planned_left, read, set_rebuilt, steps_left, unassigned_roles, write,
};
pub use choosing::first_recovering;
pub use stepping::still_step;
