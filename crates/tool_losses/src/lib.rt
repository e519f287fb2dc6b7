//! What people are told of members that an array has lost.
#![tactic(auto)]

mod lines;
mod losses;
mod states;

pub use losses::push_losses;
pub use states::push_states;
