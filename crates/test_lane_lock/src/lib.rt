//! A tally that threads share by `lane_lock`, and the tests of that lock.
#![tactic(auto)]

mod entry;
mod gate;
mod joining;
mod lanes;
mod tally;
mod turns;

pub use entry::{Entry, Reply, Request};
pub use gate::{Gate, Turn, wait_for};
pub use joining::{Joined, together};
pub use lanes::{Shared, Ticket, run_lane};
pub use tally::Tally;
pub use turns::{Doors, Key, in_turns, meet_within_a_turn};

#[cfg(test)]
mod tests;
