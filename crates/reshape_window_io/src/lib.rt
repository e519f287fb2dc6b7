//! Calls of an array whose reshape has a window open: the window is finished, and the list is read beside it.
#![tactic(auto)]

mod fetching;
mod finishing;

pub use fetching::read_around_window;
pub use finishing::{Finished, finish_window};
