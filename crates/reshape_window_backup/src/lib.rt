//! The next window of a reshape is entered: it is read, and its section stored and named in the backup; or that is cleared. Each is safe at each moment.
#![tactic(auto)]

mod clearing;
mod reading;
mod storing;
mod windows;

pub use clearing::clear_window;
pub use windows::{Tried, enter_next};
