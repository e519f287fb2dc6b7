//! How far a reshape has come.

use reshape_request::Window;

/// The window under way, and how many stripes behind the list are zeroed.
#[derive(Clone, Copy, Debug, PartialEq, Eq)]
pub struct Course {
    pub window: Window,
    pub zeroed: u64,
}
