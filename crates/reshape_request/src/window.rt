//! How far a plan has come, beside what the superblocks say of it.

use history::{Phase, Span};

/// The window of a reshape: none is open; or one is entered, so that its sectors are in the buffer, with so many of its stripes
/// copied, and perhaps with its section stored in the backup; or the backup failed when that was to be named, so that a stop may
/// leave the section active or not.
#[derive(Clone, Copy, Debug, PartialEq, Eq)]
pub enum Window {
    Closed,
    Entered {
        span: Span,
        copied: u64,
        sectioned: bool,
    },
    Unsure {
        span: Span,
    },
}

/// The phases of a plan that haven't begun.
#[derive(Clone, Copy, Debug, PartialEq, Eq)]
pub struct PhasesLeft {
    pub next: Option<Phase>,
    pub last: Option<Phase>,
}
