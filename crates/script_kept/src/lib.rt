//! A source that keeps what is read of it, so that a line of it can be shown again.
#![tactic(auto)]

mod kept;

pub use kept::KeptSource;
