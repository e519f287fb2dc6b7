//! Calls of an array in a reshape: reads, writes, and slots that are made spares.
#![tactic(auto)]

mod barring;
mod reading;
mod writing;

pub use reading::read;
pub use writing::write;
