//! What a next opening finds, in as many slots as the former one had or in fewer.
#![tactic(auto)]

pub mod laws;

pub use history::{Bank, Epoch};
