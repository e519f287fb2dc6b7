//! What an array that stays whole is never refused for.
#![tactic(auto)]

pub mod laws;

pub use history::{Bank, Epoch};
