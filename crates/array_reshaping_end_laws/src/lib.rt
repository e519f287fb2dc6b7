//! A reshape ends in an array that keeps its record in it: laws, by which the array keeps its record without a reshape.
#![tactic(auto)]

pub use array_fixed_invariant::{Refusal, Role, Shape, Who, append_entry, append_lost};
