//! What an election that refuses nothing finds of an array's members, in a reshape or without one, and why a stored reshape is refused. Definitions, and laws of them.
#![tactic(auto)]

pub use array_call_specs::{Epoch, Fault, Refusal, Shape, ShapeField, Who};

pub mod laws;
