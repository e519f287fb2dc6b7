//! The bank of a run, with or without an array on it.

use array_requests::{Bank, Running};
use script::Epoch;

/// The bank where no array runs, or the array, and the epochs of the arrays that ran before.
#[derive(Drop)]
pub enum State<B: Bank> {
    Idle(B, Vec<Epoch>),
    Running(Running<B>, Vec<Epoch>),
}
