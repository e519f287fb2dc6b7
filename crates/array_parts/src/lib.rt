//! What an array owns, whether a reshape is active in it or not.
#![tactic(auto)]

pub use array_members::{Work, is_missing, lose_slot};
pub use reshape_request::planning::all_left;
pub use reshape_request::shapes::is_backward;
use reshape_request::{Bank, Members};
pub use reshape_request::{
    Entries, Epoch, Event, LostCause, PhasesLeft, StepKind, Window, judge_grow, plan_of,
    planned_left, reshape_left,
};
use std::alloc::Global;

/// What an array owns while it goes from one state to another: its bank and history, what is known of the superblocks, what is under
/// way in it, the phases of a plan that haven't begun, the limit of the visible size in sectors, the steps that there is room for, and
/// the buffers of one call in two regions.
#[derive(Drop)]
pub struct Pieces<B: Bank> {
    pub alloc: Global,
    pub bank: B,
    pub epoch: Epoch,
    pub backup: Option<u32>,
    pub members: Members,
    pub work: Work,
    pub ahead: PhasesLeft,
    pub limit: Option<u64>,
    pub steps: u64,
    pub rows: Vec<u64>,
    pub buffer: Vec<u8>,
    pub far_rows: Vec<u64>,
    pub far_buffer: Vec<u8>,
}
