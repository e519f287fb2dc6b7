//! Callers that share an array: a service that answers them, a lane of requests, and a worker that asks for background steps.
#![tactic(auto)]

mod block;
mod lane;
mod pace;
mod rows;
mod service;
mod serving;
mod sharing;
mod starting;
mod threads;
mod worker;

pub use array_requests::{
    Bank, CreateSpec, NoMemory, Refusal, Reply, Running, create_array, open_running, perform,
    tells_sizes,
};
pub use block::{Joined, run_block};
pub use lane::run_lane;
pub use pace::Pace;
pub use service::Service;
pub use serving::Answering;
pub use sharing::{Pass, Shared};
pub use threads::at_once;
pub use worker::{Worked, run_worker};
