//! The answer to a request.

use history_append::Event;

/// The place of the reply's entry and a copy of its event; or memory was short, and nothing was done.
#[derive(Drop)]
pub enum Reply {
    Done { at: u64, event: Event },
    NoMemory,
}
