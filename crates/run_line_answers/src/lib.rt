//! One line of a script, performed on a bank with or without an array on it.
#![tactic(auto)]

mod answers;
mod examines;

pub use answers::{answer, entry_of};
pub use run_requests::{
    AlertList, Answered, LineReply, Outside, Running, State, ask_add, ask_fail, ask_flush,
    ask_grow, ask_read, ask_show, ask_steps, ask_wait, ask_write, halt, script_call,
};
