//! A block of a script, two lanes of lines beside a worker, performed on a bank with or without an array on it.
#![tactic(auto)]

mod answering;
mod replies;
mod together;

pub use answering::answer_block;
pub use lane_shared::{Bank, NoMemory, Pace};
pub use replies::{is_answer_refused, put_text};
pub use run_line_answers::{
    Answered, LineReply, Outside, Running, State, answer, entry_of, halt, script_call,
};
pub use script_status::{AlertKind, AlertList, Hook, Lane, Line, Monitor, Numbered};
pub use together::{Together, ask_together};
