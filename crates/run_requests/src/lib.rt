//! One request of a script's line to a running array.
#![tactic(auto)]

mod asks;
mod shows;

pub use asks::{
    ask_add, ask_fail, ask_flush, ask_grow, ask_read, ask_steps, ask_visible, ask_wait, ask_write,
    last_place, script_call,
};
pub use run_specs::{
    AlertList, Answered, Bank, BankFault, CreateLine, CreateSpec, Entry, Epoch, Fault, Line,
    LineReply, NoMemory, Outside, Refusal, Running, Sb, State, create_array, examine, halt,
    open_running, read_superblock, status, stop,
};
pub use shows::ask_show;
