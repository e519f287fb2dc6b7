//! The words that the program answers without a run: help, its version, and commands that only look at files. And what is told of words that
//! are no command.
#![tactic(auto)]

mod look_words;
mod quiet;
mod tools;
mod usage;

pub use look_words::run_words;
pub use quiet::take_quiet;
pub use tools::{Tool, Topic, tool_of};
pub use usage::{VERSION, advice, help_text};
