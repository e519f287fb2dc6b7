//! The words of the program's command, after the program's name.
#![tactic(auto)]

mod command;
mod parsing;
mod paths;
mod sizes;

pub use command::{Command, command_of};
pub use paths::Paths;
pub use sizes::MOST_SIZE;
