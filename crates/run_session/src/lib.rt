//! A run between two lines: the lines of a script performed, each reply shown before the next one.
#![tactic(auto)]

mod alerting;
mod blocks;
mod sessions;

pub use run_blocks::{AlertKind, Hook, LineReply, Pace, State, halt, script_call};
pub use script_io::{Sink, Source};
pub use sessions::{Made, Session, Stop, perform};
