//! A run of a script: its text, its lines performed on an array, and the text of their replies.
#![tactic(auto)]

mod report;
mod runs;
mod text;

pub use history_reopen_laws::Bank;
pub use report::Report;
pub use run_session::{AlertKind, Hook, Made, Pace, Session, Sink, Source, Stop, perform};
pub use runs::{nothing_done, run_script};
pub use text::{LONGEST_TEXT, TextFault, read_text};
