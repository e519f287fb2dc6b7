//! A run: the command's words, the script's text, its lines performed on an array, and the text of their replies.
#![tactic(auto)]

mod devices;
mod words;

pub use devices::run_over_devices;
pub use run_scripts::{
    AlertKind, Hook, LONGEST_TEXT, Made, Pace, Report, Session, Stop, TextFault, perform, read_text,
};
pub use words::run;
