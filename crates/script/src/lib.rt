//! The script: its text, what it asks, and the text of its replies.
#![tactic(auto)]

pub mod diagnosis;
pub mod grammar;
pub mod keyed;
pub mod lines;
pub mod mistakes;
pub mod reader;
pub mod reply;
pub mod seeds;
pub mod tables;

pub use diagnosis::Diagnosis;
pub use grammar::{Meaning, diagnose_line, meaning_of_line, read_line};
pub use history::{Entry, Epoch, Event, Request, Role, Sb, Shape, Status, entry_of, is_clean};
pub use lines::{
    CreateLine, Line, MOST_BYTES, MOST_LINES, MOST_SECTORS, Numbered, ScriptFault, is_inside_after,
    read_script, read_script_with_blocks, without_last_newline,
};
pub use mistakes::{Mistake, Place, Value};
pub use reply::{
    Lane, push_assembled, push_created, push_event, push_lane, push_refusal, push_waited,
    push_worker, push_worker_refusal,
};
pub use script_words::layout_name;
pub use seeds::seed_sectors;
pub use tables::{BlockWord, Key, Verb};
