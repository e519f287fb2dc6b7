//! The script of a demo: an array of four disks is filled, grows to five while two lanes read and write, and is read again.
#![tactic(auto)]

mod text;

pub use script::{Numbered, ScriptFault, read_script_with_blocks};
pub use text::demo_text;
