//! Image files: told apart and taken for the slots of a bank, or only looked at, so that what is written stands in memory.
#![tactic(auto)]

mod file_id;
mod images;
mod looked_at;
mod open_fault;
mod opening;
mod scripts;

pub use file_id::FileId;
pub use images::{take_images, tell_apart};
pub use looked_at::LookedAt;
pub use open_fault::{FilesFault, OpenFault, refuse_kind};
pub use opening::look_at;
pub use scripts::{assemble_script, examine_script, first_line};
