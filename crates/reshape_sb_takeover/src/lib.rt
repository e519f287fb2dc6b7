//! The update of the superblocks by which a level is taken over.
#![tactic(auto)]

mod taking;

pub use taking::take_over;
