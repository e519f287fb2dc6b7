//! Runs of rows: the sectors of a chunk, read and written by one device call for each role.
#![tactic(auto)]

mod fills;
mod held;
mod parities;
mod pieces;
mod reads;
mod runs;
mod sectors;
mod writes;

pub use pieces::{Piece, piece_at};
pub use reads::read_run;
pub use runs::{Run, run_at};
pub use writes::write_run;
