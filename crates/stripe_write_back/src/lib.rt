//! Delayed rows of an array: kept, and written out.
#![tactic(auto)]

mod keeping;
mod laws;
mod one_row;
mod writing_out;

pub use keeping::keep_row;
pub use laws::{
    one_row_is_written_out, rows_are_kept, rows_can_be_taken, written_out_lists_stand,
    written_out_row_by_row,
};
pub use one_row::write_out_row;
pub use writing_out::write_out;
