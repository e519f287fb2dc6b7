//! The updates of the superblocks by which a reshape begins, goes on and ends.
#![tactic(auto)]

mod beginning;
mod ending;
mod position;

pub use beginning::begin_update;
pub use crash_reshape_laws::{SectionFault, clear_section, write_section};
pub use ending::end_update;
pub use position::record_position;
