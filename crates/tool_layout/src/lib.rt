//! The first stripes of an array as a picture: which role has P, Q, and which chunk of the list.
#![tactic(auto)]

mod cells;
mod drawing;
mod wishes;

pub use cells::{Cell, cells_of};
pub use drawing::picture;
pub use wishes::shape_of;
