//! The words of a script's line, numbers and layouts by their names, and the bytes of a sector that a line writes or shows.
#![tactic(auto)]

pub mod layouts;
pub mod numbers;
pub mod sector_bytes;

pub use layouts::{layout_name, layout_named};
pub use numbers::{Words, first_other, first_space, number, small_number};
pub use raid_types::{NoMemory, WishedLayout};
pub use sector_bytes::{are_alike, counted_sector};
