//! Reads of the list: by one shape, and, of an array in a reshape, split by region.
#![tactic(auto)]

pub mod chunks;
pub mod fetching;
pub mod reading;
pub mod stretches;

pub use reading::{Fetched, read_listed};
pub use stripe_io::filling::{Filled, fill, recovering_slot};
pub use stripe_io::mending::{Mended, resync_rows, synced_rows};
pub use stripe_io::putting::{Outcome, write_list_rows, write_listed};
pub use stripe_io::{
    Bank, Members, Refusal, Shape, Span, final_in, first_write_refusal, list_length, mark_dirty,
    read_touched, shape_in, stripe_sectors, too_many, too_many_of,
};
