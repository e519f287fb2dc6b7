//! Reads and writes of rows of an array, each safe at every moment: fetching, putting, mending and filling.
#![tactic(auto)]

pub mod fetching;
pub mod filling;
pub mod mending;
pub mod putting;

pub use sb_safe_updates::naming::{mark_dirty, record_missing};
pub use sb_safe_updates::refusing::{
    first_read_refusal, first_write_refusal, too_many, too_many_of,
};
pub use sb_safe_updates::roles::{final_in, list_length, shape_in};
pub use sb_safe_updates::{
    Bank, Features, Members, Outcome, Refusal, Role, Sb, Shape, Side, Span, Unavailable,
    are_too_many, data_offset, is_reshaping, list_length as superblocks_list_length, lose_slot,
    place, read_touched, side, stripe_sectors,
};
