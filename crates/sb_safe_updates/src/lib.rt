//! Updates of the superblocks, each safe at every moment: marks, names of lost slots, roles that are given.
#![tactic(auto)]

pub mod flushes;
pub mod giving;
pub mod marks;
pub mod naming;
pub mod refusing;
pub mod roles;
pub mod settles;

pub use array_members::{
    Outcome, ROW_BYTES, Unavailable, Work, are_too_many, data_offset, lose_slot, read_list,
    read_touched, syndromes, write_touched,
};
pub use flushes::{flush_members, flush_slots};
pub use marks::set_clean_mark;
pub use raid_layout::{Refusal, Role, Shape, Side, place, row_of};
pub use roles::is_spare;
pub use sb_update::{
    Bank, Change, Features, Give, Lostness, Members, Sb, SlotList, Span, entry_of, fields_of,
    is_clean, is_reshaping, list_length, side, stripe_sectors, update, with, without, write_sector,
};
