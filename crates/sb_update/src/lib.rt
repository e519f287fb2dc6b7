//! How the stored superblocks of an array change, safe at each write.
#![tactic(auto)]

mod pass;
mod plan;
mod recording;
mod writing;

pub use bank::{Bank, Role, SlotList, Span, write_sector};
pub use recording::update;
pub use sb_specs::roles::role_of;
pub use sb_specs::says::{entry_of, is_clean, is_reshaping, list_length, shape_of, target_of};
pub use sb_specs::sets::{contains, with, without};
pub use sb_specs::{
    Change, Features, Give, Lostness, Members, Sb, Shape, data_disks, fields_of, list_end, side,
    stripe_sectors,
};
