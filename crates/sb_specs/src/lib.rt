//! What the stored superblocks say of an array, and what an update of them is.
#![tactic(auto)]

mod change;
mod members;
pub mod roles;
pub mod says;
pub mod sets;

pub use bank::{Bank, BankFault, Fault, Role, RoleList, SlotList, write_sector};
pub use change::{Change, Give, Lostness, Part};
pub use members::{Members, SbList};
pub use raid_layout::{parity_only, row_of};
pub use reshape_geometry::limits::{
    MOST_ROWS, is_chunk, is_disk_count, is_layout, is_level, is_multiple, is_size,
};
pub use reshape_geometry::{Refusal, Shape, data_disks, list_end, side, stripe_sectors, unit};
pub use sb_codec::{Features, Sb, decode, encode, fields_of, sectors_of};
