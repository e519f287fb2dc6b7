//! What people are warned of before a run: that what a script is about to write over belongs to somebody, and that a backup isn't that of
//! the reshape which it is given for.
#![tactic(auto)]

mod backups;
mod found;
mod fronts;
mod held;
mod lines;
mod locks;
mod looked;
mod overwritten;
mod parts;
mod reshapes;
mod systems;
mod told;

pub use backups::{newest_for, superblocks};
pub use held::push_holder;
pub use locks::push_locks;
pub use looked::{FRONT_BYTES, Looked, look_at};
pub use sb_codec::Sb;
pub use told::push_warnings;
