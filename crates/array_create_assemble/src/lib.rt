//! An array is made in a bank's slots, and one that is stored there is opened.
#![tactic(auto)]

mod creating;
mod device;
pub mod laws;
mod lists;
mod making;
mod opening;
mod reshape;
mod slots;
mod spec;
mod storing;
mod used;
mod zeros;

pub use array_found_laws::{Epoch, Fault, Refusal, Shape, Who};
pub use bank::{Bank, BankFault, MemoryBank};
pub use creating::refusal_of_create;
pub use making::make;
pub use opening::{Opened, find};
pub use sb_add_spare::Work;
pub use sb_election::reads::read_superblock;
pub use sb_election::{Members, Sb, is_clean, is_reshaping, sectors_of, unit};
pub use spec::CreateSpec;
