//! The parity of a row by vectors of bytes: the calls of `parity`, with the same clauses, and the same over many rows of
//! a buffer at once.
#![tactic(auto)]

mod buffers;
mod gathered;
mod order;
mod places;
mod row;
mod sectors;
mod solve;
mod sums;

pub use buffers::{
    BUFFER_ROWS, ROLE_BYTES, ROLE_SECTORS, fill_one_run, fill_two_run, syndromes_run,
};
pub use gathered::parity_of;
pub use order::MOST_ROLES;
pub use raid_parity::{
    RowRoles, fill_one as parity_fill_one, fill_two as parity_fill_two,
    syndromes as parity_syndromes,
};
pub use row::{fill_one, fill_two, syndromes};
