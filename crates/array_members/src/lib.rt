//! How an array sees what its members hold: definitions, and laws of what a stop may leave.
#![tactic(auto)]

pub mod laws;
pub mod work;

pub use crash_role_laws::{
    Outcome, ROW_BYTES, Unavailable, are_too_many, data_offset, is_missing, lose_slot, lose_slots,
    missing_count, read_list, read_touched, syndromes, tolerance, write_touched,
};
pub use work::Work;
