//! A slot is made a spare of an array, safe at every moment.
#![tactic(auto)]

pub mod adding;
pub mod device;

pub use device::device_uuid;
pub use sb_safe_updates::refusing::{first_read_refusal, first_write_refusal, too_many};
pub use sb_safe_updates::roles::{is_spare, is_unassigned, list_length, shape_in};
pub use sb_safe_updates::{Work, flush_slots, is_clean, with};
