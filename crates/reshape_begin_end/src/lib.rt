//! The calls by which a reshape begins and ends, each safe at each moment.
#![tactic(auto)]

mod beginning;
mod finishing;

pub use beginning::{Begun, begin};
pub use finishing::{Finished, finish};
pub use reshape_sb_updates::{SectionFault, record_position, write_section};
pub use sb_safe_updates::flushes::holders;
pub use sb_safe_updates::giving::{flush_and_record, give_role};
pub use sb_safe_updates::naming::{has_unnamed, newly_unassigned, record_missing};
pub use sb_safe_updates::refusing::{first_read_refusal, first_write_refusal, too_many};
pub use sb_safe_updates::roles::{is_spare, is_unassigned, list_length, unassigned_roles};
pub use sb_safe_updates::settles::{flush_and_mark, flush_naming};
pub use sb_safe_updates::{
    Bank, Change, Give, Members, Outcome, Sb, Shape, Unavailable, are_too_many, data_offset,
    lose_slot, read_list, syndromes, update, with, without,
};
