//! What a running array replies to a caller, and what its steps leave, whether a reshape is active in it or not. Definitions alone.
#![tactic(auto)]

pub use array_specs::{append_entry, check_number, final_in, is_spare, shape_in};
pub use bank::{Bank, BusyKind, Fault, NoMemory, Phase, Refusal, Shape, Who, Wish};
