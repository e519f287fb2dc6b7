//! Laws: a level is taken over, and the array that kept its record keeps it; no definitions and no code.
#![tactic(auto)]

pub use array_reshaping_end_laws::{Refusal, Role, Shape, Who, append_entry, append_lost};
