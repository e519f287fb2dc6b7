//! Laws of the updates that change what a slot is to the array: a spare gets a vacant role, and a recovering slot becomes whole.
//! Each function's contract is the law.
#![tactic(auto)]

ghost use Rattle.std.specs.Prelude.{⊤};
ghost use Rattle.crash_safety_laws.specs.Giving.{GivingStaysSafe};
ghost use Rattle.crash_role_laws.specs.Making.{MakingStaysSafe};

pub use crash_safety_laws::{
    Outcome, ROW_BYTES, Unavailable, are_too_many, data_offset, is_missing, lose_slot, lose_slots,
    missing_count, read_list, read_touched, syndromes, tolerance, write_touched,
};

/// A vacant role is given to a spare, which recovers it from the first row on.
pub fn giving_stays_safe()
    ensures { GivingStaysSafe ⊤ }
{}

/// A recovering slot is made whole.
pub fn making_whole_stays_safe()
    ensures { MakingStaysSafe ⊤ }
{}
