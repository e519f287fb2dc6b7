//! Each step of a reshape takes one of those that are left. Each function's contract is the law.

ghost use Rattle.array_reshaping_state.specs.Left.{LeftStays, EnteringTakesOne, CopyingTakesOne, RecordingTakesOne, FinishingTakesTheRest, ZeroingTakesOne, EndLeavesPlanned, PlansAreCounted};

/// Members that lost slots have as many left.
pub fn left_stays()
    ensures { LeftStays }
{}

/// A window is entered.
pub fn entering_takes_one()
    ensures { EnteringTakesOne }
{}

/// A stripe of the window is copied.
pub fn copying_takes_one()
    ensures { CopyingTakesOne }
{}

/// The window is recorded.
pub fn recording_takes_one()
    ensures { RecordingTakesOne }
{}

/// A write that finishes the window takes what it had left.
pub fn finishing_takes_the_rest()
    ensures { FinishingTakesTheRest }
{}

/// A stripe behind the list is zeroed.
pub fn zeroing_takes_one()
    ensures { ZeroingTakesOne }
{}

/// Before the end of the reshape, that is left and what is planned.
pub fn the_end_leaves_what_is_planned()
    ensures { EndLeavesPlanned }
{}

/// With the steps of the phases behind it, these are those of the whole plan.
pub fn plans_are_counted()
    ensures { PlansAreCounted }
{}
