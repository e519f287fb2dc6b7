//! Each step of a plan takes one of those that are left. Each function's contract is the law.

ghost use Rattle.reshape_request.specs.Left.{BeginningTakesOne, EnteringTakesOne, CopyingTakesOne, RecordingTakesOne, FinishingTakesTheRest, ZeroingTakesOne, EndingTakesOne, TakingUpTakesOne, TakingDownTakesOne, BoundariesAreCounted};

/// A reshape begins.
pub fn beginning_takes_one()
    ensures { BeginningTakesOne }
{}

/// Its next window is entered.
pub fn entering_takes_one()
    ensures { EnteringTakesOne }
{}

/// A stripe of the window is copied.
pub fn copying_takes_one()
    ensures { CopyingTakesOne }
{}

/// The window is recorded.
pub fn recording_takes_one()
    ensures { RecordingTakesOne }
{}

/// A write that finishes the window takes what it had left.
pub fn finishing_takes_the_rest()
    ensures { FinishingTakesTheRest }
{}

/// A stripe behind the list is zeroed.
pub fn zeroing_takes_one()
    ensures { ZeroingTakesOne }
{}

/// The reshape ends.
pub fn ending_takes_one()
    ensures { EndingTakesOne }
{}

/// A level 5 array is taken up to level 6.
pub fn taking_up_takes_one()
    ensures { TakingUpTakesOne }
{}

/// A level 6 array is taken down to level 5.
pub fn taking_down_takes_one()
    ensures { TakingDownTakesOne }
{}

/// Between windows what is left is what the geometry counts.
pub fn boundaries_are_counted()
    ensures { BoundariesAreCounted }
{}
