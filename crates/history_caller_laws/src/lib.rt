//! Laws of what callers that share an array have seen and made of its history. Each function's contract is the law.
#![tactic(auto)]

ghost use Rattle.std.specs.Prelude.{⊤};
ghost use Rattle.history_caller_laws.specs.Callers.{NoneHasCalled, CallsAreCounted, CallsAreOnesOwn, CallsComeLater, SeenGoesOn, ShorterIsBefore};

pub use history_laws::{Event, Request};

/// Nobody has called before the first call.
pub fn none_has_called()
    ensures { NoneHasCalled }
{}

/// A call is one more of its caller's, at the end of the history.
pub fn calls_are_counted()
    ensures { CallsAreCounted }
{}

/// It is none of another caller's.
pub fn calls_are_ones_own()
    ensures { CallsAreOnesOwn }
{}

/// What was seen before a call was seen before what it left.
pub fn calls_come_later()
    ensures { CallsComeLater ⊤ }
{}

/// What was seen before is seen before anything later.
pub fn seen_goes_on()
    ensures { SeenGoesOn ⊤ }
{}

/// Of two that were seen before a third one, the shorter was seen before the longer.
pub fn shorter_is_before()
    ensures { ShorterIsBefore ⊤ }
{}
