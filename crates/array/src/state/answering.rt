//! The answer to a request for steps.

ghost use Rattle.std.specs.Prelude.{◌≡◌, ◌≢◌, ◌+◌, ◌≤◌, ◌∷◌, [], false};
ghost use Rattle.array_takeover.specs.sb_specs_Reading.{is_reshaping};
ghost use Rattle.array_grow.specs.array_call_specs_Calls.{IsEntered};
ghost use Rattle.array_grow.specs.history_invariant_Recorded.{IsCallGoing};
ghost use Rattle.array_grow.specs.array_specs_Calls.{IsCalled};
ghost use Rattle.array_grow.specs.array_fixed_laws_Steps.{MayAnswer};
ghost use Rattle.array_grow.specs.array_reply_specs_Going.{HasNoReshape};
ghost use Rattle.array.specs.Calls.{running_left, IsReplyNow};

use crate::state::{Running, check_array};
use array_grow::{Bank, Who, answer};
use array_takeover::Event;

impl<B: Bank> Running<B> {
    /// Answers a request for steps: that nothing was left to do, or how many were done and what refused one. Without a reshape, and where none
    /// is left and none was refused, what is missing is to be told by the superblocks, or no plan is open. It makes no device call, and takes
    /// no memory. Where no step is left, no reshape is active, and no phase of a plan is ahead.
    pub fn answer(&mut self, who: Who, event: Event)
        requires open { IsCallGoing self.old.parts.entries who }
        requires caller { who.caller ≢ 254 }
        requires room { 1 ≤ self.old.parts.steps }
        requires reply { IsReplyNow self.old event }
        requires closable { is_reshaping self.old.parts.members.newest ≡ false → MayAnswer self.old.parts.entries self.old.parts.work self.old.parts.members self.old.ahead event }
        ensures entered { IsEntered B.tells (B.tape self.old.parts.bank) who self.old.parts.entries self.new.parts.entries (event ∷ []) }
        ensures room { self.new.parts.steps + 1 ≡ self.old.parts.steps }
        ensures bank { self.new.parts.bank ≡ self.old.parts.bank }
        ensures members { self.new.parts.members ≡ self.old.parts.members }
        ensures rest { running_left self.old ≡ 0 → HasNoReshape self.old }
        ensures course { self.new.course ≡ self.old.course }
        ensures called { IsCalled B.tells (B.given self.old.parts.bank) (B.tape self.old.parts.bank) (B.tape self.new.parts.bank) (B.faults_of self.old.parts.bank) (B.faults_of self.new.parts.bank) self.old self.new }
    {
        check_array(&self.array);
        answer(&mut self.array, who, event);
        check_array(&self.array);
    }
}
