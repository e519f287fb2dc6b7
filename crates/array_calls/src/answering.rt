//! The answer to a request for steps.

ghost use Rattle.array_calls.specs.Replies.{IsReplyInReshape};
ghost use Rattle.array_type.specs.array_call_specs_Calls.{IsEntered};
ghost use Rattle.array_type.specs.array_fixed_laws_Steps.{IsStepped, MayAnswer, IsStepsReplyNow};
ghost use Rattle.array_type.specs.array_members_Rebuilding.{Held};
ghost use Rattle.array_type.specs.array_specs_Calls.{moving_world, IsCalled};
ghost use Rattle.array_type.specs.array_specs_Plans.{ArePlansKept};
ghost use Rattle.array_type.specs.history_invariant_Recorded.{IsCallGoing};
ghost use Rattle.array_type.specs.sb_specs_Reading.{is_reshaping};
ghost use Rattle.std.specs.Prelude.{◌≡◌, ◌≢◌, ◌+◌, ◌≤◌, ◌∷◌, [], true, false};

use array_type::{Array, Bank, Event, Who, append_entry, check_going};

/// Answers a request for steps: that nothing was left to do, or how many were done and what refused one. It makes no device
/// call, and takes no memory.
pub fn answer<B: Bank>(array: &mut Array<B>, who: Who, event: Event)
    requires open { IsCallGoing array.old.parts.entries who }
    requires caller { who.caller ≢ 254 }
    requires room { 1 ≤ array.old.parts.steps }
    requires plans { is_reshaping array.old.parts.members.newest ≡ false → ArePlansKept B.tells (moving_world (B.given array.old.parts.bank) (B.tape array.old.parts.bank) array.old) array.old }
    requires closable { is_reshaping array.old.parts.members.newest ≡ false → MayAnswer array.old.parts.entries array.old.parts.work array.old.parts.members array.old.ahead event }
    requires reply_at_rest { is_reshaping array.old.parts.members.newest ≡ false → IsStepsReplyNow array.old.parts.work array.old.parts.members array.old.ahead event }
    requires reply_in_reshape { is_reshaping array.old.parts.members.newest ≡ true → IsReplyInReshape array.old.parts.work array.old.parts.members array.old.course array.old.ahead event }
    ensures entered { IsEntered B.tells (B.tape array.old.parts.bank) who array.old.parts.entries array.new.parts.entries (event ∷ []) }
    ensures room { array.new.parts.steps + 1 ≡ array.old.parts.steps }
    ensures bank { array.new.parts.bank ≡ array.old.parts.bank }
    ensures members { array.new.parts.members ≡ array.old.parts.members }
    ensures work { array.new.parts.work ≡ array.old.parts.work }
    ensures stepped { is_reshaping array.old.parts.members.newest ≡ false → IsStepped B.tells (B.given array.old.parts.bank) (B.tape array.old.parts.bank) (B.tape array.new.parts.bank) (Held array.old.parts.members) (B.faults_of array.old.parts.bank) (B.faults_of array.new.parts.bank) array.old array.new }
    ensures active { is_reshaping array.new.parts.members.newest ≡ is_reshaping array.old.parts.members.newest }
    ensures course { array.new.course ≡ array.old.course }
    ensures called { IsCalled B.tells (B.given array.old.parts.bank) (B.tape array.old.parts.bank) (B.tape array.new.parts.bank) (B.faults_of array.old.parts.bank) (B.faults_of array.new.parts.bank) array.old array.new }
{
    array.steps -= 1;
    check_going(&array.epoch.entries, who);
    let end = array.bank.ops();
    append_entry(&mut array.epoch, who, end, event);
}
