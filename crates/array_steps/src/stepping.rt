//! One background step of an array that may be in a reshape.

ghost use Rattle.std.specs.Prelude.{◌≡◌, ◌≢◌, ◌+◌, ◌<◌, ◌≤◌, false, Err, IfOk};
ghost use Rattle.array.specs.raid_types_the_Fault_TheVariants.{NoMemory as WantsMemory};
ghost use Rattle.array.specs.array_call_specs_Calls.{IsEndOf};
ghost use Rattle.array.specs.array_reply_specs_Going.{HasRunOn};
ghost use Rattle.array.specs.Calls.{running_left};
ghost use Rattle.array_steps.specs.Steps.{IsOpenFor, IsStepTaken, IsStepAnswered, IsNothingRight};

use crate::turns::{begin, finish, move_step, own_step, take};
use array::{Bank, Event, Fault, Next, Refusal, Running, Who};
use core::mem::replace_with;

// A step, of which one is left and for which there is room. Ok tells whether a reshape ended by it.
pub(crate) fn take_step<B: Bank>(array: &mut Running<B>, who: Who) -> Result<bool, Refusal>
    requires open { IsOpenFor array.old who }
    requires caller { who.caller ≢ 254 }
    requires some { 0 < running_left array.old }
    requires room { 2 ≤ array.old.parts.steps }
    ensures taken { IsStepTaken B.tells B.given B.tape B.faults_of who array.old array.new result }
    ensures room { array.old.parts.steps ≤ array.new.parts.steps + 2 }
    ensures one { IfOk result (λ over. over ≡ false → array.new.parts.steps + 1 ≡ array.old.parts.steps) }
    ensures open { IfOk result (λ over. over ≡ false → 0 < running_left array.new → IsOpenFor array.new who) }
{
    match array.next() {
        Next::Nothing => unreachable!(),
        Next::Own => own_step(array, who),
        Next::Begin(to) => replace_with(array, (who, to), begin),
        Next::Take(to) => replace_with(array, (who, to), take),
        Next::Move => move_step(array, who),
        Next::Finish => replace_with(array, who, finish),
    }
}

/// Does the next background step: of a resync or a rebuild without a reshape, of the active reshape, a reshape begins or ends, or the
/// level is taken over. Refusals: `Nothing` where none is left, `TooManyMissing`, `NotResynced` and `BackupFault`, and, where the next
/// phase of a plan is to begin, `Degraded` and `NeedSpares`. `NoMemory` has done nothing.
pub fn step<B: Bank>(array: &mut Running<B>, who: Who) -> Result<(), Fault>
    requires open { IsOpenFor array.old who }
    requires caller { who.caller ≢ 254 }
    ensures answered { IsStepAnswered B.tells B.given B.tape B.faults_of who array.old array.new result }
    ensures nothing { IsNothingRight (running_left array.old) result }
    ensures ended { result ≢ Err WantsMemory → IsEndOf B.tells array.new.parts.first array.new.parts.entries (B.tape array.new.parts.bank) }
    ensures went { HasRunOn B.tells B.given B.tape B.faults_of array.old array.new }
{
    match array.make_room(2) {
        Ok(()) => {}
        Err(_) => return Err(Fault::NoMemory),
    }
    if array.left() == 0 {
        let refusal = Refusal::Nothing;
        array.answer(who, Event::Refused { refusal });
        return Err(Fault::Refused(refusal));
    }
    match take_step(array, who) {
        Ok(_) => Ok(()),
        Err(refusal) => Err(Fault::Refused(refusal)),
    }
}
