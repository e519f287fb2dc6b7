//! As many background steps as a caller asks for.

ghost use Rattle.std.specs.Prelude.{◌≡◌, ◌≢◌, ◌⊎◌, ◌+◌, ◌<◌, ◌≤◌, ◌^◌, [], true, false, None, IfOk, IfErr, IfSome, MatchOption, ⊤};
ghost use Rattle.array.specs.sb_specs_Reading.{is_reshaping, list_length};
ghost use Rattle.array.specs.history_Flat.{next_number};
ghost use Rattle.array.specs.history_the_Request_TheVariants.{Steps as AsksSteps};
ghost use Rattle.array.specs.array_call_specs_Calls.{IsEndOf, TellNoLoss, TellNoRoleLoss};
ghost use Rattle.array.specs.reshape_request_Left.{phases_of};
ghost use Rattle.array.specs.history_invariant_Recorded.{IsCallGoing};
ghost use Rattle.array.specs.array_fixed_laws_Steps.{IsClosable};
ghost use Rattle.array.specs.array_reply_specs_Replies.{IsAnsweredWith, EndsRunningSteps, MayTellBy, IsRefusalBy};
ghost use Rattle.array.specs.array_reply_specs_Going.{HasNoReshape, HasRunOn};
ghost use Rattle.array.specs.Calls.{running_left, MayEndSteps, IsReplyNow};
ghost use Rattle.array_steps.specs.Steps.{IsOpenFor, KeepsItsWay, AreStepsOf, IsCountedBehind, IsGoneOn, IsStepCount, has_finished};

use crate::stepping::take_step;
use crate::turns::{own_step, take};
use array::{Bank, Event, Next, NoMemory, Refusal, Running, Who};
use core::mem::replace_with;

// How many steps were done, and what refused the next one.
#[derive(Clone, Copy)]
struct Batch {
    done: u64,
    ended: Option<Refusal>,
}

// So many steps, and one more, which was done or refused.
fn counted(done: u64, taken: Result<bool, Refusal>) -> Batch
    requires fits { done + 1 < 2 ^ 64 }
    ensures { IsCountedBehind done taken result.done result.ended }
{
    match taken {
        Ok(_) => {
            let done = done + 1;
            Batch { done, ended: None }
        }
        Err(refusal) => {
            let ended = Some(refusal);
            Batch { done, ended }
        }
    }
}

// Behind the end of a reshape, after so many of these steps, one more is done where it was asked for: the level is taken over, or a
// spare gets a role that was lost on the way. There is room for it, and for one more entry.
fn go_on_behind<B: Bank>(array: &mut Running<B>, who: Who, count: u64, done: u64) -> Batch
    requires going { IsCallGoing array.old.parts.entries who }
    requires caller { who.caller ≢ 254 }
    requires few { done ≤ count }
    requires room { count + 1 ≤ array.old.parts.steps + done }
    ensures gone { IsGoneOn B.tells B.given B.tape B.faults_of who array.old array.new done result.done result.ended }
    ensures few { result.done ≤ count }
    ensures fewer { MatchOption result.ended ⊤ (λ refusal. result.done < count) }
    ensures room { 1 ≤ array.new.parts.steps }
{
    if done == count {
        return Batch { done, ended: None };
    }
    match array.next() {
        Next::Take(to) => counted(done, replace_with(array, (who, to), take)),
        Next::Own => {
            if array.recovers() {
                return Batch { done, ended: None };
            }
            counted(done, own_step(array, who))
        }
        _ => Batch { done, ended: None },
    }
}

// So many steps, unless none is left, one is refused, or a reshape ends, behind which one more is done at most; there is room for them, for
// one more at the end of a reshape, and for one more entry.
fn take_steps<B: Bank>(array: &mut Running<B>, who: Who, count: u64) -> Batch
    requires open { IsOpenFor array.old who }
    requires caller { who.caller ≢ 254 }
    requires room { count + 2 ≤ array.old.parts.steps }
    requires some { 0 < count }
    requires pending { 0 < running_left array.old }
    ensures entered { AreStepsOf who array.old.parts.entries array.new.parts.entries result.done }
    ensures done { result.done ≤ count }
    ensures all { MatchOption result.ended ((result.done ≡ count) ⊎ (running_left array.new ≡ 0) ⊎ (has_finished array.old.parts.entries array.new.parts.entries ≡ true)) (λ refusal. result.done < count) }
    ensures some { MatchOption result.ended (1 ≤ result.done) (λ refusal. ⊤) }
    ensures why { IfSome result.ended EndsRunningSteps }
    ensures cause { IfSome result.ended (IsRefusalBy array.old.parts.backup (B.faults_of array.old.parts.bank) (B.faults_of array.new.parts.bank)) }
    ensures right { IfSome result.ended (MayEndSteps array.new) }
    ensures left { TellNoLoss array.old.parts.entries array.new.parts.entries → has_finished array.old.parts.entries array.new.parts.entries ≡ false → result.ended ≡ None
        → running_left array.new + result.done ≡ running_left array.old }
    ensures fewer { TellNoRoleLoss array.old.parts.entries array.new.parts.entries → has_finished array.old.parts.entries array.new.parts.entries ≡ false → result.ended ≡ None
        → running_left array.new + result.done ≤ running_left array.old }
    ensures going { IsCallGoing array.new.parts.entries who }
    ensures closable { result.ended ≡ None → is_reshaping array.new.parts.members.newest ≡ false → IsClosable array.new }
    ensures room { 1 ≤ array.new.parts.steps }
    ensures ended { IsEndOf B.tells array.new.parts.first array.new.parts.entries (B.tape array.new.parts.bank) }
    ensures went { HasRunOn B.tells B.given B.tape B.faults_of array.old array.new }
    ensures kept { KeepsItsWay (B.faults_of array.old.parts.bank) (B.faults_of array.new.parts.bank) array.old array.new }
{
    for done in 0..count {
        if array.left() == 0 {
            return Batch { done, ended: None };
        }
        match take_step(array, who) {
            Ok(false) => {}
            Ok(true) => return go_on_behind(array, who, count, done + 1),
            Err(refusal) => {
                let ended = Some(refusal);
                return Batch { done, ended };
            }
        }
    }
    Batch {
        done: count,
        ended: None,
    }
}

/// Answers the request for at most so many background steps: does them until so many are done, or as many as were left at its start;
/// until none is left, one is refused, or a reshape has ended, and one step behind it: the takeover of the level, or the first step of the
/// rebuild of a role that was lost on the way. Ok is a copy of the reply's event, which tells `Nothing` where none was left. Memory is wanted before the first step alone. What refused a step speaks against it as the array is left (`told`): a backup ends steps only in a reshape or where phases are ahead,
/// and a missing role or want of spares only where some are; and where none is left, there is neither. The array goes where it went, to the
/// same shape, with its size and its limit.
pub fn steps<B: Bank>(array: &mut Running<B>, who: Who, most: u64) -> Result<Event, NoMemory>
    requires next { who.number ≡ next_number who.caller array.old.parts.entries }
    requires caller { who.caller ≢ 254 }
    requires some { 1 ≤ most }
    ensures replied { IfOk result (λ event. IsAnsweredWith (list_length array.old.parts.members.newest) (AsksSteps most) who array.old.parts.entries array.new.parts.entries event) }
    ensures counted { IfOk result (λ event. IsStepCount array.old.parts.entries array.new.parts.entries (running_left array.old) (running_left array.new) event) }
    ensures told { IfOk result (λ event. IsReplyNow array.new event) }
    ensures may { IfOk result (λ event. MayTellBy (is_reshaping array.new.parts.members.newest ≡ true) (phases_of array.new.ahead ≢ []) event) }
    ensures rest { IfOk result (λ event. running_left array.new ≡ 0 → HasNoReshape array.new) }
    ensures unchanged { IfErr result (λ none. array.new ≡ array.old) }
    ensures ended { IfOk result (λ event. IsEndOf B.tells array.new.parts.first array.new.parts.entries (B.tape array.new.parts.bank)) }
    ensures went { HasRunOn B.tells B.given B.tape B.faults_of array.old array.new }
    ensures kept { KeepsItsWay (B.faults_of array.old.parts.bank) (B.faults_of array.new.parts.bank) array.old array.new }
{
    let count = most.min(array.left());
    let Some(room) = count.checked_add(2) else {
        return Err(NoMemory {});
    };
    match array.make_room(room) {
        Ok(()) => {}
        Err(none) => return Err(none),
    }
    if count == 0 {
        let refusal = Refusal::Nothing;
        array.answer(who, Event::Refused { refusal });
        return Ok(Event::Refused { refusal });
    }
    let Batch { done, ended } = take_steps(array, who, count);
    let left = array.left();
    array.answer(who, Event::Stepped { done, left, ended });
    Ok(Event::Stepped { done, left, ended })
}
