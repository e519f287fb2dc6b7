//! The kinds of background steps, each by what it leaves: without a reshape, a reshape begins, in it, and it ends; and a takeover.

ghost use Rattle.std.specs.Prelude.{◌≡◌, ◌≢◌, ◌+◌, ◌<◌, ◌≤◌, ◌∷◌, List, true, false, Ok};
ghost use Rattle.array.specs.raid_types_the_Phase.{Phase};
ghost use Rattle.array.specs.raid_types_the_Phase_TheVariants.{Reshape};
ghost use Rattle.array.specs.sb_specs_Reading.{is_reshaping};
ghost use Rattle.array.specs.history_the_StepKind_TheVariants.{RebuildEnded as EndsRebuild};
ghost use Rattle.array.specs.array_members_Status.{left_of};
ghost use Rattle.array.specs.reshape_request_Left.{phases_of};
ghost use Rattle.array.specs.history_invariant_Recorded.{IsCallGoing};
ghost use Rattle.array.specs.array_reshaping_state_Due.{due_of};
ghost use Rattle.array.specs.array_reshaping_state_the_Due_TheVariants.{Finish as EndsReshape};
ghost use Rattle.array.specs.array_fixed_sync_Stepping.{next_kind};
ghost use Rattle.array.specs.array_transition_Begun.{HasKeptLength};
ghost use Rattle.array.specs.array_takeover_TakenOver.{IsTakeoverNext};
ghost use Rattle.array_steps.specs.Steps.{IsStepTaken};

use array::{Bank, Fault, Refusal, Running, Shape, Who};

// The next step without a reshape.
pub(crate) fn own_step<B: Bank>(array: &mut Running<B>, who: Who) -> Result<bool, Refusal>
    requires open { IsCallGoing array.old.parts.entries who }
    requires unbroken { next_kind array.old.parts.work array.old.parts.members ≡ EndsRebuild → HasKeptLength array.old.parts.entries who }
    requires caller { who.caller ≢ 254 }
    requires still { is_reshaping array.old.parts.members.newest ≡ false }
    requires pending { 0 < left_of array.old.parts.work array.old.parts.members }
    requires room { 1 ≤ array.old.parts.steps }
    ensures taken { IsStepTaken B.tells B.given B.tape B.faults_of who array.old array.new result }
    ensures on { result ≢ Ok true }
    ensures room { array.new.parts.steps + 1 ≡ array.old.parts.steps }
{
    match array.resync_or_rebuild(who) {
        Ok(()) => Ok(false),
        Err(Fault::Refused(refusal)) => Err(refusal),
        Err(Fault::NoMemory) => unreachable!(),
    }
}

// The reshape to this shape begins, which is ahead.
pub(crate) fn begin<B: Bank>(
    array: Running<B>,
    begin: (Who, Shape),
) -> (Running<B>, Result<bool, Refusal>)
    requires open { HasKeptLength array.parts.entries begin.0 }
    requires caller { begin.0.caller ≢ 254 }
    requires room { 1 ≤ array.parts.steps }
    requires still { is_reshaping array.parts.members.newest ≡ false }
    requires done { left_of array.parts.work array.parts.members ≡ 0 }
    requires next { (behind : List Phase) × (phases_of array.ahead ≡ Reshape begin.1 ∷ behind) }
    ensures taken { IsStepTaken B.tells B.given B.tape B.faults_of begin.0 array result.0 result.1 }
    ensures room { result.0.parts.steps + 1 ≡ array.parts.steps }
{
    let (who, to) = begin;
    match array.begin(who, to) {
        Ok(array) => (array, Ok(false)),
        Err((array, refusal)) => (array, Err(refusal)),
    }
}

// The level is taken over to this shape, which is ahead.
pub(crate) fn take<B: Bank>(
    array: Running<B>,
    take: (Who, Shape),
) -> (Running<B>, Result<bool, Refusal>)
    requires open { IsCallGoing array.parts.entries take.0 }
    requires caller { take.0.caller ≢ 254 }
    requires room { 1 ≤ array.parts.steps }
    requires still { is_reshaping array.parts.members.newest ≡ false }
    requires done { left_of array.parts.work array.parts.members ≡ 0 }
    requires next { (behind : List Phase) × IsTakeoverNext (phases_of array.ahead) take.1 behind }
    ensures taken { IsStepTaken B.tells B.given B.tape B.faults_of take.0 array result.0 result.1 }
    ensures on { result.1 ≢ Ok true }
    ensures room { result.0.parts.steps + 1 ≡ array.parts.steps }
{
    let (who, to) = take;
    match array.take_over(who, to) {
        Ok(array) => (array, Ok(false)),
        Err((array, refusal)) => (array, Err(refusal)),
    }
}

// The step of the active reshape that is due, but for its end.
pub(crate) fn move_step<B: Bank>(array: &mut Running<B>, who: Who) -> Result<bool, Refusal>
    requires open { IsCallGoing array.old.parts.entries who }
    requires caller { who.caller ≢ 254 }
    requires active { is_reshaping array.old.parts.members.newest ≡ true }
    requires due { due_of array.old.parts.members.newest array.old.course array.old.parts.work.resync ≢ EndsReshape }
    requires room { 1 ≤ array.old.parts.steps }
    ensures taken { IsStepTaken B.tells B.given B.tape B.faults_of who array.old array.new result }
    ensures room { array.new.parts.steps + 1 ≡ array.old.parts.steps }
{
    match array.move_on(who) {
        Ok(()) => Ok(false),
        Err(Fault::Refused(refusal)) => Err(refusal),
        Err(Fault::NoMemory) => unreachable!(),
    }
}

// The active reshape ends.
pub(crate) fn finish<B: Bank>(array: Running<B>, who: Who) -> (Running<B>, Result<bool, Refusal>)
    requires open { IsCallGoing array.parts.entries who }
    requires caller { who.caller ≢ 254 }
    requires active { is_reshaping array.parts.members.newest ≡ true }
    requires due { due_of array.parts.members.newest array.course array.parts.work.resync ≡ EndsReshape }
    requires room { 2 ≤ array.parts.steps }
    ensures taken { IsStepTaken B.tells B.given B.tape B.faults_of who array result.0 result.1 }
    ensures over { result.1 ≢ Ok false }
    ensures room { result.0.parts.steps + 2 ≡ array.parts.steps }
{
    match array.finish(who) {
        Ok(array) => (array, Ok(true)),
        Err((array, refusal)) => (array, Err(refusal)),
    }
}
