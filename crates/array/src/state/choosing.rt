//! What is next to do in a running array.

ghost use Rattle.std.specs.Prelude.{◌≡◌, ◌≢◌, ◌<◌, ◌∷◌, List, [], true, false, IfSome, IfNone};
ghost use Rattle.array_grow.specs.raid_types_the_Phase.{Phase as APhase};
ghost use Rattle.array_takeover.specs.sb_specs_Reading.{is_reshaping};
ghost use Rattle.array_takeover.specs.reshape_request_Left.{phases_of};
ghost use Rattle.array.specs.Calls.{running_left, IsNext};
ghost use Rattle.array.specs.declared.state.choosing.Next.TheVariants.{Nothing as IsDone};

use crate::state::Running;
use array_grow::{Array, Bank, Due, Phase, Shape, due_step, steps_left};
use array_takeover::PhasesLeft;

/// What is next to do in a running array: nothing; a step of a resync or of a rebuild, without a reshape; the reshape to this shape
/// begins, which is ahead; the level is taken over, to this shape; a step of the active reshape, or of a resync beside it; or the
/// active reshape ends.
#[derive(Clone, Copy, Debug, PartialEq, Eq)]
pub enum Next {
    Nothing,
    Own,
    Begin(Shape),
    Take(Shape),
    Move,
    Finish,
}

// The first phase ahead, and those behind it, where there is one.
fn first_phase(ahead: &PhasesLeft) -> Option<(Phase, PhasesLeft)>
    ensures some { IfSome result (λ r. phases_of ahead.now ≡ r.0 ∷ phases_of r.1) }
    ensures none { IfNone result (phases_of ahead.now ≡ []) }
{
    match (ahead.next, ahead.last) {
        (Some(phase), last) => {
            let behind = PhasesLeft { next: None, last };
            Some((phase, behind))
        }
        (None, Some(phase)) => {
            let behind = PhasesLeft {
                next: None,
                last: None,
            };
            Some((phase, behind))
        }
        (None, None) => None,
    }
}

// The phases behind the first one ahead.
pub(crate) fn phases_behind<B: Bank>(array: &Array<B>) -> PhasesLeft
    requires some { (phase : APhase) × (more : List APhase) × (phases_of array.now.ahead ≡ phase ∷ more) }
    ensures behind { (phase : APhase) × (phases_of array.now.ahead ≡ phase ∷ phases_of result) }
{
    let Some((_, behind)) = first_phase(&array.ahead) else {
        unreachable!()
    };
    behind
}

// What is next without a reshape.
fn next_at_rest<B: Bank>(array: &Array<B>) -> Next
    requires still { is_reshaping array.now.parts.members.newest ≡ false }
    ensures next { IsNext array.now result }
    ensures some { result ≢ IsDone → 0 < running_left array.now }
{
    if steps_left(&array.members, &array.work) > 0 {
        Next::Own
    } else {
        match first_phase(&array.ahead) {
            None => Next::Nothing,
            Some((Phase::Reshape(to), _)) => Next::Begin(to),
            Some((Phase::UpTo6(to), _)) => Next::Take(to),
            Some((Phase::DownTo5(to), _)) => Next::Take(to),
        }
    }
}

// What is next in a reshape.
fn next_in_reshape<B: Bank>(array: &Array<B>) -> Next
    requires active { is_reshaping array.now.parts.members.newest ≡ true }
    ensures next { IsNext array.now result }
    ensures some { result ≢ IsDone → 0 < running_left array.now }
{
    match due_step(&array.members, &array.course, array.work.resync) {
        Due::Finish => Next::Finish,
        _ => Next::Move,
    }
}

impl<B: Bank> Running<B> {
    /// What is next to do.
    pub fn next(&self) -> Next
        ensures next { IsNext self.now result }
        ensures some { result ≢ IsDone → 0 < running_left self.now }
    {
        if self.array.is_reshaping() {
            next_in_reshape(&self.array)
        } else {
            next_at_rest(&self.array)
        }
    }
}
