//! The step that is due.

ghost use Rattle.array_type.specs.sb_specs_Reading.{is_reshaping};
ghost use Rattle.std.specs.Prelude.{◌≡◌, ◌≢◌, ◌⊎◌, ◌+◌, ◌≤◌, OnOk, OnErr, true};
ghost use Rattle.array_type.specs.array_call_specs_Calls.{by_answer};
ghost use Rattle.array_type.specs.history_invariant_Recorded.{IsCallGoing};
ghost use Rattle.array_type.specs.array_reshaping_state_Due.{due_of};
ghost use Rattle.array_type.specs.array_reshaping_state_the_Due_TheVariants.{Finish as EndsReshape};
ghost use Rattle.array_type.specs.array_specs_Parts.{left_in};
ghost use Rattle.array_type.specs.array_specs_Calls.{IsStepTaken, IsNextUnsure};
ghost use Rattle.array_type.specs.array_reshaping_laws_Resyncing.{IsResyncCalled};
ghost use Rattle.array_type.specs.array_reshaping_laws_Steps.{kind_of, resync_behind, IsMarkedBehind, IsStepCaused};

use crate::copying::copy_stripe;
use crate::entering::enter_window;
use crate::recording::record_window;
use crate::resyncing::{end_resync, resync_stripe};
use crate::zeroing::zero_stripe;
use array_type::{Array, Bank, Due, Fault, Who, due_step};

/// The step that is due, but for the end of the reshape: a stripe of the entered window is copied, or it is recorded; of a pending
/// resync the next stripe is mended, or it ends; the next window is entered, or a stripe behind the list is zeroed. Refusals: `TooManyMissing`, `NotResynced` where a stripe is to be mended, and `BackupFault` where a window is to be
/// entered. It takes no memory.
pub fn step<B: Bank>(moving: &mut Array<B>, who: Who) -> Result<(), Fault>
    requires open { IsCallGoing moving.old.parts.entries who }
    requires caller { who.caller ≢ 254 }
    requires room { 1 ≤ moving.old.parts.steps }
    requires due { due_of moving.old.parts.members.newest moving.old.course moving.old.parts.work.resync ≢ EndsReshape }
    requires active { is_reshaping moving.old.parts.members.newest ≡ true }
    ensures entered { IsStepTaken who moving.old.parts.entries moving.new.parts.entries (kind_of (due_of moving.old.parts.members.newest moving.old.course moving.old.parts.work.resync)) (left_in moving.new.parts.work moving.new.parts.members moving.new.course moving.new.ahead) result }
    ensures called { IsResyncCalled B.tells (B.given moving.old.parts.bank) (B.tape moving.old.parts.bank) (B.tape moving.new.parts.bank) (B.faults_of moving.old.parts.bank) (B.faults_of moving.new.parts.bank) moving.old moving.new }
    ensures work { moving.new.parts.work ≡ record moving.old.parts.work {
      resync = by_answer result (resync_behind (due_of moving.old.parts.members.newest moving.old.course moving.old.parts.work.resync) moving.old.parts.work.resync) moving.old.parts.work.resync;
    } }
    ensures clean { IsMarkedBehind (due_of moving.old.parts.members.newest moving.old.course moving.old.parts.work.resync) moving.old.parts.members moving.new.parts.members result }
    ensures caused { IsStepCaused (due_of moving.old.parts.members.newest moving.old.course moving.old.parts.work.resync) moving.old.parts.work.resync moving.old.parts.backup moving.old.parts.members moving.new.parts.members (B.faults_of moving.old.parts.bank) (B.faults_of moving.new.parts.bank) result }
    ensures left { OnOk result (left_in moving.new.parts.work moving.new.parts.members moving.new.course moving.new.ahead + 1 ≡ left_in moving.old.parts.work moving.old.parts.members moving.old.course moving.old.ahead) }
    ensures course { OnErr result ((moving.new.course ≡ moving.old.course) ⊎ IsNextUnsure moving.old.parts.members moving.new.course) }
    ensures room { moving.new.parts.steps + 1 ≡ moving.old.parts.steps }
    ensures active { is_reshaping moving.new.parts.members.newest ≡ true }
    ensures given { B.given moving.new.parts.bank ≡ B.given moving.old.parts.bank }
{
    match due_step(&moving.members, &moving.course, moving.work.resync) {
        Due::Copy => copy_stripe(moving, who),
        Due::Record => record_window(moving, who),
        Due::Mend => resync_stripe(moving, who),
        Due::EndResync => end_resync(moving, who),
        Due::Enter => enter_window(moving, who),
        Due::Zero => zero_stripe(moving, who),
        Due::Finish => unreachable!(),
    }
}
