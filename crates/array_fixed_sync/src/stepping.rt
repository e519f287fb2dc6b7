//! The next step of an array without a reshape.

ghost use Rattle.std.specs.Prelude.{◌≡◌, ◌≢◌, ◌+◌, ◌<◌, ◌≤◌, is_some, if◌then◌else◌, Err, OnOk, OnErr, IsTrue, false};
ghost use Rattle.array_fixed_io.specs.raid_types_the_Fault_TheVariants.{NoMemory as WantsMemory};
ghost use Rattle.array_fixed_io.specs.sb_specs_Reading.{is_clean, list_length, is_reshaping};
ghost use Rattle.array_fixed_io.specs.stripe_row_Rows.{reading_of, present};
ghost use Rattle.array_fixed_io.specs.history_World.{opening_list};
ghost use Rattle.array_fixed_io.specs.history_Flat.{now};
ghost use Rattle.array_fixed_io.specs.history_Sound.{OpensFit};
ghost use Rattle.array_fixed_io.specs.history_the_StepKind_TheVariants.{RebuildTaken as TakesRole, RebuildEnded as EndsRebuild};
ghost use Rattle.array_fixed_io.specs.array_members_Status.{left_of};
ghost use Rattle.array_fixed_io.specs.array_members_Lacking.{AreHoldersFlushed, RowsStand};
ghost use Rattle.array_fixed_io.specs.crash_views_Regions.{DoWithout};
ghost use Rattle.array_fixed_io.specs.array_call_specs_Calls.{AreHeldOrSpare, IsWholeOrLost, by_answer, AreStepsFewer, AreStepsKept, AreValuesKept, IsCausedBy};
ghost use Rattle.array_fixed_io.specs.history_invariant_Recorded.{IsCallGoing};
ghost use Rattle.array_fixed_io.specs.array_specs_Parts.{still_left};
ghost use Rattle.array_fixed_io.specs.array_specs_Calls.{moving_world};
ghost use Rattle.array_fixed_io.specs.array_specs_Plans.{ArePlansKept};
ghost use Rattle.array_fixed_io.specs.array_fixed_laws_Steps.{IsStepped, IsClosable, IsCallUnbroken};
ghost use Rattle.array_fixed_sync.specs.Resyncing.{is_at_end};
ghost use Rattle.array_fixed_io.specs.array_type_Rebuilding.{rebuilt_role, IsGivenToSpare};
ghost use Rattle.array_fixed_sync.specs.Stepping.{IsUndone, IsEnd, IsStepEntered, next_kind, after_step, IsHeldOrDue};

use crate::rebuilding::rebuild_step;
use crate::resyncing::resync_step;
use array_fixed_io::{Array, Bank, Fault, Who};

/// Does the next step of an array without a reshape, of which one is left besides those of the phases ahead: of the resync where one is
/// pending, or else of a rebuild. Where the slot that is rebuilt is lost, only the loss is entered. Refusals: `TooManyMissing`, and at a
/// stripe of a resync `NotResynced`. It takes no memory.
pub fn still_step<B: Bank>(still: &mut Array<B>, who: Who) -> Result<(), Fault>
    requires open { IsCallGoing still.old.parts.entries who }
    requires unbroken { next_kind still.old.parts.work still.old.parts.members ≡ EndsRebuild → IsCallUnbroken B.tells (moving_world (B.given still.old.parts.bank) (B.tape still.old.parts.bank) still.old) still.old.parts.entries who }
    requires caller { who.caller ≢ 254 }
    requires pending { 0 < left_of still.old.parts.work still.old.parts.members }
    requires plans { ArePlansKept B.tells (moving_world (B.given still.old.parts.bank) (B.tape still.old.parts.bank) still.old) still.old }
    requires room { 1 ≤ still.old.parts.steps }
    requires still { is_reshaping still.old.parts.members.newest ≡ false }
    ensures entered { IsStepEntered who still.old.parts.entries still.new.parts.entries still.old.parts.work still.old.parts.members still.new.parts.members (still_left still.new.parts.work still.new.parts.members still.new.ahead) result }
    ensures memory { result ≢ Err WantsMemory }
    ensures open { IsCallGoing still.new.parts.entries who }
    ensures room { still.new.parts.steps + 1 ≡ still.old.parts.steps }
    ensures work { still.new.parts.work ≡ by_answer result (after_step still.old.parts.work still.old.parts.members) still.old.parts.work }
    ensures left { OnOk result (AreStepsFewer still.old.parts.entries still.new.parts.entries (still_left still.old.parts.work still.old.parts.members still.old.ahead) (still_left still.new.parts.work still.new.parts.members still.new.ahead)) }
    ensures stays { OnErr result (AreStepsKept still.old.parts.entries still.new.parts.entries (still_left still.old.parts.work still.old.parts.members still.old.ahead) (still_left still.new.parts.work still.new.parts.members still.new.ahead)) }
    ensures closable { OnOk result (IsClosable still.new) }
    ensures list { AreValuesKept still.old.parts.entries still.new.parts.entries }
    ensures caused { IsCausedBy (list_length still.old.parts.members.newest) 0 (IsUndone still.old.parts.work still.old.parts.members) still.old.parts.members still.new.parts.members result }
    ensures clean { OnOk result (is_clean still.new.parts.members.newest ≡ (if is_some still.old.parts.work.resync then is_at_end still.old.parts.work.resync still.old.parts.members else is_clean still.old.parts.members.newest)) }
    ensures flushed { OnOk result (IsTrue (is_at_end still.old.parts.work.resync still.old.parts.members) → B.tells → AreHoldersFlushed (reading_of still.new.parts.members) (B.given still.old.parts.bank) (B.tape still.new.parts.bank)) }
    ensures good { OnOk result (IsEnd (next_kind still.old.parts.work still.old.parts.members) → B.tells → DoWithout still.new.parts.members → OpensFit (moving_world (B.given still.new.parts.bank) (B.tape still.new.parts.bank) still.new)
        → RowsStand still.new.parts.members (present (B.given still.new.parts.bank) (B.tape still.new.parts.bank)) (now (opening_list (moving_world (B.given still.new.parts.bank) (B.tape still.new.parts.bank) still.new)) still.new.parts.entries)) }
    ensures taken { OnOk result (next_kind still.old.parts.work still.old.parts.members ≡ TakesRole → IsGivenToSpare still.old.parts.members still.new.parts.members) }
    ensures whole { OnOk result (next_kind still.old.parts.work still.old.parts.members ≡ EndsRebuild → IsWholeOrLost still.old.parts.members still.new.parts.members (rebuilt_role still.old.parts.members)) }
    ensures stepped { IsStepped B.tells (B.given still.old.parts.bank) (B.tape still.old.parts.bank) (B.tape still.new.parts.bank) (IsHeldOrDue still.old.parts.work still.old.parts.members) (B.faults_of still.old.parts.bank) (B.faults_of still.new.parts.bank) still.old still.new }
    ensures held { AreHeldOrSpare still.old.parts.members still.new.parts.members }
    ensures still { is_reshaping still.new.parts.members.newest ≡ false }
    ensures given { B.given still.new.parts.bank ≡ B.given still.old.parts.bank }
{
    if still.resync().is_some() {
        return resync_step(still, who);
    }
    rebuild_step(still, who)
}
