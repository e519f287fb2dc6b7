//! The next step of a rebuild.

ghost use Rattle.std.specs.Prelude.{◌≡◌, ◌≢◌, ◌+◌, ◌≤◌, None, Err, OnOk, OnErr, false};
ghost use Rattle.array_fixed_io.specs.raid_types_the_Fault_TheVariants.{NoMemory as WantsMemory};
ghost use Rattle.array_fixed_io.specs.sb_specs_Reading.{is_clean, list_length, is_reshaping};
ghost use Rattle.array_fixed_io.specs.stripe_row_Rows.{present};
ghost use Rattle.array_fixed_io.specs.history_World.{opening_list};
ghost use Rattle.array_fixed_io.specs.history_Flat.{now};
ghost use Rattle.array_fixed_io.specs.history_Sound.{OpensFit};
ghost use Rattle.array_fixed_io.specs.history_the_StepKind_TheVariants.{RebuildTaken as TakesRole, RebuildEnded as EndsRebuild};
ghost use Rattle.array_fixed_io.specs.array_members_Lacking.{AreTooMany, RowsStand};
ghost use Rattle.array_fixed_io.specs.crash_views_Regions.{DoWithout};
ghost use Rattle.array_fixed_io.specs.array_call_specs_Calls.{AreHeldOrSpare, IsWholeOrLost, by_answer, AreStepsFewer, AreStepsKept, AreValuesKept, IsRebuildStepped, IsCausedBy};
ghost use Rattle.array_fixed_io.specs.history_invariant_Recorded.{IsCallGoing};
ghost use Rattle.array_fixed_io.specs.array_specs_Parts.{still_left};
ghost use Rattle.array_fixed_io.specs.array_specs_Calls.{moving_world};
ghost use Rattle.array_fixed_io.specs.array_specs_Plans.{ArePlansKept};
ghost use Rattle.array_fixed_io.specs.array_fixed_laws_Steps.{IsStepped, IsClosable, IsCallUnbroken};
ghost use Rattle.array_fixed_io.specs.array_type_Rebuilding.{rebuilt_role, rebuild_kind, rebuild_events, after_rebuild, IsRebuildNext, IsGivenToSpare, IsHeldOrNext};

use crate::choosing::{first_recovering, first_unassigned};
use crate::filling::{end_rebuild, rebuild_stripe, take_role};
use array_fixed_io::{Array, Bank, Fault, Who, first_spare};

// Does the next step of a rebuild: of the lowest role that a slot recovers, its next stripe, or, where all are rebuilt, its
// end; or else gives the lowest role that no slot holds to the lowest spare. Where the slot that is rebuilt is lost, this
// ends the rebuild, and only the loss is entered. Refusals: `TooManyMissing`. It takes no memory.
pub(crate) fn rebuild_step<B: Bank>(still: &mut Array<B>, who: Who) -> Result<(), Fault>
    requires open { IsCallGoing still.old.parts.entries who }
    requires unbroken { rebuild_kind still.old.parts.work still.old.parts.members ≡ EndsRebuild → IsCallUnbroken B.tells (moving_world (B.given still.old.parts.bank) (B.tape still.old.parts.bank) still.old) still.old.parts.entries who }
    requires caller { who.caller ≢ 254 }
    requires synced { still.old.parts.work.resync ≡ None }
    requires pending { IsRebuildNext still.old.parts.members }
    requires plans { ArePlansKept B.tells (moving_world (B.given still.old.parts.bank) (B.tape still.old.parts.bank) still.old) still.old }
    requires room { 1 ≤ still.old.parts.steps }
    requires still { is_reshaping still.old.parts.members.newest ≡ false }
    ensures entered { let role = rebuilt_role still.old.parts.members in IsRebuildStepped who still.old.parts.entries still.new.parts.entries still.new.parts.members role
        (rebuild_events (rebuild_kind still.old.parts.work still.old.parts.members) role (still_left still.new.parts.work still.new.parts.members still.new.ahead)) result }
    ensures memory { result ≢ Err WantsMemory }
    ensures open { IsCallGoing still.new.parts.entries who }
    ensures room { still.new.parts.steps + 1 ≡ still.old.parts.steps }
    ensures work { still.new.parts.work ≡ by_answer result (after_rebuild (rebuild_kind still.old.parts.work still.old.parts.members) (rebuilt_role still.old.parts.members) still.old.parts.work) still.old.parts.work }
    ensures left { OnOk result (AreStepsFewer still.old.parts.entries still.new.parts.entries (still_left still.old.parts.work still.old.parts.members still.old.ahead) (still_left still.new.parts.work still.new.parts.members still.new.ahead)) }
    ensures stays { OnErr result (AreStepsKept still.old.parts.entries still.new.parts.entries (still_left still.old.parts.work still.old.parts.members still.old.ahead) (still_left still.new.parts.work still.new.parts.members still.new.ahead)) }
    ensures closable { OnOk result (IsClosable still.new) }
    ensures list { AreValuesKept still.old.parts.entries still.new.parts.entries }
    ensures caused { IsCausedBy (list_length still.old.parts.members.newest) 0 AreTooMany still.old.parts.members still.new.parts.members result }
    ensures clean { is_clean still.new.parts.members.newest ≡ is_clean still.old.parts.members.newest }
    ensures taken { OnOk result (rebuild_kind still.old.parts.work still.old.parts.members ≡ TakesRole → IsGivenToSpare still.old.parts.members still.new.parts.members) }
    ensures whole { OnOk result (rebuild_kind still.old.parts.work still.old.parts.members ≡ EndsRebuild → IsWholeOrLost still.old.parts.members still.new.parts.members (rebuilt_role still.old.parts.members)) }
    ensures good { OnOk result (rebuild_kind still.old.parts.work still.old.parts.members ≡ EndsRebuild → B.tells → DoWithout still.new.parts.members → OpensFit (moving_world (B.given still.new.parts.bank) (B.tape still.new.parts.bank) still.new)
        → RowsStand still.new.parts.members (present (B.given still.new.parts.bank) (B.tape still.new.parts.bank)) (now (opening_list (moving_world (B.given still.new.parts.bank) (B.tape still.new.parts.bank) still.new)) still.new.parts.entries)) }
    ensures stepped { IsStepped B.tells (B.given still.old.parts.bank) (B.tape still.old.parts.bank) (B.tape still.new.parts.bank) (IsHeldOrNext still.old.parts.work still.old.parts.members) (B.faults_of still.old.parts.bank) (B.faults_of still.new.parts.bank) still.old still.new }
    ensures held { AreHeldOrSpare still.old.parts.members still.new.parts.members }
    ensures still { is_reshaping still.new.parts.members.newest ≡ false }
    ensures given { B.given still.new.parts.bank ≡ B.given still.old.parts.bank }
{
    let disks = still.disks();
    if let Some(role) = first_recovering(still.members(), disks) {
        if still.rebuilt(role) < still.stripes() {
            return rebuild_stripe(still, who, role);
        }
        return end_rebuild(still, who, role);
    }
    let role = first_unassigned(still.members(), disks).unwrap_or(0);
    let slot = first_spare(still.members()).unwrap_or(0);
    take_role(still, who, role, slot)
}
