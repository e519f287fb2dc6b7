//! The next step of a running array without a reshape.

ghost use Rattle.std.specs.Prelude.{◌≡◌, ◌≢◌, ◌+◌, ◌<◌, ◌≤◌, is_some, if◌then◌else◌, Err, OnOk, OnErr, IsTrue, false};
ghost use Rattle.array_grow.specs.raid_types_the_Fault_TheVariants.{NoMemory as WantsMemory};
ghost use Rattle.array_takeover.specs.sb_specs_Reading.{is_reshaping, is_clean, list_length};
ghost use Rattle.array_grow.specs.stripe_row_Rows.{reading_of, present};
ghost use Rattle.array_takeover.specs.history_World.{opening_list};
ghost use Rattle.array_takeover.specs.history_Flat.{now};
ghost use Rattle.array_takeover.specs.history_Sound.{OpensFit};
ghost use Rattle.array_takeover.specs.history_the_StepKind_TheVariants.{RebuildTaken as TakesRole, RebuildEnded as EndsRebuild};
ghost use Rattle.array_grow.specs.array_members_Status.{left_of};
ghost use Rattle.array_grow.specs.array_members_Lacking.{AreHoldersFlushed, RowsStand};
ghost use Rattle.array_grow.specs.crash_views_Regions.{DoWithout};
ghost use Rattle.array_grow.specs.array_call_specs_Calls.{AreHeldOrSpare, IsWholeOrLost, by_answer, AreStepsFewer, AreStepsKept, AreValuesKept, IsCausedBy};
ghost use Rattle.array_grow.specs.history_invariant_Recorded.{IsCallGoing};
ghost use Rattle.array_grow.specs.array_specs_Parts.{still_left};
ghost use Rattle.array_grow.specs.array_specs_Calls.{moving_world};
ghost use Rattle.array_grow.specs.array_fixed_laws_Steps.{IsStepped, IsClosable, IsCallUnbroken};
ghost use Rattle.array_takeover.specs.array_fixed_sync_Resyncing.{is_at_end};
ghost use Rattle.array_grow.specs.array_fixed_sync_Rebuilding.{first_recovering, rebuilt_role, IsGivenToSpare};
ghost use Rattle.array_takeover.specs.array_fixed_sync_Stepping.{IsUndone, IsEnd, IsStepEntered, next_kind, after_step, IsHeldOrDue};
ghost use Rattle.array.specs.Calls.{IsRefusedInStep};

use crate::state::{Running, check_array};
use array_grow::{Bank, Fault, Who};
use array_takeover::{first_recovering, still_step};

impl<B: Bank> Running<B> {
    /// Whether a slot recovers a role, so that the next step of a rebuild isn't its first one. In a reshape none does.
    pub fn recovers(&self) -> bool
        ensures { is_reshaping self.now.parts.members.newest ≡ false → result ≡ is_some (first_recovering self.now.parts.members) }
    {
        if self.array.is_reshaping() {
            return false;
        }
        let disks = self.array.disks();
        first_recovering(self.array.members(), disks).is_some()
    }

    /// Does the next step of an array without a reshape, of which one is left besides those of the phases ahead: of the resync where one
    /// is pending, or else of a rebuild. Where the slot that is rebuilt is lost, only the loss is entered. Refusals: `TooManyMissing`,
    /// and at a stripe of a resync `NotResynced`. It takes no memory.
    pub fn resync_or_rebuild(&mut self, who: Who) -> Result<(), Fault>
        requires open { IsCallGoing self.old.parts.entries who }
        requires unbroken { next_kind self.old.parts.work self.old.parts.members ≡ EndsRebuild → IsCallUnbroken B.tells (moving_world (B.given self.old.parts.bank) (B.tape self.old.parts.bank) self.old) self.old.parts.entries who }
        requires caller { who.caller ≢ 254 }
        requires still { is_reshaping self.old.parts.members.newest ≡ false }
        requires pending { 0 < left_of self.old.parts.work self.old.parts.members }
        requires room { 1 ≤ self.old.parts.steps }
        ensures entered { IsStepEntered who self.old.parts.entries self.new.parts.entries self.old.parts.work self.old.parts.members self.new.parts.members (still_left self.new.parts.work self.new.parts.members self.new.ahead) result }
        ensures memory { result ≢ Err WantsMemory }
        ensures open { IsCallGoing self.new.parts.entries who }
        ensures room { self.new.parts.steps + 1 ≡ self.old.parts.steps }
        ensures work { self.new.parts.work ≡ by_answer result (after_step self.old.parts.work self.old.parts.members) self.old.parts.work }
        ensures left { OnOk result (AreStepsFewer self.old.parts.entries self.new.parts.entries (still_left self.old.parts.work self.old.parts.members self.old.ahead) (still_left self.new.parts.work self.new.parts.members self.new.ahead)) }
        ensures stays { OnErr result (AreStepsKept self.old.parts.entries self.new.parts.entries (still_left self.old.parts.work self.old.parts.members self.old.ahead) (still_left self.new.parts.work self.new.parts.members self.new.ahead)) }
        ensures list { AreValuesKept self.old.parts.entries self.new.parts.entries }
        ensures caused { IsCausedBy (list_length self.old.parts.members.newest) 0 (IsUndone self.old.parts.work self.old.parts.members) self.old.parts.members self.new.parts.members result }
        ensures clean { OnOk result (is_clean self.new.parts.members.newest ≡ (if is_some self.old.parts.work.resync then is_at_end self.old.parts.work.resync self.old.parts.members else is_clean self.old.parts.members.newest)) }
        ensures flushed { OnOk result (IsTrue (is_at_end self.old.parts.work.resync self.old.parts.members) → B.tells → AreHoldersFlushed (reading_of self.new.parts.members) (B.given self.old.parts.bank) (B.tape self.new.parts.bank)) }
        ensures good { OnOk result (IsEnd (next_kind self.old.parts.work self.old.parts.members) → B.tells → DoWithout self.new.parts.members → OpensFit (moving_world (B.given self.new.parts.bank) (B.tape self.new.parts.bank) self.new)
            → RowsStand self.new.parts.members (present (B.given self.new.parts.bank) (B.tape self.new.parts.bank)) (now (opening_list (moving_world (B.given self.new.parts.bank) (B.tape self.new.parts.bank) self.new)) self.new.parts.entries)) }
        ensures taken { OnOk result (next_kind self.old.parts.work self.old.parts.members ≡ TakesRole → IsGivenToSpare self.old.parts.members self.new.parts.members) }
        ensures whole { OnOk result (next_kind self.old.parts.work self.old.parts.members ≡ EndsRebuild → IsWholeOrLost self.old.parts.members self.new.parts.members (rebuilt_role self.old.parts.members)) }
        ensures stepped { IsStepped B.tells (B.given self.old.parts.bank) (B.tape self.old.parts.bank) (B.tape self.new.parts.bank) (IsHeldOrDue self.old.parts.work self.old.parts.members) (B.faults_of self.old.parts.bank) (B.faults_of self.new.parts.bank) self.old self.new }
        ensures held { AreHeldOrSpare self.old.parts.members self.new.parts.members }
        ensures left_still { is_reshaping self.new.parts.members.newest ≡ false }
        ensures ends { IsRefusedInStep self.new result }
        ensures closable { OnOk result (IsClosable self.new) }
        ensures course { self.new.course ≡ self.old.course }
        ensures given { B.given self.new.parts.bank ≡ B.given self.old.parts.bank }
    {
        let done = still_step(&mut self.array, who);
        check_array(&self.array);
        done
    }
}
