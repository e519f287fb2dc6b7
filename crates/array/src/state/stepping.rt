//! The step of a reshape that is due.

ghost use Rattle.std.specs.Prelude.{◌≡◌, ◌≢◌, ◌⊎◌, ◌+◌, ◌≤◌, true, OnOk, OnErr, IsSome};
ghost use Rattle.array_takeover.specs.sb_specs_Reading.{is_reshaping};
ghost use Rattle.array_grow.specs.array_call_specs_Calls.{by_answer};
ghost use Rattle.array_grow.specs.history_invariant_Recorded.{IsCallGoing};
ghost use Rattle.array_grow.specs.array_reshaping_state_Due.{due_of};
ghost use Rattle.array_grow.specs.array_reshaping_state_the_Due_TheVariants.{Finish as EndsReshape};
ghost use Rattle.array_grow.specs.array_specs_Parts.{left_in};
ghost use Rattle.array_grow.specs.array_specs_Calls.{IsStepTaken, IsNextUnsure};
ghost use Rattle.array_grow.specs.array_reshaping_laws_Resyncing.{IsResyncCalled};
ghost use Rattle.array_grow.specs.array_reshaping_laws_Steps.{kind_of, resync_behind, IsMarkedBehind, IsStepCaused};
ghost use Rattle.array.specs.Calls.{IsRefusedInStep};

use crate::state::{Running, check_array};
use array_grow::{Bank, Fault, Who};

impl<B: Bank> Running<B> {
    /// Does the step that is due in a reshape, but for its end: a stripe of the entered window is copied, or it is recorded; of a pending
    /// resync the next stripe is mended, or it ends; the next window is entered, or a stripe behind the list is zeroed. Refusals:
    /// `TooManyMissing`, `NotResynced` where a stripe is to be mended, and `BackupFault` where a window is to be entered. It takes no
    /// memory.
    pub fn move_on(&mut self, who: Who) -> Result<(), Fault>
        requires open { IsCallGoing self.old.parts.entries who }
        requires caller { who.caller ≢ 254 }
        requires room { 1 ≤ self.old.parts.steps }
        requires active { is_reshaping self.old.parts.members.newest ≡ true }
        requires due { due_of self.old.parts.members.newest self.old.course self.old.parts.work.resync ≢ EndsReshape }
        ensures entered { IsStepTaken who self.old.parts.entries self.new.parts.entries (kind_of (due_of self.old.parts.members.newest self.old.course self.old.parts.work.resync)) (left_in self.new.parts.work self.new.parts.members self.new.course self.new.ahead) result }
        ensures called { IsResyncCalled B.tells (B.given self.old.parts.bank) (B.tape self.old.parts.bank) (B.tape self.new.parts.bank) (B.faults_of self.old.parts.bank) (B.faults_of self.new.parts.bank) self.old self.new }
        ensures work { self.new.parts.work ≡ record self.old.parts.work {
          resync = by_answer result (resync_behind (due_of self.old.parts.members.newest self.old.course self.old.parts.work.resync) self.old.parts.work.resync) self.old.parts.work.resync;
        } }
        ensures clean { IsMarkedBehind (due_of self.old.parts.members.newest self.old.course self.old.parts.work.resync) self.old.parts.members self.new.parts.members result }
        ensures caused { IsStepCaused (due_of self.old.parts.members.newest self.old.course self.old.parts.work.resync) self.old.parts.work.resync self.old.parts.backup self.old.parts.members self.new.parts.members (B.faults_of self.old.parts.bank) (B.faults_of self.new.parts.bank) result }
        ensures left { OnOk result (left_in self.new.parts.work self.new.parts.members self.new.course self.new.ahead + 1 ≡ left_in self.old.parts.work self.old.parts.members self.old.course self.old.ahead) }
        ensures course { OnErr result ((self.new.course ≡ self.old.course) ⊎ IsNextUnsure self.old.parts.members self.new.course) }
        ensures stays { is_reshaping self.new.parts.members.newest ≡ true }
        ensures backed { IsSome self.new.parts.backup }
        ensures ends { IsRefusedInStep self.new result }
        ensures room { self.new.parts.steps + 1 ≡ self.old.parts.steps }
        ensures given { B.given self.new.parts.bank ≡ B.given self.old.parts.bank }
    {
        let done = array_grow::step(&mut self.array, who);
        check_array(&self.array);
        done
    }
}
