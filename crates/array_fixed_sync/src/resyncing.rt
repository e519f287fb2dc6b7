//! The next step of a pending resync.

ghost use Rattle.std.specs.Prelude.{◌≡◌, ◌≢◌, ◌+◌, ◌≤◌, OnOk, OnErr, IsSome, IsTrue, false};
ghost use Rattle.array_fixed_io.specs.sb_specs_Reading.{is_clean, list_length, is_reshaping};
ghost use Rattle.array_fixed_io.specs.stripe_row_Rows.{reading_of, present};
ghost use Rattle.array_fixed_io.specs.history_World.{opening_list};
ghost use Rattle.array_fixed_io.specs.history_Flat.{now};
ghost use Rattle.array_fixed_io.specs.history_Sound.{OpensFit};
ghost use Rattle.array_fixed_io.specs.array_members_Placed.{AreStillHeld};
ghost use Rattle.array_fixed_io.specs.array_members_Lacking.{AreHoldersFlushed, RowsStand};
ghost use Rattle.array_fixed_io.specs.array_members_Rebuilding.{Held};
ghost use Rattle.array_fixed_io.specs.crash_views_Regions.{DoWithout};
ghost use Rattle.array_fixed_io.specs.array_call_specs_Calls.{AreSparesFewer, by_answer, AreStepsFewer, AreStepsKept, AreValuesKept, IsCausedBy};
ghost use Rattle.array_fixed_io.specs.history_invariant_Recorded.{IsCallGoing};
ghost use Rattle.array_fixed_io.specs.array_specs_Parts.{still_left};
ghost use Rattle.array_fixed_io.specs.array_specs_Calls.{moving_world, IsStepTaken};
ghost use Rattle.array_fixed_io.specs.array_specs_Plans.{ArePlansKept};
ghost use Rattle.array_fixed_io.specs.array_fixed_laws_Steps.{IsStepped, IsClosable};
ghost use Rattle.array_fixed_sync.specs.Resyncing.{is_at_end, next_kind, after_step, IsUnsynced};

use crate::mending::{end_resync, resync_stripe};
use array_fixed_io::{Array, Bank, Fault, Who};

// Does the next step of the pending resync: mends its next stripe, or, where every stripe is mended, flushes the members and marks
// the array clean. Refusals: `TooManyMissing`, and at a stripe `NotResynced`. It takes no memory.
pub(crate) fn resync_step<B: Bank>(still: &mut Array<B>, who: Who) -> Result<(), Fault>
    requires open { IsCallGoing still.old.parts.entries who }
    requires caller { who.caller ≢ 254 }
    requires pending { IsSome still.old.parts.work.resync }
    requires plans { ArePlansKept B.tells (moving_world (B.given still.old.parts.bank) (B.tape still.old.parts.bank) still.old) still.old }
    requires room { 1 ≤ still.old.parts.steps }
    requires still { is_reshaping still.old.parts.members.newest ≡ false }
    ensures entered { IsStepTaken who still.old.parts.entries still.new.parts.entries (next_kind still.old.parts.work.resync still.old.parts.members) (still_left still.new.parts.work still.new.parts.members still.new.ahead) result }
    ensures open { IsCallGoing still.new.parts.entries who }
    ensures room { still.new.parts.steps + 1 ≡ still.old.parts.steps }
    ensures work { still.new.parts.work ≡ record still.old.parts.work { resync = by_answer result (after_step still.old.parts.work.resync still.old.parts.members) still.old.parts.work.resync } }
    ensures left { OnOk result (AreStepsFewer still.old.parts.entries still.new.parts.entries (still_left still.old.parts.work still.old.parts.members still.old.ahead) (still_left still.new.parts.work still.new.parts.members still.new.ahead)) }
    ensures stays { OnErr result (AreStepsKept still.old.parts.entries still.new.parts.entries (still_left still.old.parts.work still.old.parts.members still.old.ahead) (still_left still.new.parts.work still.new.parts.members still.new.ahead)) }
    ensures closable { OnOk result (IsClosable still.new) }
    ensures list { AreValuesKept still.old.parts.entries still.new.parts.entries }
    ensures caused { IsCausedBy (list_length still.old.parts.members.newest) 0 (IsUnsynced (is_at_end still.old.parts.work.resync still.old.parts.members)) still.old.parts.members still.new.parts.members result }
    ensures clean { OnOk result (is_clean still.new.parts.members.newest ≡ is_at_end still.old.parts.work.resync still.old.parts.members) }
    ensures flushed { OnOk result (IsTrue (is_at_end still.old.parts.work.resync still.old.parts.members) → B.tells → AreHoldersFlushed (reading_of still.new.parts.members) (B.given still.old.parts.bank) (B.tape still.new.parts.bank)) }
    ensures good { OnOk result (IsTrue (is_at_end still.old.parts.work.resync still.old.parts.members) → B.tells → DoWithout still.new.parts.members → OpensFit (moving_world (B.given still.new.parts.bank) (B.tape still.new.parts.bank) still.new)
        → RowsStand still.new.parts.members (present (B.given still.new.parts.bank) (B.tape still.new.parts.bank)) (now (opening_list (moving_world (B.given still.new.parts.bank) (B.tape still.new.parts.bank) still.new)) still.new.parts.entries)) }
    ensures stepped { IsStepped B.tells (B.given still.old.parts.bank) (B.tape still.old.parts.bank) (B.tape still.new.parts.bank) (Held still.old.parts.members) (B.faults_of still.old.parts.bank) (B.faults_of still.new.parts.bank) still.old still.new }
    ensures held { AreStillHeld still.old.parts.members still.new.parts.members }
    ensures spares { AreSparesFewer still.old.parts.members still.new.parts.members }
    ensures still { is_reshaping still.new.parts.members.newest ≡ false }
    ensures given { B.given still.new.parts.bank ≡ B.given still.old.parts.bank }
{
    if still.resync() == Some(still.stripes()) {
        end_resync(still, who)
    } else {
        resync_stripe(still, who)
    }
}
