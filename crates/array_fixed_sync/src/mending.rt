//! The steps of a pending resync.

ghost use Rattle.std.specs.Prelude.{◌≡◌, ◌≢◌, ◌+◌, ◌≤◌, true, false, None, OnOk, OnErr};
ghost use Rattle.array_fixed_io.specs.sb_specs_Reading.{shape_of, is_clean, list_length, is_reshaping};
ghost use Rattle.array_fixed_io.specs.stripe_row_Rows.{reading_of, present};
ghost use Rattle.array_fixed_io.specs.history_Flat.{now};
ghost use Rattle.array_fixed_io.specs.history_Sound.{OpensFit};
ghost use Rattle.array_fixed_io.specs.history_World.{opening_list};
ghost use Rattle.array_fixed_io.specs.history_the_StepKind_TheVariants.{ResyncStripe as ResyncsStripe, ResyncEnded as EndsResync};
ghost use Rattle.array_fixed_io.specs.array_members_Lacking.{AreHoldersFlushed, AreTooMany, RowsStand};
ghost use Rattle.array_fixed_io.specs.crash_views_Regions.{DoWithout};
ghost use Rattle.array_fixed_io.specs.array_members_Placed.{AreStillHeld};
ghost use Rattle.array_fixed_io.specs.array_members_Rebuilding.{Held};
ghost use Rattle.array_fixed_io.specs.sb_safe_updates_First.{write_refusal, IsFirstRefused};
ghost use Rattle.array_fixed_io.specs.array_call_specs_Calls.{AreSparesFewer, HasStripeLeft, IsAllSynced, one_more, AreStepsFewer, AreStepsKept, by_answer, IsCausedBy, IsUnmendable};
ghost use Rattle.array_fixed_io.specs.history_invariant_Recorded.{IsCallGoing};
ghost use Rattle.array_fixed_io.specs.array_specs_Parts.{still_left};
ghost use Rattle.array_fixed_io.specs.array_specs_Calls.{moving_world, IsStepTaken};
ghost use Rattle.array_fixed_io.specs.array_specs_Plans.{ArePlansKept};
ghost use Rattle.array_fixed_io.specs.array_fixed_laws_Steps.{IsStepped, IsClosable};

use crate::refusing::refuse_step;
use array_fixed_io::{
    Array, Bank, Event, Fault, StepKind, Who, append_after_losses, check_going,
    first_resync_refusal, flush_and_mark, left_at_rest, newly_unassigned, resync_rows, shape_in,
    too_many, unassigned_roles,
};

/// A step of the pending resync: makes the parity of its next stripe fit the data. Every role that has data must be there.
/// Refusals: `TooManyMissing` and `NotResynced`. It takes no memory.
pub fn resync_stripe<B: Bank>(still: &mut Array<B>, who: Who) -> Result<(), Fault>
    requires open { IsCallGoing still.old.parts.entries who }
    requires caller { who.caller ≢ 254 }
    requires pending { HasStripeLeft still.old.parts.work.resync still.old.parts.members }
    requires room { 1 ≤ still.old.parts.steps }
    requires still { is_reshaping still.old.parts.members.newest ≡ false }
    ensures entered { IsStepTaken who still.old.parts.entries still.new.parts.entries ResyncsStripe (still_left still.new.parts.work still.new.parts.members still.new.ahead) result }
    ensures stepped { IsStepped B.tells (B.given still.old.parts.bank) (B.tape still.old.parts.bank) (B.tape still.new.parts.bank) (Held still.old.parts.members) (B.faults_of still.old.parts.bank) (B.faults_of still.new.parts.bank) still.old still.new }
    ensures held { AreStillHeld still.old.parts.members still.new.parts.members }
    ensures spares { AreSparesFewer still.old.parts.members still.new.parts.members }
    ensures work { still.new.parts.work ≡ record still.old.parts.work { resync = by_answer result (one_more still.old.parts.work.resync) still.old.parts.work.resync } }
    ensures left { OnOk result (AreStepsFewer still.old.parts.entries still.new.parts.entries (still_left still.old.parts.work still.old.parts.members still.old.ahead) (still_left still.new.parts.work still.new.parts.members still.new.ahead)) }
    ensures stays { OnErr result (AreStepsKept still.old.parts.entries still.new.parts.entries (still_left still.old.parts.work still.old.parts.members still.old.ahead) (still_left still.new.parts.work still.new.parts.members still.new.ahead)) }
    ensures closable { OnOk result (IsClosable still.new) }
    ensures caused { IsCausedBy (list_length still.old.parts.members.newest) 0 IsUnmendable still.old.parts.members still.new.parts.members result }
    ensures first { IsFirstRefused (write_refusal (shape_of still.old.parts.members.newest) false) still.old.parts.members still.new.parts.members result }
    ensures dirty { OnOk result (is_clean still.new.parts.members.newest ≡ false) }
    ensures open { IsCallGoing still.new.parts.entries who }
    ensures room { still.new.parts.steps + 1 ≡ still.old.parts.steps }
    ensures still { is_reshaping still.new.parts.members.newest ≡ false }
    ensures given { B.given still.new.parts.bank ≡ B.given still.old.parts.bank }
{
    if let Some(refusal) = first_resync_refusal(&still.members) {
        refuse_step(still, who, refusal);
        return Err(Fault::Refused(refusal));
    }
    still.steps -= 1;
    check_going(&still.epoch.entries, who);
    let shape = shape_in(&still.members);
    let before = unassigned_roles(&still.members, shape.disks);
    let stripe = still.work.resync.unwrap_or(0);
    let mended = resync_rows(
        &mut still.members,
        &mut still.bank,
        &shape,
        stripe,
        &mut still.rows,
        &mut still.buffer,
    );
    let roles = newly_unassigned(&still.members, shape.disks, before);
    let end = still.bank.ops();
    if let Some(refusal) = mended.refusal {
        let event = Event::Refused { refusal };
        append_after_losses(&mut still.epoch, who, end, roles, mended.spares, event);
        return Err(Fault::Refused(refusal));
    }
    still.work.resync = Some(stripe + 1);
    let kind = StepKind::ResyncStripe;
    let left = left_at_rest(&still.members, &still.work, &still.ahead);
    let event = Event::Step { kind, left };
    append_after_losses(&mut still.epoch, who, end, roles, mended.spares, event);
    Ok(())
}

/// The last step of the pending resync, whose stripes are all mended: flushes the members and marks the array clean. Refusals:
/// `TooManyMissing`. It takes no memory.
pub fn end_resync<B: Bank>(still: &mut Array<B>, who: Who) -> Result<(), Fault>
    requires open { IsCallGoing still.old.parts.entries who }
    requires caller { who.caller ≢ 254 }
    requires pending { IsAllSynced still.old.parts.work.resync still.old.parts.members }
    requires plans { ArePlansKept B.tells (moving_world (B.given still.old.parts.bank) (B.tape still.old.parts.bank) still.old) still.old }
    requires room { 1 ≤ still.old.parts.steps }
    requires still { is_reshaping still.old.parts.members.newest ≡ false }
    ensures entered { IsStepTaken who still.old.parts.entries still.new.parts.entries EndsResync (still_left still.new.parts.work still.new.parts.members still.new.ahead) result }
    ensures stepped { IsStepped B.tells (B.given still.old.parts.bank) (B.tape still.old.parts.bank) (B.tape still.new.parts.bank) (Held still.old.parts.members) (B.faults_of still.old.parts.bank) (B.faults_of still.new.parts.bank) still.old still.new }
    ensures held { AreStillHeld still.old.parts.members still.new.parts.members }
    ensures spares { AreSparesFewer still.old.parts.members still.new.parts.members }
    ensures work { still.new.parts.work ≡ record still.old.parts.work { resync = by_answer result None still.old.parts.work.resync } }
    ensures left { OnOk result (AreStepsFewer still.old.parts.entries still.new.parts.entries (still_left still.old.parts.work still.old.parts.members still.old.ahead) (still_left still.new.parts.work still.new.parts.members still.new.ahead)) }
    ensures stays { OnErr result (AreStepsKept still.old.parts.entries still.new.parts.entries (still_left still.old.parts.work still.old.parts.members still.old.ahead) (still_left still.new.parts.work still.new.parts.members still.new.ahead)) }
    ensures closable { OnOk result (IsClosable still.new) }
    ensures caused { IsCausedBy (list_length still.old.parts.members.newest) 0 AreTooMany still.old.parts.members still.new.parts.members result }
    ensures clean { OnOk result (is_clean still.new.parts.members.newest ≡ true) }
    ensures good { OnOk result (B.tells → DoWithout still.new.parts.members → OpensFit (moving_world (B.given still.new.parts.bank) (B.tape still.new.parts.bank) still.new)
        → RowsStand still.new.parts.members (present (B.given still.new.parts.bank) (B.tape still.new.parts.bank))
        (now (opening_list (moving_world (B.given still.new.parts.bank) (B.tape still.new.parts.bank) still.new)) still.new.parts.entries)) }
    ensures flushed { OnOk result (B.tells → AreHoldersFlushed (reading_of still.new.parts.members) (B.given still.old.parts.bank) (B.tape still.new.parts.bank)) }
    ensures open { IsCallGoing still.new.parts.entries who }
    ensures room { still.new.parts.steps + 1 ≡ still.old.parts.steps }
    ensures still { is_reshaping still.new.parts.members.newest ≡ false }
    ensures given { B.given still.new.parts.bank ≡ B.given still.old.parts.bank }
{
    if let Some(refusal) = too_many(&still.members) {
        refuse_step(still, who, refusal);
        return Err(Fault::Refused(refusal));
    }
    still.steps -= 1;
    check_going(&still.epoch.entries, who);
    let disks = shape_in(&still.members).disks;
    let before = unassigned_roles(&still.members, disks);
    let settled = flush_and_mark(&mut still.members, &mut still.bank, false);
    let roles = newly_unassigned(&still.members, disks, before);
    let end = still.bank.ops();
    if let Some(refusal) = settled.refusal {
        let event = Event::Refused { refusal };
        append_after_losses(&mut still.epoch, who, end, roles, settled.spares, event);
        return Err(Fault::Refused(refusal));
    }
    still.work.resync = None;
    let kind = StepKind::ResyncEnded;
    let left = left_at_rest(&still.members, &still.work, &still.ahead);
    let event = Event::Step { kind, left };
    append_after_losses(&mut still.epoch, who, end, roles, settled.spares, event);
    Ok(())
}
