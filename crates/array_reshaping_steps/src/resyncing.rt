//! The steps of a pending resync.

ghost use Rattle.std.specs.Prelude.{◌≡◌, ◌≢◌, ◌+◌, ◌≤◌, ℕ, false, true, None, Some, OnOk};
ghost use Rattle.array_type.specs.sb_specs_Reading.{is_clean, list_length, is_reshaping};
ghost use Rattle.array_type.specs.stripe_row_Rows.{reading_of, present};
ghost use Rattle.array_type.specs.history_Flat.{now};
ghost use Rattle.array_type.specs.history_Sound.{OpensFit};
ghost use Rattle.array_type.specs.history_World.{opening_list};
ghost use Rattle.array_type.specs.history_the_StepKind_TheVariants.{ResyncStripe as ResyncsStripe, ResyncEnded as EndsResync};
ghost use Rattle.array_type.specs.array_members_Lacking.{AreHoldersFlushed, AreTooMany};
ghost use Rattle.array_type.specs.sb_safe_updates_First.{IsFirstRefused};
ghost use Rattle.array_type.specs.stripe_region_resync_Resyncs.{resync_shape, refusal_of_resync, IsNotSynced};
ghost use Rattle.array_type.specs.array_call_specs_Calls.{one_more, by_answer, IsCausedBy};
ghost use Rattle.array_type.specs.history_invariant_Recorded.{IsCallGoing};
ghost use Rattle.array_type.specs.array_specs_Parts.{left_in};
ghost use Rattle.array_type.specs.array_specs_Calls.{moving_world, IsStepTaken};
ghost use Rattle.array_type.specs.array_reshaping_laws_Resyncing.{IsResyncDue, IsResyncEndDue, IsResyncCalled, AreRowsGood};

use array_type::{
    Array, Bank, Event, Fault, StepKind, Who, append_after_losses, append_entry, check_going,
    first_resync_refusal_from, flush_and_mark, left_in_reshape, newly_unassigned, resync_list,
    too_many, unassigned_roles,
};

/// A step of the pending resync, while no window is entered: makes the parity of its next stripe fit the data, by the shape of its
/// region. Every role that has data by that shape must be there. Refusals: `TooManyMissing` and `NotResynced`. It takes no memory.
pub fn resync_stripe<B: Bank>(moving: &mut Array<B>, who: Who) -> Result<(), Fault>
    requires open { IsCallGoing moving.old.parts.entries who }
    requires caller { who.caller ≢ 254 }
    requires room { 1 ≤ moving.old.parts.steps }
    requires due { IsResyncDue moving.old }
    requires active { is_reshaping moving.old.parts.members.newest ≡ true }
    ensures entered { IsStepTaken who moving.old.parts.entries moving.new.parts.entries ResyncsStripe (left_in moving.new.parts.work moving.new.parts.members moving.new.course moving.new.ahead) result }
    ensures called { IsResyncCalled B.tells (B.given moving.old.parts.bank) (B.tape moving.old.parts.bank) (B.tape moving.new.parts.bank) (B.faults_of moving.old.parts.bank) (B.faults_of moving.new.parts.bank) moving.old moving.new }
    ensures work { moving.new.parts.work ≡ record moving.old.parts.work { resync = by_answer result (one_more moving.old.parts.work.resync) moving.old.parts.work.resync } }
    ensures left { OnOk result (left_in moving.new.parts.work moving.new.parts.members moving.new.course moving.new.ahead + 1 ≡ left_in moving.old.parts.work moving.old.parts.members moving.old.course moving.old.ahead) }
    ensures caused { (mended : ℕ) → moving.old.parts.work.resync ≡ Some mended
        → IsCausedBy (list_length moving.old.parts.members.newest) 0 (IsNotSynced (resync_shape moving.old.parts.members.newest mended)) moving.old.parts.members moving.new.parts.members result }
    ensures first { (mended : ℕ) → moving.old.parts.work.resync ≡ Some mended
        → IsFirstRefused (refusal_of_resync (resync_shape moving.old.parts.members.newest mended)) moving.old.parts.members moving.new.parts.members result }
    ensures clean { is_clean moving.new.parts.members.newest ≡ is_clean moving.old.parts.members.newest }
    ensures dirty { OnOk result (is_clean moving.new.parts.members.newest ≡ false) }
    ensures course { moving.new.course ≡ moving.old.course }
    ensures room { moving.new.parts.steps + 1 ≡ moving.old.parts.steps }
    ensures active { is_reshaping moving.new.parts.members.newest ≡ true }
    ensures given { B.given moving.new.parts.bank ≡ B.given moving.old.parts.bank }
{
    moving.steps -= 1;
    check_going(&moving.epoch.entries, who);
    let stripes = moving.work.resync.unwrap_or(0);
    if let Some(refusal) = first_resync_refusal_from(&moving.members, stripes) {
        let end = moving.bank.ops();
        append_entry(&mut moving.epoch, who, end, Event::Refused { refusal });
        return Err(Fault::Refused(refusal));
    }
    let count = moving.members.roles.len() as u32;
    let before = unassigned_roles(&moving.members, count);
    let mended = resync_list(
        &mut moving.members,
        &mut moving.bank,
        stripes,
        &mut moving.rows,
        &mut moving.buffer,
    );
    let roles = newly_unassigned(&moving.members, count, before);
    let end = moving.bank.ops();
    if let Some(refusal) = mended.refusal {
        let event = Event::Refused { refusal };
        append_after_losses(&mut moving.epoch, who, end, roles, mended.spares, event);
        return Err(Fault::Refused(refusal));
    }
    moving.work.resync = Some(stripes + 1);
    let kind = StepKind::ResyncStripe;
    let left = left_in_reshape(&moving.members, &moving.work, &moving.course, &moving.ahead);
    let event = Event::Step { kind, left };
    append_after_losses(&mut moving.epoch, who, end, roles, mended.spares, event);
    Ok(())
}

/// The last step of the pending resync, whose stripes are all mended, while no window is entered: flushes the members and marks the
/// array clean. Refusals: `TooManyMissing`. It takes no memory.
pub fn end_resync<B: Bank>(moving: &mut Array<B>, who: Who) -> Result<(), Fault>
    requires open { IsCallGoing moving.old.parts.entries who }
    requires caller { who.caller ≢ 254 }
    requires room { 1 ≤ moving.old.parts.steps }
    requires due { IsResyncEndDue moving.old }
    requires active { is_reshaping moving.old.parts.members.newest ≡ true }
    ensures entered { IsStepTaken who moving.old.parts.entries moving.new.parts.entries EndsResync (left_in moving.new.parts.work moving.new.parts.members moving.new.course moving.new.ahead) result }
    ensures called { IsResyncCalled B.tells (B.given moving.old.parts.bank) (B.tape moving.old.parts.bank) (B.tape moving.new.parts.bank) (B.faults_of moving.old.parts.bank) (B.faults_of moving.new.parts.bank) moving.old moving.new }
    ensures work { moving.new.parts.work ≡ record moving.old.parts.work { resync = by_answer result None moving.old.parts.work.resync } }
    ensures left { OnOk result (left_in moving.new.parts.work moving.new.parts.members moving.new.course moving.new.ahead + 1 ≡ left_in moving.old.parts.work moving.old.parts.members moving.old.course moving.old.ahead) }
    ensures caused { IsCausedBy (list_length moving.old.parts.members.newest) 0 AreTooMany moving.old.parts.members moving.new.parts.members result }
    ensures clean { OnOk result (is_clean moving.new.parts.members.newest ≡ true) }
    ensures good { OnOk result (B.tells → OpensFit (moving_world (B.given moving.new.parts.bank) (B.tape moving.new.parts.bank) moving.new)
        → AreRowsGood moving.new.parts.members (present (B.given moving.new.parts.bank) (B.tape moving.new.parts.bank))
        (now (opening_list (moving_world (B.given moving.new.parts.bank) (B.tape moving.new.parts.bank) moving.new)) moving.new.parts.entries)) }
    ensures flushed { OnOk result (B.tells → AreHoldersFlushed (reading_of moving.new.parts.members) (B.given moving.old.parts.bank) (B.tape moving.new.parts.bank)) }
    ensures course { moving.new.course ≡ moving.old.course }
    ensures room { moving.new.parts.steps + 1 ≡ moving.old.parts.steps }
    ensures active { is_reshaping moving.new.parts.members.newest ≡ true }
    ensures given { B.given moving.new.parts.bank ≡ B.given moving.old.parts.bank }
{
    moving.steps -= 1;
    check_going(&moving.epoch.entries, who);
    if let Some(refusal) = too_many(&moving.members) {
        let end = moving.bank.ops();
        append_entry(&mut moving.epoch, who, end, Event::Refused { refusal });
        return Err(Fault::Refused(refusal));
    }
    let count = moving.members.roles.len() as u32;
    let before = unassigned_roles(&moving.members, count);
    let settled = flush_and_mark(&mut moving.members, &mut moving.bank, false);
    let lost = newly_unassigned(&moving.members, count, before);
    let end = moving.bank.ops();
    if let Some(refusal) = settled.refusal {
        let event = Event::Refused { refusal };
        append_after_losses(&mut moving.epoch, who, end, lost, settled.spares, event);
        return Err(Fault::Refused(refusal));
    }
    moving.work.resync = None;
    let kind = StepKind::ResyncEnded;
    let left = left_in_reshape(&moving.members, &moving.work, &moving.course, &moving.ahead);
    let event = Event::Step { kind, left };
    append_after_losses(&mut moving.epoch, who, end, lost, settled.spares, event);
    Ok(())
}
