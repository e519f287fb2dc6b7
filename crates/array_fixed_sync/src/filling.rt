//! The steps of a rebuild.

ghost use Rattle.std.specs.Prelude.{◌≡◌, ◌≢◌, ◌+◌, ◌<◌, ◌≤◌, ◌∷◌, [], true, None, Err, OnOk, OnErr, false};
ghost use Rattle.array_fixed_io.specs.raid_types_the_Fault_TheVariants.{NoMemory as WantsMemory};
ghost use Rattle.array_fixed_io.specs.sb_specs_Reading.{shape_of, is_clean, list_length, is_reshaping};
ghost use Rattle.array_fixed_io.specs.sb_specs_Reads.{has_spare};
ghost use Rattle.array_fixed_io.specs.stripe_row_Rows.{reading_of, present};
ghost use Rattle.array_fixed_io.specs.history_Flat.{now};
ghost use Rattle.array_fixed_io.specs.history_Sound.{OpensFit};
ghost use Rattle.array_fixed_io.specs.history_World.{opening_list};
ghost use Rattle.array_fixed_io.specs.history_the_Event_TheVariants.{Step, Rebuilt as IsRebuilt};
ghost use Rattle.array_fixed_io.specs.history_the_StepKind_TheVariants.{RebuildTaken as TakesRole, RebuildStripe as FillsStripe, RebuildEnded as EndsRebuild};
ghost use Rattle.array_fixed_io.specs.crash_views_Regions.{DoWithout};
ghost use Rattle.array_fixed_io.specs.array_members_Lacking.{AreTooMany, RowsStand};
ghost use Rattle.array_fixed_io.specs.array_members_Placed.{is_unassigned, AreStillHeld};
ghost use Rattle.array_fixed_io.specs.array_members_Rebuilding.{Held};
ghost use Rattle.array_fixed_io.specs.array_members_Status.{rebuilt_of};
ghost use Rattle.array_fixed_io.specs.array_call_specs_Calls.{AreSparesFewer, IsHeldOrGiven, AreHeldOrSpare, HasStripeUnbuilt, AreStripesRebuilt, IsWholeOrLost, IsRecoveredOrLost, with_rebuilt, by_answer, AreStepsFewer, AreStepsKept, IsRebuildStepped, IsCausedBy};
ghost use Rattle.array_fixed_io.specs.history_invariant_Recorded.{IsCallGoing};
ghost use Rattle.array_fixed_io.specs.array_specs_Parts.{still_left};
ghost use Rattle.array_fixed_io.specs.array_specs_Calls.{moving_world};
ghost use Rattle.array_fixed_io.specs.array_specs_Plans.{ArePlansKept};
ghost use Rattle.array_fixed_io.specs.array_fixed_laws_Steps.{IsStepped, IsClosable, IsCallUnbroken};

use crate::naming::{fill_and_name, give_and_name, record_and_name};
use crate::refusing::refuse_step;
use array_fixed_io::{
    Array, Bank, Event, Fault, StepKind, Who, append_after_losses, append_entry, append_lost,
    check_going, is_unassigned, left_at_rest, newly_unassigned, recovering_slot, set_rebuilt,
    shape_in, too_many, unassigned_roles, with, without,
};

/// The first step of a rebuild: gives a role that no slot holds to a spare, which recovers it from the first row on.
/// Where that slot is lost in it, so is the role. Refusals: `TooManyMissing`. It takes no memory.
pub fn take_role<B: Bank>(still: &mut Array<B>, who: Who, role: u32, slot: u32) -> Result<(), Fault>
    requires open { IsCallGoing still.old.parts.entries who }
    requires caller { who.caller ≢ 254 }
    requires role { role < (shape_of still.old.parts.members.newest).disks }
    requires vacant { is_unassigned (reading_of still.old.parts.members) role ≡ true }
    requires spare { has_spare still.old.parts.members.spares slot ≡ true }
    requires plans { ArePlansKept B.tells (moving_world (B.given still.old.parts.bank) (B.tape still.old.parts.bank) still.old) still.old }
    requires room { 1 ≤ still.old.parts.steps }
    requires still { is_reshaping still.old.parts.members.newest ≡ false }
    ensures entered { IsRebuildStepped who still.old.parts.entries still.new.parts.entries still.new.parts.members role (Step TakesRole (still_left still.new.parts.work still.new.parts.members still.new.ahead) ∷ []) result }
    ensures memory { result ≢ Err WantsMemory }
    ensures stepped { IsStepped B.tells (B.given still.old.parts.bank) (B.tape still.old.parts.bank) (B.tape still.new.parts.bank) (IsHeldOrGiven still.old.parts.members role slot) (B.faults_of still.old.parts.bank) (B.faults_of still.new.parts.bank) still.old still.new }
    ensures taken { OnOk result (IsRecoveredOrLost still.new.parts.members role slot) }
    ensures held { AreHeldOrSpare still.old.parts.members still.new.parts.members }
    ensures work { still.new.parts.work ≡ by_answer result (with_rebuilt role 0 still.old.parts.work) still.old.parts.work }
    ensures left { OnOk result (AreStepsFewer still.old.parts.entries still.new.parts.entries (still_left still.old.parts.work still.old.parts.members still.old.ahead) (still_left still.new.parts.work still.new.parts.members still.new.ahead)) }
    ensures stays { OnErr result (AreStepsKept still.old.parts.entries still.new.parts.entries (still_left still.old.parts.work still.old.parts.members still.old.ahead) (still_left still.new.parts.work still.new.parts.members still.new.ahead)) }
    ensures closable { OnOk result (IsClosable still.new) }
    ensures caused { IsCausedBy (list_length still.old.parts.members.newest) 0 AreTooMany still.old.parts.members still.new.parts.members result }
    ensures clean { is_clean still.new.parts.members.newest ≡ is_clean still.old.parts.members.newest }
    ensures open { IsCallGoing still.new.parts.entries who }
    ensures room { still.new.parts.steps + 1 ≡ still.old.parts.steps }
    ensures still { is_reshaping still.new.parts.members.newest ≡ false }
    ensures given { B.given still.new.parts.bank ≡ B.given still.old.parts.bank }
{
    if let Some(refusal) = too_many(&still.members) {
        refuse_step(still, who, refusal);
        return Err(Fault::Refused(refusal));
    }
    still.steps -= 1;
    check_going(&still.epoch.entries, who);
    let disks = shape_in(&still.members).disks;
    let before = without(unassigned_roles(&still.members, disks), with(0, role));
    let spares = give_and_name(&mut still.members, &mut still.bank, role, slot);
    let roles = newly_unassigned(&still.members, disks, before);
    set_rebuilt(&mut still.work, role, 0);
    let end = still.bank.ops();
    let kind = StepKind::RebuildTaken;
    let left = left_at_rest(&still.members, &still.work, &still.ahead);
    let event = Event::Step { kind, left };
    append_after_losses(&mut still.epoch, who, end, roles, spares, event);
    Ok(())
}

/// A step of a rebuild: rebuilds the next stripe of the role on the slot that recovers it. Where that slot is lost, this ends
/// the rebuild, and only the loss is entered. Refusals: `TooManyMissing`. It takes no memory.
pub fn rebuild_stripe<B: Bank>(still: &mut Array<B>, who: Who, role: u32) -> Result<(), Fault>
    requires open { IsCallGoing still.old.parts.entries who }
    requires caller { who.caller ≢ 254 }
    requires pending { HasStripeUnbuilt still.old.parts.work still.old.parts.members role }
    requires synced { still.old.parts.work.resync ≡ None }
    requires room { 1 ≤ still.old.parts.steps }
    requires still { is_reshaping still.old.parts.members.newest ≡ false }
    ensures entered { IsRebuildStepped who still.old.parts.entries still.new.parts.entries still.new.parts.members role (Step FillsStripe (still_left still.new.parts.work still.new.parts.members still.new.ahead) ∷ []) result }
    ensures memory { result ≢ Err WantsMemory }
    ensures stepped { IsStepped B.tells (B.given still.old.parts.bank) (B.tape still.old.parts.bank) (B.tape still.new.parts.bank) (Held still.old.parts.members) (B.faults_of still.old.parts.bank) (B.faults_of still.new.parts.bank) still.old still.new }
    ensures held { AreStillHeld still.old.parts.members still.new.parts.members }
    ensures spares { AreSparesFewer still.old.parts.members still.new.parts.members }
    ensures work { still.new.parts.work ≡ by_answer result (with_rebuilt role (rebuilt_of still.old.parts.work role + 1) still.old.parts.work) still.old.parts.work }
    ensures left { OnOk result (AreStepsFewer still.old.parts.entries still.new.parts.entries (still_left still.old.parts.work still.old.parts.members still.old.ahead) (still_left still.new.parts.work still.new.parts.members still.new.ahead)) }
    ensures stays { OnErr result (AreStepsKept still.old.parts.entries still.new.parts.entries (still_left still.old.parts.work still.old.parts.members still.old.ahead) (still_left still.new.parts.work still.new.parts.members still.new.ahead)) }
    ensures closable { OnOk result (IsClosable still.new) }
    ensures caused { IsCausedBy (list_length still.old.parts.members.newest) 0 AreTooMany still.old.parts.members still.new.parts.members result }
    ensures clean { is_clean still.new.parts.members.newest ≡ is_clean still.old.parts.members.newest }
    ensures open { IsCallGoing still.new.parts.entries who }
    ensures room { still.new.parts.steps + 1 ≡ still.old.parts.steps }
    ensures still { is_reshaping still.new.parts.members.newest ≡ false }
    ensures given { B.given still.new.parts.bank ≡ B.given still.old.parts.bank }
{
    if let Some(refusal) = too_many(&still.members) {
        refuse_step(still, who, refusal);
        return Err(Fault::Refused(refusal));
    }
    still.steps -= 1;
    check_going(&still.epoch.entries, who);
    let shape = shape_in(&still.members);
    let before = unassigned_roles(&still.members, shape.disks);
    let stripe = still.work.rebuilt[role as usize];
    let Some(slot) = recovering_slot(&still.members, role) else {
        unreachable!()
    };
    let filled = fill_and_name(
        &mut still.members,
        &mut still.bank,
        &shape,
        role,
        slot,
        stripe,
        &mut still.rows,
        &mut still.buffer,
    );
    let roles = newly_unassigned(&still.members, shape.disks, before);
    let end = still.bank.ops();
    if let Some(refusal) = filled.refusal {
        let event = Event::Refused { refusal };
        append_after_losses(&mut still.epoch, who, end, roles, filled.spares, event);
        return Err(Fault::Refused(refusal));
    }
    set_rebuilt(&mut still.work, role, stripe + 1);
    if is_unassigned(&still.members, role) {
        append_lost(&mut still.epoch, who, end, roles, filled.spares);
        return Ok(());
    }
    let kind = StepKind::RebuildStripe;
    let left = left_at_rest(&still.members, &still.work, &still.ahead);
    let event = Event::Step { kind, left };
    append_after_losses(&mut still.epoch, who, end, roles, filled.spares, event);
    Ok(())
}

/// The last step of a rebuild, all stripes of which are done: flushes the slot that recovers the role, and records the role
/// whole. Where that slot is lost, this ends the rebuild, and only the loss is entered. Refusals: `TooManyMissing`. It takes
/// no memory.
pub fn end_rebuild<B: Bank>(still: &mut Array<B>, who: Who, role: u32) -> Result<(), Fault>
    requires open { IsCallUnbroken B.tells (moving_world (B.given still.old.parts.bank) (B.tape still.old.parts.bank) still.old) still.old.parts.entries who }
    requires caller { who.caller ≢ 254 }
    requires pending { AreStripesRebuilt still.old.parts.work still.old.parts.members role }
    requires synced { still.old.parts.work.resync ≡ None }
    requires plans { ArePlansKept B.tells (moving_world (B.given still.old.parts.bank) (B.tape still.old.parts.bank) still.old) still.old }
    requires room { 1 ≤ still.old.parts.steps }
    requires still { is_reshaping still.old.parts.members.newest ≡ false }
    ensures entered { IsRebuildStepped who still.old.parts.entries still.new.parts.entries still.new.parts.members role (Step EndsRebuild (still_left still.new.parts.work still.new.parts.members still.new.ahead) ∷ IsRebuilt role ∷ []) result }
    ensures memory { result ≢ Err WantsMemory }
    ensures stepped { IsStepped B.tells (B.given still.old.parts.bank) (B.tape still.old.parts.bank) (B.tape still.new.parts.bank) (Held still.old.parts.members) (B.faults_of still.old.parts.bank) (B.faults_of still.new.parts.bank) still.old still.new }
    ensures whole { OnOk result (IsWholeOrLost still.old.parts.members still.new.parts.members role) }
    ensures good { OnOk result (B.tells → DoWithout still.new.parts.members → OpensFit (moving_world (B.given still.new.parts.bank) (B.tape still.new.parts.bank) still.new)
        → RowsStand still.new.parts.members (present (B.given still.new.parts.bank) (B.tape still.new.parts.bank))
        (now (opening_list (moving_world (B.given still.new.parts.bank) (B.tape still.new.parts.bank) still.new)) still.new.parts.entries)) }
    ensures held { AreStillHeld still.old.parts.members still.new.parts.members }
    ensures spares { AreSparesFewer still.old.parts.members still.new.parts.members }
    ensures work { still.new.parts.work ≡ still.old.parts.work }
    ensures left { OnOk result (AreStepsFewer still.old.parts.entries still.new.parts.entries (still_left still.old.parts.work still.old.parts.members still.old.ahead) (still_left still.new.parts.work still.new.parts.members still.new.ahead)) }
    ensures stays { OnErr result (AreStepsKept still.old.parts.entries still.new.parts.entries (still_left still.old.parts.work still.old.parts.members still.old.ahead) (still_left still.new.parts.work still.new.parts.members still.new.ahead)) }
    ensures closable { OnOk result (IsClosable still.new) }
    ensures caused { IsCausedBy (list_length still.old.parts.members.newest) 0 AreTooMany still.old.parts.members still.new.parts.members result }
    ensures clean { is_clean still.new.parts.members.newest ≡ is_clean still.old.parts.members.newest }
    ensures open { IsCallGoing still.new.parts.entries who }
    ensures room { still.new.parts.steps + 1 ≡ still.old.parts.steps }
    ensures still { is_reshaping still.new.parts.members.newest ≡ false }
    ensures given { B.given still.new.parts.bank ≡ B.given still.old.parts.bank }
{
    if let Some(refusal) = too_many(&still.members) {
        refuse_step(still, who, refusal);
        return Err(Fault::Refused(refusal));
    }
    still.steps -= 1;
    check_going(&still.epoch.entries, who);
    let disks = shape_in(&still.members).disks;
    let before = unassigned_roles(&still.members, disks);
    let Some(slot) = recovering_slot(&still.members, role) else {
        unreachable!()
    };
    let spares = record_and_name(&mut still.members, &mut still.bank, role, slot);
    let roles = newly_unassigned(&still.members, disks, before);
    let end = still.bank.ops();
    if is_unassigned(&still.members, role) {
        append_lost(&mut still.epoch, who, end, roles, spares);
        return Ok(());
    }
    let kind = StepKind::RebuildEnded;
    let left = left_at_rest(&still.members, &still.work, &still.ahead);
    let event = Event::Step { kind, left };
    append_after_losses(&mut still.epoch, who, end, roles, spares, event);
    append_entry(&mut still.epoch, who, end, Event::Rebuilt { role });
    Ok(())
}
