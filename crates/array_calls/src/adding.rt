//! Slots that are made spares.

ghost use Rattle.array_type.specs.array_call_specs_Calls.{IsUnaddable, IsAddedFor, IsAddedAs, IsWorkAdded, AreNumbersBorne, IsAnswered, OnNoMemory};
ghost use Rattle.array_type.specs.array_fixed_laws_Steps.{IsStepped};
ghost use Rattle.array_type.specs.array_members_Lacking.{AreUnnamed, HaveRolesFailed};
ghost use Rattle.array_type.specs.array_members_Numbers.{free_number};
ghost use Rattle.array_type.specs.array_members_Placed.{AreWhole, AreStillHeld};
ghost use Rattle.array_type.specs.array_members_Rebuilding.{Held};
ghost use Rattle.array_type.specs.array_specs_Adding.{IsAddCalled};
ghost use Rattle.array_type.specs.crash_safety_laws_Marking.{AreOthersPresent};
ghost use Rattle.array_type.specs.history_Flat.{next_number};
ghost use Rattle.array_type.specs.history_the_Event_TheVariants.{Added};
ghost use Rattle.array_type.specs.history_the_Request_TheVariants.{Add as AsksAdd};
ghost use Rattle.array_type.specs.raid_types_Shapes.{has_slot};
ghost use Rattle.array_type.specs.raid_types_the_Refusal.{Refusal};
ghost use Rattle.array_type.specs.sb_specs_Reading.{is_clean, list_length, is_reshaping};
ghost use Rattle.array_type.specs.sb_specs_Reads.{has_spare};
ghost use Rattle.array_type.specs.stripe_row_Rows.{present};
ghost use Rattle.std.specs.Prelude.{◌≡◌, ◌≢◌, ◌⊎◌, ◌<◌, ℕ, true, false, Some, OnOk};

use array_type::{
    Array, Bank, Event, Fault, Refusal, Who, add_member, append_after_losses, append_entry, bear,
    check_number, contains, free_number, has_unnamed, look_at, newly_unassigned, spare_for,
    unaddable, unassigned_roles, with, without,
};

// Whether the slot was lost without a failure of its own, and the superblocks still name a role that no slot holds.
fn is_held_up<B: Bank>(array: &Array<B>, slot: u32) -> bool
    requires slot { slot < (B.given array.now.parts.bank).slots }
    ensures fresh { result ≡ false → has_slot array.now.parts.members.lost slot ≡ true → B.faults_of array.now.parts.bank slot ≡ 0 → AreUnnamed array.now.parts.members }
{
    contains(array.members.lost, slot)
        && array.bank.faults(slot) == 0
        && has_unnamed(&array.members)
}

// Makes a slot a spare that may be one, with this device number, which is free.
fn make_spare<B: Bank>(array: &mut Array<B>, who: Who, slot: u32, number: u32) -> Result<(), Fault>
    requires next { who.number ≡ next_number who.caller array.old.parts.entries }
    requires caller { who.caller ≢ 254 }
    requires addable { (refusal : Refusal) → IsUnaddable (B.given array.old.parts.bank) array.old.parts.backup slot array.old.parts.members refusal → ⊥ }
    requires number { free_number array.old.parts.members.newest array.old.parts.work ≡ Some number }
    requires fresh { has_slot array.old.parts.members.lost slot ≡ true → B.faults_of array.old.parts.bank slot ≡ 0 → AreUnnamed array.old.parts.members }
    ensures answered { IsAnswered (list_length array.old.parts.members.newest) (AsksAdd slot) who array.old.parts.entries array.new.parts.entries (Added slot) result }
    ensures unchanged { OnNoMemory result (array.new ≡ array.old) }
    ensures caused { IsAddedFor (B.given array.old.parts.bank) array.old.parts.backup slot array.old.parts.members array.new.parts.members (B.faults_of array.old.parts.bank) (B.faults_of array.new.parts.bank) result }
    ensures stored { OnOk result (IsAddedAs array.old.parts.members array.old.parts.work array.new.parts.members slot) }
    ensures spares { (s : ℕ) → has_spare array.new.parts.members.spares s ≡ true → (has_spare array.old.parts.members.spares s ≡ true) ⊎ (s ≡ slot) }
    ensures stepped { IsStepped B.tells (B.given array.old.parts.bank) (B.tape array.old.parts.bank) (B.tape array.new.parts.bank) (Held array.old.parts.members) (B.faults_of array.old.parts.bank) (B.faults_of array.new.parts.bank) array.old array.new }
    ensures others { B.tells → AreOthersPresent (present (B.given array.old.parts.bank) (B.tape array.old.parts.bank)) (present (B.given array.old.parts.bank) (B.tape array.new.parts.bank)) }
    ensures clean { is_clean array.new.parts.members.newest ≡ is_clean array.old.parts.members.newest }
    ensures held { AreStillHeld array.old.parts.members array.new.parts.members }
    ensures whole { AreWhole array.new.parts.members → AreWhole array.old.parts.members }
    ensures work { IsWorkAdded array.old.parts.members.newest slot array.old.parts.work array.new.parts.work }
    ensures numbers { AreNumbersBorne array.old.parts.members.newest slot array.old.parts.work array.new.parts.work result }
    ensures active { is_reshaping array.new.parts.members.newest ≡ is_reshaping array.old.parts.members.newest }
    ensures given { B.given array.new.parts.bank ≡ B.given array.old.parts.bank }
    ensures called { IsAddCalled B.tells (B.given array.old.parts.bank) (B.tape array.old.parts.bank) (B.tape array.new.parts.bank) (B.faults_of array.old.parts.bank) (B.faults_of array.new.parts.bank) slot array.old array.new }
    ensures failed { HaveRolesFailed array.old.parts.members array.new.parts.members (B.faults_of array.old.parts.bank) (B.faults_of array.new.parts.bank) }
    ensures course { array.new.course ≡ array.old.course }
{
    match array.epoch.entries.make_room(50) {
        Ok(()) => {}
        Err(_) => return Err(Fault::NoMemory),
    }
    array.steps = 0;
    check_number(&array.epoch.entries, who);
    let refusal = Refusal::SlotFault(slot);
    let Some(second) = look_at(&mut array.bank, slot) else {
        let end = array.bank.ops();
        append_entry(&mut array.epoch, who, end, Event::Refused { refusal });
        return Err(Fault::Refused(refusal));
    };
    let uuid = &array.epoch.uuid;
    let sb = spare_for(&array.members, &array.bank, uuid, slot, number, &second);
    let count = array.members.roles.len() as u32;
    let before = unassigned_roles(&array.members, count);
    let lost = add_member(&mut array.members, &mut array.bank, slot, &sb);
    let roles = newly_unassigned(&array.members, count, before);
    let spares = without(lost, with(0, slot));
    let end = array.bank.ops();
    if contains(lost, slot) {
        bear(&mut array.work, slot, number, false);
        let event = Event::Refused { refusal };
        append_after_losses(&mut array.epoch, who, end, roles, spares, event);
        return Err(Fault::Refused(refusal));
    }
    bear(&mut array.work, slot, number, true);
    let event = Event::Added { slot };
    append_after_losses(&mut array.epoch, who, end, roles, spares, event);
    Ok(())
}

/// Makes a slot a spare, which gets no role while a reshape is active: flushes it, and writes its superblock, with the smallest
/// device number that has no role and that no superblock of the array may bear, and with the data offset of the slot that holds the
/// lowest role. Refusals, in this order: `NoSuchSlot`, `SlotTaken`, `TooManyMissing` (in a reshape of either shape), `SlotTooSmall` and
/// `SlotFault`. Where no number is left, or the slot was lost by command and the superblocks still name a role of another one that
/// failed, as they may until the next call that goes on, it counts as want of memory.
pub fn add<B: Bank>(array: &mut Array<B>, who: Who, slot: u32) -> Result<(), Fault>
    requires next { who.number ≡ next_number who.caller array.old.parts.entries }
    requires caller { who.caller ≢ 254 }
    ensures answered { IsAnswered (list_length array.old.parts.members.newest) (AsksAdd slot) who array.old.parts.entries array.new.parts.entries (Added slot) result }
    ensures unchanged { OnNoMemory result (array.new ≡ array.old) }
    ensures caused { IsAddedFor (B.given array.old.parts.bank) array.old.parts.backup slot array.old.parts.members array.new.parts.members (B.faults_of array.old.parts.bank) (B.faults_of array.new.parts.bank) result }
    ensures stored { OnOk result (IsAddedAs array.old.parts.members array.old.parts.work array.new.parts.members slot) }
    ensures spares { (s : ℕ) → has_spare array.new.parts.members.spares s ≡ true → (has_spare array.old.parts.members.spares s ≡ true) ⊎ (s ≡ slot) }
    ensures stepped { IsStepped B.tells (B.given array.old.parts.bank) (B.tape array.old.parts.bank) (B.tape array.new.parts.bank) (Held array.old.parts.members) (B.faults_of array.old.parts.bank) (B.faults_of array.new.parts.bank) array.old array.new }
    ensures others { B.tells → AreOthersPresent (present (B.given array.old.parts.bank) (B.tape array.old.parts.bank)) (present (B.given array.old.parts.bank) (B.tape array.new.parts.bank)) }
    ensures clean { is_clean array.new.parts.members.newest ≡ is_clean array.old.parts.members.newest }
    ensures held { AreStillHeld array.old.parts.members array.new.parts.members }
    ensures whole { AreWhole array.new.parts.members → AreWhole array.old.parts.members }
    ensures work { IsWorkAdded array.old.parts.members.newest slot array.old.parts.work array.new.parts.work }
    ensures numbers { AreNumbersBorne array.old.parts.members.newest slot array.old.parts.work array.new.parts.work result }
    ensures active { is_reshaping array.new.parts.members.newest ≡ is_reshaping array.old.parts.members.newest }
    ensures given { B.given array.new.parts.bank ≡ B.given array.old.parts.bank }
    ensures called { IsAddCalled B.tells (B.given array.old.parts.bank) (B.tape array.old.parts.bank) (B.tape array.new.parts.bank) (B.faults_of array.old.parts.bank) (B.faults_of array.new.parts.bank) slot array.old array.new }
    ensures failed { HaveRolesFailed array.old.parts.members array.new.parts.members (B.faults_of array.old.parts.bank) (B.faults_of array.new.parts.bank) }
    ensures course { array.new.course ≡ array.old.course }
{
    let Some(refusal) = unaddable(&array.members, &array.bank, array.backup, slot) else {
        let Some(number) = free_number(&array.members.newest, &array.work) else {
            return Err(Fault::NoMemory);
        };
        if is_held_up(array, slot) {
            return Err(Fault::NoMemory);
        }
        return make_spare(array, who, slot, number);
    };
    match array.epoch.entries.make_room(50) {
        Ok(()) => {}
        Err(_) => return Err(Fault::NoMemory),
    }
    array.steps = 0;
    check_number(&array.epoch.entries, who);
    let end = array.bank.ops();
    append_entry(&mut array.epoch, who, end, Event::Refused { refusal });
    Err(Fault::Refused(refusal))
}
