//! Members that are failed by command.

ghost use Rattle.array_type.specs.array_call_specs_Calls.{IsAnswered, IsFailedFor, OnNoMemory, HasRole};
ghost use Rattle.array_type.specs.array_specs_Calls.{IsCalled};
ghost use Rattle.array_type.specs.crash_safety_laws_Marking.{AreOthersPresent};
ghost use Rattle.array_type.specs.history_Flat.{next_number};
ghost use Rattle.array_type.specs.history_the_Event_TheVariants.{Failed};
ghost use Rattle.array_type.specs.history_the_Request_TheVariants.{Fail as AsksFail};
ghost use Rattle.array_type.specs.sb_specs_Reading.{is_clean, list_length, role_count, role_state, holder, is_reshaping};
ghost use Rattle.array_type.specs.stripe_row_Rows.{present, reading_of};
ghost use Rattle.std.specs.Prelude.{◌≡◌, ◌≢◌, ◌≤◌, length, Some, IfSome, IfNone};

use array_type::{
    Array, Bank, Event, Fault, LostCause, Members, Refusal, Role, Who, append_after_losses,
    append_entry, check_number, lose_slot, newly_unassigned, record_missing, unassigned_roles,
};

// The slot that holds a role, whole or in part.
fn slot_of(members: &Members, role: u32) -> Option<u32>
    requires few { length members.now.roles ≤ 16 }
    requires roles { length members.now.roles ≡ role_count members.now.newest }
    ensures held { IfSome result (λ slot. holder (role_state (reading_of members.now) role) ≡ Some slot) }
    ensures some { IfSome result (λ slot. HasRole members.now role) }
    ensures none { IfNone result (HasRole members.now role → ⊥) }
{
    if role >= members.roles.len() as u32 {
        return None;
    }
    match members.roles.get(role) {
        Role::Whole(slot) | Role::Recovering(slot) => Some(slot),
        Role::Missing => None,
    }
}

/// Takes the slot of this role out of the array, and names the role missing in the superblocks of the others. Refusals:
/// `NoSuchRole`.
pub fn fail<B: Bank>(array: &mut Array<B>, who: Who, role: u32) -> Result<(), Fault>
    requires next { who.number ≡ next_number who.caller array.old.parts.entries }
    requires caller { who.caller ≢ 254 }
    ensures answered { IsAnswered (list_length array.old.parts.members.newest) (AsksFail role) who array.old.parts.entries array.new.parts.entries (Failed role) result }
    ensures unchanged { OnNoMemory result (array.new ≡ array.old) }
    ensures called { IsCalled B.tells (B.given array.old.parts.bank) (B.tape array.old.parts.bank) (B.tape array.new.parts.bank) (B.faults_of array.old.parts.bank) (B.faults_of array.new.parts.bank) array.old array.new }
    ensures others { B.tells → AreOthersPresent (present (B.given array.old.parts.bank) (B.tape array.old.parts.bank)) (present (B.given array.old.parts.bank) (B.tape array.new.parts.bank)) }
    ensures clean { is_clean array.new.parts.members.newest ≡ is_clean array.old.parts.members.newest }
    ensures caused { IsFailedFor role array.old.parts.members array.new.parts.members result }
    ensures active { is_reshaping array.new.parts.members.newest ≡ is_reshaping array.old.parts.members.newest }
    ensures given { B.given array.new.parts.bank ≡ B.given array.old.parts.bank }
    ensures course { array.new.course ≡ array.old.course }
{
    match array.epoch.entries.make_room(51) {
        Ok(()) => {}
        Err(_) => return Err(Fault::NoMemory),
    }
    array.steps = 0;
    check_number(&array.epoch.entries, who);
    let Some(slot) = slot_of(&array.members, role) else {
        let refusal = Refusal::NoSuchRole(role);
        let end = array.bank.ops();
        append_entry(&mut array.epoch, who, end, Event::Refused { refusal });
        return Err(Fault::Refused(refusal));
    };
    let count = array.members.roles.len() as u32;
    let _ = lose_slot(&mut array.members, slot);
    let before = unassigned_roles(&array.members, count);
    let spares = record_missing(&mut array.members, &mut array.bank);
    let roles = newly_unassigned(&array.members, count, before);
    let end = array.bank.ops();
    let cause = LostCause::Command;
    append_entry(&mut array.epoch, who, end, Event::Lost { role, cause });
    let event = Event::Failed { role };
    append_after_losses(&mut array.epoch, who, end, roles, spares, event);
    Ok(())
}
