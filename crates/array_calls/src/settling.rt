//! Flushes.

ghost use Rattle.array_type.specs.array_call_specs_Calls.{IsSettled, IsSettling, IsAnswered, IsCausedBy, OnNoMemory};
ghost use Rattle.array_type.specs.array_members_Lacking.{HaveRolesFailed, AreHoldersFlushed, AreTooMany};
ghost use Rattle.array_type.specs.array_members_Placed.{AreWhole};
ghost use Rattle.array_type.specs.array_specs_Calls.{IsCalled};
ghost use Rattle.array_type.specs.array_specs_Still.{AreLeftSettled};
ghost use Rattle.array_type.specs.crash_safety_laws_Marking.{AreOthersPresent};
ghost use Rattle.array_type.specs.history_Flat.{next_number};
ghost use Rattle.array_type.specs.history_the_Event_TheVariants.{Flushed};
ghost use Rattle.array_type.specs.history_the_Request_TheVariants.{Flush as AsksFlush};
ghost use Rattle.array_type.specs.sb_specs_Reading.{is_clean, list_length, is_reshaping};
ghost use Rattle.array_type.specs.stripe_row_Rows.{reading_of, present};
ghost use Rattle.std.specs.Prelude.{◌≡◌, ◌≢◌, length, true, None, OnOk};

use array_type::{
    Array, Bank, Event, Fault, Who, append_after_losses, append_entry, check_number,
    flush_and_mark, newly_unassigned, too_many, unassigned_roles,
};

// Flushes the members, marks the array clean, unless a resync is pending, and enters this event, `Flushed` or `Stopped`.
pub(crate) fn settle_entering<B: Bank>(
    array: &mut Array<B>,
    who: Who,
    event: Event,
) -> Result<(), Fault>
    requires next { who.number ≡ next_number who.caller array.old.parts.entries }
    requires caller { who.caller ≢ 254 }
    requires event { IsSettling event }
    ensures answered { IsSettled who array.old.parts.entries array.new.parts.entries event result }
    ensures unchanged { OnNoMemory result (array.new ≡ array.old) }
    ensures flushed { OnOk result (B.tells → AreHoldersFlushed (reading_of array.new.parts.members) (B.given array.old.parts.bank) (B.tape array.new.parts.bank)) }
    ensures left { OnOk result (B.tells → AreLeftSettled array.old.parts.members array.old.parts.entries array.new.parts.entries (B.given array.old.parts.bank) (B.tape array.new.parts.bank)) }
    ensures called { IsCalled B.tells (B.given array.old.parts.bank) (B.tape array.old.parts.bank) (B.tape array.new.parts.bank) (B.faults_of array.old.parts.bank) (B.faults_of array.new.parts.bank) array.old array.new }
    ensures whole { AreWhole array.new.parts.members → AreWhole array.old.parts.members }
    ensures others { B.tells → AreOthersPresent (present (B.given array.old.parts.bank) (B.tape array.old.parts.bank)) (present (B.given array.old.parts.bank) (B.tape array.new.parts.bank)) }
    ensures clean { OnOk result (array.old.parts.work.resync ≡ None → is_clean array.new.parts.members.newest ≡ true) }
    ensures caused { IsCausedBy (list_length array.old.parts.members.newest) 0 AreTooMany array.old.parts.members array.new.parts.members result }
    ensures last { OnOk result (B.tells → array.new.parts.last ≡ length (B.tape array.new.parts.bank)) }
    ensures failed { HaveRolesFailed array.old.parts.members array.new.parts.members (B.faults_of array.old.parts.bank) (B.faults_of array.new.parts.bank) }
    ensures active { is_reshaping array.new.parts.members.newest ≡ is_reshaping array.old.parts.members.newest }
    ensures given { B.given array.new.parts.bank ≡ B.given array.old.parts.bank }
    ensures course { array.new.course ≡ array.old.course }
{
    match array.epoch.entries.make_room(50) {
        Ok(()) => {}
        Err(_) => return Err(Fault::NoMemory),
    }
    array.steps = 0;
    check_number(&array.epoch.entries, who);
    if let Some(refusal) = too_many(&array.members) {
        let end = array.bank.ops();
        append_entry(&mut array.epoch, who, end, Event::Refused { refusal });
        return Err(Fault::Refused(refusal));
    }
    let count = array.members.roles.len() as u32;
    let before = unassigned_roles(&array.members, count);
    let settled = flush_and_mark(
        &mut array.members,
        &mut array.bank,
        array.work.resync.is_some(),
    );
    let roles = newly_unassigned(&array.members, count, before);
    let end = array.bank.ops();
    if let Some(refusal) = settled.refusal {
        let event = Event::Refused { refusal };
        append_after_losses(&mut array.epoch, who, end, roles, settled.spares, event);
        return Err(Fault::Refused(refusal));
    }
    append_after_losses(&mut array.epoch, who, end, roles, settled.spares, event);
    Ok(())
}

/// Makes what was written durable, and marks the array clean, unless a resync is pending. Refusals:
/// `TooManyMissing`.
pub fn flush<B: Bank>(array: &mut Array<B>, who: Who) -> Result<(), Fault>
    requires next { who.number ≡ next_number who.caller array.old.parts.entries }
    requires caller { who.caller ≢ 254 }
    ensures answered { IsAnswered (list_length array.old.parts.members.newest) AsksFlush who array.old.parts.entries array.new.parts.entries Flushed result }
    ensures unchanged { OnNoMemory result (array.new ≡ array.old) }
    ensures flushed { OnOk result (B.tells → AreHoldersFlushed (reading_of array.new.parts.members) (B.given array.old.parts.bank) (B.tape array.new.parts.bank)) }
    ensures called { IsCalled B.tells (B.given array.old.parts.bank) (B.tape array.old.parts.bank) (B.tape array.new.parts.bank) (B.faults_of array.old.parts.bank) (B.faults_of array.new.parts.bank) array.old array.new }
    ensures whole { AreWhole array.new.parts.members → AreWhole array.old.parts.members }
    ensures others { B.tells → AreOthersPresent (present (B.given array.old.parts.bank) (B.tape array.old.parts.bank)) (present (B.given array.old.parts.bank) (B.tape array.new.parts.bank)) }
    ensures clean { OnOk result (array.old.parts.work.resync ≡ None → is_clean array.new.parts.members.newest ≡ true) }
    ensures caused { IsCausedBy (list_length array.old.parts.members.newest) 0 AreTooMany array.old.parts.members array.new.parts.members result }
    ensures failed { HaveRolesFailed array.old.parts.members array.new.parts.members (B.faults_of array.old.parts.bank) (B.faults_of array.new.parts.bank) }
    ensures active { is_reshaping array.new.parts.members.newest ≡ is_reshaping array.old.parts.members.newest }
    ensures given { B.given array.new.parts.bank ≡ B.given array.old.parts.bank }
    ensures course { array.new.course ≡ array.old.course }
{
    settle_entering(array, who, Event::Flushed)
}
