//! Slots that are made spares.

ghost use Rattle.std.specs.Prelude.{◌≡◌, ◌≢◌, OnOk};
ghost use Rattle.array_open.specs.sb_specs_Reading.{is_reshaping, is_clean, list_length};
ghost use Rattle.array_open.specs.stripe_row_Rows.{present};
ghost use Rattle.history_append.specs.history_Flat.{next_number};
ghost use Rattle.history_append.specs.history_the_Event_TheVariants.{Added};
ghost use Rattle.history_append.specs.history_the_Request_TheVariants.{Add as AsksAdd};
ghost use Rattle.array_open.specs.crash_safety_laws_Marking.{AreOthersPresent};
ghost use Rattle.array_open.specs.array_members_Lacking.{HaveRolesFailed};
ghost use Rattle.array_open.specs.array_call_specs_Calls.{IsAddedFor, IsAddedAs, AreNumbersBorne, IsAnswered, OnNoMemory};
ghost use Rattle.array_open.specs.array_specs_Adding.{IsAddCalled};

use array_call_specs::{Fault, Who};
use array_open::{Running, check_array};
use bank::Bank;

/// Makes a slot a spare, which in a reshape gets no role until that is over: flushes it, and writes its superblock, with the
/// smallest device number that has no role and that no superblock of the array may bear, and with the data offset of the slot that
/// holds the lowest role. Refusals, in this order: `NoSuchSlot`, `SlotTaken`, `TooManyMissing` (in a reshape of either shape),
/// `SlotTooSmall` and `SlotFault`. Where no number is left, or the slot was lost by command and the superblocks still name a role
/// of another one that failed, as they may until the next call that goes on, it counts as want of memory.
pub fn add<B: Bank>(array: &mut Running<B>, who: Who, slot: u32) -> Result<(), Fault>
    requires next { who.number ≡ next_number who.caller array.old.parts.entries }
    requires caller { who.caller ≢ 254 }
    ensures answered { IsAnswered (list_length array.old.parts.members.newest) (AsksAdd slot) who array.old.parts.entries array.new.parts.entries (Added slot) result }
    ensures unchanged { OnNoMemory result (array.new ≡ array.old) }
    ensures caused { IsAddedFor (B.given array.old.parts.bank) array.old.parts.backup slot array.old.parts.members array.new.parts.members (B.faults_of array.old.parts.bank) (B.faults_of array.new.parts.bank) result }
    ensures stored { OnOk result (IsAddedAs array.old.parts.members array.old.parts.work array.new.parts.members slot) }
    ensures numbers { AreNumbersBorne array.old.parts.members.newest slot array.old.parts.work array.new.parts.work result }
    ensures called { IsAddCalled B.tells (B.given array.old.parts.bank) (B.tape array.old.parts.bank) (B.tape array.new.parts.bank) (B.faults_of array.old.parts.bank) (B.faults_of array.new.parts.bank) slot array.old array.new }
    ensures others { B.tells → AreOthersPresent (present (B.given array.old.parts.bank) (B.tape array.old.parts.bank)) (present (B.given array.old.parts.bank) (B.tape array.new.parts.bank)) }
    ensures clean { is_clean array.new.parts.members.newest ≡ is_clean array.old.parts.members.newest }
    ensures failed { HaveRolesFailed array.old.parts.members array.new.parts.members (B.faults_of array.old.parts.bank) (B.faults_of array.new.parts.bank) }
    ensures active { is_reshaping array.new.parts.members.newest ≡ is_reshaping array.old.parts.members.newest }
    ensures course { array.new.course ≡ array.old.course }
    ensures given { B.given array.new.parts.bank ≡ B.given array.old.parts.bank }
{
    let done = array_open::add(&mut array.array, who, slot);
    check_array(&array.array);
    done
}
