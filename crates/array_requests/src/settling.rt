//! Flushes of a running array.

ghost use Rattle.std.specs.Prelude.{◌≡◌, ◌≢◌, true, None, OnOk};
ghost use Rattle.array_open.specs.sb_specs_Reading.{is_reshaping, is_clean, list_length};
ghost use Rattle.array_open.specs.stripe_row_Rows.{reading_of, present};
ghost use Rattle.history_append.specs.history_Flat.{next_number};
ghost use Rattle.history_append.specs.history_the_Event_TheVariants.{Flushed};
ghost use Rattle.history_append.specs.history_the_Request_TheVariants.{Flush as AsksFlush};
ghost use Rattle.array_open.specs.crash_safety_laws_Marking.{AreOthersPresent};
ghost use Rattle.array_open.specs.array_members_Lacking.{HaveRolesFailed, AreHoldersFlushed, AreTooMany};
ghost use Rattle.array_open.specs.array_call_specs_Calls.{IsAnswered, IsCausedBy, OnNoMemory};
ghost use Rattle.array_open.specs.array_specs_Calls.{IsCalled};

use array_call_specs::{Fault, Who};
use array_open::{Running, check_array};
use bank::Bank;

/// Makes what was written durable, and marks the array clean, unless a resync is pending. Refusals: `TooManyMissing`.
pub fn flush<B: Bank>(array: &mut Running<B>, who: Who) -> Result<(), Fault>
    requires next { who.number ≡ next_number who.caller array.old.parts.entries }
    requires caller { who.caller ≢ 254 }
    ensures answered { IsAnswered (list_length array.old.parts.members.newest) AsksFlush who array.old.parts.entries array.new.parts.entries Flushed result }
    ensures unchanged { OnNoMemory result (array.new ≡ array.old) }
    ensures flushed { OnOk result (B.tells → AreHoldersFlushed (reading_of array.new.parts.members) (B.given array.old.parts.bank) (B.tape array.new.parts.bank)) }
    ensures called { IsCalled B.tells (B.given array.old.parts.bank) (B.tape array.old.parts.bank) (B.tape array.new.parts.bank) (B.faults_of array.old.parts.bank) (B.faults_of array.new.parts.bank) array.old array.new }
    ensures others { B.tells → AreOthersPresent (present (B.given array.old.parts.bank) (B.tape array.old.parts.bank)) (present (B.given array.old.parts.bank) (B.tape array.new.parts.bank)) }
    ensures clean { OnOk result (array.old.parts.work.resync ≡ None → is_clean array.new.parts.members.newest ≡ true) }
    ensures caused { IsCausedBy (list_length array.old.parts.members.newest) 0 AreTooMany array.old.parts.members array.new.parts.members result }
    ensures failed { HaveRolesFailed array.old.parts.members array.new.parts.members (B.faults_of array.old.parts.bank) (B.faults_of array.new.parts.bank) }
    ensures active { is_reshaping array.new.parts.members.newest ≡ is_reshaping array.old.parts.members.newest }
    ensures course { array.new.course ≡ array.old.course }
    ensures given { B.given array.new.parts.bank ≡ B.given array.old.parts.bank }
{
    let done = array_open::flush(&mut array.array, who);
    check_array(&array.array);
    done
}
