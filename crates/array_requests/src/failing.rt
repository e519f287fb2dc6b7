//! Members that are failed by command.

ghost use Rattle.std.specs.Prelude.{◌≡◌, ◌≢◌};
ghost use Rattle.array_open.specs.sb_specs_Reading.{is_reshaping, is_clean, list_length};
ghost use Rattle.array_open.specs.stripe_row_Rows.{present};
ghost use Rattle.history_append.specs.history_Flat.{next_number};
ghost use Rattle.history_append.specs.history_the_Event_TheVariants.{Failed};
ghost use Rattle.history_append.specs.history_the_Request_TheVariants.{Fail as AsksFail};
ghost use Rattle.array_open.specs.crash_safety_laws_Marking.{AreOthersPresent};
ghost use Rattle.array_open.specs.array_call_specs_Calls.{IsAnswered, IsFailedFor, OnNoMemory};
ghost use Rattle.array_open.specs.array_specs_Calls.{IsCalled};

use array_call_specs::{Fault, Who};
use array_open::{Running, check_array};
use bank::Bank;

/// Takes the slot of this role out of the array, and names the role missing in the superblocks of the others. Refusals:
/// `NoSuchRole`.
pub fn fail<B: Bank>(array: &mut Running<B>, who: Who, role: u32) -> Result<(), Fault>
    requires next { who.number ≡ next_number who.caller array.old.parts.entries }
    requires caller { who.caller ≢ 254 }
    ensures answered { IsAnswered (list_length array.old.parts.members.newest) (AsksFail role) who array.old.parts.entries array.new.parts.entries (Failed role) result }
    ensures unchanged { OnNoMemory result (array.new ≡ array.old) }
    ensures called { IsCalled B.tells (B.given array.old.parts.bank) (B.tape array.old.parts.bank) (B.tape array.new.parts.bank) (B.faults_of array.old.parts.bank) (B.faults_of array.new.parts.bank) array.old array.new }
    ensures others { B.tells → AreOthersPresent (present (B.given array.old.parts.bank) (B.tape array.old.parts.bank)) (present (B.given array.old.parts.bank) (B.tape array.new.parts.bank)) }
    ensures clean { is_clean array.new.parts.members.newest ≡ is_clean array.old.parts.members.newest }
    ensures caused { IsFailedFor role array.old.parts.members array.new.parts.members result }
    ensures active { is_reshaping array.new.parts.members.newest ≡ is_reshaping array.old.parts.members.newest }
    ensures course { array.new.course ≡ array.old.course }
    ensures given { B.given array.new.parts.bank ≡ B.given array.old.parts.bank }
{
    let done = array_open::fail(&mut array.array, who, role);
    check_array(&array.array);
    done
}
