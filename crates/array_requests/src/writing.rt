//! Writes to a running array.

ghost use Rattle.std.specs.Prelude.{◌≡◌, ◌≢◌, ◌+◌, ◌/◌, ◌^◌, ◌<◌, ◌≤◌, true, false, length, Err, IfSome, OnOk, OnErr, IsFalse, IsSome};
ghost use Rattle.array_call_specs.specs.raid_types_Sectors.{IsWhole, sectors_of};
ghost use Rattle.array_call_specs.specs.raid_types_the_Fault_TheVariants.{Refused as IsRefusedWith};
ghost use Rattle.array_call_specs.specs.raid_types_the_Refusal_TheVariants.{BackupFault};
ghost use Rattle.bank.specs.Given.{IsFaulted};
ghost use Rattle.array_open.specs.sb_specs_Reading.{is_reshaping, is_clean, shape_of, list_length};
ghost use Rattle.array_open.specs.stripe_row_Rows.{present};
ghost use Rattle.history_append.specs.history_Flat.{next_number};
ghost use Rattle.history_append.specs.history_the_Event_TheVariants.{Wrote};
ghost use Rattle.history_append.specs.history_the_Request_TheVariants.{Write as AsksWrite};
ghost use Rattle.array_open.specs.crash_safety_laws_Marking.{AreOthersPresent};
ghost use Rattle.array_open.specs.array_members_Lacking.{HaveRolesFailed, are_synced, synced_rows};
ghost use Rattle.array_open.specs.sb_safe_updates_First.{write_refusal, call_refusal, IsFirstRefused};
ghost use Rattle.array_open.specs.array_call_specs_Calls.{IsAnswered, IsCausedBy, OnNoMemory, has_torn};
ghost use Rattle.array_open.specs.reshape_progress_Laws.{closed};
ghost use Rattle.array_open.specs.array_specs_Parts.{visible_in, left_in};
ghost use Rattle.array_open.specs.array_specs_Calls.{IsCalled};
ghost use Rattle.array_open.specs.array_reshaping_laws_Writing.{TouchesWindow, IsWriteEntered, IsWriteReplied};
ghost use Rattle.array_open.specs.array_Calls.{IsWriteLackedIn};

use array_call_specs::{Fault, Who};
use array_open::{Running, check_array, write_at_rest, write_in_reshape};
use bank::Bank;

/// Makes the list hold `from`, of 1 to 128 whole sectors, from `at` on. Where some lie in the open window of a reshape, that is
/// finished first. Refusals: `PastEnd`, `TooManyMissing` (in a reshape of a shape that places one of the sectors, or, where the
/// window has to be finished, of either), `NotResynced` where a resync is pending, and `BackupFault` where some lie in a window
/// whose entering failed.
pub fn write<B: Bank>(array: &mut Running<B>, who: Who, at: u64, from: &[u8]) -> Result<(), Fault>
    requires next { who.number ≡ next_number who.caller array.old.parts.entries }
    requires caller { who.caller ≢ 254 }
    requires whole { IsWhole from.now }
    requires some { 0 < length from.now / 512 }
    requires few { length from.now / 512 ≤ 128 }
    requires short { at + length from.now / 512 < 2 ^ 63 }
    ensures answered { IsWriteReplied (list_length array.old.parts.members.newest) at (sectors_of from.now) who array.old.parts.entries array.new.parts.entries result }
    ensures answered_still { is_reshaping array.old.parts.members.newest ≡ false
        → IsAnswered (list_length array.old.parts.members.newest) (AsksWrite at (sectors_of from.now)) who array.old.parts.entries array.new.parts.entries (Wrote at (sectors_of from.now)) result }
    ensures entered { is_reshaping array.old.parts.members.newest ≡ true → IsWriteEntered array.old.course.window at (at + length from.now / 512) (sectors_of from.now) who array.old.parts.entries array.new.parts.entries
        (left_in array.new.parts.work array.new.parts.members array.new.course array.new.ahead) result }
    ensures unchanged { OnNoMemory result (array.new ≡ array.old) }
    ensures called { IsCalled B.tells (B.given array.old.parts.bank) (B.tape array.old.parts.bank) (B.tape array.new.parts.bank) (B.faults_of array.old.parts.bank) (B.faults_of array.new.parts.bank) array.old array.new }
    ensures dirty { OnOk result (is_clean array.new.parts.members.newest ≡ false) }
    ensures untouched { OnErr result (is_reshaping array.old.parts.members.newest ≡ false → IsFalse (has_torn array.old.parts.entries array.new.parts.entries) → B.tells
        → AreOthersPresent (present (B.given array.old.parts.bank) (B.tape array.old.parts.bank)) (present (B.given array.old.parts.bank) (B.tape array.new.parts.bank))) }
    ensures caused { IsCausedBy (visible_in array.old) (at + length from.now / 512) (IsWriteLackedIn array.old at (length from.now / 512)) array.old.parts.members array.new.parts.members result }
    ensures first { is_reshaping array.old.parts.members.newest ≡ false → IsFirstRefused (λ members. call_refusal (visible_in array.old) (at + length from.now / 512)
        (write_refusal (shape_of array.old.parts.members.newest) (are_synced (shape_of array.old.parts.members.newest) (synced_rows array.old.parts.work.resync array.old.parts.members) (at + length from.now / 512)) members))
        array.old.parts.members array.new.parts.members result }
    ensures backed { is_reshaping array.old.parts.members.newest ≡ true → IsSome array.old.parts.backup }
    ensures backup { result ≡ Err (IsRefusedWith BackupFault) → IfSome array.old.parts.backup (λ slot. IsFaulted slot (B.faults_of array.old.parts.bank) (B.faults_of array.new.parts.bank)) }
    ensures barred { result ≡ Err (IsRefusedWith BackupFault) → is_reshaping array.old.parts.members.newest ≡ true }
    ensures active { is_reshaping array.new.parts.members.newest ≡ is_reshaping array.old.parts.members.newest }
    ensures failed { HaveRolesFailed array.old.parts.members array.new.parts.members (B.faults_of array.old.parts.bank) (B.faults_of array.new.parts.bank) }
    ensures course { (TouchesWindow array.old.course.window at (at + length from.now / 512) → ⊥) → array.new.course ≡ array.old.course }
    ensures closed { OnOk result (TouchesWindow array.old.course.window at (at + length from.now / 512) → array.new.course ≡ closed 0) }
    ensures given { B.given array.new.parts.bank ≡ B.given array.old.parts.bank }
{
    if array.array.is_reshaping() {
        let done = write_in_reshape(&mut array.array, who, at, from);
        check_array(&array.array);
        return done;
    }
    let done = write_at_rest(&mut array.array, who, at, from);
    check_array(&array.array);
    done
}
