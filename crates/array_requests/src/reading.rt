//! Reads of a running array.

ghost use Rattle.std.specs.Prelude.{◌≡◌, ◌≢◌, ◌+◌, ◌/◌, ◌^◌, ◌<◌, false, length, OnOk, OnErr};
ghost use Rattle.array_call_specs.specs.raid_types_Sectors.{IsWhole, sectors_of};
ghost use Rattle.bank.specs.Tape.{AreSectors};
ghost use Rattle.array_open.specs.sb_specs_Reading.{is_reshaping, is_clean, shape_of, list_length};
ghost use Rattle.array_open.specs.stripe_row_Rows.{present};
ghost use Rattle.history_append.specs.history_Flat.{next_number, now};
ghost use Rattle.history_append.specs.history_World.{opening_list};
ghost use Rattle.history_append.specs.history_the_Event_TheVariants.{Read};
ghost use Rattle.history_append.specs.history_the_Request_TheVariants.{Read as AsksRead};
ghost use Rattle.array_open.specs.crash_safety_laws_Marking.{AreOthersPresent};
ghost use Rattle.array_open.specs.array_members_Lacking.{HaveRolesFailed, synced_rows};
ghost use Rattle.array_open.specs.array_members_Placed.{AreWhole};
ghost use Rattle.array_open.specs.sb_safe_updates_First.{read_refusal, call_refusal, IsFirstRefused};
ghost use Rattle.array_open.specs.array_call_specs_Calls.{IsAnswered, IsCausedBy, OnNoMemory};
ghost use Rattle.array_open.specs.array_specs_Parts.{visible_in};
ghost use Rattle.array_open.specs.array_specs_Calls.{moving_world, IsCalled};
ghost use Rattle.array_open.specs.array_Calls.{IsReadRight, IsReadLacked};

use array_call_specs::{Fault, Who};
use array_open::{Running, check_array, read_at_rest, read_in_reshape};
use bank::Bank;

/// Fills `into`, of whole sectors, with those of the list from `at` on; what a missing member held is filled in from the
/// others. Refusals: `PastEnd`, `TooManyMissing` (in a reshape of a shape that places one of the sectors), and `NotResynced`
/// where a resync is pending.
pub fn read<B: Bank>(
    array: &mut Running<B>,
    who: Who,
    at: u64,
    into: &mut [u8],
) -> Result<(), Fault>
    requires next { who.number ≡ next_number who.caller array.old.parts.entries }
    requires caller { who.caller ≢ 254 }
    requires whole { IsWhole into.old }
    requires short { at + length into.old / 512 < 2 ^ 63 }
    ensures answered { IsAnswered (list_length array.old.parts.members.newest) (AsksRead at (length into.old / 512)) who array.old.parts.entries array.new.parts.entries (Read at (sectors_of into.new)) result }
    ensures holds { OnOk result (B.tells → IsReadRight array.old (moving_world (B.given array.old.parts.bank) (B.tape array.old.parts.bank) array.old) (moving_world (B.given array.new.parts.bank) (B.tape array.new.parts.bank) array.new) array.new.parts.entries
        → AreSectors (now (opening_list (moving_world (B.given array.old.parts.bank) (B.tape array.old.parts.bank) array.old)) array.old.parts.entries) at into.new) }
    ensures unread { OnErr result (into.new ≡ into.old) }
    ensures unchanged { OnNoMemory result (array.new ≡ array.old) }
    ensures called { IsCalled B.tells (B.given array.old.parts.bank) (B.tape array.old.parts.bank) (B.tape array.new.parts.bank) (B.faults_of array.old.parts.bank) (B.faults_of array.new.parts.bank) array.old array.new }
    ensures tape { is_reshaping array.old.parts.members.newest ≡ false → AreWhole array.new.parts.members → B.tells → B.tape array.new.parts.bank ≡ B.tape array.old.parts.bank }
    ensures others { B.tells → AreOthersPresent (present (B.given array.old.parts.bank) (B.tape array.old.parts.bank)) (present (B.given array.old.parts.bank) (B.tape array.new.parts.bank)) }
    ensures clean { is_clean array.new.parts.members.newest ≡ is_clean array.old.parts.members.newest }
    ensures caused { IsCausedBy (visible_in array.old) (at + length into.old / 512) (IsReadLacked array.old at (length into.old / 512)) array.old.parts.members array.new.parts.members result }
    ensures first { is_reshaping array.old.parts.members.newest ≡ false → IsFirstRefused (λ members. call_refusal (visible_in array.old) (at + length into.old / 512)
        (read_refusal (shape_of array.old.parts.members.newest) (synced_rows array.old.parts.work.resync array.old.parts.members) at (length into.old / 512) members)) array.old.parts.members array.new.parts.members result }
    ensures failed { HaveRolesFailed array.old.parts.members array.new.parts.members (B.faults_of array.old.parts.bank) (B.faults_of array.new.parts.bank) }
    ensures active { is_reshaping array.new.parts.members.newest ≡ is_reshaping array.old.parts.members.newest }
    ensures course { array.new.course ≡ array.old.course }
    ensures given { B.given array.new.parts.bank ≡ B.given array.old.parts.bank }
{
    if array.array.is_reshaping() {
        let done = read_in_reshape(&mut array.array, who, at, into);
        check_array(&array.array);
        return done;
    }
    let done = read_at_rest(&mut array.array, who, at, into);
    check_array(&array.array);
    done
}
