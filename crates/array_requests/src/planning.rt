//! Requests to grow a running array.

ghost use Rattle.std.specs.Prelude.{◌≡◌, ◌≢◌, ◌*◌, ◌≤◌, true, false, length, OnOk, OnErr, IsErr, IfOk};
ghost use Rattle.array_call_specs.specs.raid_types_the_Refusal_TheVariants.{Busy};
ghost use Rattle.array_call_specs.specs.raid_types_the_BusyKind_TheVariants.{Reshape};
ghost use Rattle.history_append.specs.reshape_plan_Plans.{largest_window};
ghost use Rattle.array_open.specs.sb_specs_Reading.{is_reshaping, shape_of, list_length};
ghost use Rattle.history_append.specs.history_Flat.{next_number, visible_of};
ghost use Rattle.history_append.specs.history_the_Event_TheVariants.{Planned, Refused};
ghost use Rattle.array_open.specs.array_call_specs_Calls.{OnNoMemory, IsEndOf};
ghost use Rattle.array_open.specs.reshape_request_Left.{phases_of};
ghost use Rattle.array_open.specs.array_specs_Parts.{visible_in, still_left};
ghost use Rattle.array_open.specs.array_specs_Calls.{moving_world};
ghost use Rattle.array_open.specs.array_reply_specs_Going.{HasRunOn};
ghost use Rattle.array_open.specs.array_grow_Planned.{asked_in, IsGrowJudged, IsGrowAnswered, IsAsBefore, IsGrowPlanned};
ghost use Rattle.array_open.specs.array_grow_Plans.{GoesTo};
ghost use Rattle.array_open.specs.array_grow_Replied.{IsGrowReplied};
ghost use Rattle.array_open.specs.array_Calls.{running_left};

use array_call_specs::{Fault, Who};
use array_open::{Array, PlannedGrow, Running, check_array, refuse_grow};
use bank::{Bank, Wish};
use core::mem::replace_with;

// The wish of a caller, of an array without a reshape.
fn plan_at_rest<B: Bank>(
    array: Array<B>,
    asked: (Who, Wish),
) -> (Array<B>, Result<PlannedGrow, Fault>)
    requires next { asked.0.number ≡ next_number asked.0.caller array.parts.entries }
    requires caller { asked.0.caller ≢ 254 }
    requires still { is_reshaping array.parts.members.newest ≡ false }
    ensures answered { IsGrowAnswered B.tells (moving_world (B.given array.parts.bank) (B.tape array.parts.bank) array) (asked_in (B.given array.parts.bank) array) asked.1 asked.0 array.parts.entries result.0.parts.entries
        (Planned (still_left result.0.parts.work result.0.parts.members result.0.ahead) asked.1) result.1 }
    ensures visible { visible_of (list_length array.parts.members.newest) array.parts.entries ≡ visible_in array }
    ensures judged { IsGrowJudged (asked_in (B.given array.parts.bank) array) asked.1 result.1 }
    ensures unchanged { OnNoMemory result.1 (result.0 ≡ array) }
    ensures as_before { IsAsBefore array result.0 }
    ensures limit { result.0.limit ≡ array.limit }
    ensures ended { IsEndOf B.tells result.0.parts.first result.0.parts.entries (B.tape result.0.parts.bank) }
    ensures refused { OnErr result.1 (result.0.ahead ≡ array.ahead) }
    ensures planned { IfOk result.1 (λ plan. IsGrowPlanned B.tells (B.given result.0.parts.bank) (moving_world (B.given result.0.parts.bank) (B.tape result.0.parts.bank) result.0) asked.1 plan.left result.0) }
    ensures goes { OnOk result.1 (GoesTo B.tells (moving_world (B.given result.0.parts.bank) (B.tape result.0.parts.bank) result.0) array result.0) }
    ensures left { IfOk result.1 (λ plan. plan.left ≡ still_left result.0.parts.work result.0.parts.members result.0.ahead) }
    ensures wide { let m = array.parts.members in IfOk result.1 (λ plan. 512 * largest_window (shape_of m.newest) m.newest.size (phases_of result.0.ahead) ≤ length plan.window.items) }
    ensures still { is_reshaping result.0.parts.members.newest ≡ false }
{
    array_open::plan_grow(array, asked.0, asked.1)
}

// The same, of an array in a reshape.
fn refuse_in_reshape<B: Bank>(
    array: Array<B>,
    asked: (Who, Wish),
) -> (Array<B>, Result<PlannedGrow, Fault>)
    requires next { asked.0.number ≡ next_number asked.0.caller array.parts.entries }
    requires caller { asked.0.caller ≢ 254 }
    requires active { is_reshaping array.parts.members.newest ≡ true }
    ensures answered { IsGrowAnswered B.tells (moving_world (B.given array.parts.bank) (B.tape array.parts.bank) array) (asked_in (B.given array.parts.bank) array) asked.1 asked.0 array.parts.entries result.0.parts.entries
        (Refused (Busy Reshape)) result.1 }
    ensures visible { visible_of (list_length array.parts.members.newest) array.parts.entries ≡ visible_in array }
    ensures refused { IsErr result.1 }
    ensures judged { IsGrowJudged (asked_in (B.given array.parts.bank) array) asked.1 result.1 }
    ensures unchanged { OnNoMemory result.1 (result.0 ≡ array) }
    ensures as_before { IsAsBefore array result.0 }
    ensures limit { result.0.limit ≡ array.limit }
    ensures ended { IsEndOf B.tells result.0.parts.first result.0.parts.entries (B.tape result.0.parts.bank) }
    ensures ahead { result.0.ahead ≡ array.ahead }
    ensures active { is_reshaping result.0.parts.members.newest ≡ true }
{
    refuse_grow(array, asked.0, &asked.1)
}

/// Plans the grow that a wish asks for: its phases are ahead then, a reshape, a takeover of the level, or both; and the answer is how
/// many steps are left. It makes no device call. Refusals, in this order: `Busy` (with a reshape, a resync, a rebuild or a plan),
/// `Degraded`, `SameShape`, `BadShape`, `SizeNotMultiple`, `NeedSpares`, `NeedBackup`, `BackupTooSmall` and `ArraySizeFirst`. Want of
/// memory changes nothing.
pub fn plan_grow<B: Bank>(array: &mut Running<B>, who: Who, wish: Wish) -> Result<u64, Fault>
    requires next { who.number ≡ next_number who.caller array.old.parts.entries }
    requires caller { who.caller ≢ 254 }
    ensures answered { IsGrowReplied (list_length array.old.parts.members.newest) wish who array.old.parts.entries array.new.parts.entries (running_left array.new) result }
    ensures fits { IsGrowAnswered B.tells (moving_world (B.given array.old.parts.bank) (B.tape array.old.parts.bank) array.old) (asked_in (B.given array.old.parts.bank) array.old) wish who array.old.parts.entries array.new.parts.entries
        (Planned (running_left array.new) wish) result }
    ensures judged { IsGrowJudged (asked_in (B.given array.old.parts.bank) array.old) wish result }
    ensures unchanged { OnNoMemory result (array.new ≡ array.old) }
    ensures as_before { IsAsBefore array.old array.new }
    ensures limit { array.new.limit ≡ array.old.limit }
    ensures ended { IsEndOf B.tells array.new.parts.first array.new.parts.entries (B.tape array.new.parts.bank) }
    ensures went { HasRunOn B.tells B.given B.tape B.faults_of array.old array.new }
    ensures refused { OnErr result (array.new.ahead ≡ array.old.ahead) }
    ensures planned { IfOk result (λ left. IsGrowPlanned B.tells (B.given array.new.parts.bank) (moving_world (B.given array.new.parts.bank) (B.tape array.new.parts.bank) array.new) wish left array.new) }
    ensures left { IfOk result (λ left. left ≡ running_left array.new) }
{
    if array.array.is_reshaping() {
        let made = replace_with(&mut array.array, (who, wish), refuse_in_reshape);
        check_array(&array.array);
        return match made {
            Ok(_) => unreachable!(),
            Err(fault) => Err(fault),
        };
    }
    let made = replace_with(&mut array.array, (who, wish), plan_at_rest);
    check_array(&array.array);
    match made {
        Ok(plan) => {
            array.window = plan.window;
            Ok(plan.left)
        }
        Err(fault) => Err(fault),
    }
}
