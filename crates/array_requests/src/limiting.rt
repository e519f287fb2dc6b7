//! How much of a running array's list can be read and written.

ghost use Rattle.std.specs.Prelude.{◌≡◌, ◌≢◌, true, Some, length, IsErr};
ghost use Rattle.array_call_specs.specs.raid_types_the_Refusal_TheVariants.{Busy};
ghost use Rattle.array_call_specs.specs.raid_types_the_BusyKind_TheVariants.{Reshape};
ghost use Rattle.array_open.specs.sb_specs_Reading.{is_reshaping, list_length};
ghost use Rattle.history_append.specs.history_Flat.{next_number};
ghost use Rattle.history_append.specs.history_the_Event_TheVariants.{Visible, Refused};
ghost use Rattle.history_append.specs.history_the_Request_TheVariants.{Visible as AsksVisible};
ghost use Rattle.array_open.specs.array_call_specs_Calls.{OnNoMemory, IsEndOf, by_answer};
ghost use Rattle.array_open.specs.reshape_request_Left.{phases_of};
ghost use Rattle.array_open.specs.array_specs_Parts.{visible_in};
ghost use Rattle.array_open.specs.array_specs_Calls.{moving_world};
ghost use Rattle.array_open.specs.array_specs_Visible.{IsVisibleJudged, IsLimitedAs};
ghost use Rattle.array_open.specs.array_reply_specs_Going.{HasRunOn};
ghost use Rattle.array_open.specs.array_reply_specs_Replies.{IsRepliedWith};
ghost use Rattle.array_open.specs.array_reply_specs_Limits.{limit_refusal};
ghost use Rattle.array_open.specs.array_grow_Planned.{IsJudged, IsReplied};

use array_call_specs::{Fault, Who};
use array_open::{Array, Running, check_array, limit_at_rest, refuse_limit};
use bank::Bank;
use core::mem::replace_with;

// Refuses the limit of a caller, in a reshape.
fn refuse_in_reshape<B: Bank>(
    array: Array<B>,
    asked: (Who, Option<u64>),
) -> (Array<B>, Result<u64, Fault>)
    requires next { asked.0.number ≡ next_number asked.0.caller array.parts.entries }
    requires caller { asked.0.caller ≢ 254 }
    requires active { is_reshaping array.parts.members.newest ≡ true }
    ensures answered { IsReplied B.tells (moving_world (B.given array.parts.bank) (B.tape array.parts.bank) array) (length (phases_of array.ahead)) array.parts.members (AsksVisible asked.1) asked.0 array.parts.entries result.0.parts.entries
        (Refused (Busy Reshape)) result.1 }
    ensures refused { IsErr result.1 }
    ensures judged { IsJudged (Some (Busy Reshape)) result.1 }
    ensures unchanged { OnNoMemory result.1 (result.0 ≡ array) }
    ensures limited { IsLimitedAs array.limit array result.0 }
    ensures ended { IsEndOf B.tells result.0.parts.first result.0.parts.entries (B.tape result.0.parts.bank) }
    ensures active { is_reshaping result.0.parts.members.newest ≡ true }
{
    refuse_limit(array, asked)
}

/// Limits how many sectors of the list can be read and written, or takes the limit away; the answer is how many can be then. It makes
/// no device call. Refusals, in this order: `Busy` with a reshape, `Busy` with a plan, and `PastSize` where the list has fewer
/// sectors than the limit. Want of memory changes nothing.
pub fn set_visible<B: Bank>(
    array: &mut Running<B>,
    who: Who,
    limit: Option<u64>,
) -> Result<u64, Fault>
    requires next { who.number ≡ next_number who.caller array.old.parts.entries }
    requires caller { who.caller ≢ 254 }
    ensures answered { IsRepliedWith (list_length array.old.parts.members.newest) (AsksVisible limit) who array.old.parts.entries array.new.parts.entries (Visible limit (visible_in array.new)) result }
    ensures fits { IsReplied B.tells (moving_world (B.given array.old.parts.bank) (B.tape array.old.parts.bank) array.old) (length (phases_of array.old.ahead)) array.old.parts.members (AsksVisible limit) who array.old.parts.entries array.new.parts.entries
        (Visible limit (visible_in array.new)) result }
    ensures judged { IsVisibleJudged (limit_refusal array.old limit) (visible_in array.new) result }
    ensures unchanged { OnNoMemory result (array.new ≡ array.old) }
    ensures limited { IsLimitedAs (by_answer result limit array.old.limit) array.old array.new }
    ensures ended { IsEndOf B.tells array.new.parts.first array.new.parts.entries (B.tape array.new.parts.bank) }
    ensures went { HasRunOn B.tells B.given B.tape B.faults_of array.old array.new }
{
    if array.array.is_reshaping() {
        let done = replace_with(&mut array.array, (who, limit), refuse_in_reshape);
        check_array(&array.array);
        return done;
    }
    let done = limit_at_rest(&mut array.array, who, limit);
    check_array(&array.array);
    done
}
