//! How much of an array without an active reshape can be read and written.

ghost use Rattle.std.specs.Prelude.{◌≡◌, ◌≢◌, nat_lt, false, length};
ghost use Rattle.array_type.specs.sb_specs_Reading.{is_reshaping};
ghost use Rattle.array_type.specs.history_Flat.{next_number};
ghost use Rattle.array_type.specs.history_the_Event_TheVariants.{Visible};
ghost use Rattle.array_type.specs.array_call_specs_Calls.{IsEndOf, OnNoMemory, by_answer};
ghost use Rattle.array_type.specs.reshape_request_Left.{phases_of};
ghost use Rattle.array_type.specs.array_specs_Calls.{moving_world};
ghost use Rattle.array_type.specs.array_specs_Parts.{visible_in};
ghost use Rattle.array_type.specs.array_specs_Visible.{visible_refusal, still_refusal, IsVisibleJudged, IsVisibleAnswered, IsLimitedAs};

use array_type::{
    Array, Bank, BusyKind, Event, Fault, PhasesLeft, Refusal, Who, append_entry, check_number,
    visible_of,
};

// Whether a phase of a plan hasn't begun.
fn is_planned(ahead: &PhasesLeft) -> bool
    ensures { result ≡ nat_lt 0 (length (phases_of ahead.now)) }
{
    match (ahead.next, ahead.last) {
        (None, None) => false,
        (Some(_), None) | (None, Some(_)) | (Some(_), Some(_)) => true,
    }
}

// Why a list of so many sectors isn't limited so: the first of `Busy` with a plan and `PastSize`.
fn unlimited(ahead: &PhasesLeft, size: u64, limit: Option<u64>) -> Option<Refusal>
    ensures { result ≡ visible_refusal (length (phases_of ahead.now)) size limit }
{
    if is_planned(ahead) {
        return Some(Refusal::Busy(BusyKind::Plan));
    }
    let Some(wished) = limit else {
        return None;
    };
    if size < wished {
        return Some(Refusal::PastSize(size));
    }
    None
}

/// Lets only the sectors of the list below the limit be read and written, or all of them without one. The answer is how many
/// these are then. It makes no device call, and the list itself stays as it is. Refusals, in this order: `Busy` with a plan, and
/// `PastSize`.
pub fn set_visible<B: Bank>(
    array: &mut Array<B>,
    who: Who,
    limit: Option<u64>,
) -> Result<u64, Fault>
    requires next { who.number ≡ next_number who.caller array.old.parts.entries }
    requires caller { who.caller ≢ 254 }
    requires still { is_reshaping array.old.parts.members.newest ≡ false }
    ensures answered { IsVisibleAnswered B.tells (moving_world (B.given array.old.parts.bank) (B.tape array.old.parts.bank) array.old) (length (phases_of array.old.ahead)) limit who array.old.parts.entries array.new.parts.entries
        (Visible limit (visible_in array.new)) result }
    ensures judged { IsVisibleJudged (still_refusal array.old limit) (visible_in array.new) result }
    ensures unchanged { OnNoMemory result (array.new ≡ array.old) }
    ensures limited { IsLimitedAs (by_answer result limit array.old.limit) array.old array.new }
    ensures still { is_reshaping array.new.parts.members.newest ≡ false }
    ensures ended { IsEndOf B.tells array.new.parts.first array.new.parts.entries (B.tape array.new.parts.bank) }
{
    let size = array.length();
    match array.epoch.entries.make_room(2) {
        Ok(()) => {}
        Err(_) => return Err(Fault::NoMemory),
    }
    array.steps = 0;
    check_number(&array.epoch.entries, who);
    let end = array.bank.ops();
    if let Some(refusal) = unlimited(&array.ahead, size, limit) {
        append_entry(&mut array.epoch, who, end, Event::Refused { refusal });
        return Err(Fault::Refused(refusal));
    }
    array.limit = limit;
    let count = visible_of(size, limit);
    append_entry(&mut array.epoch, who, end, Event::Visible { limit, count });
    Ok(count)
}
