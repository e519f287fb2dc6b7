//! Requests to an array in a reshape that are refused for that: to grow, and to limit its list.

ghost use Rattle.std.specs.Prelude.{◌≡◌, ◌≢◌, Some, length, true, IsErr, OnOk, OnErr};
ghost use Rattle.array_reply_specs.specs.raid_types_the_Refusal_TheVariants.{Busy};
ghost use Rattle.array_reply_specs.specs.raid_types_the_BusyKind_TheVariants.{Reshape};
ghost use Rattle.array_transition.specs.sb_specs_Reading.{is_reshaping, list_length};
ghost use Rattle.array_reply_specs.specs.history_Flat.{next_number, visible_of};
ghost use Rattle.array_reply_specs.specs.history_the_Event_TheVariants.{Refused};
ghost use Rattle.array_reply_specs.specs.history_the_Request.{Request};
ghost use Rattle.array_reply_specs.specs.history_the_Request_TheVariants.{Visible as AsksVisible};
ghost use Rattle.array_reply_specs.specs.array_call_specs_Calls.{OnNoMemory, IsEndOf};
ghost use Rattle.array_transition.specs.reshape_request_Left.{phases_of};
ghost use Rattle.array_transition.specs.array_specs_Parts.{visible_in};
ghost use Rattle.array_transition.specs.array_specs_Calls.{moving_world};
ghost use Rattle.array_reply_specs.specs.array_specs_Visible.{IsLimitedAs};
ghost use Rattle.array_grow.specs.Planned.{asked_in, IsJudged, IsGrowJudged, IsReplyTo, IsReplied, IsRefusedInReshape, IsGrowAnswered, IsAsBefore};

use crate::planning::PlannedGrow;
use array_reply_specs::{
    Bank, BusyKind, Fault, NoMemory, Refusal, Who, Wish, append_entry, check_number,
};
use array_transition::{Array, Event};

// Enters that a request is refused for the reshape. Want of memory changes nothing.
fn enter_busy<B: Bank>(moving: Array<B>, who: Who) -> (Array<B>, Result<(), NoMemory>)
    requires next { who.number ≡ next_number who.caller moving.parts.entries }
    requires caller { who.caller ≢ 254 }
    requires active { is_reshaping moving.parts.members.newest ≡ true }
    ensures reply { OnOk result.1 ((request : Request) → IsRefusedInReshape request
        → IsReplyTo B.tells (moving_world (B.given moving.parts.bank) (B.tape moving.parts.bank) moving) (length (phases_of moving.ahead)) moving.parts.members request who moving.parts.entries result.0.parts.entries (Refused (Busy Reshape))) }
    ensures unchanged { OnErr result.1 (result.0 ≡ moving) }
    ensures same { IsLimitedAs moving.limit moving result.0 }
    ensures ended { IsEndOf B.tells result.0.parts.first result.0.parts.entries (B.tape result.0.parts.bank) }
    ensures visible { visible_of (list_length moving.parts.members.newest) moving.parts.entries ≡ visible_in moving }
    ensures active { is_reshaping result.0.parts.members.newest ≡ true }
{
    let (mut pieces, course, window) = moving.part_reshaping();
    let Some(backup) = pieces.backup else {
        unreachable!()
    };
    match pieces.epoch.entries.make_room(2) {
        Ok(()) => {}
        Err(none) => {
            let moving = Array::of_reshaping(pieces, backup, course, window);
            return (moving, Err(none));
        }
    }
    pieces.steps = 0;
    check_number(&pieces.epoch.entries, who);
    let end = pieces.bank.ops();
    let refusal = Refusal::Busy(BusyKind::Reshape);
    append_entry(&mut pieces.epoch, who, end, Event::Refused { refusal });
    let moving = Array::of_reshaping(pieces, backup, course, window);
    (moving, Ok(()))
}

/// Refuses to plan a grow of an array in a reshape, whichever is wished: `Busy` with the reshape. It makes no device call. Want of
/// memory changes nothing.
pub fn refuse_grow<B: Bank>(
    moving: Array<B>,
    who: Who,
    wish: &Wish,
) -> (Array<B>, Result<PlannedGrow, Fault>)
    requires next { who.number ≡ next_number who.caller moving.parts.entries }
    requires caller { who.caller ≢ 254 }
    requires active { is_reshaping moving.parts.members.newest ≡ true }
    ensures answered { IsGrowAnswered B.tells (moving_world (B.given moving.parts.bank) (B.tape moving.parts.bank) moving) (asked_in (B.given moving.parts.bank) moving) wish.now who moving.parts.entries result.0.parts.entries
        (Refused (Busy Reshape)) result.1 }
    ensures visible { visible_of (list_length moving.parts.members.newest) moving.parts.entries ≡ visible_in moving }
    ensures refused { IsErr result.1 }
    ensures judged { IsGrowJudged (asked_in (B.given moving.parts.bank) moving) wish.now result.1 }
    ensures unchanged { OnNoMemory result.1 (result.0 ≡ moving) }
    ensures as_before { IsAsBefore moving result.0 }
    ensures limit { result.0.limit ≡ moving.limit }
    ensures ended { IsEndOf B.tells result.0.parts.first result.0.parts.entries (B.tape result.0.parts.bank) }
    ensures ahead { result.0.ahead ≡ moving.ahead }
    ensures active { is_reshaping result.0.parts.members.newest ≡ true }
{
    let (moving, entered) = enter_busy(moving, who);
    match entered {
        Ok(()) => (
            moving,
            Err(Fault::Refused(Refusal::Busy(BusyKind::Reshape))),
        ),
        Err(_) => (moving, Err(Fault::NoMemory)),
    }
}

/// Refuses to limit the list of an array in a reshape: `Busy` with the reshape. It makes no device call. Want of memory changes nothing.
pub fn refuse_limit<B: Bank>(
    moving: Array<B>,
    asked: (Who, Option<u64>),
) -> (Array<B>, Result<u64, Fault>)
    requires next { asked.0.number ≡ next_number asked.0.caller moving.parts.entries }
    requires caller { asked.0.caller ≢ 254 }
    requires active { is_reshaping moving.parts.members.newest ≡ true }
    ensures answered { IsReplied B.tells (moving_world (B.given moving.parts.bank) (B.tape moving.parts.bank) moving) (length (phases_of moving.ahead)) moving.parts.members (AsksVisible asked.1) asked.0 moving.parts.entries result.0.parts.entries
        (Refused (Busy Reshape)) result.1 }
    ensures refused { IsErr result.1 }
    ensures judged { IsJudged (Some (Busy Reshape)) result.1 }
    ensures unchanged { OnNoMemory result.1 (result.0 ≡ moving) }
    ensures limited { IsLimitedAs moving.limit moving result.0 }
    ensures ended { IsEndOf B.tells result.0.parts.first result.0.parts.entries (B.tape result.0.parts.bank) }
    ensures active { is_reshaping result.0.parts.members.newest ≡ true }
{
    let (moving, entered) = enter_busy(moving, asked.0);
    match entered {
        Ok(()) => (
            moving,
            Err(Fault::Refused(Refusal::Busy(BusyKind::Reshape))),
        ),
        Err(_) => (moving, Err(Fault::NoMemory)),
    }
}
