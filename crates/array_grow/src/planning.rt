//! A request to grow is planned, or refused.

ghost use Rattle.std.specs.Prelude.{◌≡◌, ◌≢◌, ◌*◌, ◌≤◌, None, Some, length, OnOk, OnErr, IfOk, IfErr, false};
ghost use Rattle.array_reply_specs.specs.raid_types_the_Fault_TheVariants.{NoMemory as WantsMemory};
ghost use Rattle.array_transition.specs.reshape_plan_Plans.{largest_window, phases};
ghost use Rattle.array_transition.specs.sb_specs_Reading.{shape_of, list_length, is_reshaping};
ghost use Rattle.array_reply_specs.specs.history_Flat.{next_number, visible_of};
ghost use Rattle.array_reply_specs.specs.history_the_Event_TheVariants.{Planned, Refused};
ghost use Rattle.array_reply_specs.specs.array_call_specs_Calls.{OnNoMemory, IsEndOf};
ghost use Rattle.array_transition.specs.reshape_request_Asked.{grow_refusal};
ghost use Rattle.array_transition.specs.reshape_request_Left.{phases_of};
ghost use Rattle.array_transition.specs.array_specs_Parts.{visible_in, still_left};
ghost use Rattle.array_transition.specs.array_specs_Calls.{moving_world};
ghost use Rattle.array_grow.specs.Planned.{asked_in, IsGrowJudged, IsGrowReply, IsGrowAnswered, IsAsBefore, IsGrowPlanned};
ghost use Rattle.array_grow.specs.Plans.{GoesTo};

use crate::judging::judge;
use array_calls::make_room;
use array_reply_specs::{Bank, Fault, Refusal, Who, Wish, append_entry, check_number};
use array_transition::{Array, Event, all_left, plan_of, zeros};

/// What a plan answers: how many steps are left, and a buffer for each of its windows.
#[derive(Drop)]
pub struct PlannedGrow {
    pub left: u64,
    pub window: Vec<u8>,
}

// A buffer for the largest window of the wish's plan; the array is as it was.
fn window_for<B: Bank>(still: Array<B>, wish: &Wish) -> (Array<B>, Result<Vec<u8>, Fault>)
    requires taken { grow_refusal (asked_in (B.given still.parts.bank) still) wish.now ≡ None }
    requires still { is_reshaping still.parts.members.newest ≡ false }
    ensures same { result.0 ≡ still }
    ensures no_memory { IfErr result.1 (λ fault. fault ≡ WantsMemory) }
    ensures wide { let m = still.parts.members in IfOk result.1 (λ v. 512 * largest_window (shape_of m.newest) m.newest.size (phases (shape_of m.newest) wish.now) ≤ length v.items) }
    ensures still { is_reshaping result.0.parts.members.newest ≡ false }
{
    let pieces = still.part_fixed();
    let plan = plan_of(&pieces.members, wish);
    let made = zeros(pieces.alloc, plan.window as usize * 512);
    (Array::of_fixed(pieces), made)
}

// Enters that it isn't planned, for this reason; there is room for it.
fn enter_refusal<B: Bank>(still: Array<B>, who: Who, wish: &Wish, refusal: Refusal) -> Array<B>
    requires next { who.number ≡ next_number who.caller still.parts.entries }
    requires caller { who.caller ≢ 254 }
    requires room { 1 ≤ still.parts.steps }
    requires why { grow_refusal (asked_in (B.given still.parts.bank) still) wish.now ≡ Some refusal }
    requires still { is_reshaping still.parts.members.newest ≡ false }
    ensures reply { IsGrowReply B.tells (moving_world (B.given still.parts.bank) (B.tape still.parts.bank) still) (asked_in (B.given still.parts.bank) still) wish.now who still.parts.entries result.parts.entries (Refused refusal) }
    ensures as_before { IsAsBefore still result }
    ensures limit { result.limit ≡ still.limit }
    ensures ended { IsEndOf B.tells result.parts.first result.parts.entries (B.tape result.parts.bank) }
    ensures ahead { result.ahead ≡ still.ahead }
    ensures still { is_reshaping result.parts.members.newest ≡ false }
{
    let mut pieces = still.part_fixed();
    pieces.steps -= 1;
    check_number(&pieces.epoch.entries, who);
    let end = pieces.bank.ops();
    append_entry(&mut pieces.epoch, who, end, Event::Refused { refusal });
    Array::of_fixed(pieces)
}

// Enters the plan, and tells its steps; there is room for it.
fn enter_plan<B: Bank>(still: Array<B>, who: Who, wish: Wish) -> (Array<B>, u64)
    requires next { who.number ≡ next_number who.caller still.parts.entries }
    requires caller { who.caller ≢ 254 }
    requires room { 1 ≤ still.parts.steps }
    requires taken { grow_refusal (asked_in (B.given still.parts.bank) still) wish ≡ None }
    requires still { is_reshaping still.parts.members.newest ≡ false }
    ensures reply { IsGrowReply B.tells (moving_world (B.given still.parts.bank) (B.tape still.parts.bank) still) (asked_in (B.given still.parts.bank) still) wish who still.parts.entries result.0.parts.entries (Planned result.1 wish) }
    ensures as_before { IsAsBefore still result.0 }
    ensures limit { result.0.limit ≡ still.limit }
    ensures ended { IsEndOf B.tells result.0.parts.first result.0.parts.entries (B.tape result.0.parts.bank) }
    ensures left { result.1 ≡ still_left result.0.parts.work result.0.parts.members result.0.ahead }
    ensures planned { IsGrowPlanned B.tells (B.given result.0.parts.bank) (moving_world (B.given result.0.parts.bank) (B.tape result.0.parts.bank) result.0) wish result.1 result.0 }
    ensures goes { GoesTo B.tells (moving_world (B.given result.0.parts.bank) (B.tape result.0.parts.bank) result.0) still result.0 }
    ensures still { is_reshaping result.0.parts.members.newest ≡ false }
{
    let mut pieces = still.part_fixed();
    let plan = plan_of(&pieces.members, &wish);
    pieces.steps -= 1;
    pieces.ahead = all_left(&plan);
    check_number(&pieces.epoch.entries, who);
    let end = pieces.bank.ops();
    let left = plan.steps;
    append_entry(&mut pieces.epoch, who, end, Event::Planned { left, wish });
    (Array::of_fixed(pieces), left)
}

/// Plans the grow that a wish asks for: its phases are ahead then, and the answer is how many steps are left, and a buffer for each
/// window of them. It makes no device call. Refusals, in this order: `Busy` (with a resync, a rebuild or a plan), `Degraded`,
/// `SameShape`, `BadShape`, `SizeNotMultiple`, `NeedSpares`, `NeedBackup`, `BackupTooSmall` and `ArraySizeFirst`. Want of memory
/// changes nothing.
pub fn plan_grow<B: Bank>(
    still: Array<B>,
    who: Who,
    wish: Wish,
) -> (Array<B>, Result<PlannedGrow, Fault>)
    requires next { who.number ≡ next_number who.caller still.parts.entries }
    requires caller { who.caller ≢ 254 }
    requires still { is_reshaping still.parts.members.newest ≡ false }
    ensures answered { IsGrowAnswered B.tells (moving_world (B.given still.parts.bank) (B.tape still.parts.bank) still) (asked_in (B.given still.parts.bank) still) wish who still.parts.entries result.0.parts.entries
        (Planned (still_left result.0.parts.work result.0.parts.members result.0.ahead) wish) result.1 }
    ensures visible { visible_of (list_length still.parts.members.newest) still.parts.entries ≡ visible_in still }
    ensures judged { IsGrowJudged (asked_in (B.given still.parts.bank) still) wish result.1 }
    ensures unchanged { OnNoMemory result.1 (result.0 ≡ still) }
    ensures as_before { IsAsBefore still result.0 }
    ensures limit { result.0.limit ≡ still.limit }
    ensures ended { IsEndOf B.tells result.0.parts.first result.0.parts.entries (B.tape result.0.parts.bank) }
    ensures refused { OnErr result.1 (result.0.ahead ≡ still.ahead) }
    ensures planned { IfOk result.1 (λ plan. IsGrowPlanned B.tells (B.given result.0.parts.bank) (moving_world (B.given result.0.parts.bank) (B.tape result.0.parts.bank) result.0) wish plan.left result.0) }
    ensures goes { OnOk result.1 (GoesTo B.tells (moving_world (B.given result.0.parts.bank) (B.tape result.0.parts.bank) result.0) still result.0) }
    ensures left { IfOk result.1 (λ plan. plan.left ≡ still_left result.0.parts.work result.0.parts.members result.0.ahead) }
    ensures wide { let m = still.parts.members in IfOk result.1 (λ plan. 512 * largest_window (shape_of m.newest) m.newest.size (phases_of result.0.ahead) ≤ length plan.window.items) }
    ensures still { is_reshaping result.0.parts.members.newest ≡ false }
{
    let (mut still, refusal) = judge(still, &wish);
    if let Some(refusal) = refusal {
        match make_room(&mut still, 1) {
            Ok(()) => {}
            Err(_) => return (still, Err(Fault::NoMemory)),
        }
        let still = enter_refusal(still, who, &wish, refusal);
        return (still, Err(Fault::Refused(refusal)));
    }
    let (mut still, made) = window_for(still, &wish);
    let window = match made {
        Ok(window) => window,
        Err(fault) => return (still, Err(fault)),
    };
    match make_room(&mut still, 1) {
        Ok(()) => {}
        Err(_) => return (still, Err(Fault::NoMemory)),
    }
    let (still, left) = enter_plan(still, who, wish);
    (still, Ok(PlannedGrow { left, window }))
}
