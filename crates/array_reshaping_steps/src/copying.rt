//! The steps of a reshape between its begin and its end.

ghost use Rattle.std.specs.Prelude.{◌≡◌, ◌≢◌, ◌+◌, ◌-◌, ◌*◌, ◌<◌, ◌≤◌, ℕ, Bool, length, take, None, Some, MatchOption, OnOk, OnErr, ⊤, true};
ghost use Rattle.array_type.specs.raid_types_Sectors.{Sector};
ghost use Rattle.array_type.specs.raid_types_the_Span.{Span};
ghost use Rattle.array_type.specs.bank_Tape.{disk};
ghost use Rattle.array_type.specs.sb_specs_Reading.{is_clean, final_shape, list_length, next_window, is_reshaping};
ghost use Rattle.array_type.specs.stripe_row_Rows.{present, reading_of};
ghost use Rattle.array_type.specs.stripe_list_Full.{RowStands};
ghost use Rattle.array_type.specs.history_World.{World};
ghost use Rattle.array_type.specs.history_the_StepKind_TheVariants.{Copied as CopiesStripe};
ghost use Rattle.array_type.specs.crash_views_Views.{Ledger};
ghost use Rattle.array_type.specs.crash_views_Windows.{IsCopyable};
ghost use Rattle.array_type.specs.crash_safety_laws_Safety.{HasRoomLeft, IsRisen};
ghost use Rattle.array_type.specs.crash_safety_laws_Steady.{IsSafeOver, KeepsSafe, AreGoneTold, IsUncleanTold};
ghost use Rattle.array_type.specs.array_members_Moving.{IsMoved};
ghost use Rattle.array_type.specs.array_members_Lacking.{AreLostSince, AreTooMany, AreOtherRowsKept, IsOfStripe};
ghost use Rattle.array_type.specs.sb_safe_updates_Unused.{IsUnusedKept};
ghost use Rattle.array_type.specs.reshape_request_Left.{stripes_in};
ghost use Rattle.array_type.specs.reshape_window_rows_Copies.{tail_of, IsCopied};
ghost use Rattle.array_type.specs.array_fixed_invariant_reshape_progress_Laws.{entered, next_stripe};
ghost use Rattle.array_type.specs.array_call_specs_Calls.{IsCausedBy};
ghost use Rattle.array_type.specs.history_invariant_Recorded.{IsCallGoing};
ghost use Rattle.array_type.specs.array_specs_Parts.{left_in};
ghost use Rattle.array_type.specs.array_specs_Calls.{IsCalled, IsStepTaken, IsCopyDue};
ghost use Rattle.array_type.specs.sb_safe_updates_Frame.{Stands, GoesOn};

use array_type::{
    Array, Bank, Event, Fault, Members, Refusal, Span, StepKind, Who, Window, append_after_losses,
    append_entry, check_going, copy, final_in, left_in_reshape, newly_unassigned, stripe_to_copy,
    too_many, unassigned_roles,
};

// The roles and the spares that were lost in a step, and why it wasn't done.
#[derive(Clone, Copy)]
pub struct Moved {
    pub roles: u32,
    pub spares: u32,
    pub refusal: Option<Refusal>,
}

// Copies the next stripe of the window, of which so many are copied, from the buffer that has its sectors first.
fn copy_next<B: Bank>(
    members: &mut Members,
    bank: &mut B,
    span: &Span,
    copied: u64,
    window: &[u8],
    scratch: &mut [u8],
) -> Moved
    requires stands { Stands (B.given bank.old) members.old }
    requires next { next_window members.old.newest ≡ Some span.now }
    requires more { copied < stripes_in members.old.newest span.now }
    requires wide { 512 * (span.now.hi - span.now.lo) ≤ length window.now }
    requires scratch { 8192 ≤ length scratch.old }
    ensures moved { IsMoved (B.given bank.old) members.old members.new }
    ensures since { AreLostSince members.old members.new result.roles result.spares (B.faults_of bank.old) (B.faults_of bank.new) }
    ensures refused { MatchOption result.refusal ⊤ (AreTooMany members.new) }
    ensures bank { GoesOn B.tells B.given B.tape B.faults_of bank.old bank.new }
    ensures clean { is_clean members.new.newest ≡ is_clean members.old.newest }
    ensures stands { result.refusal ≡ None → B.tells → (list : ℕ → Sector) → IsCopied span.now (take (512 * (span.now.hi - span.now.lo)) window.now) (tail_of members.old.newest) list
        → (row : ℕ) → IsOfStripe (final_shape members.old.newest) (next_stripe members.old span.now copied) row
        → RowStands (reading_of members.new) (present (B.given bank.old) (B.tape bank.new)) (final_shape members.old.newest) list row }
    ensures others { B.tells → AreOtherRowsKept (IsOfStripe (final_shape members.old.newest) (next_stripe members.old span.now copied)) (reading_of members.new)
        (present (B.given bank.old) (B.tape bank.old)) (present (B.given bank.old) (B.tape bank.new)) }
    ensures rise { IsRisen B.tells members.old members.new (B.tape bank.old) (B.tape bank.new) }
    ensures safe { B.tells → (world : World) → (told : Ledger) → HasRoomLeft members.old (B.tape bank.old) (B.tape bank.new)
        → AreGoneTold told members.new → IsUncleanTold told members.old
        → IsCopyable world.scope members.old span.now (disk (B.given bank.old).start (B.tape bank.old))
        → IsSafeOver world (B.given bank.old) told members.old (B.tape bank.old)
        → KeepsSafe world (B.given bank.old) told members.new (B.tape bank.old) (B.tape bank.new) }
    ensures unused { B.tells → IsUnusedKept members.old (disk (B.given bank.old).start (B.tape bank.old)) (disk (B.given bank.old).start (B.tape bank.new)) }
{
    let count = members.roles.len() as u32;
    let before = unassigned_roles(members, count);
    let shape = final_in(members);
    let stripe = stripe_to_copy(members, span, copied);
    let width = 512 * (span.hi - span.lo) as usize;
    let done = copy(
        members,
        bank,
        &shape,
        span,
        stripe,
        &window[..width],
        scratch,
    );
    Moved {
        roles: newly_unassigned(members, count, before),
        spares: done.spares,
        refusal: done.refusal,
    }
}

/// A step of the reshape: the next stripe of the open window is copied. Refusals: `TooManyMissing`. It takes no memory.
pub fn copy_stripe<B: Bank>(moving: &mut Array<B>, who: Who) -> Result<(), Fault>
    requires open { IsCallGoing moving.old.parts.entries who }
    requires caller { who.caller ≢ 254 }
    requires room { 1 ≤ moving.old.parts.steps }
    requires due { IsCopyDue moving.old }
    requires active { is_reshaping moving.old.parts.members.newest ≡ true }
    ensures entered { IsStepTaken who moving.old.parts.entries moving.new.parts.entries CopiesStripe (left_in moving.new.parts.work moving.new.parts.members moving.new.course moving.new.ahead) result }
    ensures called { IsCalled B.tells (B.given moving.old.parts.bank) (B.tape moving.old.parts.bank) (B.tape moving.new.parts.bank) (B.faults_of moving.old.parts.bank) (B.faults_of moving.new.parts.bank) moving.old moving.new }
    ensures clean { is_clean moving.new.parts.members.newest ≡ is_clean moving.old.parts.members.newest }
    ensures caused { IsCausedBy (list_length moving.old.parts.members.newest) 0 AreTooMany moving.old.parts.members moving.new.parts.members result }
    ensures left { OnOk result (left_in moving.new.parts.work moving.new.parts.members moving.new.course moving.new.ahead + 1 ≡ left_in moving.old.parts.work moving.old.parts.members moving.old.course moving.old.ahead) }
    ensures copied { OnOk result ((span : Span) → (copied : ℕ) → (sectioned : Bool) → moving.old.course ≡ entered span copied sectioned → moving.new.course ≡ entered span (copied + 1) sectioned) }
    ensures course { OnErr result (moving.new.course ≡ moving.old.course) }
    ensures room { moving.new.parts.steps + 1 ≡ moving.old.parts.steps }
    ensures active { is_reshaping moving.new.parts.members.newest ≡ true }
    ensures given { B.given moving.new.parts.bank ≡ B.given moving.old.parts.bank }
{
    moving.steps -= 1;
    check_going(&moving.epoch.entries, who);
    if let Some(refusal) = too_many(&moving.members) {
        let end = moving.bank.ops();
        append_entry(&mut moving.epoch, who, end, Event::Refused { refusal });
        return Err(Fault::Refused(refusal));
    }
    let Window::Entered {
        span,
        copied,
        sectioned,
    } = moving.course.window
    else {
        unreachable!()
    };
    let moved = copy_next(
        &mut moving.members,
        &mut moving.bank,
        &span,
        copied,
        moving.window.as_slice(),
        moving.buffer.as_mut_slice(),
    );
    let end = moving.bank.ops();
    if let Some(refusal) = moved.refusal {
        let event = Event::Refused { refusal };
        append_after_losses(
            &mut moving.epoch,
            who,
            end,
            moved.roles,
            moved.spares,
            event,
        );
        return Err(Fault::Refused(refusal));
    }
    moving.course.window = Window::Entered {
        span,
        copied: copied + 1,
        sectioned,
    };
    let kind = StepKind::Copied;
    let left = left_in_reshape(&moving.members, &moving.work, &moving.course, &moving.ahead);
    let event = Event::Step { kind, left };
    append_after_losses(
        &mut moving.epoch,
        who,
        end,
        moved.roles,
        moved.spares,
        event,
    );
    Ok(())
}
