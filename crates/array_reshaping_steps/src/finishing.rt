//! An open window is finished in one call.

ghost use Rattle.std.specs.Prelude.{◌≡◌, ◌≢◌, ◌+◌, ◌-◌, ◌*◌, ◌≤◌, ℕ, length, take, None, Some, MatchOption, OnOk, OnErr, ⊤, true};
ghost use Rattle.array_type.specs.raid_types_Sectors.{Sector};
ghost use Rattle.array_type.specs.bank_Tape.{disk};
ghost use Rattle.array_type.specs.reshape_geometry_Geometry.{stripes};
ghost use Rattle.array_type.specs.sb_specs_Reading.{Scope, is_clean, final_shape, list_length, next_window, is_reshaping};
ghost use Rattle.array_type.specs.stripe_row_Rows.{present, reading_of};
ghost use Rattle.array_type.specs.history_World.{World};
ghost use Rattle.array_type.specs.history_Sound.{OpensFit};
ghost use Rattle.array_type.specs.history_the_StepKind_TheVariants.{WindowFinished as FinishesWindow};
ghost use Rattle.array_type.specs.crash_views_Regions.{ArePlaced};
ghost use Rattle.array_type.specs.crash_views_Views.{AreHeadersFit, Ledger};
ghost use Rattle.array_type.specs.crash_views_Windows.{HasNoSection, moved_past};
ghost use Rattle.array_type.specs.crash_safety_laws_Safety.{HasRoomLeft, IsRisen};
ghost use Rattle.array_type.specs.crash_safety_laws_Steady.{IsSafeOver, KeepsSafe, AreGoneTold, IsUncleanTold};
ghost use Rattle.array_type.specs.array_members_Moving.{IsMoved};
ghost use Rattle.array_type.specs.array_members_Lacking.{HaveFailedSince, HaveRolesFailed, AreLostSince, AreTooMany, AreOtherRowsKept};
ghost use Rattle.array_type.specs.sb_safe_updates_Unused.{IsUnusedKept};
ghost use Rattle.array_type.specs.reshape_window_rows_Copies.{tail_of, IsCopied};
ghost use Rattle.array_type.specs.reshape_window_io_Finishing.{IsOfRest, AreStripesCopied, IsOpenWindow};
ghost use Rattle.array_type.specs.array_call_specs_Calls.{IsCausedBy};
ghost use Rattle.array_type.specs.history_invariant_Recorded.{IsCallGoing};
ghost use Rattle.array_type.specs.stripe_region_resync_Resyncs.{relied_sector};
ghost use Rattle.array_type.specs.array_fixed_invariant_reshape_progress_Laws.{closed};
ghost use Rattle.array_type.specs.array_specs_Parts.{left_in};
ghost use Rattle.array_type.specs.array_reshaping_invariant_Moving.{IsWindowStanding};
ghost use Rattle.array_type.specs.array_reshaping_state_Due.{open_in};
ghost use Rattle.array_type.specs.array_specs_Calls.{moving_world, IsCalled, IsStepTaken};
ghost use Rattle.array_type.specs.array_reshaping_laws_Writing.{IsWindowOpen, steps_in};
ghost use Rattle.array_type.specs.sb_safe_updates_Frame.{Stands, GoesOn};

use array_type::{
    Array, Bank, Course, Event, Fault, Members, Refusal, Span, StepKind, Who, Window,
    append_after_losses, append_entry, check_going, final_in, finish_window, left_in_reshape,
    newly_unassigned, too_many, unassigned_roles,
};

// The roles and the spares that were lost as a window was finished, how many of its stripes are copied, and why it isn't.
#[derive(Clone, Copy)]
pub struct Rest {
    pub roles: u32,
    pub copied: u64,
    pub spares: u32,
    pub refusal: Option<Refusal>,
}

// Finishes the window, of which so many stripes are copied, from the buffer that has its sectors first.
fn finish_rest<B: Bank>(
    members: &mut Members,
    bank: &mut B,
    span: &Span,
    from: u64,
    window: &[u8],
    scratch: &mut [u8],
) -> Rest
    requires stands { Stands (B.given bank.old) members.old }
    requires next { next_window members.old.newest ≡ Some span.now }
    requires from { from ≤ stripes (final_shape members.old.newest) span.now.lo span.now.hi }
    requires wide { 512 * (span.now.hi - span.now.lo) ≤ length window.now }
    requires scratch { 8192 ≤ length scratch.old }
    ensures moved { MatchOption result.refusal (IsMoved (B.given bank.old) (moved_past span.now members.old) members.new) (λ refusal. IsMoved (B.given bank.old) members.old members.new) }
    ensures since { AreLostSince members.old members.new result.roles result.spares (B.faults_of bank.old) (B.faults_of bank.new) }
    ensures failed { HaveFailedSince members.old members.new result.spares (B.faults_of bank.old) (B.faults_of bank.new) }
    ensures refused { MatchOption result.refusal ⊤ (AreTooMany members.new) }
    ensures bank { GoesOn B.tells B.given B.tape B.faults_of bank.old bank.new }
    ensures clean { is_clean members.new.newest ≡ is_clean members.old.newest }
    ensures all { result.refusal ≡ None → result.copied ≡ stripes (final_shape members.old.newest) span.now.lo span.now.hi }
    ensures stands { B.tells → (list : ℕ → Sector) → IsCopied span.now (take (512 * (span.now.hi - span.now.lo)) window.now) (tail_of members.old.newest) list
        → AreStripesCopied (final_shape members.old.newest) span.now from members.old (present (B.given bank.old) (B.tape bank.old)) list
        → AreStripesCopied (final_shape members.old.newest) span.now result.copied members.new (present (B.given bank.old) (B.tape bank.new)) list }
    ensures others { B.tells → AreOtherRowsKept (IsOfRest (final_shape members.old.newest) span.now from) (reading_of members.new)
        (present (B.given bank.old) (B.tape bank.old)) (present (B.given bank.old) (B.tape bank.new)) }
    ensures unused { B.tells → IsUnusedKept members.old (disk (B.given bank.old).start (B.tape bank.old)) (disk (B.given bank.old).start (B.tape bank.new)) }
    ensures plain { result.refusal ≡ None → B.tells → (scope : Scope) → ArePlaced scope (B.given bank.old) members.old
        → AreHeadersFit scope members.old (disk (B.given bank.old).start (B.tape bank.old)) → let e = disk (B.given bank.old).start (B.tape bank.new) in
        HasNoSection scope members.new e × AreHeadersFit scope members.new e }
    ensures rise { IsRisen B.tells members.old members.new (B.tape bank.old) (B.tape bank.new) }
    ensures safe { B.tells → (world : World) → (told : Ledger) → HasRoomLeft members.old (B.tape bank.old) (B.tape bank.new)
        → AreGoneTold told members.new → IsUncleanTold told members.old → (list : ℕ → Sector)
        → IsOpenWindow (OpensFit world) world.scope told members.old span.now (take (512 * (span.now.hi - span.now.lo)) window.now) from list
        (present (B.given bank.old) (B.tape bank.old)) (disk (B.given bank.old).start (B.tape bank.old))
        → IsSafeOver world (B.given bank.old) told members.old (B.tape bank.old)
        → KeepsSafe world (B.given bank.old) told members.new (B.tape bank.old) (B.tape bank.new) }
{
    let count = members.roles.len() as u32;
    let before = unassigned_roles(members, count);
    let shape = final_in(members);
    let width = 512 * (span.hi - span.lo) as usize;
    let done = finish_window(members, bank, &shape, span, from, &window[..width], scratch);
    Rest {
        roles: newly_unassigned(members, count, before),
        copied: done.copied,
        spares: done.spares,
        refusal: done.refusal,
    }
}

/// The open window is finished in one call: its stripes that are left are copied, and it is recorded. Refusals: `TooManyMissing`;
/// then the window is open as before. It takes no memory.
pub fn finish_open<B: Bank>(moving: &mut Array<B>, who: Who) -> Result<(), Fault>
    requires open { IsCallGoing moving.old.parts.entries who }
    requires caller { who.caller ≢ 254 }
    requires room { 1 ≤ moving.old.parts.steps }
    requires due { IsWindowOpen moving.old }
    requires active { is_reshaping moving.old.parts.members.newest ≡ true }
    ensures entered { IsStepTaken who moving.old.parts.entries moving.new.parts.entries FinishesWindow (left_in moving.new.parts.work moving.new.parts.members moving.new.course moving.new.ahead) result }
    ensures goes { OnOk result (IsCallGoing moving.new.parts.entries who) }
    ensures called { IsCalled B.tells (B.given moving.old.parts.bank) (B.tape moving.old.parts.bank) (B.tape moving.new.parts.bank) (B.faults_of moving.old.parts.bank) (B.faults_of moving.new.parts.bank) moving.old moving.new }
    ensures clean { is_clean moving.new.parts.members.newest ≡ is_clean moving.old.parts.members.newest }
    ensures caused { IsCausedBy (list_length moving.old.parts.members.newest) 0 AreTooMany moving.old.parts.members moving.new.parts.members result }
    ensures failed { HaveRolesFailed moving.old.parts.members moving.new.parts.members (B.faults_of moving.old.parts.bank) (B.faults_of moving.new.parts.bank) }
    ensures left { OnOk result (left_in moving.new.parts.work moving.new.parts.members moving.new.course moving.new.ahead + steps_in moving.old.parts.members.newest moving.old.course.window ≡ left_in moving.old.parts.work moving.old.parts.members moving.old.course moving.old.ahead) }
    ensures closed { OnOk result (moving.new.course ≡ closed 0) }
    ensures relied { OnOk result (relied_sector moving.new.parts.members.newest moving.new.parts.work.resync ≡ relied_sector moving.old.parts.members.newest moving.old.parts.work.resync) }
    ensures stood { OnOk result (B.tells → IsWindowStanding (open_in moving.old.course.window) (moving_world (B.given moving.new.parts.bank) (B.tape moving.new.parts.bank) moving.new) moving.new.parts.entries moving.new.parts.members (present (B.given moving.new.parts.bank) (B.tape moving.new.parts.bank))) }
    ensures course { OnErr result (moving.new.course ≡ moving.old.course) }
    ensures room { moving.new.parts.steps + 1 ≡ moving.old.parts.steps }
    ensures active { is_reshaping moving.new.parts.members.newest ≡ true }
    ensures given { B.given moving.new.parts.bank ≡ B.given moving.old.parts.bank }
{
    moving.steps -= 1;
    check_going(&moving.epoch.entries, who);
    if let Some(refusal) = too_many(&moving.members) {
        let end = moving.bank.ops();
        append_entry(&mut moving.epoch, who, end, Event::Refused { refusal });
        return Err(Fault::Refused(refusal));
    }
    let Window::Entered {
        span,
        copied,
        sectioned: _,
    } = moving.course.window
    else {
        unreachable!()
    };
    let rest = finish_rest(
        &mut moving.members,
        &mut moving.bank,
        &span,
        copied,
        moving.window.as_slice(),
        moving.buffer.as_mut_slice(),
    );
    let end = moving.bank.ops();
    if let Some(refusal) = rest.refusal {
        let event = Event::Refused { refusal };
        append_after_losses(&mut moving.epoch, who, end, rest.roles, rest.spares, event);
        return Err(Fault::Refused(refusal));
    }
    moving.course = Course {
        window: Window::Closed,
        zeroed: 0,
    };
    let kind = StepKind::WindowFinished;
    let left = left_in_reshape(&moving.members, &moving.work, &moving.course, &moving.ahead);
    let event = Event::Step { kind, left };
    append_after_losses(&mut moving.epoch, who, end, rest.roles, rest.spares, event);
    Ok(())
}
