//! The next window of a reshape is entered.

ghost use Rattle.std.specs.Prelude.{◌≡◌, ◌≢◌, ◌⊎◌, ◌+◌, ◌≤◌, true, false, length, OnOk, OnErr};
ghost use Rattle.array_type.specs.raid_types_the_Refusal.{Refusal as AnyRefusal};
ghost use Rattle.array_type.specs.raid_types_the_Span.{Span as AnySpan};
ghost use Rattle.array_type.specs.sb_specs_Reading.{is_clean, role_count, is_reshaping};
ghost use Rattle.array_type.specs.sb_specs_Verdict.{AreValidShapes};
ghost use Rattle.array_type.specs.history_the_StepKind_TheVariants.{Entered as EntersWindow};
ghost use Rattle.array_type.specs.crash_views_Regions.{DoWithout};
ghost use Rattle.array_type.specs.array_members_Lacking.{AreTooMany};
ghost use Rattle.array_type.specs.reshape_request_the_Window_TheVariants.{Unsure as IsUnsureWindow};
ghost use Rattle.array_type.specs.history_invariant_Recorded.{IsCallGoing};
ghost use Rattle.array_type.specs.array_specs_Parts.{left_in};
ghost use Rattle.array_type.specs.array_specs_Calls.{IsCalled, IsStepTaken, IsEnterDue, IsEnterCaused, IsNextOpen, IsNextUnsure};

use crate::clearing::clear;
use array_type::{
    Array, Bank, Course, Event, Fault, Members, StepKind, Who, Window, append_after_losses,
    append_entry, check_going, enter_next, is_window_critical, left_in_reshape, list_sectors,
    next_window_of, too_many,
};

// Whether a window is unsure, and no more roles are missing than the shapes in force tolerate.
fn is_barred(members: &Members, course: &Course) -> bool
    requires shapes { AreValidShapes members.now.newest }
    requires roles { length members.now.roles ≡ role_count members.now.newest }
    ensures yes { result ≡ true → ((span : AnySpan) × (course.now.window ≡ IsUnsureWindow span)) × DoWithout members.now }
    ensures no { result ≡ false → (span : AnySpan) → course.now.window ≡ IsUnsureWindow span → (refusal : AnyRefusal) × AreTooMany members.now refusal }
{
    match course.window {
        Window::Unsure { span: _ } => too_many(members).is_none(),
        Window::Closed => false,
        Window::Entered {
            span: _,
            copied: _,
            sectioned: _,
        } => false,
    }
}

// Enters the next window, where none is unsure, or too many roles are missing anyway.
fn enter_sure<B: Bank>(moving: &mut Array<B>, who: Who) -> Result<(), Fault>
    requires open { IsCallGoing moving.old.parts.entries who }
    requires caller { who.caller ≢ 254 }
    requires room { 1 ≤ moving.old.parts.steps }
    requires synced { moving.old.parts.work.resync ≡ None }
    requires due { IsEnterDue moving.old }
    requires sure { (span : AnySpan) → moving.old.course.window ≡ IsUnsureWindow span → (refusal : AnyRefusal) × AreTooMany moving.old.parts.members refusal }
    requires active { is_reshaping moving.old.parts.members.newest ≡ true }
    ensures entered { IsStepTaken who moving.old.parts.entries moving.new.parts.entries EntersWindow (left_in moving.new.parts.work moving.new.parts.members moving.new.course moving.new.ahead) result }
    ensures called { IsCalled B.tells (B.given moving.old.parts.bank) (B.tape moving.old.parts.bank) (B.tape moving.new.parts.bank) (B.faults_of moving.old.parts.bank) (B.faults_of moving.new.parts.bank) moving.old moving.new }
    ensures clean { is_clean moving.new.parts.members.newest ≡ is_clean moving.old.parts.members.newest }
    ensures caused { IsEnterCaused moving.old.parts.backup moving.old.parts.members moving.new.parts.members (B.faults_of moving.old.parts.bank) (B.faults_of moving.new.parts.bank) result }
    ensures left { OnOk result (left_in moving.new.parts.work moving.new.parts.members moving.new.course moving.new.ahead + 1 ≡ left_in moving.old.parts.work moving.old.parts.members moving.old.course moving.old.ahead) }
    ensures opened { OnOk result (IsNextOpen moving.old.parts.members moving.new.course) }
    ensures course { OnErr result ((moving.new.course ≡ moving.old.course) ⊎ IsNextUnsure moving.old.parts.members moving.new.course) }
    ensures room { moving.new.parts.steps + 1 ≡ moving.old.parts.steps }
    ensures active { is_reshaping moving.new.parts.members.newest ≡ true }
    ensures given { B.given moving.new.parts.bank ≡ B.given moving.old.parts.bank }
{
    let backup = moving.backup_slot();
    moving.steps -= 1;
    check_going(&moving.epoch.entries, who);
    if let Some(refusal) = too_many(&moving.members) {
        let end = moving.bank.ops();
        append_entry(&mut moving.epoch, who, end, Event::Refused { refusal });
        return Err(Fault::Refused(refusal));
    }
    let Some(span) = next_window_of(&moving.members) else {
        unreachable!()
    };
    let sectioned = is_window_critical(&moving.members, &span);
    let relied = list_sectors(&moving.members);
    let tried = enter_next(
        &mut moving.members,
        &mut moving.bank,
        backup,
        &moving.epoch.uuid,
        &span,
        sectioned,
        moving.window.as_mut_slice(),
        moving.buffer.as_mut_slice(),
        relied,
    );
    let end = moving.bank.ops();
    moving.course.window = tried.window;
    if let Some(refusal) = tried.refusal {
        let event = Event::Refused { refusal };
        append_after_losses(
            &mut moving.epoch,
            who,
            end,
            tried.roles,
            tried.spares,
            event,
        );
        return Err(Fault::Refused(refusal));
    }
    let kind = StepKind::Entered;
    let left = left_in_reshape(&moving.members, &moving.work, &moving.course, &moving.ahead);
    let event = Event::Step { kind, left };
    append_after_losses(
        &mut moving.epoch,
        who,
        end,
        tried.roles,
        tried.spares,
        event,
    );
    Ok(())
}

/// A step of the reshape, of which no window is open, where no resync is pending: the next one is entered. Its sectors are read into the window's buffer, and
/// stored in the backup, where it is critical. Refusals: `TooManyMissing`, and `BackupFault` where the backup fails, which may leave
/// the window unsure; that is entered only once its header can be made plain. It takes no memory.
pub fn enter_window<B: Bank>(moving: &mut Array<B>, who: Who) -> Result<(), Fault>
    requires open { IsCallGoing moving.old.parts.entries who }
    requires caller { who.caller ≢ 254 }
    requires room { 1 ≤ moving.old.parts.steps }
    requires synced { moving.old.parts.work.resync ≡ None }
    requires due { IsEnterDue moving.old }
    requires active { is_reshaping moving.old.parts.members.newest ≡ true }
    ensures entered { IsStepTaken who moving.old.parts.entries moving.new.parts.entries EntersWindow (left_in moving.new.parts.work moving.new.parts.members moving.new.course moving.new.ahead) result }
    ensures called { IsCalled B.tells (B.given moving.old.parts.bank) (B.tape moving.old.parts.bank) (B.tape moving.new.parts.bank) (B.faults_of moving.old.parts.bank) (B.faults_of moving.new.parts.bank) moving.old moving.new }
    ensures clean { is_clean moving.new.parts.members.newest ≡ is_clean moving.old.parts.members.newest }
    ensures caused { IsEnterCaused moving.old.parts.backup moving.old.parts.members moving.new.parts.members (B.faults_of moving.old.parts.bank) (B.faults_of moving.new.parts.bank) result }
    ensures left { OnOk result (left_in moving.new.parts.work moving.new.parts.members moving.new.course moving.new.ahead + 1 ≡ left_in moving.old.parts.work moving.old.parts.members moving.old.course moving.old.ahead) }
    ensures opened { OnOk result (IsNextOpen moving.old.parts.members moving.new.course) }
    ensures course { OnErr result ((moving.new.course ≡ moving.old.course) ⊎ IsNextUnsure moving.old.parts.members moving.new.course) }
    ensures room { moving.new.parts.steps + 1 ≡ moving.old.parts.steps }
    ensures active { is_reshaping moving.new.parts.members.newest ≡ true }
    ensures given { B.given moving.new.parts.bank ≡ B.given moving.old.parts.bank }
{
    if is_barred(&moving.members, &moving.course) {
        return clear(moving, who);
    }
    enter_sure(moving, who)
}
