//! Writes to an array in a reshape.

ghost use Rattle.std.specs.Prelude.{◌≡◌, ◌≢◌, ◌⊎◌, ◌+◌, ◌/◌, ◌^◌, ◌<◌, ◌≤◌, ℕ, length, false, Some, Err, IfSome, MatchOption, OnOk, ⊤, true};
ghost use Rattle.array_reshaping_steps.specs.raid_types_Sectors.{IsWhole, sectors_of};
ghost use Rattle.array_reshaping_steps.specs.raid_types_the_Fault_TheVariants.{Refused as IsRefusedWith};
ghost use Rattle.array_reshaping_steps.specs.raid_types_the_Refusal_TheVariants.{BackupFault};
ghost use Rattle.array_reshaping_steps.specs.bank_Given.{IsFaulted};
ghost use Rattle.array_reshaping_steps.specs.sb_specs_Reading.{is_clean, list_length, role_count, is_reshaping};
ghost use Rattle.array_reshaping_steps.specs.stripe_row_Rows.{present};
ghost use Rattle.array_reshaping_steps.specs.history_Flat.{next_number};
ghost use Rattle.array_reshaping_steps.specs.history_Stands.{covers};
ghost use Rattle.array_reshaping_steps.specs.history_the_StepKind_TheVariants.{WindowFinished as FinishesWindow};
ghost use Rattle.array_reshaping_steps.specs.array_members_Lacking.{HaveRolesFailed, AreTooMany};
ghost use Rattle.array_reshaping_steps.specs.crash_views_Regions.{AreShapesFit};
ghost use Rattle.array_reshaping_steps.specs.array_call_specs_Calls.{IsCausedBy, IsRefusalOf, OnNoMemory};
ghost use Rattle.array_reshaping_steps.specs.stripe_region_write_Runs.{IsListUnwritten};
ghost use Rattle.array_reshaping_steps.specs.stripe_region_resync_Resyncs.{relied_sector};
ghost use Rattle.array_reshaping_steps.specs.history_invariant_Recorded.{IsCallGoing};
ghost use Rattle.array_reshaping_steps.specs.reshape_progress_Course.{span_in};
ghost use Rattle.array_reshaping_steps.specs.reshape_progress_Laws.{closed};
ghost use Rattle.array_reshaping_steps.specs.array_reshaping_invariant_Moving.{IsWindowStanding};
ghost use Rattle.array_reshaping_steps.specs.array_reshaping_state_Due.{open_in, unsure_in};
ghost use Rattle.array_reshaping_steps.specs.array_specs_Parts.{visible_size, visible_in, left_in};
ghost use Rattle.array_reshaping_steps.specs.array_specs_Calls.{moving_world, IsCalled, IsStepTaken};
ghost use Rattle.array_reshaping_steps.specs.sb_safe_updates_First.{call_refusal};
ghost use Rattle.array_reshaping_steps.specs.array_reshaping_state_First.{list_refusal};
ghost use Rattle.array_reshaping_steps.specs.array_reshaping_laws_Refusing.{first_refusal, IsFirstFor};
ghost use Rattle.array_reshaping_steps.specs.array_reshaping_laws_Writing.{IsWindowOpen, TouchesWindow, IsWriteLacked, IsWriteBarred, IsPutEntered, IsWriteEntered, IsWriteAnswered, IsWriteReplied};

use crate::barring::bar_write;
use array_reshaping_steps::{
    Array, Bank, Event, Fault, Members, Refusal, Sectors, Span, Who, append_after_losses,
    append_entry, append_failure, check_going, finish_open, first_write_refusal_from, meets,
    newly_unassigned, open_span, relied_sector, unassigned_roles, uncertain_span, visible,
    write_list,
};

// Why so many sectors from one on aren't written, before any row is read, where those below the limit are visible and parity is to be relied
// on up to sector `relied`, and in the window, if there is one.
pub(crate) fn unwritten_here(
    members: &Members,
    window: Option<Span>,
    limit: Option<u64>,
    relied: u64,
    at: u64,
    count: u64,
) -> Option<Refusal>
    requires fit { AreShapesFit members.now.newest }
    requires roles { length members.now.roles ≡ role_count members.now.newest }
    requires some { 0 < count }
    requires short { at + count < 2 ^ 63 }
    ensures first { MatchOption (call_refusal (visible_size members.now limit) (at + count) (list_refusal at count members.now)) ⊤ (λ refusal. result ≡ Some refusal) }
    ensures why { IsRefusalOf (visible_size members.now limit) (at + count) (IsListUnwritten window relied at (at + count)) members.now result }
{
    let sectors = visible(members, limit);
    first_write_refusal_from(members, window, sectors, relied, at, count)
}

// Puts the sectors of `from`, 1 to 128, into the list from `at` on, none of them in the window under way; `body` has the same. They
// may lie in `past`, a window that was just recorded.
fn write_beside<B: Bank>(
    moving: &mut Array<B>,
    who: Who,
    at: u64,
    from: &[u8],
    body: Sectors,
    past: Option<Span>,
) -> Result<(), Fault>
    requires open { IsCallGoing moving.old.parts.entries who }
    requires caller { who.caller ≢ 254 }
    requires room { 1 ≤ moving.old.parts.steps }
    requires whole { IsWhole from.now }
    requires some { 0 < length from.now / 512 }
    requires few { length from.now / 512 ≤ 128 }
    requires short { at + length from.now / 512 < 2 ^ 63 }
    requires body { body ≡ sectors_of from.now }
    requires beside { (x : ℕ) → at ≤ x → x < at + length from.now / 512 → covers (span_in moving.old.course.window) x ≡ false }
    requires stood { B.tells → IsWindowStanding past (moving_world (B.given moving.old.parts.bank) (B.tape moving.old.parts.bank) moving.old) moving.old.parts.entries moving.old.parts.members (present (B.given moving.old.parts.bank) (B.tape moving.old.parts.bank)) }
    requires active { is_reshaping moving.old.parts.members.newest ≡ true }
    ensures entered { IsPutEntered who moving.old.parts.entries moving.new.parts.entries at (sectors_of from.now) result }
    ensures called { IsCalled B.tells (B.given moving.old.parts.bank) (B.tape moving.old.parts.bank) (B.tape moving.new.parts.bank) (B.faults_of moving.old.parts.bank) (B.faults_of moving.new.parts.bank) moving.old moving.new }
    ensures caused { IsCausedBy (visible_in moving.old) (at + length from.now / 512) (IsListUnwritten past (relied_sector moving.old.parts.members.newest moving.old.parts.work.resync) at (at + length from.now / 512))
        moving.old.parts.members moving.new.parts.members result }
    ensures first { IsFirstFor (first_refusal moving.old at (length from.now / 512)) result }
    ensures failed { HaveRolesFailed moving.old.parts.members moving.new.parts.members (B.faults_of moving.old.parts.bank) (B.faults_of moving.new.parts.bank) }
    ensures dirty { OnOk result (is_clean moving.new.parts.members.newest ≡ false) }
    ensures left { left_in moving.new.parts.work moving.new.parts.members moving.new.course moving.new.ahead ≡ left_in moving.old.parts.work moving.old.parts.members moving.old.course moving.old.ahead }
    ensures course { moving.new.course ≡ moving.old.course }
    ensures active { is_reshaping moving.new.parts.members.newest ≡ true }
    ensures given { B.given moving.new.parts.bank ≡ B.given moving.old.parts.bank }
{
    moving.steps -= 1;
    check_going(&moving.epoch.entries, who);
    let asked = (from.len() / 512) as u64;
    let relied = relied_sector(&moving.members, moving.work.resync);
    if let Some(refusal) = unwritten_here(&moving.members, past, moving.limit, relied, at, asked) {
        let end = moving.bank.ops();
        append_entry(&mut moving.epoch, who, end, Event::Refused { refusal });
        return Err(Fault::Refused(refusal));
    }
    let count = moving.members.roles.len() as u32;
    let before = unassigned_roles(&moving.members, count);
    let done = write_list(
        &mut moving.members,
        &mut moving.bank,
        at,
        from,
        &mut moving.rows,
        &mut moving.buffer,
        &mut moving.far_rows,
        &mut moving.far_buffer,
        past,
        relied,
    );
    let roles = newly_unassigned(&moving.members, count, before);
    let end = moving.bank.ops();
    if let Some(refusal) = done.refusal {
        append_failure(
            &mut moving.epoch,
            who,
            end,
            roles,
            done.spares,
            done.begun,
            at,
            body,
            refusal,
        );
        return Err(Fault::Refused(refusal));
    }
    let event = Event::Wrote { at, body };
    append_after_losses(&mut moving.epoch, who, end, roles, done.spares, event);
    Ok(())
}

// Finishes the open window, where nothing speaks against a write of so many sectors, of which some lie in it.
fn finish_for<B: Bank>(moving: &mut Array<B>, who: Who, at: u64, count: u64) -> Result<(), Fault>
    requires open { IsCallGoing moving.old.parts.entries who }
    requires caller { who.caller ≢ 254 }
    requires room { 1 ≤ moving.old.parts.steps }
    requires some { 0 < count }
    requires short { at + count < 2 ^ 63 }
    requires due { IsWindowOpen moving.old }
    requires active { is_reshaping moving.old.parts.members.newest ≡ true }
    ensures entered { IsStepTaken who moving.old.parts.entries moving.new.parts.entries FinishesWindow (left_in moving.new.parts.work moving.new.parts.members moving.new.course moving.new.ahead) result }
    ensures goes { OnOk result (IsCallGoing moving.new.parts.entries who) }
    ensures called { IsCalled B.tells (B.given moving.old.parts.bank) (B.tape moving.old.parts.bank) (B.tape moving.new.parts.bank) (B.faults_of moving.old.parts.bank) (B.faults_of moving.new.parts.bank) moving.old moving.new }
    ensures caused { IsCausedBy (visible_in moving.old) (at + count)
        (λ m refusal. IsListUnwritten (open_in moving.old.course.window) (relied_sector moving.old.parts.members.newest moving.old.parts.work.resync) at (at + count) m refusal ⊎ AreTooMany m refusal) moving.old.parts.members moving.new.parts.members result }
    ensures first { IsFirstFor (first_refusal moving.old at count) result }
    ensures failed { HaveRolesFailed moving.old.parts.members moving.new.parts.members (B.faults_of moving.old.parts.bank) (B.faults_of moving.new.parts.bank) }
    ensures closed { OnOk result (moving.new.course ≡ closed 0) }
    ensures relied { OnOk result (relied_sector moving.new.parts.members.newest moving.new.parts.work.resync ≡ relied_sector moving.old.parts.members.newest moving.old.parts.work.resync) }
    ensures stood { OnOk result (B.tells → IsWindowStanding (open_in moving.old.course.window) (moving_world (B.given moving.new.parts.bank) (B.tape moving.new.parts.bank) moving.new) moving.new.parts.entries moving.new.parts.members (present (B.given moving.new.parts.bank) (B.tape moving.new.parts.bank))) }
    ensures room { moving.new.parts.steps + 1 ≡ moving.old.parts.steps }
    ensures active { is_reshaping moving.new.parts.members.newest ≡ true }
    ensures given { B.given moving.new.parts.bank ≡ B.given moving.old.parts.bank }
{
    let window = open_span(&moving.course);
    let relied = relied_sector(&moving.members, moving.work.resync);
    if let Some(refusal) = unwritten_here(
        &moving.members,
        window,
        moving.limit,
        relied,
        at,
        count,
    ) {
        moving.steps -= 1;
        check_going(&moving.epoch.entries, who);
        let end = moving.bank.ops();
        append_entry(&mut moving.epoch, who, end, Event::Refused { refusal });
        return Err(Fault::Refused(refusal));
    }
    finish_open(moving, who)
}

// Makes the list hold `from` from `at` on, where none of its sectors lies in an unsure window.
fn write_sure<B: Bank>(moving: &mut Array<B>, who: Who, at: u64, from: &[u8]) -> Result<(), Fault>
    requires next { who.number ≡ next_number who.caller moving.old.parts.entries }
    requires caller { who.caller ≢ 254 }
    requires whole { IsWhole from.now }
    requires some { 0 < length from.now / 512 }
    requires few { length from.now / 512 ≤ 128 }
    requires short { at + length from.now / 512 < 2 ^ 63 }
    requires sure { (x : ℕ) → at ≤ x → x < at + length from.now / 512 → covers (unsure_in moving.old.course.window) x ≡ false }
    requires active { is_reshaping moving.old.parts.members.newest ≡ true }
    ensures answered { IsWriteAnswered (list_length moving.old.parts.members.newest) at (sectors_of from.now) who moving.old.parts.entries moving.new.parts.entries result }
    ensures entered { IsWriteEntered moving.old.course.window at (at + length from.now / 512) (sectors_of from.now) who moving.old.parts.entries moving.new.parts.entries (left_in moving.new.parts.work moving.new.parts.members moving.new.course moving.new.ahead) result }
    ensures unchanged { OnNoMemory result (moving.new ≡ moving.old) }
    ensures called { IsCalled B.tells (B.given moving.old.parts.bank) (B.tape moving.old.parts.bank) (B.tape moving.new.parts.bank) (B.faults_of moving.old.parts.bank) (B.faults_of moving.new.parts.bank) moving.old moving.new }
    ensures caused { IsCausedBy (visible_in moving.old) (at + length from.now / 512)
        (IsWriteLacked moving.old.course.window (relied_sector moving.old.parts.members.newest moving.old.parts.work.resync) at (at + length from.now / 512)) moving.old.parts.members moving.new.parts.members result }
    ensures first { IsFirstFor (first_refusal moving.old at (length from.now / 512)) result }
    ensures failed { HaveRolesFailed moving.old.parts.members moving.new.parts.members (B.faults_of moving.old.parts.bank) (B.faults_of moving.new.parts.bank) }
    ensures dirty { OnOk result (is_clean moving.new.parts.members.newest ≡ false) }
    ensures course { (TouchesWindow moving.old.course.window at (at + length from.now / 512) → ⊥) → moving.new.course ≡ moving.old.course }
    ensures closed { OnOk result (TouchesWindow moving.old.course.window at (at + length from.now / 512) → moving.new.course ≡ closed 0) }
    ensures active { is_reshaping moving.new.parts.members.newest ≡ true }
    ensures given { B.given moving.new.parts.bank ≡ B.given moving.old.parts.bank }
{
    let body = match Sectors::copy_of(moving.alloc, from) {
        Ok(body) => body,
        Err(_) => return Err(Fault::NoMemory),
    };
    match moving.epoch.entries.make_room(101) {
        Ok(()) => {}
        Err(_) => return Err(Fault::NoMemory),
    }
    moving.steps = 2;
    let count = (from.len() / 512) as u64;
    let window = open_span(&moving.course);
    if !meets(window, at, at + count) {
        return write_beside(moving, who, at, from, body, None);
    }
    match finish_for(moving, who, at, count) {
        Ok(()) => {}
        Err(fault) => return Err(fault),
    }
    write_beside(moving, who, at, from, body, window)
}

/// Makes the list hold `from`, of 1 to 128 whole sectors, from `at` on. Where some lie in the open window, that is finished first.
/// Refusals: `PastEnd`, `TooManyMissing` where more roles of the shape of one of them are missing than it tolerates, or, where
/// the window has to be finished, of either shape, `BackupFault` where some lie in an unsure window, and `NotResynced` where a resync is pending, of a missing role that has data in the
/// shape of one of them that lies outside the open window, in a stripe that isn't mended.
pub fn write<B: Bank>(moving: &mut Array<B>, who: Who, at: u64, from: &[u8]) -> Result<(), Fault>
    requires next { who.number ≡ next_number who.caller moving.old.parts.entries }
    requires caller { who.caller ≢ 254 }
    requires whole { IsWhole from.now }
    requires some { 0 < length from.now / 512 }
    requires few { length from.now / 512 ≤ 128 }
    requires short { at + length from.now / 512 < 2 ^ 63 }
    requires active { is_reshaping moving.old.parts.members.newest ≡ true }
    ensures answered { IsWriteReplied (list_length moving.old.parts.members.newest) at (sectors_of from.now) who moving.old.parts.entries moving.new.parts.entries result }
    ensures entered { IsWriteEntered moving.old.course.window at (at + length from.now / 512) (sectors_of from.now) who moving.old.parts.entries moving.new.parts.entries (left_in moving.new.parts.work moving.new.parts.members moving.new.course moving.new.ahead) result }
    ensures unchanged { OnNoMemory result (moving.new ≡ moving.old) }
    ensures called { IsCalled B.tells (B.given moving.old.parts.bank) (B.tape moving.old.parts.bank) (B.tape moving.new.parts.bank) (B.faults_of moving.old.parts.bank) (B.faults_of moving.new.parts.bank) moving.old moving.new }
    ensures caused { IsCausedBy (visible_in moving.old) (at + length from.now / 512)
        (IsWriteBarred moving.old.course.window (relied_sector moving.old.parts.members.newest moving.old.parts.work.resync) at (at + length from.now / 512)) moving.old.parts.members moving.new.parts.members result }
    ensures first { IsFirstFor (first_refusal moving.old at (length from.now / 512)) result }
    ensures failed { HaveRolesFailed moving.old.parts.members moving.new.parts.members (B.faults_of moving.old.parts.bank) (B.faults_of moving.new.parts.bank) }
    ensures backup { result ≡ Err (IsRefusedWith BackupFault) → IfSome moving.old.parts.backup (λ slot. IsFaulted slot (B.faults_of moving.old.parts.bank) (B.faults_of moving.new.parts.bank)) }
    ensures dirty { OnOk result (is_clean moving.new.parts.members.newest ≡ false) }
    ensures course { (TouchesWindow moving.old.course.window at (at + length from.now / 512) → ⊥) → moving.new.course ≡ moving.old.course }
    ensures closed { OnOk result (TouchesWindow moving.old.course.window at (at + length from.now / 512) → moving.new.course ≡ closed 0) }
    ensures active { is_reshaping moving.new.parts.members.newest ≡ true }
    ensures given { B.given moving.new.parts.bank ≡ B.given moving.old.parts.bank }
{
    let count = (from.len() / 512) as u64;
    if meets(uncertain_span(&moving.course), at, at + count) {
        return bar_write(moving, who, at, from);
    }
    write_sure(moving, who, at, from)
}
