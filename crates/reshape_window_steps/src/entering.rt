//! A window is entered: its sectors are read, and its section is stored and named.

ghost use Rattle.std.specs.Prelude.{◌≡◌, ◌+◌, ◌-◌, ◌/◌, ◌<◌, ◌≤◌, ℕ, true, false, length, Some, None, Err, OnOk};
ghost use Rattle.reshape_window_rows.specs.raid_types_Sectors.{Sector};
ghost use Rattle.reshape_window_rows.specs.bank_Given.{IsFaulted, NeverFalls};
ghost use Rattle.reshape_window_rows.specs.bank_Tape.{EachMark, disk};
ghost use Rattle.reshape_window_rows.specs.sb_specs_Reading.{Scope, is_backward, shape_of, final_shape, next_window};
ghost use Rattle.reshape_window_rows.specs.stripe_row_Rows.{present, reading_of, IsTolerated};
ghost use Rattle.reshape_window_rows.specs.stripe_list_Calls.{HasRows, AreLost, IsAsked};
ghost use Rattle.reshape_window_rows.specs.bank_backup_the_SectionFault_TheVariants.{Before, Attempted};
ghost use Rattle.reshape_window_rows.specs.bank_backup_Written.{header_of};
ghost use Rattle.reshape_window_rows.specs.bank_backup_Storing.{IsStoring, IsNaming, IsStoringOrNaming, IsNamed};
ghost use Rattle.reshape_window_rows.specs.reshape_geometry_Geometry.{is_critical};
ghost use Rattle.reshape_window_rows.specs.history_World.{World};
ghost use Rattle.reshape_window_rows.specs.crash_views_Regions.{AreShapesFit};
ghost use Rattle.reshape_window_rows.specs.crash_views_Views.{Ledger};
ghost use Rattle.reshape_window_rows.specs.crash_views_Windows.{HasNoSection, IsCopyable, ListStands};
ghost use Rattle.reshape_window_rows.specs.crash_views_Backups.{IsOpenUnderAll, IsOpenOrNot, HasSectors};
ghost use Rattle.reshape_window_rows.specs.crash_safety_laws_Steady.{AreUnlost, IsSafeOver, KeepsSafe};
ghost use Rattle.reshape_window_rows.specs.Copies.{HasWindow, IsRoomFor, AreLackingGood};
ghost use Rattle.reshape_window_steps.specs.declared.entering.NotEntered.TheVariants.{Unsaved};
ghost use Rattle.reshape_window_steps.specs.Entering.{IsPassedOn, IsRead, IsEntered, IsBackupFor, IsEnterable};

use reshape_window_rows::{
    Bank, Members, Outcome, SectionFault, Shape, Span, Unavailable, read_window, write_section,
};

/// Why a window wasn't entered: its sectors can't be had, or a call on the backup failed, and how far its section came.
#[derive(Clone, Copy, Debug, PartialEq, Eq)]
pub enum NotEntered {
    Unread(Unavailable),
    Unsaved(SectionFault),
}

/// The set of the slots that were lost, and what the call answers.
#[derive(Drop)]
pub struct Entered {
    pub lost: u32,
    pub answer: Result<(), NotEntered>,
}

// Stores and names the section where there is to be one, and the window was read.
fn save<B: Bank>(
    bank: &mut B,
    backup: u32,
    uuid: &[u8; 16],
    span: &Span,
    buffer: &[u8],
    sectioned: bool,
    read: Result<(), Unavailable>,
) -> Result<(), NotEntered>
    requires filled { span.now.lo < span.now.hi }
    requires size { IsRoomFor span.now buffer.now }
    requires slot { sectioned ≡ true → backup < (B.given bank.old).slots }
    requires within { sectioned ≡ true → 8 + (span.now.hi - span.now.lo) ≤ (B.given bank.old).sectors backup }
    ensures passed { IsPassedOn read result }
    ensures each_mark { let start = (B.given bank.old).start in EachMark B.tells start (B.tape bank.old) (B.tape bank.new)
        (IsStoringOrNaming backup (header_of uuid.now span.now) buffer.now (disk start (B.tape bank.old))) }
    ensures same { B.tells → (sectioned ≡ true → IsRead result → ⊥) → B.tape bank.new ≡ B.tape bank.old }
    ensures stored { OnOk result (sectioned ≡ true → B.tells → let start = (B.given bank.old).start in
        IsNamed backup (header_of uuid.now span.now) buffer.now (disk start (B.tape bank.old)) (disk start (B.tape bank.new))) }
    ensures sectioned { (fault : SectionFault) → result ≡ Err (Unsaved fault) → sectioned ≡ true }
    ensures untouched { result ≡ Err (Unsaved Before) → B.tells → let start = (B.given bank.old).start in
        IsStoring backup buffer.now (disk start (B.tape bank.old)) (disk start (B.tape bank.new)) }
    ensures unsure { result ≡ Err (Unsaved Attempted) → B.tells → let start = (B.given bank.old).start in
        IsNaming backup (header_of uuid.now span.now) buffer.now (disk start (B.tape bank.old)) (disk start (B.tape bank.new)) }
    ensures failed { (fault : SectionFault) → result ≡ Err (Unsaved fault) → IsFaulted backup (B.faults_of bank.old) (B.faults_of bank.new) }
    ensures counts { NeverFalls (B.faults_of bank.old) (B.faults_of bank.new) }
    ensures given { B.given bank.new ≡ B.given bank.old }
{
    match read {
        Err(why) => return Err(NotEntered::Unread(why)),
        Ok(()) => {}
    }
    if !sectioned {
        return Ok(());
    }
    match write_section(bank, backup, uuid, span, buffer) {
        Err(fault) => Err(NotEntered::Unsaved(fault)),
        Ok(()) => Ok(()),
    }
}

/// Reads the sectors of the next window into the buffer, by the old shape, and stores and names its section in the backup,
/// where it is to have one: it must where it is critical. At Ok its rows may be copied.
///
/// `Unread` where its sectors can't be had; then nothing is written. `Unsaved` where a call on the backup failed, which its
/// fault count shows: at `Before` no section is active, at `Attempted` that of the window may be.
pub fn enter_window<B: Bank>(
    members: &mut Members,
    bank: &mut B,
    backup: u32,
    uuid: &[u8; 16],
    shape: &Shape,
    span: &Span,
    sectioned: bool,
    buffer: &mut [u8],
    scratch: &mut [u8],
    synced: bool,
) -> Entered
    requires fit { AreShapesFit members.old.newest }
    requires rows { HasRows (B.given bank.old) (reading_of members.old) shape.now }
    requires unlost { AreUnlost members.old }
    requires shape { shape.now ≡ shape_of members.old.newest }
    requires next { next_window members.old.newest ≡ Some span.now }
    requires critical { let newest = members.old.newest in
        is_critical (shape_of newest) (final_shape newest) newest.size (is_backward newest) span.now ≡ true → sectioned ≡ true }
    requires slot { sectioned ≡ true → backup < (B.given bank.old).slots }
    requires within { sectioned ≡ true → 8 + (span.now.hi - span.now.lo) ≤ (B.given bank.old).sectors backup }
    requires buffer { IsRoomFor span.now buffer.old }
    requires scratch { 8192 ≤ length scratch.old }
    ensures lost { AreLost shape.now members.old members.new result.lost (B.faults_of bank.old) (B.faults_of bank.new) }
    ensures answer { IsEntered shape.now synced (reading_of members.new) (IsAsked shape.now span.now.lo (length buffer.old / 512)) result.answer }
    ensures sectors { IsRead result.answer → B.tells → let c = present (B.given bank.old) (B.tape bank.old) in (list : ℕ → Sector) → ListStands None members.old c list
        → (synced ≡ true → AreLackingGood (reading_of members.old) (reading_of members.new) c shape.now span.now list) → HasWindow span.now buffer.new list }
    ensures room { IsRoomFor span.now buffer.new }
    ensures each_mark { let start = (B.given bank.old).start in EachMark B.tells start (B.tape bank.old) (B.tape bank.new)
        (IsStoringOrNaming backup (header_of uuid.now span.now) buffer.new (disk start (B.tape bank.old))) }
    ensures same { B.tells → (sectioned ≡ true → IsRead result.answer → ⊥) → B.tape bank.new ≡ B.tape bank.old }
    ensures active { OnOk result.answer (sectioned ≡ true → B.tells → (scope : Scope) → IsBackupFor scope backup uuid.now span.now
        → let e = disk (B.given bank.old).start (B.tape bank.new) in
        IsOpenUnderAll scope members.new span.now e × HasSectors scope buffer.new e) }
    ensures copyable { OnOk result.answer (B.tells → (scope : Scope) → (sectioned ≡ true → IsBackupFor scope backup uuid.now span.now)
        → IsCopyable scope members.new span.now (disk (B.given bank.old).start (B.tape bank.new))) }
    ensures untouched { result.answer ≡ Err (Unsaved Before) → B.tells → (scope : Scope) → IsBackupFor scope backup uuid.now span.now → let start = (B.given bank.old).start in
        HasNoSection scope members.old (disk start (B.tape bank.old)) → HasNoSection scope members.new (disk start (B.tape bank.new)) }
    ensures unsure { result.answer ≡ Err (Unsaved Attempted) → B.tells → (scope : Scope) → IsBackupFor scope backup uuid.now span.now
        → let start = (B.given bank.old).start in let e = disk start (B.tape bank.new) in
        HasNoSection scope members.old (disk start (B.tape bank.old)) → IsOpenOrNot scope members.new span.now e × HasSectors scope buffer.new e }
    ensures safe { B.tells → (world : World) → (told : Ledger) → (list : ℕ → Sector)
        → (IsTolerated (reading_of members.new) (shape_of members.old.newest) → IsEnterable world.scope told members.old members.new backup uuid.now span.now synced sectioned list
        (present (B.given bank.old) (B.tape bank.old)) (disk (B.given bank.old).start (B.tape bank.old)))
        → IsSafeOver world (B.given bank.old) told members.old (B.tape bank.old) → KeepsSafe world (B.given bank.old) told members.new (B.tape bank.old) (B.tape bank.new) }
    ensures failed { (fault : SectionFault) → result.answer ≡ Err (Unsaved fault) → IsFaulted backup (B.faults_of bank.old) (B.faults_of bank.new) }
    ensures given { B.given bank.new ≡ B.given bank.old }
{
    let Outcome { lost, answer } = read_window(members, bank, shape, span, buffer, scratch, synced);
    let answer = save(bank, backup, uuid, span, buffer, sectioned, answer);
    Entered { lost, answer }
}
