//! The next window is entered.

ghost use Rattle.std.specs.Prelude.{◌≡◌, ◌≢◌, ◌⊎◌, ◌+◌, ◌-◌, ◌*◌, ◌<◌, ◌≤◌, ℕ, true, length, take, None, Some, IsErr, MatchOption};
ghost use Rattle.stripe_region_read.specs.raid_types_Sectors.{Sector};
ghost use Rattle.reshape_progress.specs.raid_types_the_Refusal_TheVariants.{BackupFault};
ghost use Rattle.stripe_region_read.specs.bank_Given.{IsFaulted};
ghost use Rattle.stripe_region_read.specs.bank_Tape.{disk};
ghost use Rattle.reshape_progress.specs.sb_specs_the_Members.{Members};
ghost use Rattle.reshape_progress.specs.sb_specs_Reading.{Scope, is_clean, list_length, next_window};
ghost use Rattle.reshape_progress.specs.stripe_row_Rows.{present, reading_of};
ghost use Rattle.reshape_progress.specs.history_World.{World};
ghost use Rattle.reshape_progress.specs.crash_views_Regions.{AreShapesFit, DoWithout};
ghost use Rattle.reshape_progress.specs.crash_views_Views.{Ledger, AreHeadersFit};
ghost use Rattle.reshape_progress.specs.crash_views_Windows.{HasNoSection, ListStands, RowsStand};
ghost use Rattle.reshape_progress.specs.crash_views_Backups.{IsSectionOf};
ghost use Rattle.reshape_progress.specs.crash_safety_laws_Safety.{HasLiveSlot, HasRoomLeft, IsRisen};
ghost use Rattle.reshape_progress.specs.crash_safety_laws_Steady.{AreWritesAllowed, IsSafeOver, KeepsSafe, AreGoneTold, IsUncleanTold};
ghost use Rattle.reshape_progress.specs.array_members_Placed.{AreWhole};
ghost use Rattle.reshape_progress.specs.array_members_Moving.{IsMoved};
ghost use Rattle.reshape_progress.specs.array_members_Lacking.{AreLostSince, AreOtherRowsKept, AreTooMany};
ghost use Rattle.reshape_progress.specs.sb_safe_updates_Unused.{IsUnused};
ghost use Rattle.reshape_progress.specs.reshape_window_rows_Copies.{IsRoomFor};
ghost use Rattle.reshape_progress.specs.reshape_request_the_Window_TheVariants.{Closed as NoWindow, Entered as IsEnteredWindow, Unsure as IsUnsureWindow};
ghost use Rattle.reshape_progress.specs.Course.{HasWindowIn, IsStored};
ghost use Rattle.reshape_window_backup.specs.Backup.{IsBackupFor};
ghost use Rattle.reshape_window_backup.specs.Entering.{refusal_in, window_behind};
ghost use Rattle.reshape_progress.specs.sb_safe_updates_Frame.{Stands, GoesOn};

use crate::reading::read_next;
use crate::storing::store_window;
use reshape_progress::{SectionFault, Window};
use stripe_region_read::{Bank, Members, Refusal, Span};

// Stores and names the section of the window whose sectors the buffer has, where it is to have one.
fn store_next<B: Bank>(
    bank: &mut B,
    backup: u32,
    uuid: &[u8; 16],
    span: &Span,
    sectioned: bool,
    window: &[u8],
) -> Result<(), SectionFault>
    requires filled { span.now.lo < span.now.hi }
    requires room { IsRoomFor span.now window.now }
    requires slot { backup < (B.given bank.old).slots }
    requires within { 8 + (span.now.hi - span.now.lo) ≤ (B.given bank.old).sectors backup }
    ensures stored { B.tells → (scope : Scope) → (m : Members) → AreShapesFit m.newest → next_window m.newest ≡ Some span.now → IsBackupFor scope backup uuid.now span.now
        → IsStored scope m NoWindow window.now (disk (B.given bank.old).start (B.tape bank.old))
        → IsStored scope m (window_behind span.now sectioned result) window.now (disk (B.given bank.old).start (B.tape bank.new)) }
    ensures safe { B.tells → (world : World) → (told : Ledger) → (m : Members) → HasLiveSlot m → IsBackupFor world.scope backup uuid.now span.now
        → HasNoSection world.scope m (disk (B.given bank.old).start (B.tape bank.old)) → IsSectionOf m told.values span.now window.now
        → IsSafeOver world (B.given bank.old) told m (B.tape bank.old) → KeepsSafe world (B.given bank.old) told m (B.tape bank.old) (B.tape bank.new) }
    ensures beside { B.tells → (s k : ℕ) → s ≢ backup → disk (B.given bank.old).start (B.tape bank.new) s k ≡ disk (B.given bank.old).start (B.tape bank.old) s k }
    ensures bank { GoesOn B.tells B.given B.tape B.faults_of bank.old bank.new }
    ensures sectioned { IsErr result → sectioned ≡ true }
    ensures failed { IsErr result → IsFaulted backup (B.faults_of bank.old) (B.faults_of bank.new) }
{
    if !sectioned {
        return Ok(());
    }
    store_window(bank, backup, uuid, span, window)
}

// Why a window isn't entered whose sectors were read: the backup failed.
fn refusal_in(stored: Result<(), SectionFault>) -> Option<Refusal>
    ensures { result ≡ refusal_in stored }
{
    match stored {
        Ok(()) => None,
        Err(_) => Some(Refusal::BackupFault),
    }
}

// The window that is under way then: where the header was tried, its section may be stored, and it is unsure.
fn window_behind(span: &Span, sectioned: bool, stored: Result<(), SectionFault>) -> Window
    ensures { result ≡ window_behind span.now sectioned stored }
{
    match stored {
        Ok(()) => Window::Entered {
            span: *span,
            copied: 0,
            sectioned,
        },
        Err(SectionFault::Before) => Window::Closed,
        Err(SectionFault::Attempted) => Window::Unsure { span: *span },
    }
}

/// The roles and the spares that were lost, why the window isn't entered, and the window that is under way then.
#[derive(Clone, Copy)]
pub struct Tried {
    pub roles: u32,
    pub spares: u32,
    pub refusal: Option<Refusal>,
    pub window: Window,
}

/// Reads the sectors of the next window into the buffer that begins with room for them, names what was lost, and stores and names its
/// section in the backup where it is to have one. Refused `TooManyMissing` where more roles of a shape in force are missing behind the
/// read than it tolerates, and `BackupFault` where a call on the backup failed; the window is unsure then where the header was tried.
pub fn enter_next<B: Bank>(
    members: &mut Members,
    bank: &mut B,
    backup: u32,
    uuid: &[u8; 16],
    span: &Span,
    sectioned: bool,
    window: &mut [u8],
    scratch: &mut [u8],
    relied: u64,
) -> Tried
    requires stands { Stands (B.given bank.old) members.old }
    requires next { next_window members.old.newest ≡ Some span.now }
    requires slot { backup < (B.given bank.old).slots }
    requires within { 8 + (span.now.hi - span.now.lo) ≤ (B.given bank.old).sectors backup }
    requires aside { IsUnused members.old backup }
    requires wide { 512 * (span.now.hi - span.now.lo) ≤ length window.old }
    requires scratch { 8192 ≤ length scratch.old }
    requires relied { list_length members.old.newest ≤ relied }
    ensures moved { IsMoved (B.given bank.old) members.old members.new }
    ensures since { AreLostSince members.old members.new result.roles result.spares (B.faults_of bank.old) (B.faults_of bank.new) }
    ensures refused { MatchOption result.refusal (DoWithout members.new)
        (λ refusal. AreTooMany members.new refusal ⊎ ((refusal ≡ BackupFault) × IsFaulted backup (B.faults_of bank.old) (B.faults_of bank.new))) }
    ensures window { MatchOption result.refusal (result.window ≡ IsEnteredWindow span.now 0 sectioned)
        (λ refusal. (result.window ≡ NoWindow) ⊎ ((result.window ≡ IsUnsureWindow span.now) × (sectioned ≡ true))) }
    ensures dead { (unsure : Span) → result.window ≡ IsUnsureWindow unsure → 0 < B.faults_of bank.new backup }
    ensures bank { GoesOn B.tells B.given B.tape B.faults_of bank.old bank.new }
    ensures clean { is_clean members.new.newest ≡ is_clean members.old.newest }
    ensures rise { IsRisen B.tells members.old members.new (B.tape bank.old) (B.tape bank.new) }
    ensures kept { B.tells → AreOtherRowsKept (λ row. ⊥) (reading_of members.new) (present (B.given bank.old) (B.tape bank.old)) (present (B.given bank.old) (B.tape bank.new)) }
    ensures has { B.tells → (list : ℕ → Sector) → ListStands None members.old (present (B.given bank.old) (B.tape bank.old)) list
        → AreWhole members.new ⊎ RowsStand None members.old (present (B.given bank.old) (B.tape bank.old)) list
        → HasWindowIn result.window (take (512 * (span.now.hi - span.now.lo)) window.new) list }
    ensures stored { B.tells → (scope : Scope) → IsBackupFor scope backup uuid.now span.now
        → HasNoSection scope members.old (disk (B.given bank.old).start (B.tape bank.old)) → AreHeadersFit scope members.old (disk (B.given bank.old).start (B.tape bank.old))
        → IsStored scope members.new result.window (take (512 * (span.now.hi - span.now.lo)) window.new) (disk (B.given bank.old).start (B.tape bank.new)) }
    ensures safe { B.tells → (world : World) → (told : Ledger) → (list : ℕ → Sector) → HasRoomLeft members.old (B.tape bank.old) (B.tape bank.new)
        → AreGoneTold told members.new → IsUncleanTold told members.old
        → IsBackupFor world.scope backup uuid.now span.now → HasNoSection world.scope members.old (disk (B.given bank.old).start (B.tape bank.old))
        → ListStands None members.old (present (B.given bank.old) (B.tape bank.old)) list
        → AreWhole members.new ⊎ RowsStand None members.old (present (B.given bank.old) (B.tape bank.old)) list
        → AreWritesAllowed members.old told.values list → IsSafeOver world (B.given bank.old) told members.old (B.tape bank.old)
        → KeepsSafe world (B.given bank.old) told members.new (B.tape bank.old) (B.tape bank.new) }
{
    let width = 512 * (span.hi - span.lo) as usize;
    let (part, _) = window.split_at_mut(width);
    let read = read_next(members, bank, span, part, scratch, relied);
    if read.refusal.is_some() {
        return Tried {
            roles: read.roles,
            spares: read.spares,
            refusal: read.refusal,
            window: Window::Closed,
        };
    }
    let stored = store_next(bank, backup, uuid, span, sectioned, part);
    Tried {
        roles: read.roles,
        spares: read.spares,
        refusal: refusal_in(stored),
        window: window_behind(span, sectioned, stored),
    }
}
