//! A window that was read gets its section: it is stored and named in the backup.

ghost use Rattle.std.specs.Prelude.{◌≡◌, ◌+◌, ◌-◌, ◌<◌, ◌≤◌, Some, Err, OnOk};
ghost use Rattle.stripe_region_read.specs.bank_Given.{HasCause};
ghost use Rattle.stripe_region_read.specs.bank_Tape.{EachMark, disk};
ghost use Rattle.reshape_progress.specs.sb_specs_Reading.{Scope, next_window};
ghost use Rattle.reshape_progress.specs.sb_specs_the_Members.{Members};
ghost use Rattle.reshape_progress.specs.bank_backup_the_SectionFault_TheVariants.{Before, Attempted};
ghost use Rattle.reshape_progress.specs.bank_backup_Written.{header_of};
ghost use Rattle.reshape_progress.specs.bank_backup_Storing.{IsStoringOrNaming};
ghost use Rattle.reshape_progress.specs.history_World.{World};
ghost use Rattle.reshape_progress.specs.crash_views_Regions.{AreShapesFit};
ghost use Rattle.reshape_progress.specs.crash_views_Views.{Ledger};
ghost use Rattle.reshape_progress.specs.crash_views_Windows.{HasNoSection};
ghost use Rattle.reshape_progress.specs.crash_views_Backups.{IsSectionOf, IsOpenUnderAll, IsOpenOrNot, HasSectors};
ghost use Rattle.reshape_progress.specs.crash_safety_laws_Safety.{HasLiveSlot};
ghost use Rattle.reshape_progress.specs.crash_safety_laws_Steady.{IsSafeOver, KeepsSafe};
ghost use Rattle.reshape_progress.specs.reshape_window_rows_Copies.{IsRoomFor};
ghost use Rattle.reshape_window_backup.specs.Backup.{IsBackupFor};

use reshape_progress::{SectionFault, write_section};
use stripe_region_read::{Bank, Span};

/// Stores the sectors of the next window, which the buffer has, in the backup, and names them there as its section. At Ok that
/// is active, and the window's rows may be copied.
///
/// Err where a call on the backup failed, which its fault count shows: at `Before` no section is active, at `Attempted` that of
/// the window may be.
pub fn store_window<B: Bank>(
    bank: &mut B,
    backup: u32,
    uuid: &[u8; 16],
    span: &Span,
    buffer: &[u8],
) -> Result<(), SectionFault>
    requires filled { span.now.lo < span.now.hi }
    requires size { IsRoomFor span.now buffer.now }
    requires slot { backup < (B.given bank.old).slots }
    requires within { 8 + (span.now.hi - span.now.lo) ≤ (B.given bank.old).sectors backup }
    ensures each_mark { let start = (B.given bank.old).start in EachMark B.tells start (B.tape bank.old) (B.tape bank.new)
        (IsStoringOrNaming backup (header_of uuid.now span.now) buffer.now (disk start (B.tape bank.old))) }
    ensures active { OnOk result (B.tells → (scope : Scope) → (m : Members) → AreShapesFit m.newest → next_window m.newest ≡ Some span.now
        → IsBackupFor scope backup uuid.now span.now → let e = disk (B.given bank.old).start (B.tape bank.new) in
        IsOpenUnderAll scope m span.now e × HasSectors scope buffer.now e) }
    ensures untouched { result ≡ Err Before → B.tells → (scope : Scope) → (m : Members) → IsBackupFor scope backup uuid.now span.now
        → let start = (B.given bank.old).start in HasNoSection scope m (disk start (B.tape bank.old)) → HasNoSection scope m (disk start (B.tape bank.new)) }
    ensures unsure { result ≡ Err Attempted → B.tells → (scope : Scope) → (m : Members) → AreShapesFit m.newest → next_window m.newest ≡ Some span.now
        → IsBackupFor scope backup uuid.now span.now → let start = (B.given bank.old).start in let e = disk start (B.tape bank.new) in
        HasNoSection scope m (disk start (B.tape bank.old)) → IsOpenOrNot scope m span.now e × HasSectors scope buffer.now e }
    ensures safe { B.tells → (world : World) → (told : Ledger) → (m : Members) → HasLiveSlot m → IsBackupFor world.scope backup uuid.now span.now
        → HasNoSection world.scope m (disk (B.given bank.old).start (B.tape bank.old)) → IsSectionOf m told.values span.now buffer.now
        → IsSafeOver world (B.given bank.old) told m (B.tape bank.old) → KeepsSafe world (B.given bank.old) told m (B.tape bank.old) (B.tape bank.new) }
    ensures given { B.given bank.new ≡ B.given bank.old }
    ensures cause { HasCause backup (B.faults_of bank.old) (B.faults_of bank.new) result }
{
    write_section(bank, backup, uuid, span, buffer)
}
