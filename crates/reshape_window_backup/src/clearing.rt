//! The header of a section is made plain.

ghost use Rattle.std.specs.Prelude.{◌≡◌, ◌<◌, ◌≤◌, None, Some, IsErr, OnOk, OnErr};
ghost use Rattle.stripe_region_read.specs.raid_types_Sectors.{Sector};
ghost use Rattle.stripe_region_read.specs.raid_types_the_Span.{Span};
ghost use Rattle.stripe_region_read.specs.bank_Given.{HasCause};
ghost use Rattle.stripe_region_read.specs.bank_Tape.{EachMark, IsIn, disk};
ghost use Rattle.reshape_progress.specs.sb_specs_Reading.{Scope};
ghost use Rattle.reshape_progress.specs.sb_specs_the_Members.{Members};
ghost use Rattle.reshape_progress.specs.bank_backup_Written.{cleared_header};
ghost use Rattle.reshape_progress.specs.bank_backup_Storing.{IsHeading};
ghost use Rattle.reshape_progress.specs.history_World.{World};
ghost use Rattle.reshape_progress.specs.crash_views_Regions.{open_by};
ghost use Rattle.reshape_progress.specs.crash_views_Views.{Ledger};
ghost use Rattle.reshape_progress.specs.crash_views_Windows.{HasNoSection};
ghost use Rattle.reshape_progress.specs.crash_views_Backups.{IsOpenOrNot};
ghost use Rattle.reshape_progress.specs.crash_safety_laws_Safety.{HasLiveSlot};
ghost use Rattle.reshape_progress.specs.crash_safety_laws_Steady.{IsSafeOver, KeepsSafe};

use reshape_progress::{BankFault, clear_section};
use stripe_region_read::Bank;

/// Makes the header of the backup plain: one that names no section is written and flushed. The slot is read first, since one that
/// failed before fails at that too; nothing of it is written then.
///
/// Err where a call on the backup failed, which its fault count shows.
pub fn clear_window<B: Bank>(bank: &mut B, backup: u32, uuid: &[u8; 16]) -> Result<(), BankFault>
    requires slot { backup < (B.given bank.old).slots }
    requires within { 1 ≤ (B.given bank.old).sectors backup }
    ensures each_mark { let start = (B.given bank.old).start in EachMark B.tells start (B.tape bank.old) (B.tape bank.new)
        (IsHeading backup (cleared_header uuid.now) (disk start (B.tape bank.old))) }
    ensures plain { OnOk result (B.tells → (scope : Scope) → (m : Members) → scope.backup ≡ Some backup → scope.uuid ≡ uuid.now
        → HasNoSection scope m (disk (B.given bank.old).start (B.tape bank.new))) }
    ensures unsure { OnErr result (B.tells → (scope : Scope) → (m : Members) → (span : Span) → scope.backup ≡ Some backup → scope.uuid ≡ uuid.now
        → let start = (B.given bank.old).start in IsOpenOrNot scope m span (disk start (B.tape bank.old)) → IsOpenOrNot scope m span (disk start (B.tape bank.new))) }
    ensures dead { 0 < B.faults_of bank.old backup → IsErr result × (B.tells → B.tape bank.new ≡ B.tape bank.old) }
    ensures safe { B.tells → (world : World) → (told : Ledger) → (m : Members) → (header : Sector) → HasLiveSlot m → world.scope.backup ≡ Some backup → world.scope.uuid ≡ uuid.now
        → IsIn (disk (B.given bank.old).start (B.tape bank.old) backup 0) header → open_by world.scope m.newest header ≡ None
        → IsSafeOver world (B.given bank.old) told m (B.tape bank.old) → KeepsSafe world (B.given bank.old) told m (B.tape bank.old) (B.tape bank.new) }
    ensures given { B.given bank.new ≡ B.given bank.old }
    ensures cause { HasCause backup (B.faults_of bank.old) (B.faults_of bank.new) result }
{
    let mut header = [0u8; 512];
    match bank.read(backup, 0, &mut header) {
        Err(fault) => return Err(fault),
        Ok(()) => {}
    }
    clear_section(bank, backup, uuid)
}
