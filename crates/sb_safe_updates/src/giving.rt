//! A spare gets a role, and a role becomes whole.

ghost use Rattle.std.specs.Prelude.{◌≡◌, ◌≤◌, ◌<◌, ℕ, true, false, length};
ghost use Rattle.sb_update.specs.bank_Tape.{disk};
ghost use Rattle.raid_layout.specs.raid_types_Sectors.{Sector};
ghost use Rattle.raid_layout.specs.raid_types_the_Role_TheVariants.{Whole as IsWhole, Recovering as IsRecovering};
ghost use Rattle.sb_update.specs.sb_specs_Reading.{is_reshaping, shape_of, is_clean, role_state};
ghost use Rattle.sb_update.specs.sb_specs_Reads.{has_spare};
ghost use Rattle.array_members.specs.stripe_row_Rows.{reading_of, present};
ghost use Rattle.array_members.specs.history_World.{World};
ghost use Rattle.array_members.specs.history_Sound.{OpensFit};
ghost use Rattle.array_members.specs.Placed.{is_unassigned};
ghost use Rattle.array_members.specs.crash_safety_laws_Steady.{IsSafeOver, KeepsSafe, AreGoneTold, IsUncleanTold, AreWritesAllowed, given_back};
ghost use Rattle.array_members.specs.crash_safety_laws_Marking.{giving, AreOthersPresent};
ghost use Rattle.array_members.specs.Moving.{IsMoved};
ghost use Rattle.array_members.specs.crash_safety_laws_Safety.{HasRoomLeft, IsRisen};
ghost use Rattle.array_members.specs.Lacking.{HaveFailedSince, RowsStand};
ghost use Rattle.array_members.specs.Rebuilding.{with_recovering, with_whole, IsFlushedFull, AreRowsFull};
ghost use Rattle.array_members.specs.crash_views_Views.{Ledger};
ghost use Rattle.array_members.specs.crash_views_Regions.{DoWithout};
ghost use Rattle.sb_safe_updates.specs.Frame.{Stands, GoesOn};

use crate::flushes::holders;
use crate::naming::record_missing;
use array_members::lose_slot;
use sb_update::{Bank, Change, Give, Members, update, with, without};

// The update that makes a slot the holder of a role, which it recovers from this row on, or that is whole.
fn giving(members: &Members, slot: u32, role: u32, recovery: Option<u64>) -> Change
    requires { slot < 32 }
    ensures { result ≡ giving members.now slot role recovery }
{
    let mut gives = [Give::Same; 32];
    gives[slot as usize] = Give::Role { role, recovery };
    Change {
        shared: members.newest,
        gives,
        added: None,
    }
}

/// Gives a role that no slot holds to a spare, which has nothing of it yet, and names the roles that no slot holds. The
/// other spares that were lost in this.
pub fn give_role<B: Bank>(members: &mut Members, bank: &mut B, role: u32, slot: u32) -> u32
    requires stands { Stands (B.given bank.old) members.old }
    requires still { is_reshaping members.old.newest ≡ false }
    requires role { role < (shape_of members.old.newest).disks }
    requires vacant { is_unassigned (reading_of members.old) role ≡ true }
    requires spare { has_spare members.old.spares slot ≡ true }
    ensures moved { IsMoved (B.given bank.old) (with_recovering role slot members.old) members.new }
    ensures failed { HaveFailedSince (with_recovering role slot members.old) members.new result (B.faults_of bank.old) (B.faults_of bank.new) }
    ensures bank { GoesOn B.tells B.given B.tape B.faults_of bank.old bank.new }
    ensures others { B.tells → AreOthersPresent (present (B.given bank.old) (B.tape bank.old)) (present (B.given bank.old) (B.tape bank.new)) }
    ensures clean { is_clean members.new.newest ≡ is_clean members.old.newest }
    ensures rise { IsRisen B.tells members.old members.new (B.tape bank.old) (B.tape bank.new) }
    ensures safe { B.tells → (world : World) → (told : Ledger) → HasRoomLeft members.old (B.tape bank.old) (B.tape bank.new)
        → AreGoneTold told members.new → told.gone role ≡ true → IsUncleanTold told members.old → IsSafeOver world (B.given bank.old) told members.old (B.tape bank.old)
        → KeepsSafe world (B.given bank.old) told members.new (B.tape bank.old) (B.tape bank.new) }
{
    let change = giving(members, slot, role, Some(0));
    let held = with(holders(members), slot);
    let lost = update(members, bank, &change);
    without(lost, held)
}

/// Records a role as whole on the slot that recovered it, which has every row of it, durably, and names the roles that no
/// slot holds. The spares that were lost in this.
pub fn make_whole<B: Bank>(members: &mut Members, bank: &mut B, role: u32, slot: u32) -> u32
    requires stands { Stands (B.given bank.old) members.old }
    requires still { is_reshaping members.old.newest ≡ false }
    requires role { role < (shape_of members.old.newest).disks }
    requires recovering { role_state (reading_of members.old) role ≡ IsRecovering slot }
    ensures moved { IsMoved (B.given bank.old) (with_whole role slot members.old) members.new }
    ensures failed { HaveFailedSince (with_whole role slot members.old) members.new result (B.faults_of bank.old) (B.faults_of bank.new) }
    ensures bank { GoesOn B.tells B.given B.tape B.faults_of bank.old bank.new }
    ensures others { B.tells → AreOthersPresent (present (B.given bank.old) (B.tape bank.old)) (present (B.given bank.old) (B.tape bank.new)) }
    ensures clean { is_clean members.new.newest ≡ is_clean members.old.newest }
    ensures rise { IsRisen B.tells members.old members.new (B.tape bank.old) (B.tape bank.new) }
    ensures safe { B.tells → (world : World) → (told : Ledger) → HasRoomLeft members.old (B.tape bank.old) (B.tape bank.new)
        → AreGoneTold told members.new → told.gone role ≡ true → IsUncleanTold told members.old → OpensFit world → DoWithout members.old → (list : ℕ → Sector)
        → RowsStand members.old (present (B.given bank.old) (B.tape bank.old)) list → AreWritesAllowed members.old told.values list
        → IsFlushedFull members.old role slot list (disk (B.given bank.old).start (B.tape bank.old)) → IsSafeOver world (B.given bank.old) told members.old (B.tape bank.old)
        → KeepsSafe world (B.given bank.old) told members.new (B.tape bank.old) (B.tape bank.new) }
    ensures given_back { role_state (reading_of members.new) role ≡ IsWhole slot → B.tells → (world : World) → (told : Ledger) → HasRoomLeft members.old (B.tape bank.old) (B.tape bank.new)
        → AreGoneTold told members.new → told.gone role ≡ true → IsUncleanTold told members.old → OpensFit world → DoWithout members.old → (list : ℕ → Sector)
        → RowsStand members.old (present (B.given bank.old) (B.tape bank.old)) list → AreWritesAllowed members.old told.values list
        → IsFlushedFull members.old role slot list (disk (B.given bank.old).start (B.tape bank.old)) → IsSafeOver world (B.given bank.old) told members.old (B.tape bank.old)
        → IsSafeOver world (B.given bank.old) (given_back role told) members.new (B.tape bank.new) }
{
    let change = giving(members, slot, role, None);
    let held = holders(members);
    let lost = update(members, bank, &change);
    without(lost, held)
}

/// Flushes the slot that recovers a role, which has every row of it, and records the role whole; where the slot fails, it
/// is lost. Names the roles that no slot holds. The spares that were lost in this.
pub fn flush_and_record<B: Bank>(members: &mut Members, bank: &mut B, role: u32, slot: u32) -> u32
    requires stands { Stands (B.given bank.old) members.old }
    requires few { length members.old.spares ≤ 32 }
    requires still { is_reshaping members.old.newest ≡ false }
    requires role { role < (shape_of members.old.newest).disks }
    requires recovering { role_state (reading_of members.old) role ≡ IsRecovering slot }
    ensures moved { IsMoved (B.given bank.old) (with_whole role slot members.old) members.new }
    ensures failed { HaveFailedSince (with_whole role slot members.old) members.new result (B.faults_of bank.old) (B.faults_of bank.new) }
    ensures bank { GoesOn B.tells B.given B.tape B.faults_of bank.old bank.new }
    ensures others { B.tells → AreOthersPresent (present (B.given bank.old) (B.tape bank.old)) (present (B.given bank.old) (B.tape bank.new)) }
    ensures clean { is_clean members.new.newest ≡ is_clean members.old.newest }
    ensures rise { IsRisen B.tells members.old members.new (B.tape bank.old) (B.tape bank.new) }
    ensures safe { B.tells → (world : World) → (told : Ledger) → HasRoomLeft members.old (B.tape bank.old) (B.tape bank.new)
        → AreGoneTold told members.new → told.gone role ≡ true → IsUncleanTold told members.old → OpensFit world → DoWithout members.old → (list : ℕ → Sector)
        → RowsStand members.old (present (B.given bank.old) (B.tape bank.old)) list → AreWritesAllowed members.old told.values list
        → AreRowsFull members.old role slot list (present (B.given bank.old) (B.tape bank.old)) → IsSafeOver world (B.given bank.old) told members.old (B.tape bank.old)
        → KeepsSafe world (B.given bank.old) told members.new (B.tape bank.old) (B.tape bank.new) }
    ensures given_back { role_state (reading_of members.new) role ≡ IsWhole slot → B.tells → (world : World) → (told : Ledger) → HasRoomLeft members.old (B.tape bank.old) (B.tape bank.new)
        → AreGoneTold told members.new → told.gone role ≡ true → IsUncleanTold told members.old → OpensFit world → DoWithout members.old → (list : ℕ → Sector)
        → RowsStand members.old (present (B.given bank.old) (B.tape bank.old)) list → AreWritesAllowed members.old told.values list
        → AreRowsFull members.old role slot list (present (B.given bank.old) (B.tape bank.old)) → IsSafeOver world (B.given bank.old) told members.old (B.tape bank.old)
        → IsSafeOver world (B.given bank.old) (given_back role told) members.new (B.tape bank.new) }
{
    if bank.flush(slot).is_err() {
        let _ = lose_slot(members, slot);
        return record_missing(members, bank);
    }
    make_whole(members, bank, role, slot)
}
