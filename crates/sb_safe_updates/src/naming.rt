//! Marks of the superblocks, which name the roles that no slot holds.

ghost use Rattle.std.specs.Prelude.{◌≡◌, ◌<◌, ◌≤◌, ◌^◌, ◌&&◌, ℕ, true, false, nat_lt, not, length};
ghost use Rattle.raid_layout.specs.raid_types_Shapes.{has_slot};
ghost use Rattle.sb_update.specs.sb_specs_Reading.{role_count, is_clean};
ghost use Rattle.array_members.specs.stripe_row_Rows.{reading_of, present};
ghost use Rattle.array_members.specs.Placed.{is_unassigned, AreWhole};
ghost use Rattle.array_members.specs.crash_safety_laws_Steady.{IsSafeOver, IsNamedOver, KeepsSafe, AreGoneTold, IsUncleanTold};
ghost use Rattle.array_members.specs.crash_safety_laws_Marking.{AreOthersPresent};
ghost use Rattle.sb_safe_updates.specs.Named.{AreNamedMissing, AreDataKept};
ghost use Rattle.array_members.specs.crash_safety_laws_Safety.{HasLiveSlot, HasRoomLeft};
ghost use Rattle.array_members.specs.Under.{IsRestKept};
ghost use Rattle.array_members.specs.Lacking.{AreHoldersFlushed, IsNamed, AreUnnamed};
ghost use Rattle.sb_update.specs.bank_Tape.{EachMark, disk};
ghost use Rattle.array_members.specs.history_World.{World};
ghost use Rattle.array_members.specs.history_Sound.{OpensFit};
ghost use Rattle.array_members.specs.crash_views_Views.{Ledger};
ghost use Rattle.array_members.specs.crash_safety_laws_Kinds.{IsMarkable};
ghost use Rattle.sb_safe_updates.specs.Frame.{Stands, Keeps};

use crate::flushes::holders;
use crate::marks::set_clean_mark;
use crate::roles::{is_unassigned, unassigned_roles};
use sb_update::{Bank, Members, Sb, entry_of, is_clean, without};

/// The roles that no slot holds, of so many, and that aren't among these.
pub fn newly_unassigned(members: &Members, disks: u32, before: u32) -> u32
    requires known { disks ≤ length members.now.roles }
    requires few { disks ≤ 32 }
    ensures { (role : ℕ) → has_slot result role ≡ ((nat_lt role disks && is_unassigned (reading_of members.now) role) && not (has_slot before role)) }
{
    without(unassigned_roles(members, disks), before)
}

// Whether some device has the role, by the newest superblock.
fn is_named(newest: &Sb, role: u32) -> bool
    ensures named { result ≡ true → IsNamed newest.now role }
    ensures unnamed { result ≡ false → IsNamed newest.now role → ⊥ }
{
    for device in 0..384u32 {
        if u32::from(entry_of(newest, device)) == role {
            return true;
        }
    }
    false
}

/// Whether the newest superblock still gives a device a role that no slot holds.
pub fn has_unnamed(members: &Members) -> bool
    requires roles { length members.now.roles ≡ role_count members.now.newest }
    requires few { length members.now.roles < 2 ^ 32 }
    ensures some { result ≡ true → (role : ℕ) × (role < role_count members.now.newest) × (is_unassigned (reading_of members.now) role ≡ true) × IsNamed members.now.newest role }
    ensures none { result ≡ false → AreUnnamed members.now }
{
    for role in 0..members.roles.len() as u32 {
        if is_unassigned(members, role) && is_named(&members.newest, role) {
            return true;
        }
    }
    false
}

// A superblock has 384 role entries.
fn check_entries(newest: &Sb)
    ensures { length newest.now.dev_roles ≡ 384 }
{
    let entries = newest.dev_roles;
    let _ = entries.len();
}

/// Marks the array clean or dirty, which names the roles that no slot holds. The spares that were lost in this.
pub fn mark_all<B: Bank>(members: &mut Members, bank: &mut B, clean: bool) -> u32
    requires stands { Stands (B.given bank.old) members.old }
    ensures keeps { Keeps B.tells B.given B.tape B.faults_of bank.old bank.new members.old members.new result }
    ensures others { B.tells → AreOthersPresent (present (B.given bank.old) (B.tape bank.old)) (present (B.given bank.old) (B.tape bank.new)) }
    ensures flushed { B.tells → AreHoldersFlushed (reading_of members.old) (B.given bank.old) (B.tape bank.old) → AreHoldersFlushed (reading_of members.old) (B.given bank.old) (B.tape bank.new) }
    ensures clean { is_clean members.new.newest ≡ clean }
    ensures missing { HasLiveSlot members.new → AreNamedMissing members.new }
    ensures rest { B.tells → IsRestKept members.old (disk (B.given bank.old).start (B.tape bank.old)) (disk (B.given bank.old).start (B.tape bank.new)) }
    ensures data { let start = (B.given bank.old).start in EachMark B.tells start (B.tape bank.old) (B.tape bank.new) (AreDataKept (disk start (B.tape bank.old))) }
    ensures safe { B.tells → (world : World) → (told : Ledger) → HasRoomLeft members.old (B.tape bank.old) (B.tape bank.new)
        → IsMarkable (OpensFit world) world.scope clean told members.old members.new (disk (B.given bank.old).start (B.tape bank.old))
        → IsSafeOver world (B.given bank.old) told members.old (B.tape bank.old)
        → KeepsSafe world (B.given bank.old) told members.new (B.tape bank.old) (B.tape bank.new) }
    ensures named { B.tells → (world : World) → (told : Ledger) → HasRoomLeft members.old (B.tape bank.old) (B.tape bank.new)
        → IsMarkable (OpensFit world) world.scope clean told members.old members.new (disk (B.given bank.old).start (B.tape bank.old))
        → IsSafeOver world (B.given bank.old) told members.old (B.tape bank.old)
        → HasLiveSlot members.new → IsNamedOver world (B.given bank.old) told members.new (B.tape bank.new) }
{
    let held = holders(members);
    let lost = set_clean_mark(members, bank, clean);
    check_entries(&members.newest);
    without(lost, held)
}

/// Names the roles that no slot holds, where they aren't yet: an update that changes nothing else. The spares that were lost
/// in this.
pub fn record_missing<B: Bank>(members: &mut Members, bank: &mut B) -> u32
    requires stands { Stands (B.given bank.old) members.old }
    ensures keeps { Keeps B.tells B.given B.tape B.faults_of bank.old bank.new members.old members.new result }
    ensures others { B.tells → AreOthersPresent (present (B.given bank.old) (B.tape bank.old)) (present (B.given bank.old) (B.tape bank.new)) }
    ensures flushed { B.tells → AreHoldersFlushed (reading_of members.old) (B.given bank.old) (B.tape bank.old) → AreHoldersFlushed (reading_of members.old) (B.given bank.old) (B.tape bank.new) }
    ensures clean { is_clean members.new.newest ≡ is_clean members.old.newest }
    ensures kept { AreWhole members.old → members.new ≡ members.old }
    ensures tape { AreWhole members.old → B.tells → B.tape bank.new ≡ B.tape bank.old }
    ensures missing { HasLiveSlot members.new → AreNamedMissing members.new }
    ensures rest { B.tells → IsRestKept members.old (disk (B.given bank.old).start (B.tape bank.old)) (disk (B.given bank.old).start (B.tape bank.new)) }
    ensures data { let start = (B.given bank.old).start in EachMark B.tells start (B.tape bank.old) (B.tape bank.new) (AreDataKept (disk start (B.tape bank.old))) }
    ensures safe { B.tells → (world : World) → (told : Ledger) → HasRoomLeft members.old (B.tape bank.old) (B.tape bank.new)
        → AreGoneTold told members.new → IsUncleanTold told members.old → IsSafeOver world (B.given bank.old) told members.old (B.tape bank.old)
        → KeepsSafe world (B.given bank.old) told members.new (B.tape bank.old) (B.tape bank.new) }
    ensures named { B.tells → (world : World) → (told : Ledger) → HasRoomLeft members.old (B.tape bank.old) (B.tape bank.new)
        → AreGoneTold told members.new → IsUncleanTold told members.old → IsSafeOver world (B.given bank.old) told members.old (B.tape bank.old)
        → HasLiveSlot members.new → IsNamedOver world (B.given bank.old) told members.new (B.tape bank.new) }
{
    if !has_unnamed(members) {
        return 0;
    }
    let clean = is_clean(&members.newest);
    mark_all(members, bank, clean)
}

/// Marks a clean array dirty, and names the roles that no slot holds. The spares that were lost in this.
pub fn mark_dirty<B: Bank>(members: &mut Members, bank: &mut B) -> u32
    requires stands { Stands (B.given bank.old) members.old }
    ensures keeps { Keeps B.tells B.given B.tape B.faults_of bank.old bank.new members.old members.new result }
    ensures others { B.tells → AreOthersPresent (present (B.given bank.old) (B.tape bank.old)) (present (B.given bank.old) (B.tape bank.new)) }
    ensures dirty { is_clean members.new.newest ≡ false }
    ensures missing { HasLiveSlot members.new → AreNamedMissing members.new }
    ensures rest { B.tells → IsRestKept members.old (disk (B.given bank.old).start (B.tape bank.old)) (disk (B.given bank.old).start (B.tape bank.new)) }
    ensures safe { B.tells → (world : World) → (told : Ledger) → HasRoomLeft members.old (B.tape bank.old) (B.tape bank.new)
        → AreGoneTold told members.new → told.unclean ≡ true → IsSafeOver world (B.given bank.old) told members.old (B.tape bank.old)
        → KeepsSafe world (B.given bank.old) told members.new (B.tape bank.old) (B.tape bank.new) }
{
    if is_clean(&members.newest) {
        return mark_all(members, bank, false);
    }
    record_missing(members, bank)
}
