//! A slot is made a spare.

ghost use Rattle.std.specs.Prelude.{◌≡◌, ◌≤◌, ◌<◌, ◌^◌, ℕ, true, false, drop, length, slice_index, IfSome, IfNone};
ghost use Rattle.sb_safe_updates.specs.bank_Given.{NeverFalls, IsFaulted};
ghost use Rattle.sb_safe_updates.specs.bank_Tape.{IsIn, disk};
ghost use Rattle.sb_safe_updates.specs.raid_types_Sectors.{Sector};
ghost use Rattle.sb_safe_updates.specs.raid_types_Shapes.{has_slot};
ghost use Rattle.sb_safe_updates.specs.sb_specs_Reading.{is_clean, data_offset_of};
ghost use Rattle.sb_safe_updates.specs.sb_specs_Reads.{has_spare};
ghost use Rattle.sb_safe_updates.specs.sb_specs_Held.{IsSecondHalf};
ghost use Rattle.sb_safe_updates.specs.stripe_row_Rows.{reading_of, present};
ghost use Rattle.sb_safe_updates.specs.history_World.{World};
ghost use Rattle.sb_safe_updates.specs.crash_safety_laws_Steady.{IsSafeOver, KeepsSafe, AreGoneTold, IsUncleanTold, with_number};
ghost use Rattle.sb_safe_updates.specs.crash_safety_laws_Marking.{adding, AreOthersPresent};
ghost use Rattle.sb_safe_updates.specs.array_members_Flushing.{OnlyFlushesAdded};
ghost use Rattle.sb_safe_updates.specs.crash_safety_laws_Safety.{HasLiveSlot, HasRoomLeft};
ghost use Rattle.sb_safe_updates.specs.array_members_Lacking.{AreUnnamed};
ghost use Rattle.sb_safe_updates.specs.array_members_Under.{IsRestKept};
ghost use Rattle.sb_safe_updates.specs.sb_codec_Superblock.{two_by_two};
ghost use Rattle.sb_safe_updates.specs.array_members_Numbers.{IsSpareSb, IsOfScope, AreSecondEntries};
ghost use Rattle.sb_safe_updates.specs.array_members_Rebuilding.{MayHold, IfOwn, with_spare};
ghost use Rattle.sb_safe_updates.specs.crash_views_Views.{Ledger};
ghost use Rattle.sb_safe_updates.specs.Frame.{Stands, KeepsMembers};

use sb_safe_updates::flushes::holders;
use sb_safe_updates::{Bank, Change, Give, Members, Sb, fields_of, update, without};

/// The first sector of a superblock.
const SUPERBLOCK: u64 = 8;

// The last of the role entries that a superblock's sectors hold, in memory of their own.
fn second_entries(bytes: &[u8; 1024]) -> [u16; 256]
    ensures entries { result ≡ two_by_two (drop 512 bytes.now) }
    ensures small { (k : ℕ) → slice_index bytes.now k < 256 }
{
    let found = fields_of(bytes);
    let mut entries = [0; 256];
    entries.copy_from_slice(&found.dev_roles[128..]);
    entries
}

/// Flushes a slot, and reads the role entries in the second sector of its superblock, which stay when the first one is
/// written. None where the slot fails.
pub fn look_at<B: Bank>(bank: &mut B, slot: u32) -> Option<[u16; 256]>
    requires slot { slot < (B.given bank.old).slots }
    requires room { 10 ≤ (B.given bank.old).sectors slot }
    ensures second { IfSome result (λ entries. B.tells → (sector : Sector) → IsIn (disk (B.given bank.old).start (B.tape bank.new) slot 9) sector → AreSecondEntries entries sector) }
    ensures count { IfSome result (λ entries. length entries ≡ 256) }
    ensures sound { IfSome result (λ entries. B.faults_of bank.old slot ≡ 0) }
    ensures failed { IfNone result (IsFaulted slot (B.faults_of bank.old) (B.faults_of bank.new)) }
    ensures tape { B.tells → OnlyFlushesAdded (B.tape bank.old) (B.tape bank.new) }
    ensures given { B.given bank.new ≡ B.given bank.old }
    ensures counts { NeverFalls (B.faults_of bank.old) (B.faults_of bank.new) }
{
    if bank.flush(slot).is_err() {
        return None;
    }
    let mut bytes = [0u8; 1024];
    if bank.read(slot, SUPERBLOCK, &mut bytes).is_err() {
        return None;
    }
    Some(second_entries(&bytes))
}

/// The sector at which the rows of a slot begin, by its superblock.
pub fn data_offset(members: &Members, slot: u32) -> u64
    requires { slot < 32 }
    ensures { result ≡ data_offset_of (reading_of members.now) slot }
{
    members.own.get(slot).map_or(0, |sb| sb.data_offset)
}

// The update that makes a slot a spare, with this superblock.
fn adding(members: &Members, slot: u32, sb: &Sb) -> Change
    ensures { result ≡ adding members.now slot sb.now }
{
    Change {
        shared: members.newest,
        gives: [Give::Same; 32],
        added: Some((slot, *sb)),
    }
}

// A superblock is kept of each of 32 slots, and no others are lost.
fn check_count(members: &Members)
    ensures own { length members.now.own ≡ 32 }
    ensures lost { members.now.lost < 2 ^ 32 }
{
    let _ = members.own.as_slice();
    let _ = without(members.lost, 0);
}

/// Makes a slot that has no part in the array a spare with this superblock, and names the roles that no slot holds. The
/// spares that were lost in this, among them this one.
pub fn add_member<B: Bank>(members: &mut Members, bank: &mut B, slot: u32, sb: &Sb) -> u32
    requires stands { Stands (B.given bank.old) members.old }
    requires slot { slot < (B.given bank.old).slots }
    requires untaken { (role : ℕ) → MayHold members.old role slot → ⊥ }
    requires made { IsSpareSb (B.given bank.old) members.old.newest slot sb.now }
    requires fresh { has_slot members.old.lost slot ≡ true → AreUnnamed members.old }
    ensures own { length members.old.own ≡ 32 }
    ensures keeps { KeepsMembers B.tells B.given B.tape B.faults_of bank.old bank.new (with_spare slot sb.now members.old) members.new result }
    ensures spare { has_slot result slot ≡ false → has_spare members.new.spares slot ≡ true }
    ensures lost { has_slot result slot ≡ true → has_spare members.new.spares slot ≡ false }
    ensures others { B.tells → AreOthersPresent (present (B.given bank.old) (B.tape bank.old)) (present (B.given bank.old) (B.tape bank.new)) }
    ensures rest { B.tells → IsRestKept (with_spare slot sb.now members.old) (disk (B.given bank.old).start (B.tape bank.old)) (disk (B.given bank.old).start (B.tape bank.new)) }
    ensures clean { is_clean members.new.newest ≡ is_clean members.old.newest }
    ensures stored { has_slot result slot ≡ false → IfOwn members.new slot (λ own. (own.dev_number ≡ sb.now.dev_number) × (own.data_offset ≡ sb.now.data_offset)) }
    ensures safe { B.tells → (world : World) → (told : Ledger) → HasRoomLeft members.old (B.tape bank.old) (B.tape bank.new)
        → AreGoneTold told members.new → IsUncleanTold told members.old → IsOfScope world.scope (B.given bank.old) slot sb.now → ((s : ℕ) → told.carried s sb.now.dev_number ≡ false)
        → ((sector : Sector) → IsIn (disk (B.given bank.old).start (B.tape bank.old) slot 9) sector → IsSecondHalf sb.now sector) → HasLiveSlot members.old
        → IsSafeOver world (B.given bank.old) told members.old (B.tape bank.old)
        → KeepsSafe world (B.given bank.old) (with_number slot sb.now.dev_number told) members.new (B.tape bank.old) (B.tape bank.new) }
{
    check_count(members);
    let change = adding(members, slot, sb);
    let held = holders(members);
    let lost = update(members, bank, &change);
    without(lost, held)
}
