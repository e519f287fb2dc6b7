//! A reshape begins.

ghost use Rattle.std.specs.Prelude.{◌≡◌, ◌≢◌, ◌⊎◌, ◌+◌, ◌<◌, ◌≤◌, ◌&&◌, ◌||◌, ◌==◌, ℕ, true, false, not, nat_lt, length, Some, None};
ghost use Rattle.sb_safe_updates.specs.bank_Tape.{disk};
ghost use Rattle.sb_safe_updates.specs.raid_types_Shapes.{has_slot};
ghost use Rattle.sb_safe_updates.specs.raid_types_Search.{count_below};
ghost use Rattle.sb_safe_updates.specs.raid_types_the_Refusal_TheVariants.{BackupFault};
ghost use Rattle.sb_safe_updates.specs.raid_types_the_Role_TheVariants.{Whole};
ghost use Rattle.sb_safe_updates.specs.reshape_geometry_Geometry.{AreInForce};
ghost use Rattle.sb_safe_updates.specs.sb_specs_Reading.{Scope, is_reshaping, shape_of, role_state};
ghost use Rattle.sb_safe_updates.specs.sb_specs_Reads.{has_spare};
ghost use Rattle.sb_safe_updates.specs.stripe_row_Rows.{present, reading_of};
ghost use Rattle.sb_safe_updates.specs.history_World.{World};
ghost use Rattle.sb_safe_updates.specs.history_Sound.{OpensFit};
ghost use Rattle.sb_safe_updates.specs.crash_views_Regions.{ArePlaced};
ghost use Rattle.sb_safe_updates.specs.crash_views_Views.{Ledger};
ghost use Rattle.sb_safe_updates.specs.crash_safety_laws_Safety.{HasLiveSlot, HasRoomLeft, IsRisen};
ghost use Rattle.sb_safe_updates.specs.crash_safety_laws_Steady.{AreUnlost, IsSafeOver, KeepsSafe, AreGoneTold};
ghost use Rattle.sb_safe_updates.specs.crash_safety_laws_Changing.{IsSafeChange};
ghost use Rattle.reshape_sb_updates.specs.crash_reshape_laws_Ends.{IsCleared, IsToldWith};
ghost use Rattle.reshape_sb_updates.specs.Beginning.{HasBegun};
ghost use Rattle.sb_safe_updates.specs.array_members_Placed.{IsPlaced};
ghost use Rattle.sb_safe_updates.specs.array_members_Moving.{IsMoved};
ghost use Rattle.sb_safe_updates.specs.array_members_Lacking.{HaveFailedSince};
ghost use Rattle.sb_safe_updates.specs.array_members_Rebuilding.{AreSparesFree};
ghost use Rattle.sb_safe_updates.specs.Named.{AreNamedMissing};
ghost use Rattle.reshape_begin_end.specs.Begun.{begun_plan, is_idle_spare, IsBackupOf, IsUntouched, IsBegunBehind};
ghost use Rattle.sb_safe_updates.specs.Frame.{GoesOn};

use reshape_sb_updates::{begin_update, clear_section};
use sb_safe_updates::roles::shape_in;
use sb_safe_updates::{Bank, Members, Refusal, Sb, Shape, SlotList, with, without};

/// The spares that were lost as a reshape began, and why it didn't.
#[derive(Clone, Copy)]
pub struct Begun {
    pub spares: u32,
    pub refusal: Option<Refusal>,
}

// The set with the slot, where it is a spare and this role is past the last one.
fn with_idle(idle: u32, slot: u32, is_spare: bool, role: u32, disks: u32) -> u32
    requires { slot < 32 }
    ensures { (s : ℕ) → has_slot result s ≡ (has_slot idle s || ((is_spare && not (nat_lt role disks)) && (slot == s))) }
{
    if !is_spare {
        return idle;
    }
    if role < disks {
        return idle;
    }
    with(idle, slot)
}

// The spares that get none of the new roles, from the first one on.
fn idle_spares(spares: &SlotList, first: u32, disks: u32) -> u32
    requires { first ≤ 16 }
    ensures { (slot : ℕ) → has_slot result slot ≡ is_idle_spare spares.now first disks slot }
{
    let mut idle = 0;
    let mut role = first;
    for slot in 0..32u32 {
        let is_spare = spares.contains(slot);
        idle = with_idle(idle, slot, is_spare, role, disks);
        role += u32::from(is_spare);
    }
    idle
}

/// A superblock is kept of each of 32 slots.
pub fn check_counts(members: &Members)
    ensures own { length members.now.own ≡ 32 }
{
    let _ = members.own.get(0);
}

/// A superblock has 384 role entries.
pub fn check_entries(newest: &Sb)
    ensures { length newest.now.dev_roles ≡ 384 }
{
    let entries = newest.dev_roles;
    let _ = entries.len();
}

/// Begins a reshape of an array of one shape to another one of the same level: clears the backup's header, and records the
/// reshape in the superblocks of all live slots, of which the lowest spares get its new roles; enough of them are needed. The
/// array's rows are written out before. `uuid` is the array's, and `backup` the slot of its backup.
///
/// Refused `BackupFault` where a call on the backup failed, which its fault count shows; then nothing else was tried. The spares
/// in the answer are those that get no role; a new role whose spare was lost is held by no slot.
pub fn begin<B: Bank>(
    members: &mut Members,
    bank: &mut B,
    backup: u32,
    uuid: &[u8; 16],
    to: &Shape,
) -> Begun
    requires placed { IsPlaced (B.given bank.old) members.old }
    requires unlost { AreUnlost members.old }
    requires free { AreSparesFree (B.given bank.old) members.old }
    requires still { is_reshaping members.old.newest ≡ false }
    requires in_force { AreInForce (shape_of members.old.newest) to.now members.old.newest.size }
    requires level { to.now.level ≡ members.old.newest.level }
    requires spares { to.now.disks ≤ (shape_of members.old.newest).disks + count_below 32 (has_spare members.old.spares) }
    requires slot { backup < (B.given bank.old).slots }
    requires within { 1 ≤ (B.given bank.old).sectors backup }
    ensures answer { (why : Refusal) → result.refusal ≡ Some why → (why ≡ BackupFault) × (result.spares ≡ 0) }
    ensures refused { (why : Refusal) → result.refusal ≡ Some why
        → IsUntouched B.tells backup uuid.now members.old members.new (B.tape bank.old) (B.tape bank.new) (B.faults_of bank.old) (B.faults_of bank.new) }
    ensures begun { result.refusal ≡ None → IsBegunBehind B.tells (B.given bank.old) backup uuid.now to.now members.old members.new (B.tape bank.old) (B.tape bank.new) }
    ensures newest { result.refusal ≡ None → HasBegun members.old.newest to.now members.new.newest }
    ensures taken { result.refusal ≡ None → (role : ℕ) → (shape_of members.old.newest).disks ≤ role → role < to.now.disks
        → (slot : ℕ) × (has_spare members.old.spares slot ≡ true) × (has_slot members.new.lost slot ≡ false → role_state (reading_of members.new) role ≡ Whole slot) }
    ensures moved { result.refusal ≡ None → IsMoved (B.given bank.old) (begun_plan members.old to.now) members.new }
    ensures failed { result.refusal ≡ None → HaveFailedSince (begun_plan members.old to.now) members.new result.spares (B.faults_of bank.old) (B.faults_of bank.new) }
    ensures spares { result.refusal ≡ None → (s : ℕ) → has_slot result.spares s ≡ true → has_spare (begun_plan members.old to.now).spares s ≡ true }
    ensures free { AreSparesFree (B.given bank.old) members.new }
    ensures named { result.refusal ≡ None → HasLiveSlot members.new → AreNamedMissing members.new }
    ensures plain { result.refusal ≡ None → B.tells → (scope : Scope) → scope.backup ≡ Some backup → scope.uuid ≡ uuid.now
        → IsCleared scope (disk (B.given bank.old).start (B.tape bank.new)) }
    ensures others { B.tells → (s k : ℕ) → k ≢ 8 → (s ≢ backup) ⊎ (k ≢ 0) → present (B.given bank.old) (B.tape bank.new) s k ≡ present (B.given bank.old) (B.tape bank.old) s k }
    ensures bank { GoesOn B.tells B.given B.tape B.faults_of bank.old bank.new }
    ensures rise { IsRisen B.tells members.old members.new (B.tape bank.old) (B.tape bank.new) }
    ensures kept { (why : Refusal) → result.refusal ≡ Some why → B.tells → (world : World) → (told : Ledger) → HasLiveSlot members.old
        → world.scope.backup ≡ Some backup → world.scope.uuid ≡ uuid.now → IsSafeOver world (B.given bank.old) told members.old (B.tape bank.old)
        → KeepsSafe world (B.given bank.old) told members.new (B.tape bank.old) (B.tape bank.new) }
    ensures safe { result.refusal ≡ None → B.tells → (world : World) → (told more : Ledger) → HasRoomLeft members.old (B.tape bank.old) (B.tape bank.new) → HasLiveSlot members.old
        → IsBackupOf world.scope members.old to.now backup uuid.now → ArePlaced world.scope (B.given bank.old) members.old → IsToldWith told more (begun_plan members.old to.now)
        → AreGoneTold told members.old → AreGoneTold more members.new → ((slot number : ℕ) → told.carried slot number ≡ true → more.carried slot number ≡ true)
        → IsSafeOver world (B.given bank.old) told members.old (B.tape bank.old)
        → IsSafeChange (OpensFit world) world.scope (B.given bank.old) told more members.new (B.tape bank.old) (B.tape bank.new) }
{
    check_counts(members);
    match clear_section(bank, backup, uuid) {
        Err(_) => {
            return Begun {
                spares: 0,
                refusal: Some(Refusal::BackupFault),
            };
        }
        Ok(()) => {}
    }
    let first = shape_in(members).disks;
    let idle = idle_spares(&members.spares, first, to.disks);
    let lost = begin_update(members, bank, to);
    check_entries(&members.newest);
    Begun {
        spares: without(lost, without(lost, idle)),
        refusal: None,
    }
}
