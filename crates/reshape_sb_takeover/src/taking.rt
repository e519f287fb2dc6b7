//! A level is taken over: 5 to 6, or 6 to 5.

ghost use Rattle.std.specs.Prelude.{◌≡◌, ◌⊎◌, ◌<◌, ◌≤◌, ◌^◌, ℕ, true, false, length, Some, IsTrue};
ghost use Rattle.reshape_begin_end.specs.raid_types_Shapes.{has_slot, is_valid_shape};
ghost use Rattle.reshape_begin_end.specs.sb_specs_Reading.{is_reshaping, role_state, holder};
ghost use Rattle.reshape_begin_end.specs.sb_specs_Reads.{has_spare};
ghost use Rattle.reshape_begin_end.specs.sb_specs_Update.{give_of, planned_role};
ghost use Rattle.reshape_begin_end.specs.stripe_row_Rows.{present, reading_of};
ghost use Rattle.reshape_begin_end.specs.history_World.{World};
ghost use Rattle.reshape_begin_end.specs.history_Sound.{OpensFit};
ghost use Rattle.reshape_begin_end.specs.crash_views_Views.{Ledger};
ghost use Rattle.reshape_begin_end.specs.crash_safety_laws_Safety.{HasLiveSlot, HasRoomLeft, IsRisen};
ghost use Rattle.reshape_begin_end.specs.crash_safety_laws_Marking.{AreOthersPresent};
ghost use Rattle.reshape_begin_end.specs.crash_safety_laws_Steady.{IsSafeOver, AreGoneTold};
ghost use Rattle.reshape_begin_end.specs.crash_safety_laws_Changing.{IsChanged, IsSafeChange};
ghost use Rattle.reshape_begin_end.specs.crash_reshape_laws_Ends.{IsToldWith};
ghost use Rattle.reshape_begin_end.specs.crash_reshape_laws_Takeovers.{IsTakenUp, IsTakenDown};
ghost use Rattle.reshape_begin_end.specs.array_members_Moving.{IsMoved};
ghost use Rattle.reshape_begin_end.specs.array_members_Lacking.{HaveFailedSince};
ghost use Rattle.reshape_begin_end.specs.array_members_Rebuilding.{AreSparesFree};
ghost use Rattle.reshape_begin_end.specs.sb_safe_updates_Named.{AreNamedMissing};
ghost use Rattle.reshape_sb_takeover.specs.TakingOver.{with_level, IsTakenTo, CanTakeOver, level_give, taking_over, taken_plan};
ghost use Rattle.reshape_begin_end.specs.sb_safe_updates_Frame.{Stands, GoesOn};

use reshape_begin_end::{Bank, Change, Give, Members, Sb, Shape, holders, update, with, without};

// The superblock with the level, the layout and the disk count of this shape.
fn with_level(sb: &Sb, to: &Shape) -> Sb
    ensures { result ≡ with_level to.now sb.now }
{
    Sb {
        level: to.level,
        layout: to.layout,
        raid_disks: to.disks,
        ..*sb
    }
}

// At level 6 the slot gets the last role, Q, to be recovered; at level 5 it becomes a spare.
fn level_give(to: &Shape) -> Give
    requires { 1 ≤ to.now.disks }
    ensures { result ≡ level_give to.now }
{
    if to.level == 6 {
        return Give::Role {
            role: to.disks - 1,
            recovery: Some(0),
        };
    }
    Give::Spare
}

// The update that takes the level over.
fn taking_over(members: &Members, to: &Shape, slot: u32) -> Change
    requires slot { slot < 32 }
    requires disks { 1 ≤ to.now.disks }
    ensures { result ≡ taking_over members.now to.now slot }
{
    let mut gives = [Give::Same; 32];
    gives[slot as usize] = level_give(to);
    Change {
        shared: with_level(&members.newest, to),
        gives,
        added: None,
    }
}

// The slots that hold a role once the level is taken over.
fn holders_then(members: &Members, to: &Shape, slot: u32) -> u32
    requires slot { slot < 32 }
    requires few { length members.now.roles < 2 ^ 32 }
    requires small { (role slot : ℕ) → holder (role_state (reading_of members.now) role) ≡ Some slot → slot < 32 }
    ensures only { (s : ℕ) → has_slot result s ≡ true → (role : ℕ) × (planned_role members.now.roles (give_of (taking_over members.now to.now slot).gives s) s ≡ Some role) }
    ensures all { (s role : ℕ) → s < 32 → planned_role members.now.roles (give_of (taking_over members.now to.now slot).gives s) s ≡ Some role → has_slot result s ≡ true }
{
    let held = holders(members);
    if to.level == 6 {
        return with(held, slot);
    }
    without(held, with(0, slot))
}

// A superblock is kept of each of 32 slots.
fn check_counts(members: &Members)
    ensures { length members.now.own ≡ 32 }
{
    let _ = members.own.get(0);
}

// A superblock has 384 role entries.
fn check_entries(newest: &Sb)
    ensures { length newest.now.dev_roles ≡ 384 }
{
    let entries = newest.dev_roles;
    let _ = entries.len();
}

/// Takes the level of an array of one shape over, to this shape, in the superblocks of all live slots. From 5 to 6 the slot is a
/// spare, which gets the new last role, Q, and has no row of it yet. From 6 to 5 the slot holds the last role, and becomes a spare.
/// All data and P stay where they are. It names the roles that no slot holds. The spares, by what was planned, that were lost in this.
pub fn take_over<B: Bank>(members: &mut Members, bank: &mut B, to: &Shape, slot: u32) -> u32
    requires stands { Stands (B.given bank.old) members.old }
    requires still { is_reshaping members.old.newest ≡ false }
    requires valid { IsTrue (is_valid_shape to.now) }
    requires can { CanTakeOver members.old to.now slot }
    ensures taken { IsChanged B.tells (B.given bank.old) (taking_over members.old to.now slot) members.old members.new (B.tape bank.old) (B.tape bank.new) }
    ensures newest { IsTakenTo members.old.newest to.now members.new.newest }
    ensures plan { IsTakenUp members.old (taken_plan members.old to.now slot) ⊎ IsTakenDown members.old (taken_plan members.old to.now slot) }
    ensures moved { IsMoved (B.given bank.old) (taken_plan members.old to.now slot) members.new }
    ensures failed { HaveFailedSince (taken_plan members.old to.now slot) members.new result (B.faults_of bank.old) (B.faults_of bank.new) }
    ensures spares { (s : ℕ) → has_slot result s ≡ true → has_spare (taken_plan members.old to.now slot).spares s ≡ true }
    ensures free { AreSparesFree (B.given bank.old) members.new }
    ensures named { HasLiveSlot members.new → AreNamedMissing members.new }
    ensures others { B.tells → AreOthersPresent (present (B.given bank.old) (B.tape bank.old)) (present (B.given bank.old) (B.tape bank.new)) }
    ensures bank { GoesOn B.tells B.given B.tape B.faults_of bank.old bank.new }
    ensures rise { IsRisen B.tells members.old members.new (B.tape bank.old) (B.tape bank.new) }
    ensures safe { B.tells → (world : World) → (told more : Ledger) → HasRoomLeft members.old (B.tape bank.old) (B.tape bank.new)
        → IsToldWith told more (taken_plan members.old to.now slot) → AreGoneTold told members.old → AreGoneTold more members.new
        → ((slot number : ℕ) → told.carried slot number ≡ true → more.carried slot number ≡ true) → IsSafeOver world (B.given bank.old) told members.old (B.tape bank.old)
        → IsSafeChange (OpensFit world) world.scope (B.given bank.old) told more members.new (B.tape bank.old) (B.tape bank.new) }
{
    check_counts(members);
    let held = holders_then(members, to, slot);
    let change = taking_over(members, to, slot);
    let lost = update(members, bank, &change);
    check_entries(&members.newest);
    without(lost, held)
}
