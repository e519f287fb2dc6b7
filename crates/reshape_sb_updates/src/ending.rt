//! A reshape ends.

ghost use Rattle.std.specs.Prelude.{◌≡◌, ◌⊎◌, ◌+◌, ◌-◌, ◌<◌, ◌≤◌, ◌^◌, ◌&&◌, ℕ, true, false, not, min, length, Some};
ghost use Rattle.sb_update.specs.bank_Given.{NeverFalls};
ghost use Rattle.sb_update.specs.bank_Tape.{Contents, disk};
ghost use Rattle.sb_update.specs.raid_types_Sectors.{Sector};
ghost use Rattle.sb_update.specs.raid_types_Shapes.{has_slot};
ghost use Rattle.sb_update.specs.raid_types_Search.{tabulate};
ghost use Rattle.sb_update.specs.raid_types_the_Role_TheVariants.{Whole};
ghost use Rattle.sb_update.specs.sb_specs_Reading.{Scope, is_reshaping, is_backward, final_shape, role_count, role_state, holder};
ghost use Rattle.sb_update.specs.sb_specs_Reads.{has_spare};
ghost use Rattle.sb_update.specs.sb_specs_Outcome.{live_set, AreLive};
ghost use Rattle.sb_update.specs.sb_specs_Updating.{AreLosses};
ghost use Rattle.crash_reshape_laws.specs.stripe_row_Rows.{reading_of};
ghost use Rattle.crash_reshape_laws.specs.history_World.{World};
ghost use Rattle.crash_reshape_laws.specs.history_Sound.{OpensFit};
ghost use Rattle.crash_reshape_laws.specs.crash_views_Regions.{AreShapesFit, ArePlaced, DoWithout};
ghost use Rattle.crash_reshape_laws.specs.crash_views_Views.{Ledger};
ghost use Rattle.crash_reshape_laws.specs.crash_views_Windows.{IsFlushedRight};
ghost use Rattle.crash_reshape_laws.specs.crash_safety_laws_Safety.{HasRoomLeft, IsRisen};
ghost use Rattle.crash_reshape_laws.specs.crash_safety_laws_Steady.{IsSteady, IsSafeOver, AreGoneTold};
ghost use Rattle.crash_reshape_laws.specs.crash_safety_laws_Updates.{IsAtEnd, planned_view, IsLessView};
ghost use Rattle.crash_reshape_laws.specs.crash_safety_laws_Changing.{IsChanged, IsSafeChange};
ghost use Rattle.crash_reshape_laws.specs.crash_safety_laws_Kinds.{IsDropping};
ghost use Rattle.crash_reshape_laws.specs.Ends.{IsToldWith, IsEnded, IsGrown};
ghost use Rattle.crash_reshape_laws.specs.Plans.{HasNoneRecovering};
ghost use Rattle.reshape_sb_updates.specs.Ending.{with_new_shape, HasEnded, holds_from, dropped_give, ending};

use sb_update::{Bank, Change, Give, Lostness, Members, Role, Sb, role_of, update};

const RESHAPE_BITS: u32 = 4 + 32;

// The superblock with the new shape alone.
fn with_new_shape(sb: &Sb) -> Sb
    ensures { result ≡ with_new_shape sb.now }
{
    Sb {
        feature_map: sb.feature_map & !RESHAPE_BITS,
        level: sb.new_level,
        layout: sb.new_layout,
        chunksize: sb.new_chunk,
        new_level: 0,
        reshape_position: 0,
        delta_disks: 0,
        new_layout: 0,
        new_chunk: 0,
        ..*sb
    }
}

// Whether the slot holds a role from this one on.
fn holds_from(roles: &[Role], disks: usize, slot: u32) -> bool
    requires few { length roles.now ≤ 16 }
    requires disks { disks ≤ length roles.now }
    ensures { result ≡ holds_from roles.now disks slot }
{
    role_of(&roles[disks..], slot).is_some()
}

// A slot that holds a role from this one on becomes a spare.
fn dropped_give(roles: &[Role], disks: usize, slot: u32) -> Give
    requires few { length roles.now ≤ 16 }
    requires disks { disks ≤ length roles.now }
    ensures { result ≡ dropped_give roles.now disks slot }
{
    if holds_from(roles, disks, slot) {
        Give::Spare
    } else {
        Give::Same
    }
}

fn dropped_gives(roles: &[Role], disks: usize) -> [Give; 32]
    requires few { length roles.now ≤ 16 }
    requires disks { disks ≤ length roles.now }
    ensures { result ≡ tabulate 32 (dropped_give roles.now disks) }
{
    let mut gives = [Give::Same; 32];
    for slot in 0..32u32 {
        gives[slot as usize] = dropped_give(roles, disks, slot);
    }
    gives
}

// The update that ends a reshape.
fn ending(members: &Members) -> Change
    requires few { length members.now.roles ≤ 16 }
    requires disks { members.now.newest.raid_disks ≤ length members.now.roles }
    ensures { result ≡ ending members.now }
{
    let disks = members.newest.raid_disks as usize;
    Change {
        shared: with_new_shape(&members.newest),
        gives: dropped_gives(members.roles.as_slice(), disks),
        added: None,
    }
}

/// Ends a reshape that has gone through the list, in the superblocks of all live slots: they have the new shape alone,
/// and who holds a role that it hasn't becomes a spare. No slot may be recovering. Answers the slots that were lost in
/// this.
pub fn end_update<B: Bank>(members: &mut Members, bank: &mut B) -> Lostness
    requires live { AreLive (B.given bank.old) members.old }
    requires active { is_reshaping members.old.newest ≡ true }
    requires last { IsAtEnd members.old.newest }
    requires fit { AreShapesFit members.old.newest }
    requires roles { length members.old.roles ≡ role_count members.old.newest }
    requires small { (role slot : ℕ) → holder (role_state (reading_of members.old) role) ≡ Some slot → slot < 32 }
    requires whole { HasNoneRecovering members.old }
    ensures ended { IsChanged B.tells (B.given bank.old) (ending members.old) members.old members.new (B.tape bank.old) (B.tape bank.new) }
    ensures newest { HasEnded members.old.newest members.new.newest }
    ensures fit { AreShapesFit members.new.newest }
    ensures events { members.new.lost ≡ members.old.lost → members.new.newest.events ≡ min (members.old.newest.events + 1) (2 ^ 64 - 1) }
    ensures dropping { IsDropping members.old (ending members.old) }
    ensures plan { (named : ℕ) → (DoWithout (planned_view members.old (ending members.old) named) → DoWithout members.old) → IsEnded members.old (planned_view members.old (ending members.old) named) }
    ensures roles { length members.new.roles ≡ (final_shape members.old.newest).disks }
    ensures dropped { (role slot : ℕ) → (final_shape members.old.newest).disks ≤ role → role_state (reading_of members.old) role ≡ Whole slot
        → has_slot members.new.lost slot ≡ false → has_spare members.new.spares slot ≡ true }
    ensures less { IsLessView (planned_view members.old (ending members.old) members.old.lost) members.new }
    ensures placed { (scope : Scope) → ArePlaced scope (B.given bank.old) members.old → ArePlaced scope (B.given bank.new) members.new }
    ensures rise { IsRisen B.tells members.old members.new (B.tape bank.old) (B.tape bank.new) }
    ensures result { (s : ℕ) → has_slot result s ≡ (has_slot members.new.lost s && not (has_slot members.old.lost s)) }
    ensures losses { AreLosses (live_set members.old (ending members.old)) members.old.lost members.new.lost (B.faults_of bank.old) (B.faults_of bank.new) }
    ensures safe { B.tells → (world : World) → (told more : Ledger) → HasRoomLeft members.old (B.tape bank.old) (B.tape bank.new)
        → ArePlaced world.scope (B.given bank.old) members.old
        → (is_backward members.old.newest ≡ true → DoWithout (planned_view members.old (ending members.old) members.old.lost) → DoWithout members.old)
        → IsToldWith told more (planned_view members.old (ending members.old) members.old.lost)
        → (is_backward members.old.newest ≡ true)
        ⊎ IsGrown more members.old (planned_view members.old (ending members.old) members.old.lost) (disk (B.given bank.old).start (B.tape bank.old))
        → AreGoneTold told members.old → AreGoneTold more members.new → ((slot number : ℕ) → told.carried slot number ≡ true → more.carried slot number ≡ true)
        → IsSafeOver world (B.given bank.old) told members.old (B.tape bank.old)
        → IsSafeChange (OpensFit world) world.scope (B.given bank.old) told more members.new (B.tape bank.old) (B.tape bank.new) }
    ensures flushed { B.tells → (world : World) → (told more : Ledger) → HasRoomLeft members.old (B.tape bank.old) (B.tape bank.new)
        → AreGoneTold more members.new → ((slot number : ℕ) → told.carried slot number ≡ true → more.carried slot number ≡ true) → (c : Contents) → (list : ℕ → Sector)
        → (IsSteady (OpensFit world) world.scope (B.given bank.old) told members.old (disk (B.given bank.old).start (B.tape bank.old))
        → IsFlushedRight (OpensFit world) world.scope (B.given bank.old) more (planned_view members.old (ending members.old) members.old.lost) c list (disk (B.given bank.old).start (B.tape bank.old)))
        → IsSafeOver world (B.given bank.old) told members.old (B.tape bank.old)
        → IsSafeChange (OpensFit world) world.scope (B.given bank.old) told more members.new (B.tape bank.old) (B.tape bank.new) }
    ensures live { AreLive (B.given bank.new) members.new }
    ensures counts { NeverFalls (B.faults_of bank.old) (B.faults_of bank.new) }
    ensures given { B.given bank.new ≡ B.given bank.old }
{
    let change = ending(members);
    update(members, bank, &change)
}
