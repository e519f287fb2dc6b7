//! The slots of a bank are flushed.

ghost use Rattle.std.specs.Prelude.{◌≡◌, ◌≢◌, ◌<◌, ◌≤◌, ◌^◌, ◌++◌, [], ◌∷◌, ◌||◌, ℕ, true, false, length, Some};
ghost use Rattle.sb_update.specs.bank_the_Operation_TheVariants.{Flush};
ghost use Rattle.sb_update.specs.bank_Given.{IsFaulted, NeverFalls};
ghost use Rattle.raid_layout.specs.raid_types_Shapes.{has_slot};
ghost use Rattle.sb_update.specs.sb_specs_Reading.{role_count, role_state, holder};
ghost use Rattle.sb_update.specs.sb_specs_Update.{is_held_by};
ghost use Rattle.array_members.specs.stripe_row_Rows.{reading_of, HaveFailed};
ghost use Rattle.array_members.specs.Placed.{IsPlaced};
ghost use Rattle.array_members.specs.Flushing.{AreTried, OnlyItsSlotsFail, OnlyFlushesAdded, AreMembersFlushed, AreHolders};

use raid_layout::Role;
use sb_update::{Bank, Members, contains, with, without};

/// Flushes each slot of the bank but the lost ones, in slot order. A slot that fails is lost too: the lost slots after it.
pub fn flush_slots<B: Bank>(bank: &mut B, lost: u32) -> u32
    requires { (B.given bank.old).slots ≤ 32 }
    ensures range { lost < 2 ^ 32 }
    ensures tried { AreTried B.tells (B.given bank.old) (B.tape bank.new) (B.given bank.old).slots lost result (B.faults_of bank.old) (B.faults_of bank.new) }
    ensures tape { B.tells → OnlyFlushesAdded (B.tape bank.old) (B.tape bank.new) }
    ensures given { B.given bank.new ≡ B.given bank.old }
    ensures counts { OnlyItsSlotsFail (B.given bank.old) (B.faults_of bank.old) (B.faults_of bank.new) }
{
    let mut failed = lost;
    for slot in 0..bank.slots() {
        failed = flush_slot(bank, failed, slot);
    }
    failed
}

// Flushes a slot that isn't lost, and is where it fails: the lost slots after it.
fn flush_slot<B: Bank>(bank: &mut B, lost: u32, slot: u32) -> u32
    requires known { slot < (B.given bank.old).slots }
    requires few { slot < 32 }
    ensures stays { has_slot lost slot ≡ true → has_slot result slot ≡ true }
    ensures others { (s : ℕ) → s ≢ slot → has_slot result s ≡ has_slot lost s }
    ensures tape { B.tells → OnlyFlushesAdded (B.tape bank.old) (B.tape bank.new) }
    ensures flushed { B.tells → has_slot result slot ≡ false → B.tape bank.new ≡ B.tape bank.old ++ Flush slot ∷ [] }
    ensures sound { has_slot result slot ≡ false → B.faults_of bank.old slot ≡ 0 }
    ensures failed { has_slot result slot ≡ true → has_slot lost slot ≡ false → IsFaulted slot (B.faults_of bank.old) (B.faults_of bank.new) }
    ensures given { B.given bank.new ≡ B.given bank.old }
    ensures never_falls { NeverFalls (B.faults_of bank.old) (B.faults_of bank.new) }
    ensures counts { (s : ℕ) → s ≢ slot → B.faults_of bank.new s ≡ B.faults_of bank.old s }
{
    if contains(lost, slot) {
        return lost;
    }
    match bank.flush(slot) {
        Ok(()) => lost,
        Err(_) => with(lost, slot),
    }
}

// The set with the slot of a role, if one holds it.
fn with_holder(set: u32, state: Role) -> u32
    requires { (slot : ℕ) → holder state ≡ Some slot → slot < 32 }
    ensures { (s : ℕ) → has_slot result s ≡ (has_slot set s || is_held_by s state) }
{
    match state {
        Role::Whole(slot) | Role::Recovering(slot) => with(set, slot),
        Role::Missing => set,
    }
}

/// The slots that hold a role.
pub fn holders(members: &Members) -> u32
    requires few { length members.now.roles < 2 ^ 32 }
    requires small { (role slot : ℕ) → holder (role_state (reading_of members.now) role) ≡ Some slot → slot < 32 }
    ensures { AreHolders (reading_of members.now) result }
{
    let mut set = 0;
    for role in 0..members.roles.len() as u32 {
        set = with_holder(set, members.roles.get(role));
    }
    set
}

/// Flushes each slot that holds a role, in slot order. The slots that failed.
pub fn flush_members<B: Bank>(members: &Members, bank: &mut B) -> u32
    requires slots { (B.given bank.old).slots ≤ 32 }
    requires placed { IsPlaced (B.given bank.old) members.now }
    ensures flushed { AreMembersFlushed B.tells (B.given bank.old) (B.tape bank.new) (reading_of members.now) result }
    ensures failed { HaveFailed (reading_of members.now) (role_count members.now.newest) result (B.faults_of bank.old) (B.faults_of bank.new) }
    ensures tape { B.tells → OnlyFlushesAdded (B.tape bank.old) (B.tape bank.new) }
    ensures given { B.given bank.new ≡ B.given bank.old }
    ensures counts { OnlyItsSlotsFail (B.given bank.old) (B.faults_of bank.old) (B.faults_of bank.new) }
{
    let others = without(u32::MAX, holders(members));
    let failed = flush_slots(bank, others);
    without(failed, others)
}
