//! Whether an update may be called, at run time.

ghost use Rattle.std.specs.Prelude.{◌≡◌, ◌<◌, ◌≤◌, ◌==◌, ℕ, true, false, length, IsTrue};
ghost use Rattle.std.specs.List.{list_any};
ghost use Rattle.sb_specs.specs.declared.change.Give.TheVariants.{Same};
ghost use Rattle.sb_specs.specs.Update.{IsRoleGive, give_of, is_held_by, is_live, own_in};
ghost use Rattle.sb_specs.specs.Writing.{IsMember};
ghost use Rattle.sb_specs.specs.Outcome.{AreLive, AreGivesOfLive};

use bank::Bank;
use raid_types::Role;
use sb_specs::roles::role_of;
use sb_specs::{Change, Give, Members};

// Whether the slot has room for a superblock, and one that can be written again.
fn is_member<B: Bank>(bank: &B, members: &Members, slot: u32) -> bool
    ensures { IsTrue result → IsMember (B.given bank.now) (own_in members.now.own slot) slot }
{
    if slot >= 32 || slot >= bank.slots() || bank.len(slot) < 9 {
        return false;
    }
    let Some(own) = members.own.get(slot) else {
        return false;
    };
    own.magic == 0xa92b_4efc && own.major == 1 && own.super_offset == 8 && own.max_dev <= 384
}

// Whether a role's holder is such a slot.
fn is_held_well<B: Bank>(bank: &B, members: &Members, state: Role) -> bool
    ensures { IsTrue result → (slot : ℕ) → is_held_by slot state ≡ true → IsMember (B.given bank.now) (own_in members.now.own slot) slot }
{
    match state {
        Role::Whole(slot) | Role::Recovering(slot) => is_member(bank, members, slot),
        Role::Missing => true,
    }
}

// Whether each role's holder is.
fn are_holders<B: Bank>(bank: &B, members: &Members) -> bool
    requires { length members.now.roles ≤ 16 }
    ensures { IsTrue result → (slot : ℕ) → list_any (is_held_by slot) members.now.roles ≡ true → IsMember (B.given bank.now) (own_in members.now.own slot) slot }
{
    for role in 0..members.roles.len() as u32 {
        if !is_held_well(bank, members, members.roles.get(role)) {
            return false;
        }
    }
    true
}

// Whether each spare is.
fn are_spares<B: Bank>(bank: &B, members: &Members) -> bool
    ensures { IsTrue result → (slot : ℕ) → list_any (λ spare. spare == slot) members.now.spares ≡ true → IsMember (B.given bank.now) (own_in members.now.own slot) slot }
{
    for place in 0..members.spares.len() {
        if !is_member(bank, members, members.spares.get(place)) {
            return false;
        }
    }
    true
}

// Whether each of them is.
pub fn are_live<B: Bank>(bank: &B, members: &Members) -> bool
    requires { length members.now.roles ≤ 16 }
    ensures { IsTrue result → AreLive (B.given bank.now) members.now }
{
    are_holders(bank, members) && are_spares(bank, members)
}

// Whether the slot holds a role or is a spare.
fn is_live(members: &Members, slot: u32) -> bool
    requires { length members.now.roles ≤ 16 }
    ensures { result ≡ is_live members.now.roles members.now.spares slot }
{
    role_of(members.roles.as_slice(), slot).is_some() || members.spares.contains(slot)
}

// Whether a slot gets nothing, or is live and gets a role below 16 or none.
fn may_get(give: Give, is_live: bool) -> bool
    ensures role { IsTrue result → IsRoleGive give }
    ensures alone { IsTrue result → is_live ≡ false → give ≡ Same }
{
    match give {
        Give::Same => true,
        Give::Role { role, .. } => role < 16 && is_live,
        Give::Spare => is_live,
    }
}

// No slot past the last gets anything.
fn know_the_end(gives: &[Give; 32])
    ensures { (s : ℕ) → 32 ≤ s → give_of gives.now s ≡ Same }
{}

// Whether that holds of each slot.
pub fn may_give(members: &Members, change: &Change) -> bool
    requires { length members.now.roles ≤ 16 }
    ensures gives { IsTrue result → (s : ℕ) → s < 32 → IsRoleGive (give_of change.now.gives s) }
    ensures alone { IsTrue result → AreGivesOfLive members.now change.now }
{
    know_the_end(&change.gives);
    for slot in 0..32u32 {
        if !may_get(change.gives[slot as usize], is_live(members, slot)) {
            return false;
        }
    }
    true
}
