//! Slots that failed hold no role any longer.

ghost use Rattle.std.specs.Prelude.{◌≡◌, ◌==◌, ◌^◌, ◌<◌, ◌≤◌, ℕ, Some, length, map, slice_index_or};
ghost use Rattle.sb_specs.specs.raid_types_the_Role_TheVariants.{Missing};
ghost use Rattle.raid_parity_simd.specs.raid_types_Search.{count_below};
ghost use Rattle.sb_specs.specs.raid_types_Shapes.{has_slot};
ghost use Rattle.sb_specs.specs.Reading.{holder, role_state};
ghost use Rattle.stripe_row.specs.Rows.{reading_of, is_missing, role_without, members_without};

use crate::held::is_missing;
use crate::sets::{contains, with};
use sb_specs::{Members, Role, RoleList};

/// The slot that holds a role's rows, or the first of them.
pub fn holder(state: Role) -> Option<u32>
    ensures { result ≡ holder state }
{
    match state {
        Role::Whole(slot) | Role::Recovering(slot) => Some(slot),
        Role::Missing => None,
    }
}

/// The slot that has a role, whole or recovering.
pub fn holder_of(members: &Members, role: u32) -> Option<u32>
    requires { role < length members.now.roles }
    ensures { result ≡ holder (role_state (reading_of members.now) role) }
{
    holder(members.roles.get(role))
}

// The state of a role, where these slots are lost.
fn role_without(lost: u32, state: Role) -> Role
    requires { (slot : ℕ) → holder state ≡ Some slot → slot < 32 }
    ensures { result ≡ role_without lost state }
{
    let Some(slot) = holder(state) else {
        return state;
    };
    if contains(lost, slot) {
        Role::Missing
    } else {
        state
    }
}

// The roles that these slots held are missing.
fn lose_roles(roles: &mut RoleList, lost: u32)
    requires few { length roles.old < 2 ^ 32 }
    requires small { (role slot : ℕ) → holder (slice_index_or roles.old role Missing) ≡ Some slot → slot < 32 }
    ensures { roles.new ≡ map (role_without lost) roles.old }
{
    for role in 0..roles.len() as u32 {
        let state = role_without(lost, roles.get(role));
        roles.set(role, state);
    }
}

/// The slots are lost, and the roles that they held are missing.
pub fn lose_slots(members: &mut Members, lost: u32)
    requires few { length members.old.roles < 2 ^ 32 }
    requires small { (role slot : ℕ) → holder (role_state (reading_of members.old) role) ≡ Some slot → slot < 32 }
    ensures { members.new ≡ members_without lost members.old }
{
    lose_roles(&mut members.roles, lost);
    members.lost |= lost;
}

/// The slot is lost, and so is its role. The answer is the set of this slot alone.
pub fn lose_slot(members: &mut Members, slot: u32) -> u32
    requires slot { slot < 32 }
    requires few { length members.old.roles < 2 ^ 32 }
    requires small { (role slot : ℕ) → holder (role_state (reading_of members.old) role) ≡ Some slot → slot < 32 }
    ensures members { members.new ≡ members_without result members.old }
    ensures alone { (s : ℕ) → has_slot result s ≡ (slot == s) }
{
    let lost = with(0, slot);
    lose_slots(members, lost);
    lost
}

/// How many of the first roles are missing.
pub fn missing_count(members: &Members, disks: u32) -> u32
    requires { disks ≤ length members.now.roles }
    ensures { result ≡ count_below disks (is_missing (reading_of members.now)) }
{
    let mut count = 0;
    for role in 0..disks {
        if is_missing(members, role) {
            count += 1;
        }
    }
    count
}
