//! The roles as an update leaves them.

ghost use Rattle.std.specs.Prelude.{◌≡◌, ◌<◌, ◌≤◌, ◌&&◌, if◌then◌else◌, not, ℕ, take, length, slice_index_or, Some, None, IfSome};
ghost use Rattle.std.specs.Option.{option_or};
ghost use Rattle.bank.specs.raid_types_the_Role_TheVariants.{Missing};
ghost use Rattle.sb_specs.specs.raid_types_Search.{tabulate, least_below};
ghost use Rattle.sb_specs.specs.raid_types_Shapes.{has_slot};
ghost use Rattle.sb_specs.specs.Reading.{role_count};
ghost use Rattle.sb_specs.specs.Update.{IsRoleGive, give_of, planned_role};
ghost use Rattle.sb_specs.specs.Outcome.{is_same, is_planned_holder, held_state, planned_state};

use bank::{Role, RoleList};
use sb_specs::roles::planned_role;
use sb_specs::says::role_count;
use sb_specs::sets::contains;
use sb_specs::{Give, Members};

// The state of a role, which is missing where there is no such role.
fn former_state(roles: &RoleList, role: u32) -> Role
    ensures { result ≡ slice_index_or roles.now role Missing }
{
    if (role as usize) < roles.len() {
        roles.get(role)
    } else {
        Role::Missing
    }
}

// The state of the role that a slot holds.
fn held_state(former: Role, give: Give, slot: u32) -> Role
    ensures { result ≡ held_state former give slot }
{
    match give {
        Give::Same => former,
        Give::Role {
            recovery: Some(_),
            ..
        } => Role::Recovering(slot),
        Give::Role { recovery: None, .. } => Role::Whole(slot),
        Give::Spare => Role::Missing,
    }
}

// The role that the slot holds after the update; a lost slot holds none.
fn role_after(members: &Members, give: Give, slot: u32) -> Option<u32>
    requires slot { slot < 32 }
    requires roles { length members.now.roles ≤ 16 }
    requires give { IsRoleGive give }
    ensures role { (role : ℕ) → is_same role result ≡ (not (has_slot members.now.lost slot) && is_same role (planned_role members.now.roles give slot)) }
    ensures below { IfSome result (λ role. role < 16) }
{
    if contains(members.lost, slot) {
        return None;
    }
    planned_role(members.roles.as_slice(), give, slot)
}

// Notes the slot as the holder of its role, unless an earlier one is.
fn note_holder(holders: &mut [Option<u32>; 16], role: Option<u32>, slot: u32)
    requires { IfSome role (λ role. role < 16) }
    ensures { (r : ℕ) → r < 16 → slice_index_or holders.new r None
        ≡ option_or (slice_index_or holders.old r None) (if is_same r role then Some slot else None) }
{
    if let Some(role) = role {
        if holders[role as usize].is_none() {
            holders[role as usize] = Some(slot);
        }
    }
}

// The first slot that holds each role after the update.
fn first_holders(members: &Members, gives: &[Give; 32]) -> [Option<u32>; 16]
    requires roles { length members.now.roles ≤ 16 }
    requires gives { (s : ℕ) → s < 32 → IsRoleGive (give_of gives.now s) }
    ensures { (role : ℕ) → role < 16 → slice_index_or result role None ≡ least_below 32 (is_planned_holder members.now.roles gives.now members.now.lost role) }
{
    let mut holders = [None; 16];
    for slot in 0..32u32 {
        let role = role_after(members, gives[slot as usize], slot);
        note_holder(&mut holders, role, slot);
    }
    holders
}

// The state of a role after the update, whose first holder this is.
fn planned_state(members: &Members, gives: &[Give; 32], role: u32, holder: Option<u32>) -> Role
    requires { holder ≡ least_below 32 (is_planned_holder members.now.roles gives.now members.now.lost role) }
    ensures { result ≡ planned_state members.now.roles gives.now members.now.lost role }
{
    match holder {
        Some(slot) => held_state(
            former_state(&members.roles, role),
            gives[slot as usize],
            slot,
        ),
        None => Role::Missing,
    }
}

// The states of 16 roles after the update.
fn planned_states(members: &Members, gives: &[Give; 32]) -> [Role; 16]
    requires roles { length members.now.roles ≤ 16 }
    requires gives { (s : ℕ) → s < 32 → IsRoleGive (give_of gives.now s) }
    ensures { result ≡ tabulate 16 (planned_state members.now.roles gives.now members.now.lost) }
{
    let holders = first_holders(members, gives);
    let mut states = [Role::Missing; 16];
    for role in 0..16u32 {
        states[role as usize] = planned_state(members, gives, role, holders[role as usize]);
    }
    states
}

// The first of these states, and no others.
fn put_states(roles: &mut RoleList, states: &[Role; 16], count: usize)
    requires { count ≤ 16 }
    ensures { roles.new ≡ take count states.now }
{
    roles.clear();
    for role in 0..count {
        roles.push(states[role]);
    }
}

/// Sets the state of each role, as many as the newest superblock has.
pub fn keep_roles(members: &mut Members, gives: &[Give; 32])
    requires roles { length members.old.roles ≤ 16 }
    requires gives { (s : ℕ) → s < 32 → IsRoleGive (give_of gives.now s) }
    requires count { role_count members.old.newest ≤ 16 }
    ensures { members.new ≡ record members.old {
      roles = tabulate (role_count members.old.newest) (planned_state members.old.roles gives.now members.old.lost);
    } }
{
    let states = planned_states(members, gives);
    let count = role_count(&members.newest) as usize;
    put_states(&mut members.roles, &states, count);
}
