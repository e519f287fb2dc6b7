//! The role entries that an update records.

ghost use Rattle.std.specs.Prelude.{◌≡◌, ◌<◌, ◌≤◌, ◌^◌, ◌++◌, ℕ, map, take, drop, length, IfSome};
ghost use Rattle.reshape_geometry.specs.raid_types_Shapes.{has_slot};
ghost use Rattle.sb_specs.specs.Update.{is_held_by, role_from, is_added, planned_role, is_planned_spare, slot_entry, entry_for, with_entry, with_entries, faulty_role, with_roles, give_of, own_in, IsRoleGive};

use crate::change::{Change, Give};
use crate::members::{Members, SbList};
use crate::sets::contains;
use bank::{Role, RoleList, SlotList};
use sb_codec::Sb;

const SPARE: u16 = 0xffff;

const FAULTY: u16 = 0xfffe;

/// Whether the slot holds this role.
pub fn is_held_by(slot: u32, state: Role) -> bool
    ensures { result ≡ is_held_by slot state }
{
    match state {
        Role::Whole(holder) | Role::Recovering(holder) => holder == slot,
        Role::Missing => false,
    }
}

/// The first role that the slot holds.
pub fn role_of(roles: &[Role], slot: u32) -> Option<u32>
    requires { length roles.now ≤ 16 }
    ensures role { result ≡ role_from slot 0 roles.now }
    ensures below { IfSome result (λ role. role < 16) }
{
    for role in 0..roles.len() {
        if is_held_by(slot, roles[role]) {
            return Some(role as u32);
        }
    }
    None
}

// The slot is the one that is made a spare.
pub fn is_added(added: &Option<(u32, Sb)>, slot: u32) -> bool
    ensures { result ≡ is_added added.now slot }
{
    match added {
        Some((other, _)) => *other == slot,
        None => false,
    }
}

pub fn planned_role(roles: &[Role], give: Give, slot: u32) -> Option<u32>
    requires roles { length roles.now ≤ 16 }
    requires give { IsRoleGive give }
    ensures role { result ≡ planned_role roles.now give slot }
    ensures below { IfSome result (λ role. role < 16) }
{
    match give {
        Give::Same => role_of(roles, slot),
        Give::Role { role, .. } => Some(role),
        Give::Spare => None,
    }
}

pub fn is_planned_spare(spares: &SlotList, added: &Option<(u32, Sb)>, give: Give, slot: u32) -> bool
    ensures { result ≡ is_planned_spare spares.now added.now give slot }
{
    match give {
        Give::Same => spares.contains(slot) || is_added(added, slot),
        Give::Role { .. } => false,
        Give::Spare => true,
    }
}

fn slot_entry(was_lost: bool, is_lost: bool, role: Option<u32>, is_spare: bool) -> Option<u32>
    requires { IfSome role (λ role. role < 16) }
    ensures entry { result ≡ slot_entry was_lost is_lost role is_spare }
    ensures below { IfSome result (λ entry. entry < 2 ^ 16) }
{
    match (was_lost, is_lost, role) {
        (true, true, _) => None,
        (false, true, _) => Some(FAULTY.into()),
        (_, false, Some(role)) => Some(role),
        (_, false, None) => { if is_spare { Some(SPARE.into()) } else { None } }
    }
}

// Which entry a slot's device gets.
fn entry_for(members: &Members, change: &Change, before: u32, slot: u32) -> Option<u32>
    requires slot { slot < 32 }
    requires roles { length members.now.roles ≤ 16 }
    requires give { IsRoleGive (give_of change.now.gives slot) }
    ensures entry { result ≡ entry_for members.now change.now before members.now.lost slot }
    ensures below { IfSome result (λ entry. entry < 2 ^ 16) }
{
    let give = change.gives[slot as usize];
    let role = planned_role(members.roles.as_slice(), give, slot);
    let is_spare = is_planned_spare(&members.spares, &change.added, give, slot);
    slot_entry(
        contains(before, slot),
        contains(members.lost, slot),
        role,
        is_spare,
    )
}

// Each of the first 128 entries that is a role becomes faulty.
fn clear_roles(entries: &mut [u16; 384])
    ensures { entries.new ≡ map faulty_role (take 128 entries.old) ++ drop 128 entries.old }
{
    for dev in 0..128usize {
        entries[dev] = entries[dev].max(FAULTY);
    }
}

// A device's entry.
fn enter(entries: &mut [u16; 384], entry: Option<u32>, own: &SbList, slot: u32)
    requires slot { slot < 32 }
    requires below { IfSome entry (λ e. e < 2 ^ 16) }
    ensures { entries.new ≡ with_entry entry (own_in own.now slot) entries.old }
{
    if let (Some(entry), Some(own)) = (entry, own.get(slot)) {
        if own.dev_number < 128 {
            entries[own.dev_number as usize] = entry as u16;
        }
    }
}

// The table with the roles of all slots.
fn entered(members: &Members, change: &Change, before: u32) -> [u16; 384]
    requires roles { length members.now.roles ≤ 16 }
    requires gives { (s : ℕ) → s < 32 → IsRoleGive (give_of change.now.gives s) }
    ensures { result ≡ with_roles members.now change.now before members.now.lost members.now.newest.dev_roles }
{
    let mut entries = members.newest.dev_roles;
    clear_roles(&mut entries);
    for slot in 0..32u32 {
        let entry = entry_for(members, change, before, slot);
        enter(&mut entries, entry, &members.own, slot);
    }
    entries
}

/// Enters the role of each slot, where those of `before` were lost before the update.
pub fn enter_roles(members: &mut Members, change: &Change, before: u32)
    requires roles { length members.old.roles ≤ 16 }
    requires gives { (s : ℕ) → s < 32 → IsRoleGive (give_of change.now.gives s) }
    ensures { members.new ≡ record members.old {
      newest = record members.old.newest {
        dev_roles = with_roles members.old change.now before members.old.lost members.old.newest.dev_roles;
      };
    } }
{
    members.newest.dev_roles = entered(members, change, before);
}
