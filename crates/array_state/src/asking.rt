//! What an array tells of itself.

ghost use Rattle.std.specs.Prelude.{◌≡◌, ◌+◌, ◌*◌, ◌^◌, ◌≤◌, length, IfOk, IfSome, IsTrue};
ghost use Rattle.stripe_io.specs.raid_types_Shapes.{is_valid_shape};
ghost use Rattle.stripe_io.specs.raid_types_Search.{count_below};
ghost use Rattle.stripe_io.specs.sb_specs_Reading.{shape_of};
ghost use Rattle.sb_add_spare.specs.stripe_row_Rows.{reading_of};
ghost use Rattle.sb_add_spare.specs.array_members_Whole.{list_size};
ghost use Rattle.sb_add_spare.specs.array_members_Placed.{places_of, is_unassigned};
ghost use Rattle.sb_add_spare.specs.array_members_Status.{stripes_of, spare_count, recovery_left, left_of};

use array_call_laws::{NoMemory, RoleList, SlotList};
use sb_add_spare::{Work, is_spare, is_unassigned, list_length, shape_in};
use std::alloc::Global;
use stripe_io::mending::stripes;
use stripe_io::{Members, Role};

/// How many sectors of the list can be read and written.
pub fn visible(members: &Members) -> u64
    requires shape { IsTrue (is_valid_shape (shape_of members.now.newest)) }
    requires size { members.now.newest.size ≤ 2 ^ 48 }
    ensures { result ≡ list_size (places_of members.now) }
{
    list_length(&shape_in(members), members.newest.size)
}

/// The same roles, at most 16, in a list of their own; refused only for want of memory.
pub fn copy_roles(alloc: Global, roles: &RoleList) -> Result<RoleList, NoMemory>
    requires { length roles.now ≤ 16 }
    ensures { IfOk result (λ copy. copy ≡ roles.now) }
{
    let mut copy = match RoleList::new(alloc) {
        Ok(copy) => copy,
        Err(_) => return Err(NoMemory {}),
    };
    for role in 0..roles.len() as u32 {
        copy.push(roles.get(role));
    }
    Ok(copy)
}

/// The same slots, at most 32, in a list of their own; refused only for want of memory.
pub fn copy_slots(alloc: Global, slots: &SlotList) -> Result<SlotList, NoMemory>
    requires { length slots.now ≤ 32 }
    ensures { IfOk result (λ copy. copy ≡ slots.now) }
{
    let mut copy = match SlotList::new(alloc) {
        Ok(copy) => copy,
        Err(_) => return Err(NoMemory {}),
    };
    for place in 0..slots.len() {
        copy.push(slots.get(place));
    }
    Ok(copy)
}

// The steps that are left of the roles that slots recover.
fn recovery_left(members: &Members, work: &Work, disks: u32) -> u64
    requires shape { IsTrue (is_valid_shape (shape_of members.now.newest)) }
    requires size { members.now.newest.size ≤ 2 ^ 48 }
    requires disks { disks ≤ 16 }
    requires roles { disks ≤ length members.now.roles }
    ensures left { result ≡ recovery_left work.now members.now disks }
    ensures few { result ≤ disks * (2 ^ 48 + 1) }
{
    let stripes = stripes(members);
    let mut left = 0;
    for role in 0..disks {
        if let Role::Recovering(_) = members.roles.get(role) {
            left += stripes.saturating_sub(work.rebuilt[role as usize]) + 1;
        }
    }
    left
}

// How many roles no slot holds.
fn vacant_count(members: &Members, disks: u32) -> u64
    requires disks { disks ≤ 16 }
    requires roles { disks ≤ length members.now.roles }
    ensures count { result ≡ count_below disks (is_unassigned (reading_of members.now)) }
    ensures few { result ≤ 16 }
{
    let mut count = 0;
    for role in 0..disks {
        if is_unassigned(members, role) {
            count += 1;
        }
    }
    count
}

// How many spares there are.
fn spare_count(members: &Members) -> u64
    ensures count { result ≡ spare_count members.now }
    ensures few { result ≤ 32 }
{
    let mut count = 0;
    for slot in 0..32u32 {
        if is_spare(members, slot) {
            count += 1;
        }
    }
    count
}

/// The steps that are left: of a pending resync, of the roles that slots recover, and of those that there are spares for.
pub fn steps_left(members: &Members, work: &Work) -> u64
    requires shape { IsTrue (is_valid_shape (shape_of members.now.newest)) }
    requires size { members.now.newest.size ≤ 2 ^ 48 }
    requires roles { (shape_of members.now.newest).disks ≤ length members.now.roles }
    requires progress { IfSome work.now.resync (λ mended. mended ≤ stripes_of members.now) }
    ensures { result ≡ left_of work.now members.now }
{
    let disks = shape_in(members).disks;
    let stripes = stripes(members);
    let resync = match work.resync {
        Some(mended) => stripes - mended + 1,
        None => 0,
    };
    let waiting = vacant_count(members, disks).min(spare_count(members));
    resync + recovery_left(members, work, disks) + waiting * (stripes + 2)
}
