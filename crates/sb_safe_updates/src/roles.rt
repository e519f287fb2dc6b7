//! The shape of an array, and the roles that no slot holds.

ghost use Rattle.std.specs.Prelude.{◌≡◌, ◌*◌, ◌^◌, ◌<◌, ◌≤◌, ◌&&◌, ℕ, nat_lt, length, IsTrue};
ghost use Rattle.raid_layout.specs.raid_types_Shapes.{has_slot, is_valid_shape, data_disks};
ghost use Rattle.sb_update.specs.sb_specs_Reading.{shape_of, final_shape};
ghost use Rattle.sb_update.specs.sb_specs_Reads.{has_spare};
ghost use Rattle.array_members.specs.stripe_row_Rows.{reading_of};
ghost use Rattle.array_members.specs.Placed.{is_unassigned};

use raid_layout::{Role, Shape};
use sb_update::{Members, shape_of, target_of, with};

/// The shape of the array, by its newest superblock.
pub fn shape_in(members: &Members) -> Shape
    requires { IsTrue (is_valid_shape (shape_of members.now.newest)) }
    ensures { result ≡ shape_of members.now.newest }
{
    shape_of(&members.newest)
}

/// The shape that the array will have in the end: the new one of an active reshape, or else the one that it has.
pub fn final_in(members: &Members) -> Shape
    requires { IsTrue (is_valid_shape (shape_of members.now.newest)) }
    ensures { result ≡ final_shape members.now.newest }
{
    match target_of(&members.newest) {
        Some(target) => target,
        None => shape_in(members),
    }
}

/// The sectors of the flat list over so many rows of each data disk.
#[tactic(auto, using(raid_layout::proofs::Limits::limited))]
pub fn list_length(shape: &Shape, size: u64) -> u64
    requires shape { IsTrue (is_valid_shape shape.now) }
    requires size { size ≤ 2 ^ 48 }
    ensures { result ≡ data_disks shape.now * size }
{
    let parities = if shape.level == 6 { 2 } else { 1 };
    (shape.disks - parities) as u64 * size
}

/// Whether no slot holds the role, whole or in part.
pub fn is_unassigned(members: &Members, role: u32) -> bool
    requires { role < length members.now.roles }
    ensures { result ≡ is_unassigned (reading_of members.now) role }
{
    match members.roles.get(role) {
        Role::Whole(_) | Role::Recovering(_) => false,
        Role::Missing => true,
    }
}

/// The roles that no slot holds, of so many.
pub fn unassigned_roles(members: &Members, disks: u32) -> u32
    requires known { disks ≤ length members.now.roles }
    requires few { disks ≤ 32 }
    ensures { (role : ℕ) → has_slot result role ≡ (nat_lt role disks && is_unassigned (reading_of members.now) role) }
{
    let mut roles = 0;
    for role in 0..disks {
        if is_unassigned(members, role) {
            roles = with(roles, role);
        }
    }
    roles
}

/// Whether the slot is a spare.
pub fn is_spare(members: &Members, slot: u32) -> bool
    ensures { result ≡ has_spare members.now.spares slot }
{
    for place in 0..members.spares.len() {
        if members.spares.get(place) == slot {
            return true;
        }
    }
    false
}
