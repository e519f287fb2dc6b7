//! Which role is rebuilt next.

ghost use Rattle.std.specs.Prelude.{◌≡◌, ◌≤◌, length};
ghost use Rattle.array_fixed_io.specs.sb_specs_Reading.{shape_of};
ghost use Rattle.array_fixed_io.specs.array_type_Rebuilding.{first_recovering, first_unassigned};

use array_fixed_io::{Members, Role};

/// The lowest role that a slot recovers, of so many.
pub fn first_recovering(members: &Members, disks: u32) -> Option<u32>
    requires disks { disks ≡ (shape_of members.now.newest).disks }
    requires roles { disks ≤ length members.now.roles }
    ensures { result ≡ first_recovering members.now }
{
    for role in 0..disks {
        if let Role::Recovering(_) = members.roles.get(role) {
            return Some(role);
        }
    }
    None
}

/// The lowest role that no slot holds, of so many.
pub fn first_unassigned(members: &Members, disks: u32) -> Option<u32>
    requires disks { disks ≡ (shape_of members.now.newest).disks }
    requires roles { disks ≤ length members.now.roles }
    ensures { result ≡ first_unassigned members.now }
{
    for role in 0..disks {
        if let Role::Missing = members.roles.get(role) {
            return Some(role);
        }
    }
    None
}
