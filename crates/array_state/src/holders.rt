//! Which slots hold roles.

ghost use Rattle.std.specs.Prelude.{◌≡◌, ◌<◌, ◌≤◌, ℕ, true, false, length, Some, IfSome, IfNone, IsTrue};
ghost use Rattle.stripe_io.specs.raid_types_Shapes.{is_valid_shape};
ghost use Rattle.stripe_io.specs.sb_specs_Reading.{shape_of, role_state, holder};
ghost use Rattle.sb_add_spare.specs.stripe_row_Rows.{reading_of};
ghost use Rattle.sb_add_spare.specs.array_members_Rebuilding.{Held};
ghost use Rattle.array_call_laws.specs.array_call_specs_Calls.{HasRole, IsFirstOffset};

use sb_add_spare::adding::data_offset;
use sb_add_spare::shape_in;
use stripe_io::{Members, Role};

/// Whether the slot holds a role.
pub fn holds_role(members: &Members, slot: u32) -> bool
    requires few { length members.now.roles ≤ 16 }
    ensures yes { result ≡ true → (role : ℕ) × Held members.now role slot }
    ensures no { result ≡ false → (role : ℕ) → Held members.now role slot → ⊥ }
{
    for role in 0..members.roles.len() as u32 {
        match members.roles.get(role) {
            Role::Whole(held) | Role::Recovering(held) if held == slot => return true,
            _ => {}
        }
    }
    false
}

/// The sector at which the rows begin on the slot of the lowest role that one holds; 0 where none is held.
pub fn first_offset(members: &Members) -> u64
    requires few { length members.now.roles ≤ 16 }
    requires small { (role slot : ℕ) → Held members.now role slot → slot < 32 }
    ensures { IsFirstOffset members.now result }
{
    for role in 0..members.roles.len() as u32 {
        match members.roles.get(role) {
            Role::Whole(slot) | Role::Recovering(slot) => return data_offset(members, slot),
            Role::Missing => {}
        }
    }
    0
}

/// The slot that holds a role, whole or in part.
pub fn slot_of(members: &Members, role: u32) -> Option<u32>
    requires shape { IsTrue (is_valid_shape (shape_of members.now.newest)) }
    requires roles { length members.now.roles ≡ (shape_of members.now.newest).disks }
    ensures held { IfSome result (λ slot. holder (role_state (reading_of members.now) role) ≡ Some slot) }
    ensures some { IfSome result (λ slot. HasRole members.now role) }
    ensures none { IfNone result (HasRole members.now role → ⊥) }
{
    if role >= shape_in(members).disks {
        return None;
    }
    match members.roles.get(role) {
        Role::Whole(slot) | Role::Recovering(slot) => Some(slot),
        Role::Missing => None,
    }
}
