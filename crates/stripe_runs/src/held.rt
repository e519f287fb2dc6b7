//! Which slot holds a role's sector of a row.

ghost use Rattle.std.specs.Prelude.{◌≡◌, ◌<◌, ℕ, Some, length};
ghost use Rattle.raid_layout.specs.raid_types_the_Role_TheVariants.{Recovering};
ghost use Rattle.stripe_row.specs.sb_specs_Reading.{rows_held, role_state, holder};
ghost use Rattle.stripe_row.specs.Rows.{reading_of, held_slot};

use raid_layout::Role;
use stripe_row::{Members, contains};

/// The bit of the feature map that says that a reshape is active.
const RESHAPE: u32 = 2;

/// How many rows a recovering slot has: none while a reshape is active.
pub fn rows_recovered(members: &Members, slot: u32) -> u64
    requires { slot < 32 }
    ensures { result ≡ rows_held (reading_of members.now) (Recovering slot) }
{
    if contains(members.newest.feature_map, RESHAPE) {
        return 0;
    }
    match members.own.get(slot) {
        Some(own) => own.recovery_offset,
        None => 0,
    }
}

/// The slot that holds a role's sector of a row.
pub fn held_slot(members: &Members, role: u32, row: u64) -> Option<u32>
    requires role { role < length members.now.roles }
    requires small { (slot : ℕ) → holder (role_state (reading_of members.now) role) ≡ Some slot → slot < 32 }
    ensures { result ≡ held_slot (reading_of members.now) role row }
{
    match members.roles.get(role) {
        Role::Whole(slot) => {
            if row < members.newest.size {
                Some(slot)
            } else {
                None
            }
        }
        Role::Recovering(slot) => {
            if row < rows_recovered(members, slot) {
                Some(slot)
            } else {
                None
            }
        }
        Role::Missing => None,
    }
}

/// The slot that has a role, whole or recovering.
pub fn holder_of(members: &Members, role: u32) -> Option<u32>
    requires { role < length members.now.roles }
    ensures { result ≡ holder (role_state (reading_of members.now) role) }
{
    match members.roles.get(role) {
        Role::Whole(slot) | Role::Recovering(slot) => Some(slot),
        Role::Missing => None,
    }
}
