//! Which slot holds a role's sector of a row.

ghost use Rattle.std.specs.Prelude.{◌≡◌, ◌<◌, ℕ, Some, length};
ghost use Rattle.sb_specs.specs.raid_types_the_Role_TheVariants.{Recovering};
ghost use Rattle.sb_specs.specs.Reading.{rows_held, data_offset_of, role_state, holder};
ghost use Rattle.stripe_row.specs.Rows.{reading_of, held_slot, is_missing};

use crate::sets::contains;
use sb_specs::{Members, Role};

/// The bit of the feature map that says that a reshape is active.
const RESHAPE: u32 = 2;

/// The data offset of a slot.
pub fn data_offset(members: &Members, slot: u32) -> u64
    requires { slot < 32 }
    ensures { result ≡ data_offset_of (reading_of members.now) slot }
{
    match members.own.get(slot) {
        Some(own) => own.data_offset,
        None => 0,
    }
}

// How many rows a recovering slot has: none while a reshape is active.
fn rows_recovered(members: &Members, slot: u32) -> u64
    requires { slot < 32 }
    ensures { result ≡ rows_held (reading_of members.now) (Recovering slot) }
{
    if contains(members.newest.feature_map, RESHAPE) {
        return 0;
    }
    match members.own.get(slot) {
        Some(own) => own.recovery_offset,
        None => 0,
    }
}

/// The slot that holds a role's sector of a row.
pub fn held_slot(members: &Members, role: u32, row: u64) -> Option<u32>
    requires role { role < length members.now.roles }
    requires small { (slot : ℕ) → holder (role_state (reading_of members.now) role) ≡ Some slot → slot < 32 }
    ensures { result ≡ held_slot (reading_of members.now) role row }
{
    match members.roles.get(role) {
        Role::Whole(slot) => {
            if row < members.newest.size {
                Some(slot)
            } else {
                None
            }
        }
        Role::Recovering(slot) => {
            if row < rows_recovered(members, slot) {
                Some(slot)
            } else {
                None
            }
        }
        Role::Missing => None,
    }
}

/// Whether no slot holds all rows of the role.
pub fn is_missing(members: &Members, role: u32) -> bool
    requires { role < length members.now.roles }
    ensures { result ≡ is_missing (reading_of members.now) role }
{
    match members.roles.get(role) {
        Role::Whole(_) => false,
        Role::Recovering(_) | Role::Missing => true,
    }
}
