//! Which slots hold roles.

ghost use Rattle.std.specs.Prelude.{◌≡◌, length, Some, IfSome, IfNone};
ghost use Rattle.reshape_progress.specs.sb_specs_Reading.{role_count, role_state, holder};
ghost use Rattle.reshape_progress.specs.stripe_row_Rows.{reading_of};
ghost use Rattle.reshape_progress.specs.crash_views_Regions.{AreShapesFit};
ghost use Rattle.array_call_specs.specs.Calls.{HasRole};

use crate::asking::role_count;
use array_call_specs::Role;
use reshape_progress::Members;

/// The slot that holds a role of either shape, whole or in part.
pub fn slot_of(members: &Members, role: u32) -> Option<u32>
    requires fit { AreShapesFit members.now.newest }
    requires roles { length members.now.roles ≡ role_count members.now.newest }
    ensures held { IfSome result (λ slot. holder (role_state (reading_of members.now) role) ≡ Some slot) }
    ensures some { IfSome result (λ slot. HasRole members.now role) }
    ensures none { IfNone result (HasRole members.now role → ⊥) }
{
    if role >= role_count(members) {
        return None;
    }
    match members.roles.get(role) {
        Role::Whole(slot) | Role::Recovering(slot) => Some(slot),
        Role::Missing => None,
    }
}
