//! What the superblocks of an array's slots are refused for, and what they say.

ghost use Rattle.std.specs.Prelude.{◌≡◌, ◌≤◌, [], ◌∷◌, length, slice_index, IfNone};
ghost use Rattle.sb_specs.specs.Reading.{reading_by, role_count};
ghost use Rattle.sb_specs.specs.Verdict.{
  unsupported,
  bad_field,
  two_holders,
  members_missing,
  dirty_degraded,
  off_unit,
  first_of_all,
  AreValidShapes,
};
ghost use Rattle.sb_specs.specs.Election.{IsJudged};

use crate::features::unsupported;
use crate::fields::bad_field;
use crate::fresh::{fresh, spares};
use crate::holders::roles;
use crate::missing::{dirty_degraded, members_missing};
use crate::numbers::two_holders;
use crate::position::off_unit;
use sb_specs::{Fault, Refusal, Role, RoleList, Sb, SlotList};
use std::alloc::Global;

/// The roles and the spares of the superblocks whose newest this is, or their first refusal. Each slot has a length in
/// sectors.
pub fn judge(
    alloc: Global,
    newest: &Sb,
    own: &[Option<Sb>],
    lengths: &[u64],
) -> Result<(RoleList, SlotList), Fault>
    requires slots { length own.now ≤ 32 }
    requires lengths { length own.now ≤ length lengths.now }
    ensures { IsJudged (slice_index lengths.now) (reading_by (slice_index lengths.now) own.now newest.now) result }
{
    let fresh = match fresh(alloc, newest, own, lengths) {
        Err(_) => return Err(Fault::NoMemory),
        Ok(fresh) => fresh,
    };
    if let Some(refusal) = slots_refusal(newest, &fresh) {
        return Err(Fault::Refused(refusal));
    }
    let roles = match roles(alloc, newest, own) {
        Err(_) => return Err(Fault::NoMemory),
        Ok(roles) => roles,
    };
    if let Some(refusal) = roles_refusal(newest, roles.as_slice()) {
        return Err(Fault::Refused(refusal));
    }
    match spares(alloc, newest, own, lengths) {
        Err(_) => Err(Fault::NoMemory),
        Ok(spares) => Ok((roles, spares)),
    }
}

// The first refusal of the fresh slots' superblocks, before it is asked which roles they hold.
fn slots_refusal(newest: &Sb, fresh: &[(Sb, u64)]) -> Option<Refusal>
    ensures first { result ≡ first_of_all (unsupported fresh.now ∷ bad_field newest.now fresh.now ∷ two_holders fresh.now ∷ []) }
    ensures shapes { IfNone result (AreValidShapes newest.now) }
    ensures few { IfNone result (role_count newest.now ≤ 16) }
{
    if let Some(refusal) = unsupported(fresh) {
        return Some(refusal);
    }
    if let Some(refusal) = bad_field(newest, fresh) {
        return Some(refusal);
    }
    two_holders(fresh)
}

// The first refusal of the roles.
fn roles_refusal(newest: &Sb, roles: &[Role]) -> Option<Refusal>
    requires shapes { AreValidShapes newest.now }
    requires roles { length roles.now ≡ role_count newest.now }
    ensures { result ≡ first_of_all (members_missing newest.now roles.now ∷ dirty_degraded newest.now roles.now ∷ off_unit newest.now ∷ []) }
{
    if let Some(refusal) = members_missing(newest, roles) {
        return Some(refusal);
    }
    if let Some(refusal) = dirty_degraded(newest, roles) {
        return Some(refusal);
    }
    off_unit(newest)
}
