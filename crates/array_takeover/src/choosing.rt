//! Which slot a takeover changes, or why it isn't done.

ghost use Rattle.std.specs.Prelude.{◌≡◌, ◌⊎◌, ◌<◌, ◌≤◌, length, MatchOption, Some, IfOk, IfErr};
ghost use Rattle.array_fixed_sync.specs.sb_specs_Reading.{role_count, role_state};
ghost use Rattle.array_fixed_sync.specs.stripe_row_Rows.{reading_of};
ghost use Rattle.array_fixed_sync.specs.reshape_request_Asked.{lowest_missing};
ghost use Rattle.array_fixed_sync.specs.array_fixed_invariant_Still.{AreNoneMissing};
ghost use Rattle.array_takeover.specs.TakenOver.{IsTakenSlot, IsUntaken};

use array_fixed_sync::{Members, first_spare, is_missing};
use array_takeover_laws::{Refusal, Role, Shape};

// The lowest role that isn't whole.
fn lowest_missing(members: &Members) -> Option<u32>
    requires roles { length members.now.roles ≡ role_count members.now.newest }
    requires few { length members.now.roles ≤ 16 }
    ensures { MatchOption result (AreNoneMissing members.now) (λ role. lowest_missing members.now ≡ Some role) }
{
    for role in 0..members.roles.len() as u32 {
        if is_missing(members, role) {
            return Some(role);
        }
    }
    None
}

// The slot that a takeover to this shape changes: the lowest spare, or the one that holds the last role of level 6.
pub(crate) fn taken_slot(members: &Members, to: &Shape) -> Result<u32, Refusal>
    requires roles { length members.now.roles ≡ role_count members.now.newest }
    requires few { length members.now.roles ≤ 16 }
    requires level { (to.now.level ≡ 6) ⊎ ((to.now.level ≡ 5) × (to.now.disks < length members.now.roles)) }
    ensures whole { IfOk result (λ slot. AreNoneMissing members.now) }
    ensures chosen { IfOk result (λ slot. IsTakenSlot members.now to.now slot) }
    ensures refused { IfErr result (λ refusal. IsUntaken members.now to.now refusal) }
{
    if let Some(role) = lowest_missing(members) {
        return Err(Refusal::Degraded(role));
    }
    if to.level == 6 {
        let Some(slot) = first_spare(members) else {
            return Err(Refusal::NeedSpares(0, 1));
        };
        return Ok(slot);
    }
    let Role::Whole(slot) = members.roles.get(to.disks) else {
        unreachable!()
    };
    Ok(slot)
}
