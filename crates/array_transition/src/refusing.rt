//! Why a reshape doesn't begin.

ghost use Rattle.std.specs.Prelude.{◌≡◌, ◌≤◌, length, Some, IsTrue, MatchOption};
ghost use Rattle.array_reshaping_steps.specs.raid_types_Shapes.{is_valid_shape};
ghost use Rattle.array_reshaping_steps.specs.sb_specs_Reading.{shape_of, role_count};
ghost use Rattle.array_reshaping_steps.specs.array_members_Status.{spare_count};
ghost use Rattle.array_reshaping_steps.specs.reshape_request_Asked.{lowest_missing};
ghost use Rattle.array_reshaping_steps.specs.array_fixed_invariant_Still.{AreNoneMissing};
ghost use Rattle.array_transition.specs.Begun.{CanBegin, IsUnbegun};

use array_reshaping_steps::{Members, Refusal, Shape, is_missing, is_spare, shape_in};

// The lowest role that isn't whole.
fn lowest_missing(members: &Members) -> Option<u32>
    requires roles { length members.now.roles ≡ role_count members.now.newest }
    requires few { length members.now.roles ≤ 16 }
    ensures { MatchOption result (AreNoneMissing members.now) (λ role. lowest_missing members.now ≡ Some role) }
{
    for role in 0..members.roles.len() as u32 {
        if is_missing(members, role) {
            return Some(role);
        }
    }
    None
}

// How many spares there are.
fn spare_count(members: &Members) -> u32
    ensures count { result ≡ spare_count members.now }
    ensures few { result ≤ 32 }
{
    let mut count = 0;
    for slot in 0..32u32 {
        if is_spare(members, slot) {
            count += 1;
        }
    }
    count
}

/// Why a reshape to this shape can't begin: `Degraded` where a role is missing, and `NeedSpares` where there are fewer spares than
/// new roles.
pub fn unbegun(members: &Members, to: &Shape) -> Option<Refusal>
    requires shape { IsTrue (is_valid_shape (shape_of members.now.newest)) }
    requires roles { length members.now.roles ≡ role_count members.now.newest }
    requires few { length members.now.roles ≤ 16 }
    requires disks { to.now.disks ≤ 16 }
    ensures { MatchOption result (CanBegin members.now to.now) (IsUnbegun members.now to.now) }
{
    if let Some(role) = lowest_missing(members) {
        return Some(Refusal::Degraded(role));
    }
    let have = spare_count(members);
    let first = shape_in(members).disks;
    if first + have < to.disks {
        let want = to.disks - first;
        return Some(Refusal::NeedSpares(u64::from(have), u64::from(want)));
    }
    None
}
