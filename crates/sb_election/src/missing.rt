//! Too many missing members.

ghost use Rattle.std.specs.Prelude.{◌≡◌, ◌≤◌, ◌<◌, ◌&&◌, IsTrue, length, if◌then◌else◌, Some, None};
ghost use Rattle.sb_specs.specs.raid_types_the_Refusal_TheVariants.{MembersMissing};
ghost use Rattle.sb_specs.specs.raid_types_Shapes.{is_valid_shape, tolerance};
ghost use Rattle.sb_specs.specs.raid_types_Search.{count_below};
ghost use Rattle.sb_specs.specs.raid_layout_Layout.{has_data};
ghost use Rattle.sb_specs.specs.Reading.{shape_of, is_whole, role_count};
ghost use Rattle.sb_specs.specs.Verdict.{
  is_missing,
  missing_count,
  too_many,
  members_missing,
  holds_data,
  dirty_degraded,
  AreValidShapes,
};

use sb_specs::says::{is_clean, shape_of, target_of, tolerance};
use sb_specs::{Refusal, Role, Sb, Shape, parity_only};

/// Whether a shape in force has more missing roles than its tolerance, the old one first.
pub fn members_missing(newest: &Sb, roles: &[Role]) -> Option<Refusal>
    requires shapes { AreValidShapes newest.now }
    requires roles { length roles.now ≡ role_count newest.now }
    ensures { result ≡ members_missing newest.now roles.now }
{
    if let Some(refusal) = too_many(&shape_of(newest), roles) {
        return Some(refusal);
    }
    match target_of(newest) {
        None => None,
        Some(target) => too_many(&target, roles),
    }
}

// Whether a shape has more missing roles than its tolerance.
fn too_many(shape: &Shape, roles: &[Role]) -> Option<Refusal>
    requires { shape.now.disks ≤ length roles.now }
    ensures { result ≡ (if too_many roles.now shape.now
        then Some (MembersMissing (missing_count roles.now shape.now) (tolerance shape.now)) else None) }
{
    let missing = missing_count(roles, shape.disks);
    let tolerance = tolerance(shape.level);
    if missing <= tolerance {
        return None;
    }
    Some(Refusal::MembersMissing(missing, tolerance))
}

// How many roles below this many disks are missing.
fn missing_count(roles: &[Role], disks: u32) -> u64
    requires { disks ≤ length roles.now }
    ensures { result ≡ count_below disks (is_missing roles.now) }
{
    let mut missing = 0;
    for role in 0..disks {
        if !is_whole(roles[role as usize]) {
            missing += 1;
        }
    }
    missing
}

fn is_whole(role: Role) -> bool
    ensures { result ≡ is_whole role }
{
    match role {
        Role::Whole(_) => true,
        _ => false,
    }
}

/// Whether a dirty array misses a role that holds data in some shape in force; the lowest one.
pub fn dirty_degraded(newest: &Sb, roles: &[Role]) -> Option<Refusal>
    requires shapes { AreValidShapes newest.now }
    requires roles { length roles.now ≡ role_count newest.now }
    ensures { result ≡ dirty_degraded newest.now roles.now }
{
    if is_clean(newest) {
        return None;
    }
    for role in 0..roles.len() as u32 {
        if misses_data(newest, roles, role) {
            return Some(Refusal::DirtyDegraded(role));
        }
    }
    None
}

// Whether a role is missing that holds data.
fn misses_data(newest: &Sb, roles: &[Role], role: u32) -> bool
    requires shapes { AreValidShapes newest.now }
    requires role { role < length roles.now }
    ensures { result ≡ (is_missing roles.now role && holds_data newest.now role) }
{
    !is_whole(roles[role as usize]) && holds_data(newest, role)
}

fn holds_data(newest: &Sb, role: u32) -> bool
    requires { AreValidShapes newest.now }
    ensures { result ≡ holds_data newest.now role }
{
    if has_data(&shape_of(newest), role) {
        return true;
    }
    match target_of(newest) {
        None => false,
        Some(target) => has_data(&target, role),
    }
}

// Whether a role of a shape, if it is one, holds data.
fn has_data(shape: &Shape, role: u32) -> bool
    requires { IsTrue (is_valid_shape shape.now) }
    ensures { result ≡ has_data shape.now role }
{
    role < shape.disks && !parity_only(shape, role)
}
