//! The plan of a wish, and its refusals.

ghost use Rattle.std.specs.Prelude.{◌≡◌, ◌∷◌, ◌<◌, ◌^◌, IsTrue, IfOk};
ghost use Rattle.std.specs.Option.{option_to_list};
ghost use Rattle.reshape_geometry.specs.raid_types_Shapes.{is_valid_shape, is_level};
ghost use Rattle.reshape_geometry.specs.Geometry.{is_size};
ghost use Rattle.reshape_plan.specs.Plans.{IsPlan, IsPlanOf, AreSound, plan_phases, phases_to, bad_field, has_bad_disks};

use crate::phases::{largest_window, least_length, most_disks};
use crate::targets::{before_down, is_same_shape, taken_up, target, wished_level};
use reshape_geometry::limits::{is_chunk, is_disk_count, is_layout, is_level, is_multiple};
use reshape_geometry::{Phase, Plan, Refusal, Shape, ShapeField, Wish};

/// The plan of a wish on an array of this shape, with `size` rows on each member.
///
/// Refused in this order: `SameShape` where the wish changes nothing; `BadShape` with the first field in which a
/// shape of the plan is out of its limits; `SizeNotMultiple` where the wished chunk doesn't divide the size.
pub fn plan(now: &Shape, size: u64, wish: &Wish) -> Result<Plan, Refusal>
    requires valid { IsTrue (is_valid_shape now.now) }
    requires sized { IsTrue (is_size size now.now.chunk) }
    ensures exact { IsPlan now.now size wish.now result }
    ensures sound { IfOk result (λ plan. AreSound now.now size (plan_phases plan)) }
{
    let level = wished_level(now, wish);
    let to = target(now, wish);
    if level == now.level && is_same_shape(now, &to) {
        return Err(Refusal::SameShape);
    }
    if let Some(field) = bad_field(now, level, &to) {
        return Err(Refusal::BadShape(field));
    }
    if !is_multiple(size, to.chunk) {
        return Err(Refusal::SizeNotMultiple(size, u64::from(to.chunk)));
    }
    Ok(plan_to(now, size, level, &to))
}

/// The first field in which a shape on the way to the target is out of its limits. The shapes of its takeover have the
/// target's chunk or the present one, and layouts that stand for each other.
fn bad_field(now: &Shape, level: u32, to: &Shape) -> Option<ShapeField>
    requires valid { IsTrue (is_valid_shape now.now) }
    requires levelled { IsTrue (is_level level) → to.now.level ≡ level }
    ensures { result ≡ bad_field now.now level to.now }
{
    if !is_level(level) {
        Some(ShapeField::Level)
    } else if !is_layout(level, to.layout) {
        Some(ShapeField::Layout)
    } else if !is_chunk(to.chunk) {
        Some(ShapeField::Chunk)
    } else if has_bad_disks(now, level, to) {
        Some(ShapeField::Disks)
    } else {
        None
    }
}

/// Whether a disk count on the way to the target is out of its limits, or doesn't do for the takeover: to level 6 the
/// target has at least the disks of the shape that is taken up, and to level 5 it leaves one for Q.
fn has_bad_disks(now: &Shape, level: u32, to: &Shape) -> bool
    requires valid { IsTrue (is_valid_shape now.now) }
    requires good_level { IsTrue (is_level level) }
    requires levelled { to.now.level ≡ level }
    ensures { result ≡ has_bad_disks now.now level to.now }
{
    if !is_disk_count(level, to.disks) {
        return true;
    }
    if level == now.level {
        return false;
    }
    if level == 6 {
        to.disks <= now.disks || !is_disk_count(6, now.disks + 1)
    } else {
        to.disks >= now.disks || !is_disk_count(6, to.disks + 1)
    }
}

/// The plan that leads to a target within the limits.
fn plan_to(now: &Shape, size: u64, level: u32, to: &Shape) -> Plan
    requires valid { IsTrue (is_valid_shape now.now) }
    requires sound { AreSound now.now size (phases_to now.now level to.now) }
    requires few { to.now.disks < 2 ^ 31 }
    ensures { IsPlanOf now.now size (phases_to now.now level to.now) result }
{
    let (first, second) = phases_to(now, level, to);
    Plan {
        first,
        second,
        spares: most_disks(now, &first, second) - now.disks,
        span: largest_window(now, size, &first, second),
        least: least_length(now, size, &first, second),
    }
}

/// One phase, or a takeover and the reshape behind or before it.
fn phases_to(now: &Shape, level: u32, to: &Shape) -> (Phase, Option<Phase>)
    requires valid { IsTrue (is_valid_shape now.now) }
    requires few { to.now.disks < 2 ^ 31 }
    ensures { result.0 ∷ option_to_list result.1 ≡ phases_to now.now level to.now }
{
    if level == now.level {
        return (Phase::Reshape(*to), None);
    }
    if level == 6 {
        let up = taken_up(now);
        if is_same_shape(&up, to) {
            return (Phase::UpTo6(up), None);
        }
        return (Phase::UpTo6(up), Some(Phase::Reshape(*to)));
    }
    let down = before_down(to);
    if is_same_shape(now, &down) {
        return (Phase::DownTo5(*to), None);
    }
    (Phase::Reshape(down), Some(Phase::DownTo5(*to)))
}
