//! Whether a reshape that was found needs its backup.

ghost use Rattle.std.specs.Prelude.{◌≡◌, ◌==◌, ◌^◌, ◌<◌, ◌≤◌, IsTrue};
ghost use Rattle.std.specs.Int.{bit_at};
ghost use Rattle.std.specs.Option.{option_map_or};
ghost use Rattle.sb_specs.specs.Reading.{is_negative, is_zero, is_backward, shape_of};
ghost use Rattle.reshape_geometry.specs.Geometry.{AreInForce, list_end, window, is_critical};
ghost use Rattle.tool_warnings.specs.Needed.{are_in_force, is_next_critical, needs_section};

use reshape_geometry::limits::{MOST_DISKS, is_size, is_valid_shape};
use reshape_geometry::{Shape, is_critical, list_end, window};
use sb_codec::{Features, Sb};
use sb_specs::says::{old_disks, shape_of, target_of};

fn is_negative(delta: i32) -> bool
    ensures { result ≡ is_negative delta }
{
    delta < 0
}

fn is_zero(delta: i32) -> bool
    ensures { result ≡ is_zero delta }
{
    delta == 0
}

fn has_backward_bit(map: u32) -> bool
    ensures { result ≡ (bit_at map 5 == 1) }
{
    map & Features::RESHAPE_BACKWARDS.0 != 0
}

// Whether the reshape goes backward: to fewer disks, or to as many where the feature map says so.
fn is_backward(sb: &Sb) -> bool
    ensures { result ≡ is_backward sb.now }
{
    is_negative(sb.delta_disks) || (is_zero(sb.delta_disks) && has_backward_bit(sb.feature_map))
}

// Whether two shapes over members of this size can be those of a reshape.
fn are_in_force(old: &Shape, new: &Shape, size: u64) -> bool
    ensures value { result ≡ are_in_force old.now new.now size }
    ensures each { IsTrue result → AreInForce old.now new.now size }
{
    is_valid_shape(old)
        && is_valid_shape(new)
        && is_size(size, old.chunk)
        && is_size(size, new.chunk)
}

// Whether the next window from the superblock's position is critical.
fn is_next_critical(sb: &Sb, old: &Shape, new: &Shape) -> bool
    requires in_force { AreInForce old.now new.now sb.now.size }
    requires within { sb.now.reshape_position ≤ list_end old.now new.now sb.now.size }
    ensures { result ≡ is_next_critical sb.now old.now new.now }
{
    let back = is_backward(sb);
    match window(old, new, sb.size, back, sb.reshape_position) {
        None => false,
        Some(span) => is_critical(old, new, sb.size, back, &span),
    }
}

/// Whether an array with this newest superblock is in a reshape whose next window is critical, so that its backup has to hold that window's
/// sectors as soon as one of them is overwritten. What can't be a reshape, by its fields, needs nothing.
pub fn needs_section(newest: &Sb) -> bool
    ensures { result ≡ needs_section newest.now }
{
    if old_disks(newest) > u64::from(MOST_DISKS) {
        return false;
    }
    let Some(new) = target_of(newest) else {
        return false;
    };
    let old = shape_of(newest);
    are_in_force(&old, &new, newest.size)
        && newest.reshape_position <= list_end(&old, &new, newest.size)
        && is_next_critical(newest, &old, &new)
}
