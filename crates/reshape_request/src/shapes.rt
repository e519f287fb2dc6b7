//! The shapes of an array, by its newest superblock, and which way it is reshaped.

ghost use Rattle.std.specs.Prelude.{◌≡◌, ◌==◌, IsTrue};
ghost use Rattle.std.specs.Int.{bit_at};
ghost use Rattle.history.specs.raid_types_Shapes.{is_valid_shape};
ghost use Rattle.stripe_row.specs.sb_specs_Reading.{shape_of, final_shape, is_negative, is_zero, is_backward};

use history::Shape;
use stripe_row::{Features, Sb, shape_of, target_of};

/// The shape of the array.
pub fn shape_in(newest: &Sb) -> Shape
    requires { IsTrue (is_valid_shape (shape_of newest.now)) }
    ensures { result ≡ shape_of newest.now }
{
    shape_of(newest)
}

/// The shape that it will have in the end: the new one of an active reshape, or else the one that it has.
pub fn final_in(newest: &Sb) -> Shape
    requires { IsTrue (is_valid_shape (shape_of newest.now)) }
    ensures { result ≡ final_shape newest.now }
{
    match target_of(newest) {
        Some(target) => target,
        None => shape_in(newest),
    }
}

fn is_negative(delta: i32) -> bool
    ensures { result ≡ is_negative delta }
{
    delta < 0
}

fn is_zero(delta: i32) -> bool
    ensures { result ≡ is_zero delta }
{
    delta == 0
}

fn has_backward_bit(map: u32) -> bool
    ensures { result ≡ (bit_at map 5 == 1) }
{
    map & Features::RESHAPE_BACKWARDS.0 != 0
}

/// Whether a reshape goes backward: to fewer disks, or to as many where the feature map says so.
pub fn is_backward(sb: &Sb) -> bool
    ensures { result ≡ is_backward sb.now }
{
    is_negative(sb.delta_disks) || (is_zero(sb.delta_disks) && has_backward_bit(sb.feature_map))
}
