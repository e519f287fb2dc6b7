//! Stretches of the list that are placed by one shape.

ghost use Rattle.std.specs.Prelude.{◌≡◌, ◌⊎◌, ◌<◌, ◌≤◌, ◌==◌, true, IsTrue};
ghost use Rattle.std.specs.Int.{bit_at};
ghost use Rattle.stripe_io.specs.raid_types_Shapes.{is_valid_shape, is_multiple};
ghost use Rattle.stripe_io.specs.sb_specs_Reading.{shape_of, is_negative, is_zero, is_reshaping, is_backward};
ghost use Rattle.stripe_io.specs.history_Stands.{shape_for};
ghost use Rattle.stripe_io.specs.crash_views_Regions.{AreShapesFit};
ghost use Rattle.stripe_io.specs.array_members_Placed.{IsInForce};
ghost use Rattle.stripe_region_read.specs.Stretches.{IsStretch, relied_rows};

use stripe_io::{
    Features, Members, Sb, Shape, Side, final_in, is_reshaping, shape_in, side, stripe_sectors,
    superblocks_list_length as list_length,
};

/// Sectors of the list that are placed by one shape, up to the end.
#[derive(Clone, Copy)]
pub struct Stretch {
    pub shape: Shape,
    pub end: u64,
}

fn is_negative(delta: i32) -> bool
    ensures { result ≡ is_negative delta }
{
    delta < 0
}

fn is_zero(delta: i32) -> bool
    ensures { result ≡ is_zero delta }
{
    delta == 0
}

fn has_backward_bit(map: u32) -> bool
    ensures { result ≡ (bit_at map 5 == 1) }
{
    map & Features::RESHAPE_BACKWARDS.0 != 0
}

// Whether the reshape goes backward: to fewer disks, or to as many where the feature map says so.
fn is_backward(sb: &Sb) -> bool
    ensures { result ≡ is_backward sb.now }
{
    is_negative(sb.delta_disks) || (is_zero(sb.delta_disks) && has_backward_bit(sb.feature_map))
}

/// The shape that places sector `x` of the list: while a reshape is active, that of its side.
pub fn shape_for(members: &Members, x: u64) -> Shape
    requires shape { IsTrue (is_valid_shape (shape_of members.now.newest)) }
    ensures { result ≡ shape_for members.now.newest x }
{
    let newest = &members.newest;
    if !is_reshaping(newest) {
        return shape_in(members);
    }
    match side(is_backward(newest), newest.reshape_position, x) {
        Side::Old => shape_in(members),
        Side::New => final_in(members),
    }
}

/// The longest stretch from a sector of the list on, up to `to`, that is placed by one shape: it ends there, or at the position.
pub fn stretch_at(members: &Members, from: u64, to: u64) -> Stretch
    requires shape { IsTrue (is_valid_shape (shape_of members.now.newest)) }
    requires some { from < to }
    ensures shape { result.shape ≡ shape_for members.now.newest from }
    ensures force { IsInForce members.now.newest result.shape }
    ensures one { IsStretch members.now.newest result.shape from result.end }
    ensures some { from < result.end }
    ensures within { result.end ≤ to }
    ensures longest { (result.end ≡ to) ⊎ ((is_reshaping members.now.newest ≡ true) × (result.end ≡ members.now.newest.reshape_position)) }
{
    let position = members.newest.reshape_position;
    let shape = shape_for(members, from);
    if is_reshaping(&members.newest) && from < position {
        return Stretch {
            shape,
            end: to.min(position),
        };
    }
    Stretch { shape, end: to }
}

/// The rows of this shape whose parity is to be relied on, where it is up to sector `relied` of the list.
pub fn relied_rows(members: &Members, relied: u64, shape: &Shape) -> u64
    requires fit { AreShapesFit members.now.newest }
    requires shape { IsInForce members.now.newest shape.now }
    ensures rows { result ≡ relied_rows members.now.newest relied shape.now }
    ensures within { result ≤ members.now.newest.size }
    ensures stripes { IsTrue (is_multiple result shape.now.chunk) }
{
    let newest = &members.newest;
    if relied as u128 >= list_length(newest) {
        return newest.size;
    }
    relied / stripe_sectors(shape) * shape.chunk as u64
}
