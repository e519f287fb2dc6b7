//! The steps that a reshape has left.

ghost use Rattle.std.specs.Prelude.{◌≡◌, ◌≤◌, ◌^◌, true, false, sum_by};
ghost use Rattle.reshape_geometry.specs.Geometry.{AreInForce, list_end, windows, window_steps, zeroed_stripes, steps_of, reshape_steps};

use crate::shapes::{data_disks, list_end, stripe_sectors};
use crate::units::unit;
use raid_types::Shape;

/// The steps that a reshape has left at a position: those of its windows, its zeroed stripes, and its end.
pub fn steps_of(old: &Shape, new: &Shape, size: u64, back: bool, position: u64) -> u64
    requires in_force { AreInForce old.now new.now size }
    requires within { position ≤ list_end old.now new.now size }
    ensures value { result ≡ steps_of old.now new.now size back position }
    ensures short { result ≤ 2 ^ 57 }
{
    let moved = if back {
        backward_steps(old, new, size, position)
    } else {
        forward_steps(old, new, size, position)
    };
    moved + zeroed_stripes(old, new, size, back) + 1
}

/// The steps of a whole reshape, its start among them. It goes backward where the new shape has fewer data disks.
pub fn reshape_steps(old: &Shape, new: &Shape, size: u64) -> u64
    requires { AreInForce old.now new.now size }
    ensures value { result ≡ reshape_steps old.now new.now size }
    ensures short { result ≤ 2 ^ 58 }
{
    let back = data_disks(new) < data_disks(old);
    let position = if back { list_end(old, new, size) } else { 0 };
    1 + steps_of(old, new, size, back, position)
}

/// Backward, windows meet on units only, where no stripe is cut: so the stripes are those below the position.
fn backward_steps(old: &Shape, new: &Shape, size: u64, position: u64) -> u64
    requires in_force { AreInForce old.now new.now size }
    requires within { position ≤ list_end old.now new.now size }
    ensures value { result ≡ sum_by (window_steps new.now) (windows old.now new.now size true position) }
    ensures short { result ≤ 2 ^ 56 }
{
    2 * position.div_ceil(unit(old, new)) + position.div_ceil(stripe_sectors(new))
}

/// Forward, windows meet whole units after the position. Where the position cuts a stripe, so does each such place,
/// and that stripe is copied in both windows.
fn forward_steps(old: &Shape, new: &Shape, size: u64, position: u64) -> u64
    requires in_force { AreInForce old.now new.now size }
    requires within { position ≤ list_end old.now new.now size }
    ensures value { result ≡ sum_by (window_steps new.now) (windows old.now new.now size false position) }
    ensures short { result ≤ 2 ^ 56 }
{
    let end = list_end(old, new, size);
    let windows = (end - position).div_ceil(unit(old, new));
    if windows == 0 {
        return 0;
    }
    let stripe = stripe_sectors(new);
    let whole = position / stripe;
    let twice = position.div_ceil(stripe) - whole;
    2 * windows + (end.div_ceil(stripe) - whole) + (windows - 1) * twice
}

/// The stripes of the new shape past the end of the list, which a forward reshape zeroes.
fn zeroed_stripes(old: &Shape, new: &Shape, size: u64, back: bool) -> u64
    requires { AreInForce old.now new.now size }
    ensures value { result ≡ zeroed_stripes old.now new.now size back }
    ensures short { result ≤ size }
{
    if back {
        return 0;
    }
    let copied = list_end(old, new, size).div_ceil(stripe_sectors(new));
    size / u64::from(new.chunk) - copied
}
