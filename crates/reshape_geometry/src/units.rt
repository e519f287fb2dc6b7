//! The unit of a reshape.

ghost use Rattle.std.specs.Prelude.{◌≡◌, ◌^◌, ◌<◌, IsTrue};
ghost use Rattle.std.specs.Int.{IsGcd};
ghost use Rattle.raid_types.specs.Shapes.{stripe_sectors, is_valid_shape};
ghost use Rattle.reshape_geometry.specs.Geometry.{unit, IsLeastCommonMultiple};

use crate::shapes::stripe_sectors;
use raid_types::Shape;

/// The unit of a reshape: the least number of sectors that is whole data stripes of both shapes.
pub fn unit(old: &Shape, new: &Shape) -> u64
    requires old_valid { IsTrue (is_valid_shape old.now) }
    requires new_valid { IsTrue (is_valid_shape new.now) }
    ensures value { result ≡ unit old.now new.now }
    ensures least { IsLeastCommonMultiple (stripe_sectors old.now) (stripe_sectors new.now) result }
    ensures short { result < 2 ^ 32 }
{
    let old_stripe = stripe_sectors(old);
    let new_stripe = stripe_sectors(new);
    old_stripe / common_divisor(old_stripe, new_stripe) * new_stripe
}

/// The greatest common divisor, by Euclid.
fn common_divisor(a: u64, b: u64) -> u64
    ensures { IsGcd a b result }
{
    let mut larger = a;
    let mut smaller = b;
    while smaller != 0 {
        let rest = larger % smaller;
        larger = smaller;
        smaller = rest;
    }
    larger
}
