//! The stripes of both regions of the list, in its order, and how far parity is relied on.

ghost use Rattle.std.specs.Prelude.{◌≡◌, ◌*◌, ◌^◌, ◌<◌, ◌≤◌, IfSome};
ghost use Rattle.reshape_request.specs.raid_types_Shapes.{stripe_sectors};
ghost use Rattle.reshape_request.specs.sb_specs_Reading.{list_length};
ghost use Rattle.stripe_region_write.specs.crash_views_Regions.{AreShapesFit};
ghost use Rattle.stripe_region_resync.specs.Mends.{low_end, low_shape, high_shape, low_stripes, high_stripe, resync_stripes, stripe_after, next_resync, relied_sector};

use reshape_request::{Members, Shape, is_reshaping, list_end, stripe_sectors};
use stripe_region_write::{final_in, shape_for, shape_in};

/// A stripe of a shape in force.
#[derive(Clone, Copy, Debug, PartialEq, Eq)]
pub struct Stripe {
    pub shape: Shape,
    pub at: u64,
}

// The sectors of the list below this one are the region below the position; none without a reshape.
fn low_end(members: &Members) -> u64
    ensures { result ≡ low_end members.now.newest }
{
    if is_reshaping(&members.newest) {
        members.newest.reshape_position
    } else {
        0
    }
}

fn low_shape(members: &Members) -> Shape
    requires fit { AreShapesFit members.now.newest }
    ensures { result ≡ low_shape members.now.newest }
{
    shape_for(members, 0)
}

fn high_shape(members: &Members) -> Shape
    requires fit { AreShapesFit members.now.newest }
    ensures { result ≡ high_shape members.now.newest }
{
    shape_for(members, low_end(members))
}

// How many stripes the region below the position has.
fn low_stripes(members: &Members) -> u64
    requires fit { AreShapesFit members.now.newest }
    ensures value { result ≡ low_stripes members.now.newest }
    ensures short { result ≤ 2 ^ 53 }
{
    low_end(members).div_ceil(stripe_sectors(&low_shape(members)))
}

// The first stripe of the other region.
fn high_stripe(members: &Members) -> u64
    requires fit { AreShapesFit members.now.newest }
    ensures { result ≡ high_stripe members.now.newest }
{
    low_end(members) / stripe_sectors(&high_shape(members))
}

/// How many stripes a resync has: those of both regions, of which the last below the position may go past it.
pub fn resync_stripes(members: &Members) -> u64
    requires fit { AreShapesFit members.now.newest }
    ensures value { result ≡ resync_stripes members.now.newest }
    ensures short { result ≤ 2 ^ 54 }
{
    let high = members.newest.size / u64::from(high_shape(members).chunk) - high_stripe(members);
    low_stripes(members) + high
}

/// The stripe behind so many, in the order of the list.
pub fn stripe_after(members: &Members, mended: u64) -> Stripe
    requires fit { AreShapesFit members.now.newest }
    requires mended { mended ≤ resync_stripes members.now.newest }
    ensures { result ≡ stripe_after members.now.newest mended }
{
    let low = low_stripes(members);
    if mended < low {
        return Stripe {
            shape: low_shape(members),
            at: mended,
        };
    }
    Stripe {
        shape: high_shape(members),
        at: high_stripe(members) + (mended - low),
    }
}

/// The stripe that is mended next, where so many are; None where all are.
pub fn next_resync(members: &Members, mended: u64) -> Option<Stripe>
    requires fit { AreShapesFit members.now.newest }
    ensures { result ≡ next_resync members.now.newest mended }
{
    if mended < resync_stripes(members) {
        Some(stripe_after(members, mended))
    } else {
        None
    }
}

// How many sectors the list has.
fn list_sectors(members: &Members) -> u64
    requires fit { AreShapesFit members.now.newest }
    ensures { result ≡ list_length members.now.newest }
{
    list_end(&shape_in(members), &final_in(members), members.newest.size)
}

// The first sector of the stripe behind so many.
fn synced_sector(members: &Members, mended: u64) -> u64
    requires fit { AreShapesFit members.now.newest }
    requires mended { mended ≤ resync_stripes members.now.newest }
    ensures { result ≡ (stripe_after members.now.newest mended).at * stripe_sectors (stripe_after members.now.newest mended).shape }
{
    let next = stripe_after(members, mended);
    next.at * stripe_sectors(&next.shape)
}

/// The sector of the list below which parity is relied on, where a resync is pending that has mended so many stripes, or none.
pub fn relied_sector(members: &Members, resync: Option<u64>) -> u64
    requires fit { AreShapesFit members.now.newest }
    requires progress { IfSome resync (λ mended. mended ≤ resync_stripes members.now.newest) }
    ensures value { result ≡ relied_sector members.now.newest resync }
    ensures within { result ≤ list_length members.now.newest }
{
    match resync {
        None => list_sectors(members),
        Some(mended) => synced_sector(members, mended),
    }
}
