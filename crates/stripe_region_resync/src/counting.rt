//! The steps that a pending resync of an array in a reshape has left.

ghost use Rattle.std.specs.Prelude.{◌≡◌, ◌*◌, ◌^◌, ◌≤◌, IfSome, IsTrue};
ghost use Rattle.reshape_request.specs.raid_types_Shapes.{is_valid_shape, is_multiple, data_disks};
ghost use Rattle.reshape_request.specs.sb_specs_Reading.{is_backward, shape_of, final_shape, list_length};
ghost use Rattle.stripe_region_write.specs.crash_views_Regions.{AreShapesFit};
ghost use Rattle.stripe_region_resync.specs.Left.{stripes_beside, resyncs_at, position_behind, resync_left};

use reshape_request::shapes::is_backward;
use reshape_request::{Members, Shape, Window, stripe_sectors};
use stripe_region_write::{final_in, shape_in};

// The stripes that two shapes have below a position and from there on.
fn stripes_beside(low: &Shape, high: &Shape, size: u64, position: u64) -> u64
    requires low { IsTrue (is_valid_shape low.now) }
    requires high { IsTrue (is_valid_shape high.now) }
    requires size { size ≤ 2 ^ 48 }
    requires multiple { IsTrue (is_multiple size high.now.chunk) }
    requires within { position ≤ data_disks high.now * size }
    ensures value { result ≡ stripes_beside low.now high.now size position }
    ensures short { result ≤ 2 ^ 54 }
{
    let above = size / u64::from(high.chunk) - position / stripe_sectors(high);
    position.div_ceil(stripe_sectors(low)) + above
}

/// How many stripes a resync has where the reshape stands at this position.
pub fn resyncs_at(members: &Members, position: u64) -> u64
    requires fit { AreShapesFit members.now.newest }
    requires within { position ≤ list_length members.now.newest }
    ensures value { let newest = members.now.newest in result ≡ resyncs_at (shape_of newest) (final_shape newest) newest.size (is_backward newest) position }
    ensures short { result ≤ 2 ^ 54 }
{
    let old = shape_in(members);
    let new = final_in(members);
    if is_backward(&members.newest) {
        stripes_beside(&old, &new, members.newest.size, position)
    } else {
        stripes_beside(&new, &old, members.newest.size, position)
    }
}

// The position behind the window under way, if one is entered.
fn position_behind(members: &Members, window: &Window) -> u64
    ensures { result ≡ position_behind members.now.newest window.now }
{
    match window {
        Window::Entered {
            span,
            copied: _,
            sectioned: _,
        } => {
            if is_backward(&members.newest) {
                span.lo
            } else {
                span.hi
            }
        }
        Window::Closed | Window::Unsure { span: _ } => members.newest.reshape_position,
    }
}

/// The steps that a pending resync has left, which has mended so many stripes: one for each of the others, counted for the position behind
/// an entered window, and one for its end. None where no resync is pending.
pub fn resync_left(members: &Members, window: &Window, resync: Option<u64>) -> u64
    requires fit { AreShapesFit members.now.newest }
    requires within { position_behind members.now.newest window.now ≤ list_length members.now.newest }
    ensures value { result ≡ resync_left members.now.newest window.now resync }
    ensures short { result ≤ 2 ^ 55 }
{
    let Some(mended) = resync else {
        return 0;
    };
    resyncs_at(members, position_behind(members, window)).saturating_sub(mended) + 1
}
