//! The reshape of an array, by its newest superblock: its next window, and the stripes of its steps.

ghost use Rattle.std.specs.Prelude.{◌≡◌, ◌+◌, ◌-◌, ◌^◌, ◌<◌, ◌≤◌, true, Some, IfSome, IfNone};
ghost use Rattle.reshape_progress.specs.reshape_geometry_Geometry.{is_critical};
ghost use Rattle.reshape_progress.specs.sb_specs_Reading.{is_reshaping, is_backward, shape_of, final_shape, list_length, next_window};
ghost use Rattle.reshape_progress.specs.history_Stands.{reach_of};
ghost use Rattle.reshape_progress.specs.crash_views_Regions.{AreShapesFit};
ghost use Rattle.reshape_progress.specs.reshape_request_Left.{stripes_in, zeroed_by};
ghost use Rattle.reshape_progress.specs.reshape_window_rows_Copies.{IsStripeOf, IsPastStripe};
ghost use Rattle.reshape_progress.specs.reshape_window_steps_Zeroing.{IsThrough};
ghost use Rattle.reshape_progress.specs.Course.{past_stripe};
ghost use Rattle.reshape_progress.specs.Laws.{next_stripe};

use array_call_specs::Span;
use reshape_progress::{
    Members, is_backward, is_critical, list_end, next_window, stripe_sectors, stripes_in,
};
use stripe_region_resync::{final_in, shape_in};

/// How many sectors the list has while the reshape is active.
pub fn list_sectors(members: &Members) -> u64
    requires fit { AreShapesFit members.now.newest }
    ensures length { result ≡ list_length members.now.newest }
    ensures short { result ≤ 2 ^ 53 }
{
    list_end(&shape_in(members), &final_in(members), members.newest.size)
}

/// The next window; None where the reshape has gone through the list.
pub fn next_window_of(members: &Members) -> Option<Span>
    requires fit { AreShapesFit members.now.newest }
    requires active { is_reshaping members.now.newest ≡ true }
    ensures value { result ≡ next_window members.now.newest }
    ensures filled { IfSome result (λ span. span.lo < span.hi) }
    ensures inside { IfSome result (λ span. span.hi ≤ list_length members.now.newest) }
    ensures reach { IfSome result (λ span. span.hi - span.lo ≤ reach_of members.now.newest) }
    ensures through { IfNone result (IsThrough members.now.newest) }
{
    next_window(members)
}

/// Whether the rows that the next window writes meet those of old sectors that live: then its section has to be stored before.
pub fn is_window_critical(members: &Members, span: &Span) -> bool
    requires fit { AreShapesFit members.now.newest }
    requires next { next_window members.now.newest ≡ Some span.now }
    ensures { let newest = members.now.newest in result ≡ is_critical (shape_of newest) (final_shape newest) newest.size (is_backward newest) span.now }
{
    is_critical(
        &shape_in(members),
        &final_in(members),
        members.newest.size,
        is_backward(&members.newest),
        span,
    )
}

/// How many stripes of the new shape the next window touches.
pub fn window_stripes(members: &Members, span: &Span) -> u64
    requires fit { AreShapesFit members.now.newest }
    requires next { next_window members.now.newest ≡ Some span.now }
    ensures { result ≡ stripes_in members.now.newest span.now }
{
    stripes_in(members, span)
}

/// The stripe of the new shape that is copied next, where so many of the next window's are copied.
pub fn stripe_to_copy(members: &Members, span: &Span, copied: u64) -> u64
    requires fit { AreShapesFit members.now.newest }
    requires next { next_window members.now.newest ≡ Some span.now }
    requires copied { copied < stripes_in members.now.newest span.now }
    ensures value { result ≡ next_stripe members.now span.now copied }
    ensures stripe { IsStripeOf (final_shape members.now.newest) span.now result }
{
    span.lo / stripe_sectors(&final_in(members)) + copied
}

// The first stripe of the new shape behind those that have sectors of the list.
fn past_stripe(members: &Members) -> u64
    requires fit { AreShapesFit members.now.newest }
    ensures value { result ≡ past_stripe members.now.newest }
    ensures short { result ≤ 2 ^ 53 }
{
    list_sectors(members).div_ceil(stripe_sectors(&final_in(members)))
}

/// How many stripes behind the list are to be zeroed: none backward.
pub fn stripes_to_zero(members: &Members) -> u64
    requires fit { AreShapesFit members.now.newest }
    ensures { result ≡ zeroed_by members.now.newest }
{
    if is_backward(&members.newest) {
        return 0;
    }
    members.newest.size / u64::from(final_in(members).chunk) - past_stripe(members)
}

/// The stripe behind the list that is zeroed next, where so many are.
pub fn stripe_to_zero(members: &Members, zeroed: u64) -> u64
    requires fit { AreShapesFit members.now.newest }
    requires zeroed { zeroed < zeroed_by members.now.newest }
    ensures value { result ≡ past_stripe members.now.newest + zeroed }
    ensures stripe { IsPastStripe (final_shape members.now.newest) members.now.newest.size (list_length members.now.newest) result }
{
    past_stripe(members) + zeroed
}
