//! The steps that are left of a reshape and of the phases behind it.

ghost use Rattle.std.specs.Prelude.{◌≡◌, ◌≤◌, ◌^◌, IsTrue};
ghost use Rattle.history.specs.raid_types_Shapes.{is_valid_shape};
ghost use Rattle.history.specs.reshape_geometry_Geometry.{stripes};
ghost use Rattle.history.specs.reshape_plan_Plans.{AreSound, phases_steps};
ghost use Rattle.stripe_row.specs.sb_specs_Reading.{next_window};
ghost use Rattle.reshape_request.specs.Left.{reshape_left, stripes_in, phases_of, zeroed_by, IsReshapeUnderWay, IsWindowRight};

use crate::shapes::{final_in, is_backward, shape_in};
use crate::window::{PhasesLeft, Window};
use history::{Shape, Span, phase_shape, phase_steps, steps_of, stripe_sectors, window};
use stripe_row::Members;

// The stripes of a shape that a span touches.
fn stripes(shape: &Shape, span: &Span) -> u64
    requires valid { IsTrue (is_valid_shape shape.now) }
    requires filled { span.now.lo ≤ span.now.hi }
    requires inside { span.now.hi ≤ 2 ^ 53 }
    ensures value { result ≡ stripes shape.now span.now.lo span.now.hi }
    ensures few { result ≤ 2 ^ 53 }
{
    let stripe = stripe_sectors(shape);
    span.hi.div_ceil(stripe) - span.lo / stripe
}

/// The next window of the array's reshape; None where none is left.
pub fn next_window(members: &Members) -> Option<Span>
    requires { IsReshapeUnderWay members.now.newest }
    ensures { result ≡ next_window members.now.newest }
{
    let newest = &members.newest;
    let old = shape_in(newest);
    let new = final_in(newest);
    window(
        &old,
        &new,
        newest.size,
        is_backward(newest),
        newest.reshape_position,
    )
}

/// The new stripes of that window.
pub fn stripes_in(members: &Members, span: &Span) -> u64
    requires reshape { IsReshapeUnderWay members.now.newest }
    requires next { next_window members.now.newest ≡ Some span.now }
    ensures { result ≡ stripes_in members.now.newest span.now }
{
    stripes(&final_in(&members.newest), span)
}

/// The steps that the array's reshape has left, of which so many stripes behind the list are zeroed.
pub fn reshape_left(members: &Members, window: &Window, zeroed: u64) -> u64
    requires reshape { IsReshapeUnderWay members.now.newest }
    requires open { IsWindowRight members.now.newest window.now }
    requires zeroed { zeroed ≤ zeroed_by members.now.newest }
    ensures value { result ≡ reshape_left members.now.newest window.now zeroed }
    ensures few { result ≤ 2 ^ 58 }
{
    let newest = &members.newest;
    let old = shape_in(newest);
    let new = final_in(newest);
    let back = is_backward(newest);
    match window {
        Window::Closed | Window::Unsure { span: _ } => {
            steps_of(&old, &new, newest.size, back, newest.reshape_position) - zeroed
        }
        Window::Entered {
            span,
            copied,
            sectioned: _,
        } => {
            let beyond = if back { span.lo } else { span.hi };
            let behind = steps_of(&old, &new, newest.size, back, beyond) - zeroed;
            stripes(&new, span) - *copied + 1 + behind
        }
    }
}

/// The steps of the phases that haven't begun, from the shape that the array will have before them.
pub fn planned_left(now: &Shape, size: u64, ahead: &PhasesLeft) -> u64
    requires { AreSound now.now size (phases_of ahead.now) }
    ensures value { result ≡ phases_steps now.now size (phases_of ahead.now) }
    ensures few { result ≤ 2 ^ 59 }
{
    match (ahead.next, ahead.last) {
        (None, None) => 0,
        (Some(phase), None) | (None, Some(phase)) => phase_steps(now, size, &phase),
        (Some(next), Some(last)) => {
            phase_steps(now, size, &next) + phase_steps(&phase_shape(&next), size, &last)
        }
    }
}
