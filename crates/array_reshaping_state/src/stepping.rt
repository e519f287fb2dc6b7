//! Which step of an array in a reshape is next.

ghost use Rattle.std.specs.Prelude.{◌≡◌, ◌≤◌, true, IfSome};
ghost use Rattle.reshape_progress.specs.sb_specs_Reading.{is_reshaping};
ghost use Rattle.reshape_progress.specs.crash_views_Regions.{AreShapesFit};
ghost use Rattle.stripe_region_resync.specs.Mends.{resync_stripes};
ghost use Rattle.reshape_progress.specs.Course.{IsCourseOf};
ghost use Rattle.array_reshaping_state.specs.Due.{due_between, due_aside, due_of, IsDue};

use crate::reshape::{next_window_of, stripes_to_zero, window_stripes};
use reshape_progress::{Course, Members, Window};
use stripe_region_resync::stripes::resync_stripes;

/// A step of an array between the begin of its reshape and the end, or the end: a stripe of the entered window is copied, the window is
/// recorded, the next stripe of a pending resync is mended, the resync ends, the next window is entered, a stripe behind the list is zeroed, or
/// the reshape ends.
#[derive(Clone, Copy, Debug, PartialEq, Eq)]
pub enum Due {
    Copy,
    Record,
    Mend,
    EndResync,
    Enter,
    Zero,
    Finish,
}

// The step of the reshape that is next where no window is entered.
fn due_between(members: &Members, zeroed: u64) -> Due
    requires fit { AreShapesFit members.now.newest }
    requires active { is_reshaping members.now.newest ≡ true }
    ensures { result ≡ due_between members.now.newest zeroed }
{
    if next_window_of(members).is_some() {
        return Due::Enter;
    }
    if zeroed < stripes_to_zero(members) {
        return Due::Zero;
    }
    Due::Finish
}

// The step that is next where no window is entered: of a pending resync first.
fn due_aside(members: &Members, zeroed: u64, resync: Option<u64>) -> Due
    requires fit { AreShapesFit members.now.newest }
    requires active { is_reshaping members.now.newest ≡ true }
    ensures { result ≡ due_aside members.now.newest zeroed resync }
{
    match resync {
        None => due_between(members, zeroed),
        Some(mended) => {
            if mended < resync_stripes(members) {
                Due::Mend
            } else {
                Due::EndResync
            }
        }
    }
}

// The step that is next, by the window.
fn due_at(members: &Members, course: &Course, resync: Option<u64>) -> Due
    requires fit { AreShapesFit members.now.newest }
    requires active { is_reshaping members.now.newest ≡ true }
    requires course { IsCourseOf members.now.newest course.now }
    ensures { result ≡ due_of members.now.newest course.now resync }
{
    match course.window {
        Window::Closed | Window::Unsure { span: _ } => due_aside(members, course.zeroed, resync),
        Window::Entered {
            span,
            copied,
            sectioned: _,
        } => {
            if copied < window_stripes(members, &span) {
                Due::Copy
            } else {
                Due::Record
            }
        }
    }
}

/// The step that is next, where a resync is pending that has mended so many stripes, or none.
pub fn due_step(members: &Members, course: &Course, resync: Option<u64>) -> Due
    requires fit { AreShapesFit members.now.newest }
    requires active { is_reshaping members.now.newest ≡ true }
    requires course { IsCourseOf members.now.newest course.now }
    requires progress { IfSome resync (λ mended. mended ≤ resync_stripes members.now.newest) }
    ensures value { result ≡ due_of members.now.newest course.now resync }
    ensures ready { IsDue members.now.newest course.now resync result }
{
    due_at(members, course, resync)
}
