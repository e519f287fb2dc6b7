//! The window of a reshape, by how far that has come, and which sectors of the list lie in it.

ghost use Rattle.std.specs.Prelude.{◌≡◌, ◌↔◌, ◌<◌, ◌≤◌, ℕ, true, false, Some};
ghost use Rattle.reshape_progress.specs.reshape_geometry_Geometry.{IsIn};
ghost use Rattle.reshape_progress.specs.history_Stands.{covers};
ghost use Rattle.reshape_progress.specs.Course.{hidden_in};
ghost use Rattle.array_reshaping_state.specs.Due.{open_in, unsure_in};

use array_call_specs::Span;
use reshape_progress::{Course, Window};

/// The span of the window that is entered.
pub fn open_span(course: &Course) -> Option<Span>
    ensures { result ≡ open_in course.now.window }
{
    match course.window {
        Window::Entered {
            span,
            copied: _,
            sectioned: _,
        } => Some(span),
        Window::Closed | Window::Unsure { span: _ } => None,
    }
}

/// The span whose sectors are had from the buffer alone: that of an entered window whose section is stored.
pub fn backed_up_span(course: &Course) -> Option<Span>
    ensures { result ≡ hidden_in course.now.window }
{
    match course.window {
        Window::Entered {
            span,
            copied: _,
            sectioned,
        } => { if sectioned { Some(span) } else { None } }
        Window::Closed | Window::Unsure { span: _ } => None,
    }
}

/// The span of the next window, where the backup may name its section or not.
pub fn uncertain_span(course: &Course) -> Option<Span>
    ensures { result ≡ unsure_in course.now.window }
{
    match course.window {
        Window::Unsure { span } => Some(span),
        Window::Closed => None,
        Window::Entered {
            span: _,
            copied: _,
            sectioned: _,
        } => None,
    }
}

// The sectors from `from` up to `to` that lie in this span; an empty part, at `from`, where none does.
fn part_of(span: &Span, from: u64, to: u64) -> Span
    ensures begins { from ≤ result.lo }
    ensures order { result.lo ≤ result.hi }
    ensures ends { from ≤ to → result.hi ≤ to }
    ensures sectors { (x : ℕ) → IsIn x result ↔ ((from ≤ x) × (x < to) × (covers (Some span.now) x ≡ true)) }
{
    let lo = span.lo.max(from);
    let hi = span.hi.min(to);
    if hi <= lo {
        return Span { lo: from, hi: from };
    }
    Span { lo, hi }
}

/// The sectors from `from` up to `to` that lie in the span, if there is one; an empty part, at `from`, where none does.
pub fn part_in(span: Option<Span>, from: u64, to: u64) -> Span
    ensures begins { from ≤ result.lo }
    ensures order { result.lo ≤ result.hi }
    ensures ends { from ≤ to → result.hi ≤ to }
    ensures sectors { (x : ℕ) → IsIn x result ↔ ((from ≤ x) × (x < to) × (covers span x ≡ true)) }
{
    match span {
        None => Span { lo: from, hi: from },
        Some(span) => part_of(&span, from, to),
    }
}

/// Whether some of the sectors from `from` up to `to` lie in the span.
pub fn meets(span: Option<Span>, from: u64, to: u64) -> bool
    ensures yes { result ≡ true → (x : ℕ) × (from ≤ x) × (x < to) × (covers span x ≡ true) }
    ensures no { result ≡ false → (x : ℕ) → from ≤ x → x < to → covers span x ≡ false }
{
    let part = part_in(span, from, to);
    part.lo < part.hi
}
