//! The two regions of the list, and the windows between them.

ghost use Rattle.std.specs.Prelude.{◌≡◌, ◌≤◌, ◌<◌, ◌^◌, ◌↔◌, IsTrue, IsNone, IfSome};
ghost use Rattle.raid_types.specs.Shapes.{is_valid_shape, stripe_sectors};
ghost use Rattle.reshape_geometry.specs.Geometry.{AreInForce, IsWindowAt, unit, list_end, final_position, side, window, ceiling, rows, meets, is_critical};

use crate::shapes::{list_end, stripe_sectors};
use crate::units::unit;
use raid_types::{Shape, Side, Span};

/// The side of a sector `x`: forward what lies below the position is new, backward what lies at or above it.
pub fn side(back: bool, position: u64, x: u64) -> Side
    ensures { result ≡ side back position x }
{
    let is_new = if back { position <= x } else { x < position };
    if is_new { Side::New } else { Side::Old }
}

/// The next window from a position: up to one unit. None at the end forward, at 0 backward.
pub fn window(old: &Shape, new: &Shape, size: u64, back: bool, position: u64) -> Option<Span>
    requires in_force { AreInForce old.now new.now size }
    requires within { position ≤ list_end old.now new.now size }
    ensures value { result ≡ window old.now new.now size back position }
    ensures last { IsNone result ↔ (position ≡ final_position old.now new.now size back) }
    ensures next { IfSome result (IsWindowAt old.now new.now size back position) }
{
    let unit = unit(old, new);
    if back {
        if position == 0 {
            return None;
        }
        let lo = (position - 1) / unit * unit;
        return Some(Span { lo, hi: position });
    }
    let end = list_end(old, new, size);
    if end <= position {
        return None;
    }
    let hi = end.min(position + unit);
    Some(Span { lo: position, hi })
}

/// Whether the new rows of a window meet rows on which old sectors still live, when the window is begun.
pub fn is_critical(old: &Shape, new: &Shape, size: u64, back: bool, span: &Span) -> bool
    requires in_force { AreInForce old.now new.now size }
    requires filled { span.now.lo < span.now.hi }
    requires inside { span.now.hi ≤ list_end old.now new.now size }
    ensures { result ≡ is_critical old.now new.now size back span.now }
{
    let written = rows(new, span.lo, span.hi);
    let live = if back {
        rows(old, 0, span.hi)
    } else {
        rows(old, span.lo, list_end(old, new, size))
    };
    meets(&written, &live)
}

/// The rows of the stripes that the sectors from `lo` up to `hi` touch.
fn rows(shape: &Shape, lo: u64, hi: u64) -> Span
    requires valid { IsTrue (is_valid_shape shape.now) }
    requires short { lo ≤ hi }
    requires inside { hi ≤ 2 ^ 53 }
    ensures { result ≡ rows shape.now lo hi }
{
    let stripe = stripe_sectors(shape);
    let chunk = u64::from(shape.chunk);
    Span {
        lo: lo / stripe * chunk,
        hi: hi.div_ceil(stripe) * chunk,
    }
}

fn meets(a: &Span, b: &Span) -> bool
    ensures { result ≡ meets a.now b.now }
{
    a.lo.max(b.lo) < a.hi.min(b.hi)
}
