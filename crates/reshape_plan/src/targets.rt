//! The shape that a wish asks for in the end, and the shapes on both sides of a takeover.

ghost use Rattle.std.specs.Prelude.{◌≡◌, ◌<◌, ◌^◌, IsTrue};
ghost use Rattle.reshape_geometry.specs.raid_types_Shapes.{is_valid_shape};
ghost use Rattle.reshape_plan.specs.Plans.{as_six, as_five, wished_layout, wished_level, taken_up, before_down, target, is_same_shape};

use reshape_geometry::{Shape, Wish, WishedLayout};

/// A level 5 layout as a level 6 layout with Q on the last disk.
pub fn as_six(layout: u32) -> u32
    ensures { result ≡ as_six layout }
{
    if layout <= 4 { layout + 16 } else { layout }
}

/// A level 6 layout with Q on the last disk as a level 5 layout.
pub fn as_five(layout: u32) -> u32
    ensures { result ≡ as_five layout }
{
    if layout >= 16 { layout - 16 } else { layout }
}

/// The level that the wish names, or the present one.
pub fn wished_level(now: &Shape, wish: &Wish) -> u32
    ensures { result ≡ wished_level now.now wish.now }
{
    wish.level.unwrap_or(now.level)
}

/// The wished layout, where `kept` is what preserve means and `plain` what normalise does.
fn wished_layout(kept: u32, plain: u32, otherwise: u32, wish: &Wish) -> u32
    ensures { result ≡ wished_layout kept plain otherwise wish.now.layout }
{
    match wish.layout {
        None => otherwise,
        Some(WishedLayout::Named(layout)) => layout,
        Some(WishedLayout::Preserve) => kept,
        Some(WishedLayout::Normalise) => plain,
    }
}

/// The shape that the wish asks for in the end. It need not be within the limits.
pub fn target(now: &Shape, wish: &Wish) -> Shape
    requires { IsTrue (is_valid_shape now.now) }
    ensures { result ≡ target now.now wish.now }
{
    let level = wished_level(now, wish);
    let chunk = wish.chunk.unwrap_or(now.chunk);
    let layout = now.layout;
    let five = as_five(layout);
    if level == now.level {
        return Shape {
            level,
            layout: wished_layout(layout, five, layout, wish),
            chunk,
            disks: wish.disks.unwrap_or(now.disks),
        };
    }
    if level == 6 {
        return Shape {
            level,
            layout: wished_layout(as_six(layout), layout, layout, wish),
            chunk,
            disks: wish.disks.unwrap_or(now.disks + 1),
        };
    }
    Shape {
        level: 5,
        layout: wished_layout(five, five, five, wish),
        chunk,
        disks: wish.disks.unwrap_or(now.disks - 1),
    }
}

/// The level 6 shape that a takeover makes of a level 5 shape, with one disk more for Q.
pub fn taken_up(now: &Shape) -> Shape
    requires { IsTrue (is_valid_shape now.now) }
    ensures { result ≡ taken_up now.now }
{
    Shape {
        level: 6,
        layout: as_six(now.layout),
        chunk: now.chunk,
        disks: now.disks + 1,
    }
}

/// The level 6 shape of which a takeover makes this level 5 shape.
pub fn before_down(to: &Shape) -> Shape
    requires { to.now.disks < 2 ^ 31 }
    ensures { result ≡ before_down to.now }
{
    Shape {
        level: 6,
        layout: as_six(to.layout),
        chunk: to.chunk,
        disks: to.disks + 1,
    }
}

pub fn is_same_shape(a: &Shape, b: &Shape) -> bool
    ensures { result ≡ is_same_shape a.now b.now }
{
    a.level == b.level && a.layout == b.layout && a.chunk == b.chunk && a.disks == b.disks
}
