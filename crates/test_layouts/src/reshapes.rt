//! Reshapes whose units, windows and steps were worked out by hand.

use raid_types::{Shape, Side};
use reshape_geometry::limits::are_in_force;
use reshape_geometry::{is_critical, list_end, side, steps_of, unit, window};
use std::process::Abort;

const FOUR: Shape = Shape {
    level: 5,
    layout: 2,
    chunk: 8,
    disks: 4,
};

const FOUR_RIGHT: Shape = Shape {
    level: 5,
    layout: 3,
    chunk: 8,
    disks: 4,
};

const FIVE: Shape = Shape {
    level: 5,
    layout: 2,
    chunk: 8,
    disks: 5,
};

const SIX_SMALL: Shape = Shape {
    level: 5,
    layout: 2,
    chunk: 128,
    disks: 6,
};

const SIX_LARGE: Shape = Shape {
    level: 5,
    layout: 2,
    chunk: 1024,
    disks: 6,
};

const FIVE_PQ: Shape = Shape {
    level: 6,
    layout: 2,
    chunk: 8,
    disks: 5,
};

const SIX_PQ: Shape = Shape {
    level: 6,
    layout: 2,
    chunk: 8,
    disks: 6,
};

const SIXTEEN: Shape = Shape {
    level: 5,
    layout: 0,
    chunk: 1024,
    disks: 16,
};

const FIFTEEN: Shape = Shape {
    level: 5,
    layout: 0,
    chunk: 1024,
    disks: 15,
};

/// The old and the new shape, the size, backward or not, and the position.
type Place = (Shape, Shape, u64, bool, u64);

/// The unit; the next window, and whether it is critical; and the steps that are left.
type Wanted = (u64, Option<(u64, u64, bool)>, u64);

const CASES: [(Place, Wanted); 20] = [
    // Three critical windows and one that isn't, then four zeroed stripes and the end.
    ((FOUR, FIVE, 128, false, 0), (96, Some((0, 96, true)), 25)),
    (
        (FOUR, FIVE, 128, false, 96),
        (96, Some((96, 192, true)), 20),
    ),
    (
        (FOUR, FIVE, 128, false, 192),
        (96, Some((192, 288, true)), 15),
    ),
    (
        (FOUR, FIVE, 128, false, 288),
        (96, Some((288, 384, false)), 10),
    ),
    ((FOUR, FIVE, 128, false, 384), (96, None, 5)),
    // A last window of less than a unit.
    ((FOUR, FIVE, 40, false, 0), (96, Some((0, 96, true)), 10)),
    ((FOUR, FIVE, 40, false, 96), (96, Some((96, 120, false)), 5)),
    // Off the unit, a stripe is copied in two windows.
    (
        (FOUR, FIVE, 128, false, 40),
        (96, Some((40, 136, true)), 27),
    ),
    // Backward.
    (
        (FIVE, FOUR, 128, true, 384),
        (96, Some((288, 384, false)), 25),
    ),
    (
        (FIVE, FOUR, 128, true, 288),
        (96, Some((192, 288, true)), 19),
    ),
    (
        (FIVE, FOUR, 128, true, 100),
        (96, Some((96, 100, false)), 10),
    ),
    ((FIVE, FOUR, 128, true, 0), (96, None, 1)),
    // Another layout, another chunk.
    (
        (FOUR, FOUR_RIGHT, 48, false, 0),
        (24, Some((0, 24, true)), 19),
    ),
    (
        (FOUR, FOUR_RIGHT, 48, true, 144),
        (24, Some((120, 144, true)), 19),
    ),
    (
        (SIX_SMALL, SIX_LARGE, 4096, false, 0),
        (5120, Some((0, 5120, true)), 13),
    ),
    (
        (SIX_SMALL, SIX_LARGE, 4096, false, 15360),
        (5120, Some((15360, 20480, true)), 4),
    ),
    (
        (FIVE_PQ, SIX_PQ, 48, false, 0),
        (96, Some((0, 96, true)), 11),
    ),
    (
        (FIVE_PQ, SIX_PQ, 48, false, 96),
        (96, Some((96, 144, true)), 6),
    ),
    // The largest unit, and the largest size.
    (
        (SIXTEEN, FIFTEEN, 1024, true, 14336),
        (215040, Some((0, 14336, true)), 4),
    ),
    (
        (FOUR, FIVE, 0x1_0000_0000_0000, false, 0),
        (96, Some((0, 96, true)), 0x3000_0000_0001),
    ),
];

fn compare(rt: &impl Abort, (old, new, size, back, position): Place, (units, next, steps): Wanted) {
    assert!(rt; are_in_force(&old, &new, size));
    assert!(rt; position <= list_end(&old, &new, size));
    assert!(rt; unit(&old, &new) == units);
    assert!(rt; steps_of(&old, &new, size, back, position) == steps);
    let found = match window(&old, &new, size, back, position) {
        None => None,
        Some(span) => Some((span.lo, span.hi, is_critical(&old, &new, size, back, &span))),
    };
    assert!(rt; found == next);
}

#[test]
fn worked_reshapes(rt: HostRuntime) {
    for (place, wanted) in &CASES {
        compare(&rt, *place, *wanted);
    }
    assert!(rt; side(false, 96, 95) == Side::New && side(false, 96, 96) == Side::Old);
    assert!(rt; side(true, 96, 95) == Side::Old && side(true, 96, 96) == Side::New);
}
