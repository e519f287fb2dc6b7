//! Plans and refusals that were worked out by hand.

use raid_types::{Phase, Plan, Refusal, Shape, ShapeField, Wish, WishedLayout};
use reshape_geometry::limits::{is_size, is_valid_shape};
use reshape_plan::{plan, plan_steps};
use std::process::Abort;

/// Level, layout, chunk and disks.
type Row = (u32, u32, u32, u32);

/// The wished level, disks, chunk and layout.
type Asked = (Option<u32>, Option<u32>, Option<u32>, Option<WishedLayout>);

/// What is done on the way to a shape.
#[derive(Clone, Copy)]
enum Way {
    Reshape,
    UpTo6,
    DownTo5,
}

/// A phase by its kind and the shape that it leads to.
type Leg = (Way, Row);

/// The present shape and size, and the wish; the phases; and spares, span, least, and steps in all.
type Planned = ((Row, u64, Asked), (Leg, Option<Leg>), (u32, u64, u64, u64));

const FOUR: Row = (5, 2, 8, 4);

const FIVE: Row = (5, 2, 8, 5);

const FOUR_AND_Q: Row = (6, 18, 8, 5);

const FIVE_PQ: Row = (6, 2, 8, 5);

const SIX_PQ: Row = (6, 2, 8, 6);

const PLANNED: [Planned; 13] = [
    // One disk more, at three sizes.
    (
        (FOUR, 128, (None, Some(5), None, None)),
        ((Way::Reshape, FIVE), None),
        (1, 96, 384, 26),
    ),
    (
        (FOUR, 40, (None, Some(5), None, None)),
        ((Way::Reshape, FIVE), None),
        (1, 96, 120, 11),
    ),
    (
        (
            FOUR,
            256,
            (Some(5), Some(5), None, Some(WishedLayout::Normalise)),
        ),
        ((Way::Reshape, FIVE), None),
        (1, 96, 768, 50),
    ),
    // One disk less.
    (
        (FIVE, 128, (None, Some(4), None, None)),
        ((Way::Reshape, FOUR), None),
        (0, 96, 384, 26),
    ),
    // Another layout, another chunk.
    (
        (FOUR, 48, (None, None, None, Some(WishedLayout::Named(3)))),
        ((Way::Reshape, (5, 3, 8, 4)), None),
        (0, 24, 144, 20),
    ),
    (
        ((5, 2, 128, 6), 4096, (None, None, Some(1024), None)),
        ((Way::Reshape, (5, 2, 1024, 6)), None),
        (0, 5120, 20480, 14),
    ),
    (
        ((5, 2, 1024, 3), 4096, (None, Some(4), None, None)),
        ((Way::Reshape, (5, 2, 1024, 4)), None),
        (1, 6144, 8192, 10),
    ),
    // Level 5 to 6: a takeover alone, one with a layout to mend, and one with two disks more.
    (
        (
            FOUR,
            40,
            (Some(6), Some(5), None, Some(WishedLayout::Preserve)),
        ),
        ((Way::UpTo6, FOUR_AND_Q), None),
        (1, 0, 120, 7),
    ),
    (
        (
            FOUR,
            40,
            (Some(6), Some(5), None, Some(WishedLayout::Normalise)),
        ),
        ((Way::UpTo6, FOUR_AND_Q), Some((Way::Reshape, FIVE_PQ))),
        (1, 24, 120, 24),
    ),
    (
        (FOUR, 40, (Some(6), Some(6), None, None)),
        ((Way::UpTo6, FOUR_AND_Q), Some((Way::Reshape, SIX_PQ))),
        (2, 96, 120, 18),
    ),
    // Level 6 to 5: a takeover alone, and behind a reshape that puts Q on the last disk.
    (
        (FOUR_AND_Q, 40, (Some(5), None, None, None)),
        ((Way::DownTo5, FOUR), None),
        (0, 0, 120, 1),
    ),
    (
        (FIVE_PQ, 40, (Some(5), None, None, None)),
        ((Way::Reshape, FOUR_AND_Q), Some((Way::DownTo5, FOUR))),
        (0, 24, 120, 18),
    ),
    (
        (FIVE_PQ, 48, (None, Some(6), None, None)),
        ((Way::Reshape, SIX_PQ), None),
        (1, 96, 144, 12),
    ),
];

const REFUSED: [((Row, u64, Asked), Refusal); 14] = [
    ((FOUR, 128, (None, None, None, None)), Refusal::SameShape),
    (
        (
            FOUR,
            128,
            (Some(5), Some(4), Some(8), Some(WishedLayout::Preserve)),
        ),
        Refusal::SameShape,
    ),
    (
        (FOUR, 128, (Some(4), None, None, None)),
        Refusal::BadShape(ShapeField::Level),
    ),
    (
        (
            FOUR,
            128,
            (Some(7), Some(99), Some(12), Some(WishedLayout::Named(9))),
        ),
        Refusal::BadShape(ShapeField::Level),
    ),
    (
        (
            FOUR,
            128,
            (None, Some(99), Some(12), Some(WishedLayout::Named(16))),
        ),
        Refusal::BadShape(ShapeField::Layout),
    ),
    (
        (
            FOUR_AND_Q,
            40,
            (Some(5), None, None, Some(WishedLayout::Named(18))),
        ),
        Refusal::BadShape(ShapeField::Layout),
    ),
    (
        (FOUR, 128, (None, Some(99), Some(12), None)),
        Refusal::BadShape(ShapeField::Chunk),
    ),
    (
        (FOUR, 128, (None, Some(17), None, None)),
        Refusal::BadShape(ShapeField::Disks),
    ),
    (
        (FOUR, 128, (Some(6), Some(4), Some(256), None)),
        Refusal::BadShape(ShapeField::Disks),
    ),
    (
        ((5, 2, 8, 2), 128, (Some(6), Some(4), None, None)),
        Refusal::BadShape(ShapeField::Disks),
    ),
    (
        ((5, 2, 8, 16), 128, (Some(6), None, None, None)),
        Refusal::BadShape(ShapeField::Disks),
    ),
    (
        (FIVE_PQ, 40, (Some(5), Some(4294967295), None, None)),
        Refusal::BadShape(ShapeField::Disks),
    ),
    (
        (FOUR, 40, (None, None, Some(16), None)),
        Refusal::SizeNotMultiple(40, 16),
    ),
    (
        (FOUR, 40, (Some(6), None, Some(16), None)),
        Refusal::SizeNotMultiple(40, 16),
    ),
];

fn shape((level, layout, chunk, disks): Row) -> Shape {
    Shape {
        level,
        layout,
        chunk,
        disks,
    }
}

fn wish((level, disks, chunk, layout): Asked) -> Wish {
    Wish {
        level,
        disks,
        chunk,
        layout,
    }
}

fn phase((way, row): Leg) -> Phase {
    match way {
        Way::Reshape => Phase::Reshape(shape(row)),
        Way::UpTo6 => Phase::UpTo6(shape(row)),
        Way::DownTo5 => Phase::DownTo5(shape(row)),
    }
}

// What is planned, or why nothing is.
fn planned(rt: &impl Abort, now: &Shape, size: u64, asked: Asked) -> Result<(Plan, u64), Refusal> {
    assert!(rt; is_valid_shape(now) && now.chunk > 0);
    assert!(rt; is_size(size, now.chunk));
    let found = plan(now, size, &wish(asked))?;
    let steps = plan_steps(now, size, &found);
    Ok((found, steps))
}

fn compare(
    rt: &impl Abort,
    (row, size, asked): (Row, u64, Asked),
    (first, second): (Leg, Option<Leg>),
    (spares, span, least, steps): (u32, u64, u64, u64),
) {
    let wanted = Plan {
        first: phase(first),
        second: second.map(phase),
        spares,
        span,
        least,
    };
    assert!(rt; planned(rt, &shape(row), size, asked) == Ok((wanted, steps)));
}

#[test]
fn worked_plans(rt: HostRuntime) {
    for (given, phases, numbers) in &PLANNED {
        compare(&rt, *given, *phases, *numbers);
    }
    for ((row, size, asked), refusal) in &REFUSED {
        assert!(rt; planned(&rt, &shape(*row), *size, *asked) == Err(*refusal));
    }
}
