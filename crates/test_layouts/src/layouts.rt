//! The layouts against a table that was written out from their rules, and against arrays that Linux md made.

ghost use Rattle.std.specs.Prelude.{◌≡◌, ◌<◌, IsTrue};
ghost use Rattle.raid_types.specs.Shapes.{is_valid_shape};

use raid_layout::{at, parity_only, place, row_of};
use raid_types::{Place, RowRoles, Shape};
use reshape_geometry::limits::is_valid_shape;
use std::process::Abort;

/// The layouts of both levels, each with its level.
pub const LAYOUTS: [(u32, u32); 17] = [
    (5, 0),
    (5, 1),
    (5, 2),
    (5, 3),
    (5, 4),
    (5, 5),
    (6, 0),
    (6, 1),
    (6, 2),
    (6, 3),
    (6, 4),
    (6, 5),
    (6, 16),
    (6, 17),
    (6, 18),
    (6, 19),
    (6, 20),
];

// Ten stripes over 5 disks as they are drawn, of each of these layouts: for each role P, Q or the number of its data.
const DRAWN: [[u8; 59]; 17] = [
    // level 5, the layouts 0 to 5
    *b"0123P 012P3 01P23 0P123 P0123 0123P 012P3 01P23 0P123 P0123",
    *b"P0123 0P123 01P23 012P3 0123P P0123 0P123 01P23 012P3 0123P",
    *b"0123P 123P0 23P01 3P012 P0123 0123P 123P0 23P01 3P012 P0123",
    *b"P0123 3P012 23P01 123P0 0123P P0123 3P012 23P01 123P0 0123P",
    *b"P0123 P0123 P0123 P0123 P0123 P0123 P0123 P0123 P0123 P0123",
    *b"0123P 0123P 0123P 0123P 0123P 0123P 0123P 0123P 0123P 0123P",
    // level 6, the layouts 0 to 5
    *b"Q012P 012PQ 01PQ2 0PQ12 PQ012 Q012P 012PQ 01PQ2 0PQ12 PQ012",
    *b"PQ012 0PQ12 01PQ2 012PQ Q012P PQ012 0PQ12 01PQ2 012PQ Q012P",
    *b"Q012P 012PQ 12PQ0 2PQ01 PQ012 Q012P 012PQ 12PQ0 2PQ01 PQ012",
    *b"PQ012 2PQ01 12PQ0 012PQ Q012P PQ012 2PQ01 12PQ0 012PQ Q012P",
    *b"PQ012 PQ012 PQ012 PQ012 PQ012 PQ012 PQ012 PQ012 PQ012 PQ012",
    *b"012PQ 012PQ 012PQ 012PQ 012PQ 012PQ 012PQ 012PQ 012PQ 012PQ",
    // level 6, the layouts 16 to 20
    *b"012PQ 01P2Q 0P12Q P012Q 012PQ 01P2Q 0P12Q P012Q 012PQ 01P2Q",
    *b"P012Q 0P12Q 01P2Q 012PQ P012Q 0P12Q 01P2Q 012PQ P012Q 0P12Q",
    *b"012PQ 12P0Q 2P01Q P012Q 012PQ 12P0Q 2P01Q P012Q 012PQ 12P0Q",
    *b"P012Q 2P01Q 12P0Q 012PQ P012Q 2P01Q 12P0Q 012PQ P012Q 2P01Q",
    *b"P012Q P012Q P012Q P012Q P012Q P012Q P012Q P012Q P012Q P012Q",
];

// Sectors of arrays that mdadm 4.2 made under Linux 6.1 and then filled, of each of these layouts, each found on a member and in a
// row by its contents.
const FOUND: [[(u16, u16, u64); 6]; 17] = [
    // level 5, the layouts 0 to 5
    [
        (59, 4, 11),
        (106, 2, 26),
        (510, 3, 126),
        (523, 1, 131),
        (734, 4, 182),
        (953, 4, 233),
    ],
    [
        (231, 0, 63),
        (321, 1, 81),
        (504, 4, 120),
        (761, 4, 185),
        (779, 1, 195),
        (960, 1, 240),
    ],
    [
        (26, 3, 2),
        (208, 1, 48),
        (443, 0, 107),
        (510, 3, 126),
        (572, 1, 140),
        (835, 4, 211),
    ],
    [
        (147, 2, 35),
        (284, 2, 68),
        (326, 1, 86),
        (372, 4, 92),
        (797, 3, 197),
        (911, 0, 231),
    ],
    [
        (3, 1, 3),
        (10, 2, 2),
        (259, 1, 67),
        (270, 2, 70),
        (428, 2, 108),
        (441, 4, 105),
    ],
    [
        (339, 2, 83),
        (340, 2, 84),
        (407, 2, 103),
        (419, 0, 107),
        (592, 2, 144),
        (642, 0, 162),
    ],
    // level 6, the layouts 0 to 5
    [
        (22, 3, 6),
        (186, 4, 58),
        (201, 3, 65),
        (305, 4, 97),
        (392, 1, 128),
        (707, 3, 235),
    ],
    [
        (66, 4, 18),
        (149, 0, 53),
        (169, 0, 57),
        (270, 0, 94),
        (369, 3, 121),
        (424, 4, 136),
    ],
    [
        (3, 1, 3),
        (308, 1, 100),
        (339, 2, 115),
        (600, 1, 200),
        (610, 2, 202),
        (617, 3, 201),
    ],
    [
        (67, 1, 19),
        (317, 0, 109),
        (346, 2, 114),
        (363, 2, 123),
        (694, 2, 230),
        (724, 2, 244),
    ],
    [
        (189, 4, 61),
        (313, 2, 105),
        (323, 3, 107),
        (483, 2, 163),
        (492, 3, 164),
        (713, 4, 233),
    ],
    [
        (23, 2, 7),
        (58, 1, 18),
        (180, 1, 60),
        (262, 2, 86),
        (721, 0, 241),
        (767, 2, 255),
    ],
    // level 6, the layouts 16 to 20
    [
        (18, 2, 2),
        (366, 1, 126),
        (374, 2, 126),
        (413, 0, 141),
        (428, 3, 140),
        (562, 2, 186),
    ],
    [
        (9, 2, 1),
        (47, 3, 15),
        (385, 1, 129),
        (463, 0, 159),
        (592, 3, 192),
        (724, 0, 244),
    ],
    [
        (121, 3, 41),
        (185, 3, 57),
        (201, 1, 65),
        (251, 3, 83),
        (473, 3, 153),
        (638, 3, 214),
    ],
    [
        (256, 1, 80),
        (352, 1, 112),
        (363, 0, 123),
        (473, 2, 153),
        (524, 0, 172),
        (537, 0, 177),
    ],
    [
        (37, 2, 13),
        (110, 2, 38),
        (302, 2, 102),
        (376, 3, 120),
        (603, 1, 203),
        (766, 3, 254),
    ],
];

// A role's sectors in ten stripes; its letters stand six apart.
fn compare_role(rt: &impl Abort, shape: &Shape, role: u32, drawn: &[u8; 59])
    requires valid { IsTrue (is_valid_shape shape.now) }
    requires disks { shape.now.disks ≡ 5 }
    requires role { role < 5 }
{
    let data = if shape.level == 6 { 3 } else { 4 };
    let mut has_data = false;
    for stripe in 0..10u64 {
        let row = stripe * 8 + 3;
        let found = at(shape, role, row);
        match drawn[stripe as usize * 6 + role as usize] {
            b'P' => assert!(rt;
                row_of(shape, row).p == role && found.is_none(),
                "{shape:?} {row}"
            ),
            b'Q' => assert!(rt;
                row_of(shape, row).q == Some(role) && found.is_none(),
                "{shape:?} {row}"
            ),
            index => {
                has_data = true;
                let x = (stripe * data + index.saturating_sub(b'0') as u64) * 8 + 3;
                assert!(rt; found == Some(x), "{shape:?} {role} {row}");
                assert!(rt; place(shape, x) == Place { role, row }, "{shape:?} {x}");
            }
        }
    }
    assert!(rt; parity_only(shape, role) != has_data, "{shape:?} {role}");
}

// The shape of a level and a layout over 5 disks.
fn shape_of(rt: &impl Abort, level: u32, layout: u32) -> Shape
    ensures valid { IsTrue (is_valid_shape result) }
    ensures disks { result.disks ≡ 5 }
{
    let shape = Shape {
        level,
        layout,
        chunk: 8,
        disks: 5,
    };
    assert!(rt; is_valid_shape(&shape));
    shape
}

fn compare_drawn(rt: &impl Abort, level: u32, layout: u32, drawn: &[u8; 59]) {
    let shape = shape_of(rt, level, layout);
    for role in 0..5u32 {
        compare_role(rt, &shape, role, drawn);
    }
}

fn compare_found(rt: &impl Abort, level: u32, layout: u32, found: &[(u16, u16, u64); 6]) {
    let shape = shape_of(rt, level, layout);
    for (x, role, row) in found {
        let wanted = Place {
            role: *role as u32,
            row: *row,
        };
        assert!(rt; place(&shape, *x as u64) == wanted, "{shape:?} {x}");
    }
}

// Each layout against both tables.
fn compare_layouts(
    rt: &impl Abort,
    layouts: &[(u32, u32); 17],
    drawn: &[[u8; 59]; 17],
    found: &[[(u16, u16, u64); 6]; 17],
) {
    for i in 0..17usize {
        let (level, layout) = layouts[i];
        compare_drawn(rt, level, layout, &drawn[i]);
        compare_found(rt, level, layout, &found[i]);
    }
}

#[test]
fn sectors_have_their_places(rt: HostRuntime) {
    compare_layouts(&rt, &LAYOUTS, &DRAWN, &FOUND);
    // left-symmetric over four disks
    let shape = Shape {
        level: 5,
        layout: 2,
        chunk: 8,
        disks: 4,
    };
    assert!(rt; place(&shape, 24) == Place { role: 3, row: 8 });
    assert!(rt;
        row_of(&shape, 8)
            == RowRoles {
                disks: 4,
                p: 2,
                q: None
            }
    );
}
