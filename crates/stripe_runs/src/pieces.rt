//! Sectors of the flat list that stand on one role, in rows one behind the other.

ghost use Rattle.std.specs.Prelude.{◌≡◌, ◌+◌, ◌*◌, ◌/◌, ◌^◌, ◌<◌, ◌≤◌, ℕ, min, IsTrue};
ghost use Rattle.raid_layout.specs.raid_types_Shapes.{is_valid_shape};
ghost use Rattle.raid_layout.specs.Layout.{place};

use raid_layout::{Shape, place};

/// `count` sectors of the flat list from sector `x` on: they stand on one role, in rows one behind the other from `row` on.
#[derive(Clone, Copy, Debug, PartialEq, Eq)]
pub struct Piece {
    pub x: u64,
    pub role: u32,
    pub row: u64,
    pub count: u64,
}

/// The sectors of the list from `x` on that lie in its chunk, and before sector `to`.
pub fn piece_at(shape: &Shape, x: u64, to: u64) -> Piece
    requires shape { IsTrue (is_valid_shape shape.now) }
    requires some { x < to }
    requires short { to ≤ 2 ^ 53 }
    ensures x { result.x ≡ x }
    ensures places { (j : ℕ) → j < result.count → place shape.now (x + j) ≡ record { role = result.role; row = result.row + j } }
    ensures some { 0 < result.count }
    ensures end { x + result.count ≡ min to (x / shape.now.chunk * shape.now.chunk + shape.now.chunk) }
{
    let at = place(shape, x);
    let chunk = shape.chunk as u64;
    let left = chunk - x % chunk;
    Piece {
        x,
        role: at.role,
        row: at.row,
        count: left.min(to - x),
    }
}
