//! What stands at each role in a stripe.

ghost use Rattle.std.specs.Prelude.{◌≡◌, ℕ, ◌<◌, ◌^◌, length, slice_index_or, IfOk, IsTrue};
ghost use Rattle.raid_types.specs.Shapes.{is_valid_shape};
ghost use Rattle.tool_layout.specs.Cells.{IsCell};

use raid_layout::{Shape, at, row_of};
use std::alloc::{AllocError, Global};

/// A row's parity, or this sector of the list.
#[derive(Clone, Copy, Debug, PartialEq, Eq)]
pub enum Cell {
    P,
    Q,
    Data(u64),
}

// What stands at a role in a row.
fn cell_of(shape: &Shape, row: u64, role: u32) -> Cell
    requires shape { IsTrue (is_valid_shape shape.now) }
    requires role { role < shape.now.disks }
    requires early { row < 2 ^ 53 }
    ensures { IsCell shape.now row role result }
{
    match at(shape, role, row) {
        Some(sector) => Cell::Data(sector),
        None => {
            if row_of(shape, row).p == role {
                Cell::P
            } else {
                Cell::Q
            }
        }
    }
}

/// What stands at each role in a row.
pub fn cells_of(alloc: Global, shape: &Shape, row: u64) -> Result<Vec<Cell>, AllocError>
    requires shape { IsTrue (is_valid_shape shape.now) }
    requires early { row < 2 ^ 53 }
    ensures all { IfOk result (λ cells. length cells.items ≡ shape.now.disks) }
    ensures each { IfOk result (λ cells. (role : ℕ) (none : Cell) → role < shape.now.disks → IsCell shape.now row role (slice_index_or cells.items role none)) }
{
    let mut cells = Vec::new(alloc);
    for role in 0..shape.disks {
        cells.push(cell_of(shape, row, role))?;
    }
    Ok(cells)
}
