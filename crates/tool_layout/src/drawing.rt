//! The picture.

ghost use Rattle.std.specs.Prelude.{◌≡◌, ◌++◌, ◌<◌, OnOk, IsTrue};
ghost use Rattle.std.specs.List.{flat_map};
ghost use Rattle.raid_types.specs.Shapes.{is_valid_shape};
ghost use Rattle.tool_layout.specs.Cells.{cell_text, padded, stripe_line};

use crate::cells::{Cell, cells_of};
use raid_layout::Shape;
use std::alloc::{AllocError, Global};

// Appends a text of at most eight bytes in a column of eight.
fn push_padded(into: &mut Vec<u8>, text: &str) -> Result<(), AllocError>
    ensures { OnOk result (into.new.items ≡ into.old.items ++ padded text.now) }
{
    let missing = 8usize.saturating_sub(text.len());
    for _place in 0..missing {
        into.push(b' ')?;
    }
    into.extend_from_slice(text.as_bytes())?;
    Ok(())
}

// Appends what stands at a role.
fn push_cell(into: &mut Vec<u8>, chunk: u32, cell: Cell) -> Result<(), AllocError>
    requires { 0 < chunk }
    ensures { OnOk result (into.new.items ≡ into.old.items ++ padded (cell_text chunk cell)) }
{
    match cell {
        Cell::P => push_padded(into, "P"),
        Cell::Q => push_padded(into, "Q"),
        Cell::Data(sector) => {
            let mut buffer = itoa::Buffer::new();
            push_padded(into, buffer.format(sector / u64::from(chunk)))
        }
    }
}

// Appends what stands at each role.
fn push_cells(into: &mut Vec<u8>, chunk: u32, cells: &[Cell]) -> Result<(), AllocError>
    requires { 0 < chunk }
    ensures { OnOk result (into.new.items ≡ into.old.items ++ flat_map (λ cell. padded (cell_text chunk cell)) cells.now) }
{
    for cell in cells {
        push_cell(into, chunk, *cell)?;
    }
    Ok(())
}

// Appends the line of a stripe.
fn push_stripe(
    into: &mut Vec<u8>,
    chunk: u32,
    stripe: u64,
    cells: &[Cell],
) -> Result<(), AllocError>
    requires { 0 < chunk }
    ensures { OnOk result (into.new.items ≡ into.old.items ++ stripe_line chunk stripe cells.now) }
{
    let mut buffer = itoa::Buffer::new();
    push_padded(into, buffer.format(stripe))?;
    push_cells(into, chunk, cells)?;
    into.push(b'\n')?;
    Ok(())
}

// Appends a heading over the columns: the numbers of the disks.
fn push_heading(into: &mut Vec<u8>, disks: u32) -> Result<(), AllocError> {
    push_padded(into, "disk")?;
    for disk in 0..disks {
        let mut buffer = itoa::Buffer::new();
        push_padded(into, buffer.format(disk))?;
    }
    into.push(b'\n')?;
    Ok(())
}

/// A line for each of the first stripes, so many as there are disks; parity has come round by then. Each shows what stands at each role.
pub fn picture(alloc: Global, shape: &Shape) -> Result<Vec<u8>, AllocError>
    requires { IsTrue (is_valid_shape shape.now) }
{
    let mut text = Vec::new(alloc);
    push_heading(&mut text, shape.disks)?;
    for stripe in 0..u64::from(shape.disks) {
        let cells = cells_of(alloc, shape, stripe * u64::from(shape.chunk))?;
        push_stripe(&mut text, shape.chunk, stripe, &cells)?;
    }
    Ok(text)
}
