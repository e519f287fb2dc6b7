//! One row of the new shape, made of the window's sectors.

ghost use Rattle.std.specs.Prelude.{◌≡◌, ◌≢◌, ◌+◌, ◌-◌, ◌*◌, ◌^◌, ◌<◌, ◌≤◌, ℕ, true, false, length, IsTrue};
ghost use Rattle.raid_layout.specs.raid_types_the_Span.{Span};
ghost use Rattle.raid_layout.specs.raid_types_Sectors.{Sector, zero_sector};
ghost use Rattle.raid_layout.specs.raid_types_Shapes.{is_valid_shape};
ghost use Rattle.raid_layout.specs.Layout.{row_roles};
ghost use Rattle.reshape_begin_end.specs.reshape_geometry_Geometry.{IsIn};
ghost use Rattle.reshape_begin_end.specs.raid_parity_Rows.{IsRowOf, sector_of};
ghost use Rattle.reshape_begin_end.specs.stripe_row_Writes.{is_parity};
ghost use Rattle.reshape_begin_end.specs.stripe_list_Full.{full_sector};
ghost use Rattle.reshape_window_rows.specs.Copies.{IsRoomFor, IsCopied, IsOwnRow, HasFullData};

use raid_layout::{Shape, Span, at};

// Whether the sector is one of the window.
fn contains(span: &Span, x: u64) -> bool
    ensures inside { result ≡ true → IsIn x span.now }
    ensures outside { result ≡ false → ¬ IsIn x span.now }
{
    span.lo <= x && x < span.hi
}

/// Copies one sector of many into its place in others.
pub fn copy_sector(from: &[u8], at: usize, into: &mut [u8], index: usize)
    requires at { 512 * at + 512 ≤ length from.now }
    requires index { 512 * index + 512 ≤ length into.old }
    ensures here { sector_of into.new index ≡ sector_of from.now at }
    ensures others { (i : ℕ) → i ≢ index → sector_of into.new i ≡ sector_of into.old i }
{
    into[512 * index..512 * index + 512].copy_from_slice(&from[512 * at..512 * at + 512]);
}

// Makes one sector of many zeros.
fn clear_sector(into: &mut [u8], index: usize)
    requires index { 512 * index + 512 ≤ length into.old }
    ensures here { sector_of into.new index ≡ zero_sector }
    ensures others { (i : ℕ) → i ≢ index → sector_of into.new i ≡ sector_of into.old i }
{
    into[512 * index..512 * index + 512].copy_from_slice(&[0; 512]);
}

// Puts the sector of the list that has its place at this role of a row there: one of the window from the buffer, and zeros
// for one that isn't. A parity role stays as it is.
fn put_role(shape: &Shape, span: &Span, buffer: &[u8], row: u64, role: u32, into: &mut [u8])
    requires shape { IsTrue (is_valid_shape shape.now) }
    requires row { row < 2 ^ 53 }
    requires role { role < shape.now.disks }
    requires buffer { IsRoomFor span.now buffer.now }
    requires whole { IsRowOf shape.now.disks into.old }
    ensures full { (tail : Span) (list : ℕ → Sector) → IsOwnRow shape.now span.now tail row → IsCopied span.now buffer.now tail list
        → is_parity (row_roles shape.now row) role ≡ false → sector_of into.new role ≡ full_sector shape.now list row role }
    ensures others { (r : ℕ) → r ≢ role → sector_of into.new r ≡ sector_of into.old r }
{
    let Some(x) = at(shape, role, row) else {
        return;
    };
    if contains(span, x) {
        let index = (x - span.lo) as usize;
        copy_sector(buffer, index, into, role as usize);
    } else {
        clear_sector(into, role as usize);
    }
}

/// Makes a row of the shape from the window's sectors, which lie in the buffer one after the other: each data role gets the
/// sector of the list that has its place there, or zeros where that is none of the window. The parity isn't made.
pub fn window_row(shape: &Shape, span: &Span, buffer: &[u8], row: u64, into: &mut [u8])
    requires shape { IsTrue (is_valid_shape shape.now) }
    requires row { row < 2 ^ 53 }
    requires buffer { IsRoomFor span.now buffer.now }
    requires whole { IsRowOf shape.now.disks into.old }
    ensures full { (tail : Span) (list : ℕ → Sector) → IsOwnRow shape.now span.now tail row → IsCopied span.now buffer.now tail list → HasFullData shape.now list row into.new }
{
    for role in 0..shape.disks {
        put_role(shape, span, buffer, row, role, into);
    }
}
