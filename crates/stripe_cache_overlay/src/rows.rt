//! Whole rows of a cache, laid over those that were read into one buffer.

ghost use Rattle.std.specs.Prelude.{◌≡◌, ◌*◌, ◌<◌, ◌≤◌, ℕ, length, slice_index, IsTrue};
ghost use Rattle.raid_layout.specs.raid_types_Shapes.{is_valid_shape};
ghost use Rattle.stripe_list.specs.Buffers.{buffered};
ghost use Rattle.raid_parity.specs.Rows.{IsRowOf, sector_of};
ghost use Rattle.stripe_delayed_rows.specs.stripe_cache_Rows.{held_row};
ghost use Rattle.stripe_delayed_rows.specs.stripe_cache_Apart.{IsCache};
ghost use Rattle.stripe_cache_overlay.specs.Overlaid.{IsOver, AreSameRows, HasRowsOf};

use raid_layout::{Shape, Side};
use stripe_delayed_rows::Cache;

/// The bytes that each row has in the buffer: room for 16 sectors.
const ROW_BYTES: usize = 8192;

// Lays a row over the one that was read, if the cache holds it.
fn overlay_row(cache: &mut Cache, side: Side, shape: &Shape, row: u64, into: &mut [u8])
    requires size { IsRowOf shape.now.disks into.old }
    requires cache { IsCache cache.old }
    requires rows { HasRowsOf side shape.now cache.old }
    ensures over { (role : ℕ) → role < shape.now.disks → IsOver (held_row side row cache.old) role (sector_of into.old role) (sector_of into.new role) }
    ensures same { AreSameRows cache.old cache.new }
{
    let _found = cache.look(side, row, into);
}

/// Lays the rows that the cache holds over those that were read into the buffer, each into its part.
pub fn overlay_rows(cache: &mut Cache, side: Side, shape: &Shape, rows: &[u64], buffer: &mut [u8])
    requires shape { IsTrue (is_valid_shape shape.now) }
    requires buffer { 8192 * length rows.now ≤ length buffer.old }
    requires cache { IsCache cache.old }
    requires rows { HasRowsOf side shape.now cache.old }
    ensures over { (i role : ℕ) → i < length rows.now → role < shape.now.disks
        → IsOver (held_row side (slice_index rows.now i) cache.old) role (buffered buffer.old i role) (buffered buffer.new i role) }
    ensures same { AreSameRows cache.old cache.new }
{
    let len = 512 * shape.disks as usize;
    for i in 0..rows.len() {
        let part = &mut buffer[ROW_BYTES * i..ROW_BYTES * i + len];
        overlay_row(cache, side, shape, rows[i], part);
    }
}
