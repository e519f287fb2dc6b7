//! What a cache holds of a list, laid over what was read of it.

ghost use Rattle.std.specs.Prelude.{◌≡◌, ◌≢◌, ◌+◌, ◌*◌, ◌/◌, ◌^◌, ◌<◌, ◌≤◌, ℕ, length, IfSome, IsTrue, MatchOption, Option};
ghost use Rattle.raid_layout.specs.raid_types_Sectors.{IsWhole};
ghost use Rattle.raid_layout.specs.raid_types_Shapes.{is_valid_shape};
ghost use Rattle.raid_layout.specs.Layout.{place};
ghost use Rattle.raid_parity.specs.Rows.{sector_of};
ghost use Rattle.stripe_delayed_rows.specs.stripe_cache_Rows.{held_row};
ghost use Rattle.stripe_delayed_rows.specs.stripe_cache_Apart.{IsCache};
ghost use Rattle.stripe_cache_overlay.specs.Overlaid.{IsOver, AreSameRows, HasRowsOf};

use raid_layout::{Shape, Side, place};
use stripe_delayed_rows::Cache;

// Copies one sector of many into its place in others.
fn copy_sector(from: &[u8], at: usize, into: &mut [u8], index: usize)
    requires at { 512 * at + 512 ≤ length from.now }
    requires index { 512 * index + 512 ≤ length into.old }
    ensures here { sector_of into.new index ≡ sector_of from.now at }
    ensures others { (i : ℕ) → i ≢ index → sector_of into.new i ≡ sector_of into.old i }
{
    into[512 * index..512 * index + 512].copy_from_slice(&from[512 * at..512 * at + 512]);
}

// Lays the sector that the cache holds of the list over the one that was read, if it holds its row.
fn overlay_sector(
    cache: &mut Cache,
    side: Side,
    shape: &Shape,
    x: u64,
    into: &mut [u8],
    index: usize,
    scratch: &mut [u8],
)
    requires shape { IsTrue (is_valid_shape shape.now) }
    requires short { x < 2 ^ 53 }
    requires index { 512 * index + 512 ≤ length into.old }
    requires scratch { 8192 ≤ length scratch.old }
    requires cache { IsCache cache.old }
    requires rows { HasRowsOf side shape.now cache.old }
    ensures over { IsOver (held_row side (place shape.now x).row cache.old) (place shape.now x).role (sector_of into.old index) (sector_of into.new index) }
    ensures others { (i : ℕ) → i ≢ index → sector_of into.new i ≡ sector_of into.old i }
    ensures same { AreSameRows cache.old cache.new }
{
    let at = place(shape, x);
    let row = &mut scratch[..512 * shape.disks as usize];
    let found = cache.look(side, at.row, row);
    if !found {
        return;
    }
    copy_sector(row, at.role as usize, into, index);
}

/// Lays the sectors of the rows that the cache holds over those that were read of a list, from `first` on.
pub fn overlay_sectors(
    cache: &mut Cache,
    side: Side,
    shape: &Shape,
    first: u64,
    into: &mut [u8],
    scratch: &mut [u8],
)
    requires shape { IsTrue (is_valid_shape shape.now) }
    requires short { first + length into.old / 512 < 2 ^ 53 }
    requires scratch { 8192 ≤ length scratch.old }
    requires cache { IsCache cache.old }
    requires rows { HasRowsOf side shape.now cache.old }
    ensures over { (i : ℕ) → i < length into.old / 512 → IsOver (held_row side (place shape.now (first + i)).row cache.old) (place shape.now (first + i)).role (sector_of into.old i) (sector_of into.new i) }
    ensures same { AreSameRows cache.old cache.new }
{
    let count = into.len() / 512;
    for i in 0..count {
        overlay_sector(cache, side, shape, first + i as u64, into, i, scratch);
    }
}
