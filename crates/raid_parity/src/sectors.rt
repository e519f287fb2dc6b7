//! Single sectors of a row.
ghost use Rattle.std.specs.Prelude.{◌≡◌, ◌≢◌, ℕ, ◌+◌, ◌*◌, ◌<◌, ◌≤◌, length, slice_index};
ghost use Rattle.std.specs.Int.Bits.{bit_xor};
ghost use Rattle.raid_gf256.specs.Field.{double, product};
ghost use Rattle.raid_parity.specs.Rows.{sector_of, byte_of};

use raid_gf256::{double_of, mul};

pub(crate) const SECTOR: usize = 512;

/// The sector of a role.
pub(crate) fn sector(row: &[u8], role: u32) -> &[u8]
    requires { 512 * role + 512 ≤ length row.now }
    ensures { result.now ≡ sector_of row.now role }
{
    let at = SECTOR * role as usize;
    &row[at..at + SECTOR]
}

/// Sets the sector of a role.
pub(crate) fn put_sector(row: &mut [u8], role: u32, from: &[u8])
    requires whole { length from.now ≡ 512 }
    requires within { 512 * role + 512 ≤ length row.old }
    ensures there { (at : ℕ) → at < 512 → byte_of row.new role at ≡ slice_index from.now at }
    ensures others { (other at : ℕ) → at < 512 → other ≢ role → byte_of row.new other at ≡ byte_of row.old other at }
{
    let start = SECTOR * role as usize;
    for at in 0..SECTOR {
        row[start + at] = from[at];
    }
}

/// Adds a sector.
pub(crate) fn add_sector(sum: &mut [u8], sector: &[u8])
    requires sum { length sum.old ≡ 512 }
    requires sector { length sector.now ≡ 512 }
    ensures { (at : ℕ) → at < 512 → slice_index sum.new at ≡ bit_xor (slice_index sum.old at) (slice_index sector.now at) }
{
    for at in 0..SECTOR {
        sum[at] ^= sector[at];
    }
}

/// Adds a sector, to the one sum as it is and to the other after this is doubled.
pub(crate) fn add_to_both(plain: &mut [u8], weighed: &mut [u8], sector: &[u8])
    requires plain { length plain.old ≡ 512 }
    requires weighed { length weighed.old ≡ 512 }
    requires sector { length sector.now ≡ 512 }
    ensures plain { (at : ℕ) → at < 512 → slice_index plain.new at ≡ bit_xor (slice_index plain.old at) (slice_index sector.now at) }
    ensures weighed { (at : ℕ) → at < 512 → slice_index weighed.new at ≡ bit_xor (double (slice_index weighed.old at)) (slice_index sector.now at) }
{
    for at in 0..SECTOR {
        let byte = sector[at];
        plain[at] ^= byte;
        weighed[at] = double_of(weighed[at]) ^ byte;
    }
}

/// The sum of two sectors, each times a factor.
pub(crate) fn combination(left: &[u8], left_factor: u8, right: &[u8], right_factor: u8) -> [u8; 512]
    requires left { length left.now ≡ 512 }
    requires right { length right.now ≡ 512 }
    ensures { (at : ℕ) → at < 512 → slice_index result at ≡ bit_xor (product left_factor (slice_index left.now at)) (product right_factor (slice_index right.now at)) }
{
    let mut sum = [0; 512];
    for at in 0..SECTOR {
        sum[at] = mul(left_factor, left[at]) ^ mul(right_factor, right[at]);
    }
    sum
}
