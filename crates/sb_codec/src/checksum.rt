//! The superblock's checksum.

ghost use Rattle.std.specs.Prelude.{◌≡◌, ◌+◌, ◌*◌, ◌%◌, ◌^◌, ◌<◌, ◌≤◌, length};
ghost use Rattle.raid_types.specs.Bytes.{field};
ghost use Rattle.sb_codec.specs.Superblock.{word_sum, checksum};

use crate::fields::u32_at;
use byteorder::{ByteOrder, LittleEndian};

/// The checksum that these two sectors should have, whatever stands in the place of it.
pub fn checksum_of(sectors: &[u8; 1024]) -> u32
    requires { field sectors.now 220 4 ≤ 384 }
    ensures { result ≡ checksum sectors.now }
{
    let covered = 256 + 2 * u32_at(sectors, 220) as usize;
    let sum = sum_words(&sectors[..216]) + sum_words(&sectors[220..covered]);
    ((sum % 0x1_0000_0000 + sum / 0x1_0000_0000) % 0x1_0000_0000) as u32
}

/// The sum of the bytes as numbers of four bytes each; a last half is added as it stands.
fn sum_words(bytes: &[u8]) -> u64
    requires even { length bytes.now % 2 ≡ 0 }
    requires short { length bytes.now ≤ 1024 }
    ensures sum { result ≡ word_sum bytes.now }
    ensures bound { result < 2 ^ 48 }
{
    let mut sum = 0;
    for word in bytes.chunks_exact(4) {
        sum += u64::from(LittleEndian::read_u32(word));
    }
    let half = &bytes[bytes.len() - bytes.len() % 4..];
    if half.is_empty() {
        sum
    } else {
        sum + u64::from(LittleEndian::read_u16(half))
    }
}
