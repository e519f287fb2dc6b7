//! What a SEED writes.

ghost use Rattle.std.specs.Prelude.{◌≡◌, ◌+◌, ◌≤◌, ◌^◌, IfOk};
ghost use Rattle.script.specs.Seeds.{seed_sector, seeded};

use history::Sectors;
use script_words::counted_sector;
use std::alloc::{AllocError, Global};

/// The 512 bytes that `seed` writes into sector `x`.
pub fn seed_contents(seed: u32, x: u64) -> [u8; 512]
    ensures { result ≡ seed_sector seed x }
{
    let first = ((u64::from(seed) + x % 256) % 256) as u8;
    let mut sector = counted_sector(first);
    sector[..4].copy_from_slice(&seed.to_le_bytes());
    sector[4..8].copy_from_slice(&((x % 0x1_0000_0000) as u32).to_le_bytes());
    sector
}

/// The contents of the `count` sectors from `at` on under `seed`.
pub fn seed_sectors(alloc: Global, at: u64, count: u32, seed: u32) -> Result<Sectors, AllocError>
    requires { at + count ≤ 2 ^ 64 }
    ensures { IfOk result (λ s. s ≡ seeded seed at count) }
{
    let mut bytes = Vec::new(alloc);
    for k in 0..count {
        bytes.extend_from_slice(&seed_contents(seed, at + u64::from(k)))?;
    }
    Ok(Sectors::from_bytes(bytes))
}
