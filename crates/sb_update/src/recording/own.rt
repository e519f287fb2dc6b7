//! The superblocks of the slots, as they were stored.

ghost use Rattle.std.specs.Prelude.{◌≡◌, ◌<◌, ◌&&◌, ℕ, true, false, not, Some, slice_index_or, slice_set};
ghost use Rattle.sb_specs.specs.raid_types_Shapes.{has_slot};
ghost use Rattle.sb_specs.specs.sb_codec_the_Sb.{Sb};
ghost use Rattle.sb_specs.specs.sb_codec_Superblock.{sb_of};
ghost use Rattle.sb_specs.specs.sb_codec_Writable.{IsWritable};
ghost use Rattle.sb_specs.specs.Update.{planned, give_of, own_in};
ghost use Rattle.sb_specs.specs.Outcome.{IsStored, IsPlannedOwn, AreStored};

use crate::plan::planned;
use sb_specs::sets::contains;
use sb_specs::{Give, Sb, SbList, sectors_of};

// The checksum that stands in two sectors.
fn checksum_in(sectors: &[u8; 1024]) -> u32
    ensures checksum { result ≡ (sb_of sectors.now).sb_csum }
    ensures bytes { (i : ℕ) → slice_index_or sectors.now i 0 < 256 }
{
    u32::from_le_bytes([sectors[216], sectors[217], sectors[218], sectors[219]])
}

// A superblock with another checksum.
fn with_checksum(sb: &Sb, sb_csum: u32) -> Sb
    ensures { result ≡ record sb.now { sb_csum = sb_csum } }
{
    Sb { sb_csum, ..*sb }
}

// A superblock with its checksum.
fn stored(sb: &Sb) -> Sb
    requires { IsWritable sb.now }
    ensures { IsStored sb.now (Some result) }
{
    let sectors = sectors_of(sb);
    with_checksum(sb, checksum_in(&sectors))
}

// Keeps a slot's superblock as it was stored.
fn keep_slot(own: &mut SbList, newest: &Sb, give: Give, slot: u32)
    requires slot { slot < 32 }
    requires writable { (sb : Sb) × (own_in own.old slot ≡ Some sb) × IsWritable sb }
    ensures here { IsPlannedOwn newest.now give (own_in own.old slot) (own_in own.new slot) }
    ensures others { own.new ≡ slice_set own.old slot (own_in own.new slot) }
{
    let kept = match own.get(slot) {
        None => return,
        Some(sb) => stored(&planned(newest, give, sb)),
    };
    own.set(slot, Some(kept));
}

/// Keeps the superblock of each slot of a set as it was stored.
pub fn keep_own(own: &mut SbList, newest: &Sb, gives: &[Give; 32], left: u32)
    requires { (slot : ℕ) → has_slot left slot ≡ true → (sb : Sb) × (own_in own.old slot ≡ Some sb) × IsWritable sb }
    ensures own { AreStored newest.now gives.now (has_slot left) own.old own.new }
{
    for slot in 0..32u32 {
        if contains(left, slot) {
            keep_slot(own, newest, gives[slot as usize], slot);
        }
    }
}
