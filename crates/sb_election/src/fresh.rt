//! The slots whose superblocks are fresh: at most one event behind the newest.

ghost use Rattle.std.specs.Prelude.{◌≡◌, ◌≤◌, length, slice_index, IfOk};
ghost use Rattle.sb_specs.specs.Reading.{is_spare, lies_within, spares_from};
ghost use Rattle.sb_specs.specs.Verdict.{fresh_from};

use sb_specs::says::{entry_of, is_fresh, is_recovering};
use sb_specs::{Sb, SlotList};
use std::alloc::{AllocError, Global};

/// The fresh superblocks, each with its slot's length in sectors.
pub fn fresh(
    alloc: Global,
    newest: &Sb,
    own: &[Option<Sb>],
    lengths: &[u64],
) -> Result<Vec<(Sb, u64)>, AllocError>
    requires { length own.now ≤ length lengths.now }
    ensures { IfOk result (λ slots. slots.items ≡ fresh_from newest.now (slice_index lengths.now) 0 own.now) }
{
    let mut slots = Vec::new(alloc);
    for (slot, superblock) in own.iter().enumerate() {
        if let Some(sb) = superblock {
            if is_fresh(newest, sb) {
                slots.push((*sb, lengths[slot]))?;
            }
        }
    }
    Ok(slots)
}

/// The slots of the spares.
pub fn spares(
    alloc: Global,
    newest: &Sb,
    own: &[Option<Sb>],
    lengths: &[u64],
) -> Result<SlotList, AllocError>
    requires few { length own.now ≤ 32 }
    requires lengths { length own.now ≤ length lengths.now }
    ensures { IfOk result (λ slots. slots ≡ spares_from newest.now (slice_index lengths.now) 0 own.now) }
{
    let mut slots = SlotList::new(alloc)?;
    for (slot, superblock) in own.iter().enumerate() {
        if let Some(sb) = superblock {
            if is_spare(newest, lengths[slot], sb) {
                slots.push(slot as u32);
            }
        }
    }
    Ok(slots)
}

// Whether a slot of this length with this superblock is a spare.
fn is_spare(newest: &Sb, sectors: u64, sb: &Sb) -> bool
    ensures { result ≡ is_spare newest.now sectors sb.now }
{
    is_fresh(newest, sb)
        && !is_recovering(sb)
        && sb.dev_number < 128
        && entry_of(newest, sb.dev_number) == 0xffff
        && lies_within(newest, sectors, sb)
}

/// Whether the array's data lies within a slot of this length, at the offset that its superblock gives.
pub fn lies_within(newest: &Sb, sectors: u64, sb: &Sb) -> bool
    ensures { result ≡ lies_within newest.now sectors sb.now }
{
    sb.data_offset >= 10 && sb.data_offset <= sectors && newest.size <= sectors - sb.data_offset
}
