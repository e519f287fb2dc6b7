//! What an update plans for each slot.

ghost use Rattle.std.specs.Prelude.{◌≡◌, ◌++◌, take, drop};
ghost use Rattle.sb_specs.specs.Update.{with_shared, with_recovery, with_give, planned};

use sb_specs::{Features, Give, Sb};

const SHARED_BITS: u32 = 4 + 32;

/// A superblock with the fields of the array and of its reshape, and the clean mark, of another.
pub fn with_shared(shared: &Sb, own: &Sb) -> Sb
    ensures { result ≡ with_shared shared.now own.now }
{
    Sb {
        feature_map: own.feature_map & !SHARED_BITS | shared.feature_map & SHARED_BITS,
        level: shared.level,
        layout: shared.layout,
        size: shared.size,
        chunksize: shared.chunksize,
        raid_disks: shared.raid_disks,
        bitmap_offset: shared.bitmap_offset,
        new_level: shared.new_level,
        reshape_position: shared.reshape_position,
        delta_disks: shared.delta_disks,
        new_layout: shared.new_layout,
        new_chunk: shared.new_chunk,
        new_offset: shared.new_offset,
        resync_offset: shared.resync_offset,
        ..*own
    }
}

// Bit 2 and the recovery offset, or neither.
fn with_recovery(recovery: Option<u64>, sb: Sb) -> Sb
    ensures { result ≡ with_recovery recovery sb }
{
    match recovery {
        Some(offset) => Sb {
            feature_map: sb.feature_map | Features::RECOVERY_OFFSET.0,
            recovery_offset: offset,
            ..sb
        },
        None => Sb {
            feature_map: sb.feature_map & !Features::RECOVERY_OFFSET.0,
            recovery_offset: 0,
            ..sb
        },
    }
}

// The newest's first 128 role entries, and the slot's own behind them.
fn entries(newest: &[u16; 384], own: &[u16; 384]) -> [u16; 384]
    ensures { result ≡ take 128 newest.now ++ drop 128 own.now }
{
    let mut entries = *own;
    entries[..128].copy_from_slice(&newest[..128]);
    entries
}

/// What a slot gets: the newest's shared fields, event count and first 128 role entries; all else is its own.
pub fn planned(newest: &Sb, give: Give, own: &Sb) -> Sb
    ensures { result ≡ planned newest.now give own.now }
{
    let sb = Sb {
        events: newest.events,
        dev_roles: entries(&newest.dev_roles, &own.dev_roles),
        ..with_shared(newest, own)
    };
    match give {
        Give::Role { recovery, .. } => with_recovery(recovery, sb),
        Give::Same | Give::Spare => sb,
    }
}
