//! What a stored reshape is refused for.

ghost use Rattle.std.specs.Prelude.{◌≡◌, ◌+◌, ◌<◌, ◌≤◌, ◌&&◌, length, nat_le, slice_index, false, Some, None, IfSome};
ghost use Rattle.std.specs.Option.{option_map_or};
ghost use Rattle.array_found_laws.specs.raid_types_Shapes.{has_slot};
ghost use Rattle.array_found_laws.specs.sb_specs_Reading.{target_of};
ghost use Rattle.array_found_laws.specs.sb_specs_Verdict.{AreValidShapes};
ghost use Rattle.sb_add_spare.specs.history_Stands.{reach_of, backup_absent};
ghost use Rattle.array_create_assemble.specs.Looking.{lengths_scope};

use array_found_laws::{Refusal, Shape};
use sb_election::{Sb, contains, list_length, shape_of, target_of, unit};

// Whether the backup is there, and has room behind its header for so many sectors.
fn has_room(backup: Option<u32>, given: u32, lengths: &[u64], sectors: u128) -> bool
    requires slots { length lengths.now ≤ 32 }
    requires backup { IfSome backup (λ slot. slot < length lengths.now) }
    ensures { result ≡ option_map_or (λ slot. has_slot given slot && nat_le (8 + sectors) (slice_index lengths.now slot)) backup false }
{
    match backup {
        None => false,
        Some(slot) => {
            let length = u128::from(lengths[slot as usize]);
            contains(given, slot) && length >= 8 && sectors <= length - 8
        }
    }
}

// The sectors that a window of this reshape has at most.
fn reach(newest: &Sb, target: &Shape) -> u128
    requires shapes { AreValidShapes newest.now }
    requires target { target_of newest.now ≡ Some target.now }
    ensures { result ≡ reach_of newest.now }
{
    let unit = u128::from(unit(&shape_of(newest), target));
    unit.min(list_length(newest))
}

/// The refusal of an active reshape whose backup isn't there or is too short for a window. The given slots are those that
/// are there, each of which has a length in sectors.
pub fn backup_refusal(
    newest: &Sb,
    backup: Option<u32>,
    given: u32,
    lengths: &[u64],
) -> Option<Refusal>
    requires shapes { AreValidShapes newest.now }
    requires slots { length lengths.now ≤ 32 }
    requires backup { IfSome backup (λ slot. slot < length lengths.now) }
    ensures { result ≡ backup_absent (lengths_scope backup given lengths.now) newest.now }
{
    let target = match target_of(newest) {
        None => return None,
        Some(target) => target,
    };
    if has_room(backup, given, lengths, reach(newest, &target)) {
        None
    } else {
        Some(Refusal::BackupAbsent)
    }
}
