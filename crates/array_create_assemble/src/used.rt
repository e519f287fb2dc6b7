//! Slots that can't be written: those that hold the array already, and those that failed.

ghost use Rattle.std.specs.Prelude.{◌≡◌, ◌≤◌, ◌<◌, ◌&&◌, ℕ, true, false, None, nat_le, is_some, slice_index_or, IfSome, IfNone};
ghost use Rattle.std.specs.Option.{option_copied};
ghost use Rattle.array_found_laws.specs.raid_types_Search.{least_below};
ghost use Rattle.array_found_laws.specs.raid_types_Shapes.{has_slot};
ghost use Rattle.array_found_laws.specs.sb_specs_Reading.{of_array};

use sb_election::{Sb, SbList, contains};

// Whether it is a superblock of the array.
fn is_of_array(uuid: &[u8; 16], found: Option<&Sb>) -> bool
    ensures { result ≡ is_some (of_array uuid.now (option_copied found.entry)) }
{
    match found {
        None => false,
        Some(sb) => sb.set_uuid == *uuid,
    }
}

/// The lowest slot from `first` on, and below `slots`, that has a superblock of the array with this uuid.
pub fn used_slot(seen: &SbList, uuid: &[u8; 16], first: u32, slots: u32) -> Option<u32>
    requires { slots ≤ 32 }
    ensures { result ≡ least_below slots (λ s. nat_le first s && is_some (of_array uuid.now (slice_index_or seen.now s None))) }
{
    for slot in first..slots {
        if is_of_array(uuid, seen.get(slot)) {
            return Some(slot);
        }
    }
    None
}

/// The lowest slot of the set.
pub fn first_slot(set: u32) -> Option<u32>
    ensures some { IfSome result (λ slot. has_slot set slot ≡ true) }
    ensures none { IfNone result ((s : ℕ) → s < 32 → has_slot set s ≡ false) }
{
    for slot in 0..32u32 {
        if contains(set, slot) {
            return Some(slot);
        }
    }
    None
}
