//! The array's superblocks among those that were found, and the newest of them.

ghost use Rattle.std.specs.Prelude.{◌≡◌, map};
ghost use Rattle.std.specs.Option.{option_copied, option_or};
ghost use Rattle.sb_specs.specs.Reading.{uuid_of_first, of_array, newer, newest_of};

use sb_specs::{Sb, SbList};

// The uuid of the first superblock.
fn first_uuid(seen: &[Option<Sb>]) -> Option<[u8; 16]>
    ensures { result ≡ uuid_of_first seen.now }
{
    for superblock in seen {
        if let Some(sb) = superblock {
            return Some(sb.set_uuid);
        }
    }
    None
}

/// The given uuid, or else that of the first superblock.
pub fn chosen_uuid(given: Option<[u8; 16]>, seen: &[Option<Sb>]) -> Option<[u8; 16]>
    ensures { result ≡ option_or given (uuid_of_first seen.now) }
{
    match given {
        Some(uuid) => Some(uuid),
        None => first_uuid(seen),
    }
}

/// Leaves the superblocks of one array.
pub fn keep_array(found: &mut SbList, uuid: &[u8; 16])
    ensures { found.new ≡ map (of_array uuid.now) found.old }
{
    let count = found.as_slice().len() as u32;
    for slot in 0..count {
        let own = of_array(uuid, found.get(slot));
        found.set(slot, own);
    }
}

fn of_array(uuid: &[u8; 16], found: Option<&Sb>) -> Option<Sb>
    ensures { result ≡ of_array uuid.now (option_copied found.entry) }
{
    match found {
        Some(sb) if sb.set_uuid == *uuid => Some(*sb),
        _ => None,
    }
}

/// The newest superblock: the one with the most events, on the lowest slot that has them.
pub fn newest(own: &[Option<Sb>]) -> Option<Sb>
    ensures { result ≡ newest_of own.now }
{
    let mut newest: Option<Sb> = None;
    for slot in (0..own.len()).rev() {
        if let Some(sb) = &own[slot] {
            newest = Some(newer(sb, newest));
        }
    }
    newest
}

// The one with more events, and the first of two equals.
fn newer(sb: &Sb, other: Option<Sb>) -> Sb
    ensures { result ≡ newer sb.now other }
{
    match other {
        Some(other) if sb.events < other.events => other,
        _ => *sb,
    }
}
