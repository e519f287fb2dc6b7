//! Which slot had a role that was lost.

ghost use Rattle.std.specs.Prelude.{◌≡◌, ◌++◌, ◌&&◌, false, OnOk};
ghost use Rattle.std.specs.Option.{option_copied, option_map_or};
ghost use Rattle.tool_warnings.specs.Fronts.{superblock_at};
ghost use Rattle.tool_warnings.specs.Held.{had_role, has_lost, slot_words, holder_words, words_for};

use crate::fronts::superblock_in;
use crate::looked::Looked;
use crate::parts::{push_named, push_numbered};
use sb_codec::Sb;
use sb_specs::says::entry_of;
use std::alloc::AllocError;

// A device that is faulty by the newest superblock.
const FAULTY: u16 = 0xfffe;

// Whether a device had this role by its own superblock, and is faulty by the newest.
fn had_role(newest: &Sb, role: u32, sb: &Sb) -> bool
    ensures { result ≡ had_role newest.now role sb.now }
{
    sb.set_uuid == newest.set_uuid
        && entry_of(newest, sb.dev_number) == FAULTY
        && u32::from(entry_of(sb, sb.dev_number)) == role
}

// Whether the slot had the role and has lost it.
fn has_lost(newest: &Sb, role: u32, looked: &Looked) -> bool
    ensures { result ≡ has_lost newest.now role looked.now }
{
    match superblock_in(&looked.front) {
        None => false,
        Some(sb) => had_role(newest, role, &sb),
    }
}

// Appends which slot it is.
fn push_slot(into: &mut Vec<u8>, slot: u64, path: &str) -> Result<(), AllocError>
    ensures { OnOk result (into.new.items ≡ into.old.items ++ slot_words slot path.now) }
{
    push_numbered(into, ": slot ", slot)?;
    push_named(into, " (", path, ") had it")?;
    Ok(())
}

// Appends the first slot that had the role of an array, whose newest superblock this is, and has lost it; nothing where none is known.
fn push_loser(
    into: &mut Vec<u8>,
    slots: &[Looked],
    newest: &Sb,
    role: u32,
) -> Result<(), AllocError>
    ensures { OnOk result (into.new.items ≡ into.old.items ++ holder_words newest.now role slots.now) }
{
    for looked in slots {
        if has_lost(newest, role, looked) {
            return push_slot(into, looked.slot, looked.path.as_str());
        }
    }
    Ok(())
}

/// Appends which slot had a role that an array has lost, as the superblocks tell it: the first one whose own superblock says the role, while
/// the array's newest one says that the slot's device is faulty. Nothing is appended where there is none.
pub fn push_holder(
    into: &mut Vec<u8>,
    slots: &[Looked],
    newest: Option<&Sb>,
    role: u32,
) -> Result<(), AllocError>
    ensures { OnOk result (into.new.items ≡ into.old.items ++ words_for (option_copied newest.entry) role slots.now) }
{
    match newest {
        None => Ok(()),
        Some(newest) => push_loser(into, slots, newest, role),
    }
}
