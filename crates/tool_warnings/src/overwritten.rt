//! The slots that a script is about to write over.

ghost use Rattle.std.specs.Prelude.{◌≡◌, ◌++◌, OnOk};
ghost use Rattle.std.specs.List.{flat_map};
ghost use Rattle.tool_warnings.specs.Overwriting.{own_array, is_of, is_told, line_if, slot_line};

use crate::found::{Found, found_in, push_found};
use crate::lines::{Opening, disks_made, is_added};
use crate::looked::Looked;
use script::Numbered;
use std::alloc::AllocError;

/// The array that a script opens first, where this is the first one that the slots have.
pub fn own_array(opening: Option<Opening>, first: Option<[u8; 16]>) -> Option<[u8; 16]>
    ensures { result ≡ own_array opening first }
{
    match opening {
        Some(Opening::Made(uuid)) => Some(uuid),
        Some(Opening::Found(Some(uuid))) => Some(uuid),
        Some(Opening::Found(None)) => first,
        None => None,
    }
}

fn is_of(own: Option<[u8; 16]>, found: Found) -> bool
    ensures { result ≡ is_of own found }
{
    match (own, found) {
        (Some(own), Found::Member(uuid)) => uuid == own,
        _ => false,
    }
}

// Whether it is told what a slot holds: it is written over by the first `create`, or it is added and holds no member of the script's own array.
fn is_told(lines: &[Numbered], own: Option<[u8; 16]>, slot: u64, found: Found) -> bool
    ensures { result ≡ is_told lines.now own slot found }
{
    slot < u64::from(disks_made(lines)) || (is_added(lines, slot) && !is_of(own, found))
}

// Appends what is told of a slot that holds this.
fn push_told(
    into: &mut Vec<u8>,
    lines: &[Numbered],
    own: Option<[u8; 16]>,
    looked: &Looked,
    found: Found,
) -> Result<(), AllocError>
    ensures { OnOk result (into.new.items ≡ into.old.items ++ line_if lines.now own looked.now found) }
{
    if !is_told(lines, own, looked.slot, found) {
        return Ok(());
    }
    push_found(into, looked.slot, looked.path.as_str(), found)?;
    Ok(())
}

// Appends what is told of a slot.
fn push_slot(
    into: &mut Vec<u8>,
    lines: &[Numbered],
    own: Option<[u8; 16]>,
    looked: &Looked,
) -> Result<(), AllocError>
    ensures { OnOk result (into.new.items ≡ into.old.items ++ slot_line lines.now own looked.now) }
{
    match found_in(&looked.front) {
        None => Ok(()),
        Some(found) => push_told(into, lines, own, looked, found),
    }
}

/// Appends a line for each of these slots that the script is about to write over and that holds something which may not be the script's own.
pub fn push_overwritten(
    into: &mut Vec<u8>,
    lines: &[Numbered],
    own: Option<[u8; 16]>,
    slots: &[Looked],
) -> Result<(), AllocError>
    ensures { OnOk result (into.new.items ≡ into.old.items ++ flat_map (slot_line lines.now own) slots.now) }
{
    for looked in slots {
        push_slot(into, lines, own, looked)?;
    }
    Ok(())
}
