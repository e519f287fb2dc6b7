//! Whether a backup is that of the reshape which it is given for.

ghost use Rattle.std.specs.Prelude.{◌≡◌, ◌++◌, map, IfOk, OnOk};
ghost use Rattle.sb_specs.specs.Reading.{of_array};
ghost use Rattle.tool_warnings.specs.Looks.{superblocks_of};
ghost use Rattle.tool_warnings.specs.Backups.{newest_for, has_header, is_wrong, wrong_line, wrong_lines, wrong_if, backup_lines};

use crate::found::push_uuid;
use crate::fronts::superblock_in;
use crate::looked::Looked;
use crate::parts::{push_line, push_named};
use crate::reshapes::needs_section;
use bank_backup::decode;
use sb_codec::Sb;
use sb_election::found::{chosen_uuid, newest};
use std::alloc::{AllocError, Global};

/// The superblock in each of these slots.
pub fn superblocks(alloc: Global, slots: &[Looked]) -> Result<Vec<Option<Sb>>, AllocError>
    ensures { IfOk result (λ seen. seen.items ≡ superblocks_of slots.now) }
{
    let mut seen = Vec::with_capacity(alloc, slots.len())?;
    for looked in slots {
        seen.push(superblock_in(&looked.front))?;
    }
    Ok(seen)
}

// Those of one array among them.
fn own_of(
    alloc: Global,
    seen: &[Option<Sb>],
    uuid: &[u8; 16],
) -> Result<Vec<Option<Sb>>, AllocError>
    ensures { IfOk result (λ own. own.items ≡ map (of_array uuid.now) seen.now) }
{
    let mut own = Vec::with_capacity(alloc, seen.len())?;
    for superblock in seen {
        own.push(superblock.filter(|sb| sb.set_uuid == *uuid))?;
    }
    Ok(own)
}

/// The newest superblock of the array of this UUID, or of the first one; `None` where none of these is of it.
pub fn newest_for(
    alloc: Global,
    seen: &[Option<Sb>],
    uuid: Option<[u8; 16]>,
) -> Result<Option<Sb>, AllocError>
    ensures { IfOk result (λ found. found ≡ newest_for seen.now uuid) }
{
    match chosen_uuid(uuid, seen) {
        None => Ok(None),
        Some(uuid) => Ok(newest(&own_of(alloc, seen, &uuid)?)),
    }
}

// Whether a file begins with a header of this array, of a section or of none.
fn has_header(front: &[u8], uuid: &[u8; 16]) -> bool
    ensures { result ≡ has_header front.now uuid.now }
{
    if front.len() < 512 {
        return false;
    }
    let mut sector = [0u8; 512];
    sector.copy_from_slice(&front[..512]);
    match decode(&sector) {
        None => false,
        Some(header) => header.uuid == *uuid,
    }
}

// Whether the array needs a backup and this isn't it.
#[tactic(auto, unfolding(crate::specs::Backups::is_wrong))]
fn is_wrong(newest: &Sb, front: &[u8]) -> bool
    ensures { result ≡ is_wrong newest.now front.now }
{
    needs_section(newest) && !has_header(front, &newest.set_uuid)
}

// Appends which backup isn't that of which array.
fn push_backup_of(into: &mut Vec<u8>, path: &str, uuid: [u8; 16]) -> Result<(), AllocError>
    ensures { OnOk result (into.new.items ≡ into.old.items ++ wrong_line path.now uuid) }
{
    push_named(
        into,
        "mdgrow: the backup (",
        path,
        ") is not that of the reshape of array ",
    )?;
    push_uuid(into, uuid)?;
    into.push(b'\n')?;
    Ok(())
}

// Appends that, and what it may mean.
fn push_wrong(into: &mut Vec<u8>, path: &str, uuid: [u8; 16]) -> Result<(), AllocError>
    ensures { OnOk result (into.new.items ≡ into.old.items ++ wrong_lines path.now uuid) }
{
    push_backup_of(into, path, uuid)?;
    push_line(
        into,
        "mdgrow: where a stop left its next window half copied, ",
        "sectors of it are in the right backup alone, ",
        "and are read wrong here",
    )?;
    Ok(())
}

// Appends both lines where the array needs a backup and this isn't it.
fn push_if_wrong(into: &mut Vec<u8>, newest: &Sb, backup: &Looked) -> Result<(), AllocError>
    ensures { OnOk result (into.new.items ≡ into.old.items ++ wrong_if newest.now backup.now) }
{
    if !is_wrong(newest, &backup.front) {
        return Ok(());
    }
    push_wrong(into, backup.path.as_str(), newest.set_uuid)?;
    Ok(())
}

/// Appends two lines where the backup isn't that of the reshape which the array of this UUID, or the first one, is in, and that needs it.
pub fn push_backup(
    into: &mut Vec<u8>,
    alloc: Global,
    seen: &[Option<Sb>],
    uuid: Option<[u8; 16]>,
    backup: &Looked,
) -> Result<(), AllocError>
    ensures { OnOk result (into.new.items ≡ into.old.items ++ backup_lines (newest_for seen.now uuid) backup.now) }
{
    match newest_for(alloc, seen, uuid)? {
        None => Ok(()),
        Some(newest) => push_if_wrong(into, &newest, backup),
    }
}
