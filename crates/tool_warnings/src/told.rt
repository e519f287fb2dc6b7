//! All that people are warned of before a run.

ghost use Rattle.std.specs.Prelude.{◌≡◌, ◌++◌, true, OnOk};
ghost use Rattle.std.specs.Option.{option_copied};
ghost use Rattle.script.specs.Script.{script_with};
ghost use Rattle.tool_warnings.specs.Looks.{superblocks_of};
ghost use Rattle.tool_warnings.specs.Warnings.{backup_told, line_warnings, script_warnings};

use crate::backups::{push_backup, superblocks};
use crate::lines::{Opening, first_opening};
use crate::looked::Looked;
use crate::overwritten::{own_array, push_overwritten};
use sb_codec::Sb;
use sb_election::found::chosen_uuid;
use script::{Numbered, ScriptFault, read_script_with_blocks};
use std::alloc::{AllocError, Global};

// Appends what is told of the backup, where the array that is opened first is found and not made.
fn push_backup_told(
    into: &mut Vec<u8>,
    alloc: Global,
    seen: &[Option<Sb>],
    opening: Option<Opening>,
    backup: Option<&Looked>,
) -> Result<(), AllocError>
    ensures { OnOk result (into.new.items ≡ into.old.items ++ backup_told seen.now opening (option_copied backup.entry)) }
{
    match (opening, backup) {
        (Some(Opening::Found(uuid)), Some(backup)) => push_backup(into, alloc, seen, uuid, backup),
        _ => Ok(()),
    }
}

// Appends what is told before these lines are performed.
fn push_line_warnings(
    into: &mut Vec<u8>,
    alloc: Global,
    lines: &[Numbered],
    slots: &[Looked],
    backup: Option<&Looked>,
) -> Result<(), AllocError>
    ensures { OnOk result (into.new.items ≡ into.old.items ++ line_warnings lines.now slots.now (option_copied backup.entry)) }
{
    let seen = superblocks(alloc, slots)?;
    let opening = first_opening(lines);
    let own = own_array(opening, chosen_uuid(None, &seen));
    push_overwritten(into, lines, own, slots)?;
    push_backup_told(into, alloc, &seen, opening, backup)?;
    Ok(())
}

/// Appends the lines that warn of what a script is about to do to these slots: it writes over a member of an array or over something else,
/// or the reshape that it goes on with needs another backup. A script with a bad line does nothing.
pub fn push_warnings(
    into: &mut Vec<u8>,
    alloc: Global,
    text: &[u8],
    slots: &[Looked],
    backup: Option<&Looked>,
) -> Result<(), AllocError>
    ensures { OnOk result (into.new.items ≡ into.old.items ++ script_warnings (script_with true text.now) slots.now (option_copied backup.entry)) }
{
    match read_script_with_blocks(alloc, text) {
        Ok(lines) => push_line_warnings(into, alloc, &lines, slots, backup),
        Err(ScriptFault::BadLine(_)) => Ok(()),
        Err(ScriptFault::NoMemory) => Err(AllocError),
    }
}
