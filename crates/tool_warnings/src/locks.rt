//! Files that can't be locked.

ghost use Rattle.std.specs.Prelude.{◌≡◌, ◌++◌, OnOk};
ghost use Rattle.std.specs.List.{flat_map};
ghost use Rattle.tool_warnings.specs.Locks.{lock_line};

use crate::looked::Looked;
use crate::parts::push_line;
use std::alloc::AllocError;

// Appends that a file isn't locked, unless it is.
fn push_lock(into: &mut Vec<u8>, looked: &Looked) -> Result<(), AllocError>
    ensures { OnOk result (into.new.items ≡ into.old.items ++ lock_line looked.now) }
{
    if looked.is_locked {
        return Ok(());
    }
    push_line(
        into,
        "mdgrow: ",
        looked.path.as_str(),
        " is not locked, since its file system has no locks: nothing else may write to it now",
    )?;
    Ok(())
}

/// Appends a line for each of these files that isn't locked.
pub fn push_locks(into: &mut Vec<u8>, slots: &[Looked]) -> Result<(), AllocError>
    ensures { OnOk result (into.new.items ≡ into.old.items ++ flat_map lock_line slots.now) }
{
    for looked in slots {
        push_lock(into, looked)?;
    }
    Ok(())
}
