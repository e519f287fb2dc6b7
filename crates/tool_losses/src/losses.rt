//! Which roles and spares were lost, in lines.

ghost use Rattle.std.specs.Prelude.{◌≡◌, ◌++◌, OnOk};
ghost use Rattle.std.specs.Option.{option_copied};
ghost use Rattle.tool_losses.specs.Losses.{lost_by, role_lost, role_line, loss_line, loss_lines};

use crate::lines::{push_around, push_line};
use history::{Entries, Event, LostCause};
use std::alloc::AllocError;
use tool_warnings::{Looked, Sb, push_holder};

// How a role was lost, in words.
fn lost_by(cause: LostCause) -> &'static str
    ensures { result.now ≡ lost_by cause }
{
    match cause {
        LostCause::Absent => " has no member",
        LostCause::Recovering => " is not rebuilt yet",
        LostCause::Command => " was failed by command",
        LostCause::Fault => " failed",
    }
}

// Appends how a role was lost.
fn push_cause(into: &mut Vec<u8>, role: u32, cause: LostCause) -> Result<(), AllocError>
    ensures { OnOk result (into.new.items ≡ into.old.items ++ role_lost role cause) }
{
    push_around(into, "mdgrow: role ", u64::from(role), lost_by(cause))
}

// Appends how a role was lost, and which of these slots had it.
fn push_role(
    into: &mut Vec<u8>,
    role: u32,
    cause: LostCause,
    slots: &[Looked],
    newest: Option<&Sb>,
) -> Result<(), AllocError>
    ensures { OnOk result (into.new.items ≡ into.old.items ++ role_line slots.now (option_copied newest.entry) role cause) }
{
    push_cause(into, role, cause)?;
    push_holder(into, slots, newest, role)?;
    into.push(b'\n')?;
    Ok(())
}

// Appends what is told of an event.
fn push_loss(
    into: &mut Vec<u8>,
    event: &Event,
    slots: &[Looked],
    newest: Option<&Sb>,
) -> Result<(), AllocError>
    ensures { OnOk result (into.new.items ≡ into.old.items ++ loss_line slots.now (option_copied newest.entry) event.now) }
{
    match event {
        Event::Lost { role, cause } => push_role(into, *role, *cause, slots, newest),
        Event::SpareLost { slot } => {
            push_line(
                into,
                "mdgrow: the spare in slot ",
                u64::from(*slot),
                " failed",
            )
        }
        _ => Ok(()),
    }
}

/// Appends a line for each role and each spare that a history tells lost, in its order: by a fault or by command, or since it was opened. A
/// role's line says which of these slots had it, as far as they and the newest superblock of the array tell.
pub fn push_losses(
    into: &mut Vec<u8>,
    entries: &Entries,
    slots: &[Looked],
    newest: Option<&Sb>,
) -> Result<(), AllocError>
    ensures { OnOk result (into.new.items ≡ into.old.items ++ loss_lines slots.now (option_copied newest.entry) entries.now.items) }
{
    for at in 0..entries.len() {
        push_loss(into, &entries.get(at).event, slots, newest)?;
    }
    Ok(())
}
