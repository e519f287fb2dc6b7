//! How an array stands, in lines.

ghost use Rattle.std.specs.Prelude.{◌≡◌, ◌++◌, OnOk};
ghost use Rattle.raid_types.specs.Shapes.{tolerance};
ghost use Rattle.tool_losses.specs.Healths.{is_gone, gone_in, missing_line, degraded_line, dirty_line, health_lines, shown_lines, state_lines};

use crate::lines::{push_line, push_numbered};
use history::{Entries, Event};
use raid_types::{Role, Shape, Status};
use std::alloc::AllocError;

// Whether no member holds all of the role.
fn is_gone(role: Role) -> bool
    ensures { result ≡ is_gone role }
{
    match role {
        Role::Whole(_) => false,
        Role::Recovering(_) | Role::Missing => true,
    }
}

// How many of these roles are so.
fn gone_in(roles: &[Role]) -> usize
    ensures { result ≡ gone_in roles.now }
{
    roles.iter().filter(|role| is_gone(**role)).count()
}

// How many members of an array it can do without.
fn tolerance(shape: &Shape) -> u64
    ensures { result ≡ tolerance shape.now }
{
    if shape.level == 6 { 2 } else { 1 }
}

// Appends how many members are missing.
fn push_missing(into: &mut Vec<u8>, gone: u64, tolerated: u64) -> Result<(), AllocError>
    ensures { OnOk result (into.new.items ≡ into.old.items ++ missing_line gone tolerated) }
{
    push_numbered(into, "mdgrow: the array is degraded: ", gone)?;
    push_line(into, " of ", tolerated, " tolerated members missing")?;
    Ok(())
}

// Appends the same, if any are.
fn push_degraded(into: &mut Vec<u8>, gone: u64, tolerated: u64) -> Result<(), AllocError>
    ensures { OnOk result (into.new.items ≡ into.old.items ++ degraded_line gone tolerated) }
{
    if gone == 0 {
        return Ok(());
    }
    push_missing(into, gone, tolerated)
}

// Appends that parity may be stale, unless the array is clean.
fn push_dirty(into: &mut Vec<u8>, clean: bool) -> Result<(), AllocError>
    ensures { OnOk result (into.new.items ≡ into.old.items ++ dirty_line clean) }
{
    if clean {
        return Ok(());
    }
    into.extend_from_slice(b"mdgrow: the array is dirty: the next assembly resyncs it\n")?;
    Ok(())
}

// Appends how the array stands that tells this of itself.
fn push_health(into: &mut Vec<u8>, status: &Status) -> Result<(), AllocError>
    ensures { OnOk result (into.new.items ≡ into.old.items ++ health_lines status.now) }
{
    let gone = gone_in(status.roles.as_slice()) as u64;
    push_degraded(into, gone, tolerance(&status.shape))?;
    push_dirty(into, status.clean)?;
    Ok(())
}

// Appends how the array stands, where the event shows it.
fn push_shown(into: &mut Vec<u8>, event: &Event) -> Result<(), AllocError>
    ensures { OnOk result (into.new.items ≡ into.old.items ++ shown_lines event.now) }
{
    match event {
        Event::Shown { status } => push_health(into, status),
        _ => Ok(()),
    }
}

/// Appends for each state that a history shows, in its order, what is wrong with it: missing members, and parity that may be stale.
pub fn push_states(into: &mut Vec<u8>, entries: &Entries) -> Result<(), AllocError>
    ensures { OnOk result (into.new.items ≡ into.old.items ++ state_lines entries.now.items) }
{
    for at in 0..entries.len() {
        push_shown(into, &entries.get(at).event)?;
    }
    Ok(())
}
