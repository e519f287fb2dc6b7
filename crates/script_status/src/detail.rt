//! The text of `detail`.

ghost use Rattle.std.specs.Prelude.{◌+◌, ◌*◌, length, ◌++◌, [], ◌∷◌, codes};
ghost use Rattle.script.specs.Appends.{Appends, AppendsFew};
ghost use Rattle.script_status.specs.Texts.{counted, detail_text, holder, reshape_line, role_lines, shape_lines, spare_lines, state_lines, target_text};

use crate::words::{
    clean_name, push_counted, push_counted_line, push_layout, push_progress, push_words,
};
use script::{Role, Shape, Status};
use std::alloc::AllocError;

/// Appends the state of an array in lines, less the end of the last one.
pub fn push_detail(text: &mut Vec<u8>, status: &Status) -> Result<(), AllocError>
    ensures appended { Appends text.old text.new result (detail_text status.now) }
    ensures short { AppendsFew (600 + 70 * length status.now.roles + 40 * length status.now.spares) text.old text.new result }
{
    push_shape(text, &status.shape)?;
    push_state(text, status)?;
    push_reshape(text, status)?;
    push_roles(text, status.roles.as_slice())?;
    push_spares(text, status.spares.as_slice())?;
    push_counted(text, "left ", status.left)
}

#[tactic(auto, unfolding(crate::specs::Texts::shape_lines))]
fn push_shape(text: &mut Vec<u8>, shape: &Shape) -> Result<(), AllocError>
    ensures appended { Appends text.old text.new result (shape_lines shape.now) }
    ensures short { AppendsFew 130 text.old text.new result }
{
    push_counted_line(text, "level ", u64::from(shape.level))?;
    push_words(text, "layout ")?;
    push_layout(text, shape.layout)?;
    push_counted_line(text, "\nchunk ", u64::from(shape.chunk))?;
    push_counted_line(text, "disks ", u64::from(shape.disks))
}

#[tactic(auto, unfolding(crate::specs::Texts::state_lines))]
fn push_state(text: &mut Vec<u8>, status: &Status) -> Result<(), AllocError>
    ensures appended { Appends text.old text.new result (state_lines status.now) }
    ensures short { AppendsFew 120 text.old text.new result }
{
    push_counted_line(text, "size ", status.size)?;
    push_counted_line(text, "visible ", status.visible)?;
    push_words(text, "state ")?;
    push_words(text, clean_name(status.clean))?;
    push_counted_line(text, "\nevents ", status.events)
}

fn push_reshape(text: &mut Vec<u8>, status: &Status) -> Result<(), AllocError>
    ensures appended { Appends text.old text.new result (reshape_line status.now.target status.now) }
    ensures short { AppendsFew 170 text.old text.new result }
{
    match status.target {
        Some(target) => {
            push_progress(text, status)?;
            push_target(text, &target)?;
            push_words(text, "\n")
        }
        None => Ok(()),
    }
}

#[tactic(auto, unfolding(crate::specs::Texts::target_text))]
fn push_target(text: &mut Vec<u8>, target: &Shape) -> Result<(), AllocError>
    ensures appended { Appends text.old text.new result (target_text target.now) }
    ensures short { AppendsFew 100 text.old text.new result }
{
    push_words(text, " to layout ")?;
    push_layout(text, target.layout)?;
    push_counted(text, " chunk ", u64::from(target.chunk))?;
    push_counted(text, " disks ", u64::from(target.disks))
}

fn push_roles(text: &mut Vec<u8>, roles: &[Role]) -> Result<(), AllocError>
    ensures appended { Appends text.old text.new result (role_lines 0 roles.now) }
    ensures short { AppendsFew (70 * length roles.now) text.old text.new result }
{
    for role in 0..roles.len() {
        push_role(text, role as u64, roles[role])?;
    }
    Ok(())
}

fn push_role(text: &mut Vec<u8>, role: u64, state: Role) -> Result<(), AllocError>
    ensures appended { Appends text.old text.new result (role_lines role (state ∷ [])) }
    ensures short { AppendsFew 70 text.old text.new result }
{
    push_counted(text, "role ", role)?;
    push_holder(text, state)?;
    push_words(text, "\n")
}

fn push_holder(text: &mut Vec<u8>, state: Role) -> Result<(), AllocError>
    ensures appended { Appends text.old text.new result (holder state) }
    ensures short { AppendsFew 40 text.old text.new result }
{
    match state {
        Role::Whole(slot) => push_held(text, slot, " whole"),
        Role::Recovering(slot) => push_held(text, slot, " recovering"),
        Role::Missing => push_words(text, " missing"),
    }
}

fn push_held(text: &mut Vec<u8>, slot: u32, how: &str) -> Result<(), AllocError>
    ensures appended { Appends text.old text.new result (counted (codes " slot ") slot ++ how.now) }
    ensures short { AppendsFew (26 + length how.now) text.old text.new result }
{
    push_counted(text, " slot ", u64::from(slot))?;
    push_words(text, how)
}

fn push_spares(text: &mut Vec<u8>, slots: &[u32]) -> Result<(), AllocError>
    ensures appended { Appends text.old text.new result (spare_lines slots.now) }
    ensures short { AppendsFew (40 * length slots.now) text.old text.new result }
{
    for slot in slots {
        push_spare(text, *slot)?;
    }
    Ok(())
}

fn push_spare(text: &mut Vec<u8>, slot: u32) -> Result<(), AllocError>
    ensures appended { Appends text.old text.new result (spare_lines (slot ∷ [])) }
    ensures short { AppendsFew 40 text.old text.new result }
{
    push_counted_line(text, "spare slot ", u64::from(slot))
}
