//! The text of `mdstat`.

ghost use Rattle.std.specs.Prelude.{◌+◌, length, ◌≡◌, count_by};
ghost use Rattle.script.specs.Appends.{Appends, AppendsFew};
ghost use Rattle.script_status.specs.Texts.{is_whole, left_in_brief, marks, mdstat_text, reshape_in_brief, roles_in_brief};

use crate::words::{push_counted, push_progress, push_words};
use script::{Role, Status};
use std::alloc::AllocError;

/// Appends the state of an array in one line, less its end.
pub fn push_mdstat(text: &mut Vec<u8>, status: &Status) -> Result<(), AllocError>
    ensures appended { Appends text.old text.new result (mdstat_text status.now) }
    ensures short { AppendsFew (250 + length status.now.roles) text.old text.new result }
{
    push_counted(text, "md: raid", u64::from(status.shape.level))?;
    push_roles(text, status.roles.as_slice())?;
    push_counted(text, " ", status.visible)?;
    push_words(text, " sectors")?;
    push_reshape(text, status)?;
    push_left(text, status.left)
}

fn push_roles(text: &mut Vec<u8>, roles: &[Role]) -> Result<(), AllocError>
    ensures appended { Appends text.old text.new result (roles_in_brief roles.now) }
    ensures short { AppendsFew (60 + length roles.now) text.old text.new result }
{
    push_counted(text, " [", roles.len() as u64)?;
    push_counted(text, "/", count_whole(roles) as u64)?;
    push_words(text, "] [")?;
    push_marks(text, roles)?;
    push_words(text, "]")
}

fn count_whole(roles: &[Role]) -> usize
    ensures { result ≡ count_by is_whole roles.now }
{
    roles.iter().filter(|role| is_whole(**role)).count()
}

fn is_whole(role: Role) -> bool
    ensures { result ≡ is_whole role }
{
    match role {
        Role::Whole(_) => true,
        Role::Recovering(_) => false,
        Role::Missing => false,
    }
}

fn push_marks(text: &mut Vec<u8>, roles: &[Role]) -> Result<(), AllocError>
    ensures appended { Appends text.old text.new result (marks roles.now) }
    ensures short { AppendsFew (length roles.now) text.old text.new result }
{
    for role in roles {
        push_words(text, if is_whole(*role) { "U" } else { "_" })?;
    }
    Ok(())
}

fn push_reshape(text: &mut Vec<u8>, status: &Status) -> Result<(), AllocError>
    ensures appended { Appends text.old text.new result (reshape_in_brief status.now.target status.now) }
    ensures short { AppendsFew 60 text.old text.new result }
{
    match status.target {
        Some(_) => {
            push_words(text, " ")?;
            push_progress(text, status)
        }
        None => Ok(()),
    }
}

fn push_left(text: &mut Vec<u8>, left: u64) -> Result<(), AllocError>
    ensures appended { Appends text.old text.new result (left_in_brief left) }
    ensures short { AppendsFew 26 text.old text.new result }
{
    if left == 0 {
        Ok(())
    } else {
        push_counted(text, " left ", left)
    }
}
