//! What the lines of a script open and write over.

ghost use Rattle.std.specs.Prelude.{◌≡◌};
ghost use Rattle.std.specs.List.{list_any};
ghost use Rattle.tool_warnings.specs.Asked.{opening_of, first_opening, disks_of, disks_made, is_addition, is_added};

use script::{Line, Numbered};

/// The array that a line makes, or finds: that of a UUID, or the first one.
#[derive(Clone, Copy, Debug, PartialEq, Eq)]
pub enum Opening {
    Made([u8; 16]),
    Found(Option<[u8; 16]>),
}

fn opening_of(line: &Line) -> Option<Opening>
    ensures { result ≡ opening_of line.now }
{
    match line {
        Line::Create(made) => Some(Opening::Made(made.uuid)),
        Line::Assemble { uuid } => Some(Opening::Found(*uuid)),
        _ => None,
    }
}

/// The first array that these lines open.
pub fn first_opening(lines: &[Numbered]) -> Option<Opening>
    ensures { result ≡ first_opening lines.now }
{
    for numbered in lines {
        if let Some(opening) = opening_of(&numbered.line) {
            return Some(opening);
        }
    }
    None
}

fn disks_of(line: &Line) -> Option<u32>
    ensures { result ≡ disks_of line.now }
{
    match line {
        Line::Create(made) => Some(made.shape.disks),
        _ => None,
    }
}

/// The disks of the first array that these lines make; 0 where they make none.
pub fn disks_made(lines: &[Numbered]) -> u32
    ensures { result ≡ disks_made lines.now }
{
    for numbered in lines {
        if let Some(disks) = disks_of(&numbered.line) {
            return disks;
        }
    }
    0
}

fn is_addition(line: &Line, slot: u64) -> bool
    ensures { result ≡ is_addition slot line.now }
{
    match line {
        Line::Add { slot: added } => u64::from(*added) == slot,
        _ => false,
    }
}

/// Whether one of these lines adds the slot.
pub fn is_added(lines: &[Numbered], slot: u64) -> bool
    ensures { result ≡ is_added slot lines.now }
{
    lines
        .iter()
        .any(|numbered| is_addition(&numbered.line, slot))
}
