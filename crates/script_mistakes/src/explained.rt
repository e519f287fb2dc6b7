//! What is told below the number of a script's first bad line.

ghost use Rattle.std.specs.Prelude.{◌≡◌, ◌≤◌, ◌++◌, [], length, slice_index_or, None, Err, IsOk, IfOk, IfSome, OnOk, true, ◌↔◌};
ghost use Rattle.script.specs.Script.{script_with, lines_of};
ghost use Rattle.script_mistakes.specs.Explained.{start_of, part_of, line_of, shown_for};
ghost use Rattle.script_mistakes.specs.Reasons.{IsReason};

use crate::messages::{message_of, push_marked, push_shown};
use crate::scripts::{Reason, ScriptMistake, diagnose_script};
use script::without_last_newline;
use std::alloc::{AllocError, Global};

// How many bytes of a line are shown, how many of them before the place where it goes wrong, and how many are marked, at most.
const MOST_SHOWN: usize = 100;

const MOST_BEFORE: usize = 60;

const MOST_MARKED: usize = 40;

/// Why a script isn't taken: its first bad line and what is wrong with it, the part of the line where it goes wrong, with marks below, as lines,
/// and what is wrong or wanted there, in words.
#[derive(Drop)]
pub struct Explanation {
    pub mistake: ScriptMistake,
    pub shown: Vec<u8>,
    pub words: String,
}

// The line behind so many others; an empty one behind the last.
fn line_at(text: &[u8], index: u64) -> &[u8]
    ensures { result.now ≡ slice_index_or (lines_of text.now) index [] }
{
    let mut left = index;
    for line in without_last_newline(text).split(|byte| *byte == b'\n') {
        if left == 0 {
            return line;
        }
        left -= 1;
    }
    &[]
}

// Where the part of a line begins that is shown where this column is marked.
fn start_of(line: &[u8], column: usize) -> usize
    ensures start { result ≡ start_of line.now column }
    ensures within { result ≤ length line.now }
{
    if line.len() <= MOST_SHOWN {
        0
    } else {
        column.saturating_sub(MOST_BEFORE).min(line.len())
    }
}

// That part.
fn part_of(line: &[u8], column: usize) -> &[u8]
    ensures { result.now ≡ part_of line.now column }
{
    let from = start_of(line, column);
    let rest = &line[from..];
    &rest[..rest.len().min(MOST_SHOWN)]
}

// Appends what is shown of a bad line: the part where it goes wrong, with marks below; its beginning, where it asks for too much.
fn push_part(line: &[u8], reason: &Reason, into: &mut Vec<u8>) -> Result<(), AllocError>
    ensures { OnOk result (into.new.items ≡ into.old.items ++ shown_for line.now reason.now) }
{
    match reason {
        Reason::BadLine(diagnosis) => {
            let before = diagnosis
                .column
                .saturating_sub(start_of(line, diagnosis.column));
            let marks = diagnosis.width.min(MOST_MARKED);
            push_marked(into, part_of(line, diagnosis.column), before, marks)
        }
        Reason::TooManySectors => push_beginning(line, into),
        _ => Ok(()),
    }
}

// Appends a line's beginning.
fn push_beginning(line: &[u8], into: &mut Vec<u8>) -> Result<(), AllocError>
    ensures { OnOk result (into.new.items ≡ into.old.items ++ shown_for line.now Reason.TooManySectors) }
{
    push_shown(into, part_of(line, 0))?;
    into.push(b'\n')?;
    Ok(())
}

// What is wrong, in words.
fn words_for(alloc: Global, line: &[u8], reason: &Reason) -> Result<String, AllocError> {
    match reason {
        Reason::TooLong => String::from_str(alloc, "the script is longer than 1048576 bytes"),
        Reason::TooManyLines => String::from_str(alloc, "the script has more than 65536 lines"),
        Reason::TooManySectors => String::from_str(
            alloc,
            "with this line the script reads and writes more than 262144 sectors",
        ),
        Reason::BlockOpen => String::from_str(
            alloc,
            "a block is open at the end: the line end is missing",
        ),
        Reason::BadLine(diagnosis) => message_of(alloc, line, diagnosis),
    }
}

/// Why this script, which may have blocks, isn't taken, for people; nothing exactly where it is.
pub fn explain(alloc: Global, text: &[u8]) -> Result<Option<Explanation>, AllocError>
    ensures taken { IfOk result (λ told. told ≡ None ↔ IsOk (script_with true text.now)) }
    ensures line { IfOk result (λ told. IfSome told (λ why. script_with true text.now ≡ Err why.mistake.number)) }
    ensures reason { IfOk result (λ told. IfSome told (λ why. IsReason text.now why.mistake.number why.mistake.reason)) }
    ensures shown { IfOk result (λ told. IfSome told (λ why. why.shown.items ≡ shown_for (line_of text.now why.mistake.number) why.mistake.reason)) }
{
    match diagnose_script(text) {
        None => Ok(None),
        Some(mistake) => {
            let line = line_at(text, mistake.number.saturating_sub(1));
            let mut shown = Vec::new(alloc);
            push_part(line, &mistake.reason, &mut shown)?;
            let words = words_for(alloc, line, &mistake.reason)?;
            Ok(Some(Explanation {
                mistake,
                shown,
                words,
            }))
        }
    }
}
