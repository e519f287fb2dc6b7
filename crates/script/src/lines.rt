//! The lines of a whole script.

ghost use Rattle.std.specs.Prelude.{◌≡◌, List, [], ◌∷◌, ◌++◌, IfOk, IfErr, OnOk, Ok, IsTrue, true, false};
ghost use Rattle.std.specs.List.{AllPass};
ghost use Rattle.script.specs.Script.{script_of, script_with, is_inside_after, in_turn, IsFaultOf, sectors_of, is_within_limits, may_ask, are_in_turn, without_end};
ghost use Rattle.script.specs.declared.lines.Numbered.{Numbered as Asked};
ghost use Rattle.script.specs.declared.reply.Lane.TheVariants.{Script as OfScript, Worker as OfWorker};

use crate::grammar::{Meaning, meaning_of_line};
use crate::reply::Lane;
use history::{Shape, Wish};
use std::alloc::{AllocError, Global};
use thiserror::Error;

/// What a line asks.
#[derive(Clone, Copy, Debug, PartialEq, Eq)]
pub enum Line {
    Create(CreateLine),
    Read { at: u64, count: u32 },
    Write { at: u64, count: u32, seed: u32 },
    Flush,
    Fail { role: u32 },
    Add { slot: u32 },
    Step { most: u32 },
    Wait,
    ArraySize { limit: Option<u64> },
    Grow(Wish),
    Stop,
    Halt,
    Detail,
    Mdstat,
    Alerts,
    Examine { slot: u32 },
    Assemble { uuid: Option<[u8; 16]> },
}

/// The array that a `create` line asks for; size and offset are in sectors.
#[derive(Clone, Copy, Debug, PartialEq, Eq)]
pub struct CreateLine {
    pub uuid: [u8; 16],
    pub shape: Shape,
    pub size: u64,
    pub offset: u64,
}

/// A line with its number in the text, from 1, and its lane. The worker's is the `end` of a block; it asks what `wait` does.
#[derive(Clone, Copy, Debug, PartialEq, Eq)]
pub struct Numbered {
    pub number: u64,
    pub lane: Lane,
    pub line: Line,
}

/// Why a script isn't taken.
#[derive(Debug, Drop, Error)]
pub enum ScriptFault {
    /// The number of the first bad line; 0 where the text is too long.
    #[error("bad line {0}")]
    BadLine(u64),
    #[error("out of memory")]
    NoMemory,
}

pub const MOST_BYTES: usize = 1_048_576;

pub const MOST_LINES: u64 = 65_536;

pub const MOST_SECTORS: u64 = 262_144;

impl Line {
    /// How many sectors the line reads or writes.
    pub fn sectors(&self) -> u64
        ensures { result ≡ sectors_of self.now }
    {
        match self {
            Line::Read { count, .. } | Line::Write { count, .. } => u64::from(*count),
            _ => 0,
        }
    }
}

/// The text, less one newline at its end.
pub fn without_last_newline(text: &[u8]) -> &[u8]
    ensures { result.now ≡ without_end text.now }
{
    match text {
        [lines @ .., b'\n'] => lines,
        _ => text,
    }
}

/// Whether the text behind a line of this meaning is inside a block.
pub fn is_inside_after(inside: bool, meaning: Meaning) -> bool
    ensures { result ≡ is_inside_after inside meaning }
{
    match meaning {
        Meaning::Opens => true,
        Meaning::Asks(Lane::Worker, _) => false,
        _ => inside,
    }
}

// What the lines ask, in the order of the replies. Those of lane b wait for the end of their block.
#[derive(Drop)]
struct Turns {
    script: Vec<Numbered>,
    waiting: Vec<Numbered>,
}

impl Turns {
    fn new(alloc: Global) -> Self
        ensures script { result.script.items ≡ [] }
        ensures waiting { result.waiting.items ≡ [] }
    {
        Turns {
            script: Vec::new(alloc),
            waiting: Vec::new(alloc),
        }
    }

    // One more line of the text.
    fn push(&mut self, asked: Numbered) -> Result<(), AllocError>
        ensures turns { OnOk result ((more : List Asked) → self.new.script.items ++ in_turn self.new.waiting.items more
            ≡ self.old.script.items ++ in_turn self.old.waiting.items (asked ∷ more)) }
        ensures ended { OnOk result (asked.lane ≡ OfWorker → self.new.waiting.items ≡ []) }
        ensures kept { OnOk result (asked.lane ≡ OfScript → self.new.waiting.items ≡ self.old.waiting.items) }
    {
        match asked.lane {
            Lane::Script | Lane::A => self.script.push(asked)?,
            Lane::B => self.waiting.push(asked)?,
            Lane::Worker => {
                self.script.append(&mut self.waiting)?;
                self.script.push(asked)?;
            }
        }
        Ok(())
    }
}

// What a script's text asks. Where blocks aren't taken, a line that opens one is bad.
fn read_lines(alloc: Global, text: &[u8], blocks: bool) -> Result<Vec<Numbered>, ScriptFault>
    ensures lines { IfOk result (λ lines. script_with blocks text.now ≡ Ok lines.items) }
    ensures limits { IfOk result (λ lines. AllPass (λ numbered. is_within_limits numbered.line) lines.items) }
    ensures lanes { IfOk result (λ lines. AllPass (λ numbered. may_ask numbered.lane numbered.line) lines.items) }
    ensures turns { IfOk result (λ lines. IsTrue (are_in_turn OfScript lines.items)) }
    ensures bad { IfErr result (IsFaultOf blocks text.now) }
{
    if text.len() > MOST_BYTES {
        return Err(ScriptFault::BadLine(0));
    }
    let mut turns = Turns::new(alloc);
    let mut inside = false;
    let mut sectors = 0;
    let mut number = 0;
    for line in without_last_newline(text).split(|byte| *byte == b'\n') {
        number += 1;
        if number > MOST_LINES {
            return Err(ScriptFault::BadLine(number));
        }
        let meaning = meaning_of_line(inside, line);
        inside = is_inside_after(inside, meaning);
        match meaning {
            Meaning::PassedOver => {}
            Meaning::Opens if blocks => {}
            Meaning::Opens => return Err(ScriptFault::BadLine(number)),
            Meaning::Bad => return Err(ScriptFault::BadLine(number)),
            Meaning::Asks(lane, line) => {
                sectors += line.sectors();
                if sectors > MOST_SECTORS {
                    return Err(ScriptFault::BadLine(number));
                }
                if turns.push(Numbered { number, lane, line }).is_err() {
                    return Err(ScriptFault::NoMemory);
                }
            }
        }
    }
    if inside {
        return Err(ScriptFault::BadLine(number + 1));
    }
    Ok(turns.script)
}

/// What the lines of a script's text ask, in the order of their replies, or its first bad line, which may be one past the last: there
/// a block is still open. Of a block come all lines of lane a, then all of lane b, and then the worker's, with the number of `end`.
pub fn read_script_with_blocks(alloc: Global, text: &[u8]) -> Result<Vec<Numbered>, ScriptFault>
    ensures lines { IfOk result (λ lines. script_with true text.now ≡ Ok lines.items) }
    ensures limits { IfOk result (λ lines. AllPass (λ numbered. is_within_limits numbered.line) lines.items) }
    ensures lanes { IfOk result (λ lines. AllPass (λ numbered. may_ask numbered.lane numbered.line) lines.items) }
    ensures turns { IfOk result (λ lines. IsTrue (are_in_turn OfScript lines.items)) }
    ensures bad { IfErr result (IsFaultOf true text.now) }
{
    read_lines(alloc, text, true)
}

/// The lines that a script's text asks to perform, or its first bad line. A line that opens a block is bad.
pub fn read_script(alloc: Global, text: &[u8]) -> Result<Vec<Numbered>, ScriptFault>
    ensures lines { IfOk result (λ lines. script_of text.now ≡ Ok lines.items) }
    ensures limits { IfOk result (λ lines. AllPass (λ numbered. is_within_limits numbered.line) lines.items) }
    ensures bad { IfErr result (IsFaultOf false text.now) }
{
    read_lines(alloc, text, false)
}
