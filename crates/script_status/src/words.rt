//! The parts that the texts are made of.

ghost use Rattle.std.specs.Prelude.{◌+◌, ◌≤◌, length, ◌≡◌, ◌++◌, decimal};
ghost use Rattle.script.specs.Texts.{layout_text};
ghost use Rattle.script.specs.Appends.{Appends, AppendsFew};
ghost use Rattle.script_status.specs.Texts.{counted, clean_word, line, progress};

use script::{Status, layout_name};
use std::alloc::AllocError;

pub fn push_words(text: &mut Vec<u8>, words: &str) -> Result<(), AllocError>
    ensures appended { Appends text.old text.new result words.now }
    ensures short { AppendsFew (length words.now) text.old text.new result }
{
    text.extend_from_slice(words.as_bytes())
}

pub fn push_number(text: &mut Vec<u8>, number: u64) -> Result<(), AllocError>
    ensures appended { Appends text.old text.new result (decimal number) }
    ensures short { AppendsFew 20 text.old text.new result }
{
    let mut buffer = itoa::Buffer::new();
    text.extend_from_slice(buffer.format(number).as_bytes())
}

/// Appends words and a number.
pub fn push_counted(text: &mut Vec<u8>, words: &str, number: u64) -> Result<(), AllocError>
    ensures appended { Appends text.old text.new result (counted words.now number) }
    ensures short { AppendsFew (length words.now + 20) text.old text.new result }
{
    push_words(text, words)?;
    push_number(text, number)
}

/// Appends words and a number, and ends the line.
pub fn push_counted_line(text: &mut Vec<u8>, words: &str, number: u64) -> Result<(), AllocError>
    ensures appended { Appends text.old text.new result (line (counted words.now number)) }
    ensures short { AppendsFew (length words.now + 21) text.old text.new result }
{
    push_counted(text, words, number)?;
    push_words(text, "\n")
}

/// Appends a layout's name; no shape has a layout without one.
pub fn push_layout(text: &mut Vec<u8>, layout: u32) -> Result<(), AllocError>
    ensures appended { Appends text.old text.new result (layout_text layout) }
    ensures short { AppendsFew 30 text.old text.new result }
{
    match layout_name(layout) {
        Some(name) => push_words(text, name),
        None => push_number(text, u64::from(layout)),
    }
}

pub fn clean_name(clean: bool) -> &'static str
    ensures word { result.now ≡ clean_word clean }
    ensures short { length result.now ≤ 5 }
{
    if clean { "clean" } else { "dirty" }
}

/// Appends how far a reshape is.
pub fn push_progress(text: &mut Vec<u8>, status: &Status) -> Result<(), AllocError>
    ensures appended { Appends text.old text.new result (progress status.now) }
    ensures short { AppendsFew 49 text.old text.new result }
{
    push_counted(text, "reshape ", status.position)?;
    push_counted(text, "/", status.length)
}
