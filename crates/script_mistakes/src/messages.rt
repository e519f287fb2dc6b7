//! The texts.

ghost use Rattle.std.specs.Prelude.{◌≡◌, ◌≤◌, ◌++◌, map, replicate, OnOk};
ghost use Rattle.script_mistakes.specs.Marked.{shown, marked};

use crate::nearest::nearest;
use script::tables::VERBS;
use script::{Diagnosis, Key, Mistake, Place, Value, Verb, layout_name};
use std::alloc::{AllocError, Global};
use std::fmt;

/// What is wrong, in words, and the word that may have been meant.
#[derive(Clone, Copy, Debug)]
pub struct Message<'a> {
    pub mistake: Mistake,
    pub near: Option<&'a str>,
}

fn value_text(value: Value) -> &'static str {
    match value {
        Value::Word => "what the lane asks is missing: read, write, flush or fail",
        Value::Start => "the first sector is missing",
        Value::Count => "the count of sectors is missing",
        Value::Seed => "the seed is missing",
        Value::Role => "the role is missing",
        Value::Slot => "the slot is missing",
        Value::Steps => "the count of steps is missing",
        Value::Limit => "the limit is missing: a number, or max",
        Value::Uuid => "the UUID is missing",
        Value::AnyKey => "a key is missing: level=, disks=, chunk= or layout=",
    }
}

fn byte_text(byte: u8) -> &'static str {
    match byte {
        b'\r' => "a carriage return: save the file with Unix line ends",
        b'\t' => "a tab: words stand between spaces",
        0..=31 | 127 => "a control byte",
        _ => "a byte outside ASCII",
    }
}

fn place_text(place: Place) -> &'static str {
    match place {
        Place::Outside => "this stands in a block alone, between together and end",
        Place::Block => "in a block a line begins with a: or b:, or is end",
        Place::Lane => "a lane asks read, write, flush and fail alone",
    }
}

impl fmt::Display for Message<'_> {
    fn fmt<W: fmt::Write>(&self, f: &mut fmt::Formatter<W>) -> fmt::Result {
        match self.mistake {
            Mistake::BadByte { byte } => f.write_str(byte_text(byte))?,
            Mistake::UnknownWord { .. } => f.write_str("unknown word")?,
            Mistake::WordElsewhere { place } => f.write_str(place_text(place))?,
            Mistake::TooMany => f.write_str("nothing may follow here")?,
            Mistake::Missing { value } => f.write_str(value_text(value))?,
            Mistake::MissingKey { key } => write!(f, "{} is missing", key.name())?,
            Mistake::UnknownKey { .. } => f.write_str("unknown key")?,
            Mistake::TwiceKey { key } => write!(f, "{} stands twice", key.name())?,
            Mistake::NotANumber { least, most } => {
                write!(f, "a number from {least} to {most} is wanted")?
            }
            Mistake::LeadingZero { least, most } => {
                write!(
                    f,
                    "a number from {least} to {most} without a leading zero is wanted"
                )?
            }
            Mistake::OutOfRange { least, most } => {
                write!(f, "out of range: a number from {least} to {most} is wanted")?
            }
            Mistake::NotALimit => f.write_str("a number or max is wanted")?,
            Mistake::NotAUuid => f.write_str("a UUID is wanted, 32 hexadecimal digits")?,
            Mistake::NotALayout { .. } => f.write_str("unknown layout")?,
        }
        match self.near {
            Some(near) => write!(f, ": did you mean {near}?"),
            None => Ok(()),
        }
    }
}

// A byte as it is shown.
fn shown(byte: u8) -> u8
    ensures { result ≡ shown byte }
{
    if (32..=126).contains(&byte) {
        byte
    } else {
        b'?'
    }
}

/// Appends the line, and below it marks of the bytes from `column` on, `width` of them, or one where there are none. A byte that isn't printable
/// ASCII is shown as `?`, so that each byte takes one place.
pub fn push_marked(
    text: &mut Vec<u8>,
    line: &[u8],
    column: usize,
    width: usize,
) -> Result<(), AllocError>
    ensures { OnOk result (text.new.items ≡ text.old.items ++ marked line.now column width) }
{
    push_shown(text, line)?;
    text.push(b'\n')?;
    push_times(text, b' ', column)?;
    push_times(text, b'^', width.max(1))?;
    text.push(b'\n')?;
    Ok(())
}

/// Appends the line; a byte that is not printable ASCII is shown as `?`.
pub fn push_shown(text: &mut Vec<u8>, line: &[u8]) -> Result<(), AllocError>
    ensures { OnOk result (text.new.items ≡ text.old.items ++ map shown line.now) }
{
    for byte in line {
        text.push(shown(*byte))?;
    }
    Ok(())
}

fn push_times(text: &mut Vec<u8>, byte: u8, count: usize) -> Result<(), AllocError>
    ensures { OnOk result (text.new.items ≡ text.old.items ++ replicate count byte) }
{
    for _done in 0..count {
        text.push(byte)?;
    }
    Ok(())
}

/// The word that may have been meant in place of this one; its letters are compared as small ones.
pub fn suggestion(
    alloc: Global,
    mistake: Mistake,
    wrong: &[u8],
) -> Result<Option<&'static str>, AllocError> {
    let small = wrong
        .iter()
        .map(|byte| byte.to_ascii_lowercase())
        .collect::<Vec<u8>>(alloc)?;
    let word = small.as_slice();
    match mistake {
        Mistake::UnknownWord {
            place: Place::Outside,
        } => near_verb(alloc, word, &VERBS),
        Mistake::UnknownWord {
            place: Place::Block,
        } => near_block_word(alloc, word),
        Mistake::UnknownWord { place: Place::Lane } => near_verb(
            alloc,
            word,
            &[Verb::Read, Verb::Write, Verb::Flush, Verb::Fail],
        ),
        Mistake::UnknownKey { verb } => near_key(alloc, word, verb.keys()),
        Mistake::NotALayout { .. } => near_layout(alloc, word),
        _ => Ok(None),
    }
}

// How many letters may be wrong: half of them, but three at most.
fn most_wrong(word: &[u8]) -> usize
    ensures { result ≤ 3 }
{
    (word.len() / 2).clamp(1, 3)
}

fn near_verb(
    alloc: Global,
    word: &[u8],
    verbs: &[Verb],
) -> Result<Option<&'static str>, AllocError> {
    let names = verbs
        .iter()
        .map(|verb| verb.name().as_bytes())
        .collect::<Vec<&'static [u8]>>(alloc)?;
    match nearest(alloc, word, &names, most_wrong(word))? {
        Some(index) => Ok(verbs.get(index).map(|verb| verb.name())),
        None => Ok(None),
    }
}

fn near_block_word(alloc: Global, word: &[u8]) -> Result<Option<&'static str>, AllocError> {
    if word.starts_with(b"a:".as_slice()) {
        return Ok(Some("a:"));
    }
    if word.starts_with(b"b:".as_slice()) {
        return Ok(Some("b:"));
    }
    let names: [&[u8]; 3] = [b"a:", b"b:", b"end"];
    let found = nearest(alloc, word, &names, most_wrong(word))?;
    Ok(match found {
        Some(0) => Some("a:"),
        Some(1) => Some("b:"),
        Some(_) => Some("end"),
        None => None,
    })
}

// The key without its value is compared.
fn near_key(alloc: Global, word: &[u8], keys: &[Key]) -> Result<Option<&'static str>, AllocError> {
    let front = match word.iter().position(|byte| *byte == b'=') {
        Some(end) => &word[..end],
        None => word,
    };
    let names = keys
        .iter()
        .map(|key| key.name().as_bytes())
        .collect::<Vec<&'static [u8]>>(alloc)?;
    match nearest(alloc, front, &names, most_wrong(front) + 1)? {
        Some(index) => Ok(keys.get(index).map(|key| key.name())),
        None => Ok(None),
    }
}

const LAYOUTS: [u32; 11] = [0, 1, 2, 3, 4, 5, 16, 17, 18, 19, 20];

fn near_layout(alloc: Global, word: &[u8]) -> Result<Option<&'static str>, AllocError> {
    let names = LAYOUTS
        .iter()
        .map(|layout| layout_name(*layout).unwrap_or("").as_bytes())
        .collect::<Vec<&'static [u8]>>(alloc)?;
    match nearest(alloc, word, &names, most_wrong(word))? {
        Some(index) => Ok(LAYOUTS.get(index).and_then(|layout| layout_name(*layout))),
        None => Ok(None),
    }
}

/// What is wrong with this line, by its diagnosis, and which word may have been meant.
pub fn message_of(alloc: Global, line: &[u8], diagnosis: &Diagnosis) -> Result<String, AllocError> {
    let wrong = match line.get(diagnosis.column..) {
        Some(rest) => match rest.get(..diagnosis.width) {
            Some(word) => word,
            None => rest,
        },
        None => &[],
    };
    if wrong.starts_with(b"#".as_slice()) {
        return format!(in alloc; "a comment begins with the first byte of its line");
    }
    let message = Message {
        mistake: diagnosis.mistake,
        near: suggestion(alloc, diagnosis.mistake, wrong)?,
    };
    format!(in alloc; "{message}")
}
