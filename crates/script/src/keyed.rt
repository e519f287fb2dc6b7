//! The words key=value of a line, in any order.

ghost use Rattle.std.specs.Prelude.{◌≡◌, length, drop, None};
ghost use Rattle.script_words.specs.Numbers.{words_of};
ghost use Rattle.script.specs.Tables.{key_name};
ghost use Rattle.script.specs.Reading.{nothing_given, has_given, give, take_key, read_keys, create_line, create_from, grow_from};

use crate::lines::{CreateLine, Line};
use crate::mistakes::{Mistake, Value, Wrong};
use crate::reader::{after_first, judge_layout, judge_number, judge_small, judge_wish, wrong_at};
use crate::tables::{Key, Verb, key_in};
use history::{Shape, Wish};
use script_words::{WishedLayout, Words};

/// What the keys of a line have given so far.
#[derive(Clone, Copy, Debug, PartialEq, Eq)]
pub struct Given {
    pub level: Option<u32>,
    pub disks: Option<u32>,
    pub chunk: Option<u32>,
    pub layout: Option<u32>,
    pub layout_wish: Option<WishedLayout>,
    pub size: Option<u64>,
    pub offset: Option<u64>,
}

impl Given {
    fn nothing() -> Self
        ensures { result ≡ nothing_given }
    {
        Given {
            level: None,
            disks: None,
            chunk: None,
            layout: None,
            layout_wish: None,
            size: None,
            offset: None,
        }
    }

    fn has(&self, key: Key) -> bool
        ensures { result ≡ has_given self.now key }
    {
        match key {
            Key::Level => self.level.is_some(),
            Key::Disks => self.disks.is_some(),
            Key::Chunk => self.chunk.is_some(),
            Key::Layout => self.layout.is_some(),
            Key::LayoutWish => self.layout_wish.is_some(),
            Key::Size => self.size.is_some(),
            Key::Offset => self.offset.is_some(),
        }
    }

    // With the value of one more key.
    fn give(self, key: Key, value: &[u8]) -> Result<Self, Mistake>
        ensures { result ≡ give self key value.now }
    {
        let mut given = self;
        match key {
            Key::Level => given.level = Some(judge_small(value, 0, u32::MAX)?),
            Key::Disks => given.disks = Some(judge_small(value, 0, u32::MAX)?),
            Key::Chunk => given.chunk = Some(judge_small(value, 0, u32::MAX)?),
            Key::Layout => given.layout = Some(judge_layout(value)?),
            Key::LayoutWish => given.layout_wish = Some(judge_wish(value)?),
            Key::Size => given.size = Some(judge_number(value, 0, u64::MAX)?),
            Key::Offset => given.offset = Some(judge_number(value, 0, u64::MAX)?),
        }
        Ok(given)
    }
}

// What a word has behind this key, with which it begins.
fn value_behind(word: &[u8], key: Key) -> &[u8]
    ensures { result.now ≡ drop (length (key_name key)) word.now }
{
    let skip = key.name().len();
    if skip < word.len() {
        &word[skip..]
    } else {
        &[]
    }
}

// With what the first of these words gives.
fn take_key(given: Given, verb: Verb, word: &[u8], words: Words<'_>) -> Result<Given, Wrong>
    ensures { result ≡ take_key given verb word.now (words_of words.entry.line.now) }
{
    let Some(key) = key_in(verb.keys(), word) else {
        return Err(wrong_at(words, 0, Mistake::UnknownKey { verb }));
    };
    if given.has(key) {
        return Err(wrong_at(words, 0, Mistake::TwiceKey { key }));
    }
    match given.give(key, value_behind(word, key)) {
        Ok(given) => Ok(given),
        Err(mistake) => Err(wrong_at(words, key.name().len(), mistake)),
    }
}

/// What the keys of a line give.
fn read_keys(verb: Verb, words: Words<'_>) -> Result<Given, Wrong>
    ensures { result ≡ read_keys verb nothing_given (words_of words.entry.line.now) }
{
    let mut given = Given::nothing();
    let mut left = words;
    let mut values = words;
    while let Some(word) = values.next() {
        match take_key(given, verb, word, left) {
            Ok(more) => given = more,
            Err(wrong) => return Err(wrong),
        }
        left = values;
    }
    Ok(given)
}

// The array of these keys.
fn create_line(uuid: [u8; 16], given: &Given) -> Result<Line, Mistake>
    ensures { result ≡ create_line uuid given.now }
{
    let Some(level) = given.level else {
        return Err(Mistake::MissingKey { key: Key::Level });
    };
    let Some(disks) = given.disks else {
        return Err(Mistake::MissingKey { key: Key::Disks });
    };
    let Some(size) = given.size else {
        return Err(Mistake::MissingKey { key: Key::Size });
    };
    let shape = Shape {
        level,
        layout: given.layout.unwrap_or(2),
        chunk: given.chunk.unwrap_or(1024),
        disks,
    };
    let offset = given.offset.unwrap_or(2048);
    Ok(Line::Create(CreateLine {
        uuid,
        shape,
        size,
        offset,
    }))
}

/// What `create` asks behind its uuid.
pub fn create_from(uuid: [u8; 16], words: Words<'_>) -> Result<Line, Wrong>
    ensures { result ≡ create_from uuid (words_of words.entry.line.now) }
{
    let given = match read_keys(Verb::Create, words) {
        Ok(given) => given,
        Err(wrong) => return Err(wrong),
    };
    match create_line(uuid, &given) {
        Ok(line) => Ok(line),
        Err(mistake) => Err(Wrong {
            left: 0,
            skip: 0,
            mistake,
        }),
    }
}

/// What `grow` asks.
pub fn grow_from(words: Words<'_>) -> Result<Line, Wrong>
    ensures { result ≡ grow_from (words_of words.entry.line.now) }
{
    let mut values = words;
    if values.next().is_none() {
        return Err(wrong_at(
            words,
            0,
            Mistake::Missing {
                value: Value::AnyKey,
            },
        ));
    }
    match read_keys(Verb::Grow, words) {
        Ok(given) => Ok(Line::Grow(Wish {
            level: given.level,
            disks: given.disks,
            chunk: given.chunk,
            layout: given.layout_wish,
        })),
        Err(wrong) => Err(wrong),
    }
}
