//! Values, read from a line's words one after another. What can't be read is told with its place.

ghost use Rattle.std.specs.Prelude.{◌≡◌, ◌^◌, ◌-◌, ◌&&◌, nat_lt, length, drop, true};
ghost use Rattle.std.specs.List.{list_all};
ghost use Rattle.std.specs.Char.{is_ascii_digit};
ghost use Rattle.script_words.specs.Numbers.{words_of, is_numeral};
ghost use Rattle.script.specs.Tables.{key_name};
ghost use Rattle.script.specs.Reading.{wrong_at, judge_number, judge_limit, judge_uuid, judge_layout, judge_wish, at_value, end_of, are_digits, most_after};

use crate::mistakes::{Mistake, Value, Wrong};
use crate::tables::Key;
use script_words::{WishedLayout, Words, layout_named, number};
use uuid::Uuid;

/// How many words are left.
pub fn count_words(mut words: Words<'_>) -> usize
    ensures { result ≡ length (words_of words.entry.line.now) }
{
    let mut count = 0;
    while words.next().is_some() {
        count += 1;
    }
    count
}

/// The mistake at the first of these words, or at the line's end where none is left.
pub fn wrong_at(words: Words<'_>, skip: usize, mistake: Mistake) -> Wrong
    ensures { result ≡ wrong_at (words_of words.entry.line.now) skip mistake }
{
    Wrong {
        left: count_words(words),
        skip,
        mistake,
    }
}

/// The words behind the first.
pub fn after_first(mut words: Words<'_>) -> Words<'_>
    ensures { words_of result.line.now ≡ drop 1 (words_of words.entry.line.now) }
{
    let _ = words.next();
    words
}

fn all_digits(word: &[u8]) -> bool
    ensures { result ≡ list_all is_ascii_digit word.now }
{
    word.iter().all(|byte| byte.is_ascii_digit())
}

fn are_digits(word: &[u8]) -> bool
    ensures { result ≡ are_digits word.now }
{
    word.len() > 0 && all_digits(word)
}

/// The number that a word writes, which is to lie within these bounds.
pub fn judge_number(word: &[u8], least: u64, most: u64) -> Result<u64, Mistake>
    ensures { result ≡ judge_number least most word.now }
{
    if !are_digits(word) {
        return Err(Mistake::NotANumber { least, most });
    }
    if word[0] == b'0' && word.len() > 1 {
        return Err(Mistake::LeadingZero { least, most });
    }
    match number(word) {
        Some(value) if least <= value && value <= most => Ok(value),
        _ => Err(Mistake::OutOfRange { least, most }),
    }
}

/// The same for a number of 32 bits.
pub fn judge_small(word: &[u8], least: u32, most: u32) -> Result<u32, Mistake>
    ensures { result ≡ judge_number least most word.now }
{
    match judge_number(word, u64::from(least), u64::from(most)) {
        Ok(value) => Ok(value as u32),
        Err(mistake) => Err(mistake),
    }
}

/// The limit that a word sets: none for `max`.
pub fn judge_limit(word: &[u8]) -> Result<Option<u64>, Mistake>
    ensures { result ≡ judge_limit word.now }
{
    if word == b"max".as_slice() {
        return Ok(None);
    }
    if !are_digits(word) {
        return Err(Mistake::NotALimit);
    }
    match judge_number(word, 0, u64::MAX) {
        Ok(limit) => Ok(Some(limit)),
        Err(mistake) => Err(mistake),
    }
}

/// The bytes of the uuid that a word writes.
pub fn judge_uuid(word: &[u8]) -> Result<[u8; 16], Mistake>
    ensures { result ≡ judge_uuid word.now }
{
    match Uuid::try_parse_ascii(word) {
        Ok(uuid) => Ok(*uuid.as_bytes()),
        Err(_) => Err(Mistake::NotAUuid),
    }
}

/// The layout of this name.
pub fn judge_layout(word: &[u8]) -> Result<u32, Mistake>
    ensures { result ≡ judge_layout word.now }
{
    match layout_named(word) {
        Some(layout) => Ok(layout),
        None => Err(Mistake::NotALayout { key: Key::Layout }),
    }
}

/// The layout that is wished by this name.
pub fn judge_wish(word: &[u8]) -> Result<WishedLayout, Mistake>
    ensures { result ≡ judge_wish word.now }
{
    if word == b"preserve".as_slice() {
        return Ok(WishedLayout::Preserve);
    }
    if word == b"normalise".as_slice() {
        return Ok(WishedLayout::Normalise);
    }
    match layout_named(word) {
        Some(layout) => Ok(WishedLayout::Named(layout)),
        None => Err(Mistake::NotALayout {
            key: Key::LayoutWish,
        }),
    }
}

/// The number that the next word writes.
pub fn number_at(words: Words<'_>, value: Value, least: u64, most: u64) -> Result<u64, Wrong>
    ensures { result ≡ at_value (judge_number least most) value (words_of words.entry.line.now) }
{
    let mut values = words;
    let Some(word) = values.next() else {
        return Err(wrong_at(words, 0, Mistake::Missing { value }));
    };
    match judge_number(word, least, most) {
        Ok(number) => Ok(number),
        Err(mistake) => Err(wrong_at(words, 0, mistake)),
    }
}

/// The same for a number of 32 bits.
pub fn small_at(words: Words<'_>, value: Value, least: u32, most: u32) -> Result<u32, Wrong>
    ensures { result ≡ at_value (judge_number least most) value (words_of words.entry.line.now) }
{
    let mut values = words;
    let Some(word) = values.next() else {
        return Err(wrong_at(words, 0, Mistake::Missing { value }));
    };
    match judge_small(word, least, most) {
        Ok(number) => Ok(number),
        Err(mistake) => Err(wrong_at(words, 0, mistake)),
    }
}

/// The limit that the next word sets.
pub fn limit_at(words: Words<'_>) -> Result<Option<u64>, Wrong>
    ensures { result ≡ at_value judge_limit Value.Limit (words_of words.entry.line.now) }
{
    let mut values = words;
    let Some(word) = values.next() else {
        return Err(wrong_at(
            words,
            0,
            Mistake::Missing {
                value: Value::Limit,
            },
        ));
    };
    match judge_limit(word) {
        Ok(limit) => Ok(limit),
        Err(mistake) => Err(wrong_at(words, 0, mistake)),
    }
}

/// The uuid that the next word writes.
pub fn uuid_at(words: Words<'_>) -> Result<[u8; 16], Wrong>
    ensures { result ≡ at_value judge_uuid Value.Uuid (words_of words.entry.line.now) }
{
    let mut values = words;
    let Some(word) = values.next() else {
        return Err(wrong_at(words, 0, Mistake::Missing { value: Value::Uuid }));
    };
    match judge_uuid(word) {
        Ok(uuid) => Ok(uuid),
        Err(mistake) => Err(wrong_at(words, 0, mistake)),
    }
}

/// What a line means of which no word is to be left.
pub fn end_of<T: Copy>(words: Words<'_>, meaning: T) -> Result<T, Wrong>
    ensures { result ≡ end_of meaning (words_of words.entry.line.now) }
{
    let mut values = words;
    match values.next() {
        None => Ok(meaning),
        Some(_) => Err(wrong_at(words, 0, Mistake::TooMany)),
    }
}

/// How many sectors may be asked for from this one on: at most 128, and all of them below 2^63.
pub fn most_after(start: u64) -> u32
    requires { nat_lt start (2 ^ 63 - 1) ≡ true }
    ensures { result ≡ most_after start }
{
    let room = (1 << 63) - 1 - start;
    if room < 128 { room as u32 } else { 128 }
}
