//! What one line of a script asks.

ghost use Rattle.std.specs.Prelude.{◌≡◌, ◌==◌, ◌&&◌, ◌↔◌, nat_le, not, slice_index, position, IfOk, IfErr, IfSome, IsErr, IsSome};
ghost use Rattle.std.specs.List.{list_all};
ghost use Rattle.script.specs.Grammar.{meaning_of, is_passed_over};
ghost use Rattle.script.specs.Mistakes.{IsDiagnosis};
ghost use Rattle.script.specs.Reading.{read_verb, read_read, read_write, read_assemble, read_create, asked_by, read_lane, read_outside, read_inside, is_for_lanes_verb, read_words};
ghost use Rattle.script_words.specs.Numbers.{is_space, words_of};

use crate::diagnosis::{Diagnosis, place_of};
use crate::keyed::{create_from, grow_from};
use crate::lines::Line;
use crate::mistakes::{Mistake, Place, Value, Wrong};
use crate::reader::{
    after_first, end_of, limit_at, most_after, number_at, small_at, uuid_at, wrong_at,
};
use crate::reply::Lane;
use crate::tables::{BlockWord, Verb, block_word_named, verb_named};
use script_words::Words;

/// What the text of a line means: it may open a block, or ask something in a lane.
#[derive(Clone, Copy, Debug, PartialEq, Eq)]
pub enum Meaning {
    PassedOver,
    Opens,
    Asks(Lane, Line),
    Bad,
}

fn read_read(words: Words<'_>) -> Result<Line, Wrong>
    ensures { result ≡ read_read (words_of words.entry.line.now) }
{
    let at = number_at(words, Value::Start, 0, (1 << 63) - 2)?;
    let words = after_first(words);
    let count = small_at(words, Value::Count, 1, most_after(at))?;
    end_of(after_first(words), Line::Read { at, count })
}

fn read_write(words: Words<'_>) -> Result<Line, Wrong>
    ensures { result ≡ read_write (words_of words.entry.line.now) }
{
    let at = number_at(words, Value::Start, 0, (1 << 63) - 2)?;
    let words = after_first(words);
    let count = small_at(words, Value::Count, 1, most_after(at))?;
    let words = after_first(words);
    let seed = small_at(words, Value::Seed, 0, u32::MAX)?;
    end_of(after_first(words), Line::Write { at, count, seed })
}

fn read_create(words: Words<'_>) -> Result<Line, Wrong>
    ensures { result ≡ read_create (words_of words.entry.line.now) }
{
    let uuid = uuid_at(words)?;
    create_from(uuid, after_first(words))
}

fn read_assemble(words: Words<'_>) -> Result<Line, Wrong>
    ensures { result ≡ read_assemble (words_of words.entry.line.now) }
{
    let mut values = words;
    if values.next().is_none() {
        return Ok(Line::Assemble { uuid: None });
    }
    let uuid = uuid_at(words)?;
    end_of(after_first(words), Line::Assemble { uuid: Some(uuid) })
}

// What a line asks by the words behind its first.
fn read_verb(verb: Verb, words: Words<'_>) -> Result<Line, Wrong>
    ensures { result ≡ read_verb verb (words_of words.entry.line.now) }
{
    match verb {
        Verb::Create => read_create(words),
        Verb::Assemble => read_assemble(words),
        Verb::Read => read_read(words),
        Verb::Write => read_write(words),
        Verb::Flush => end_of(words, Line::Flush),
        Verb::Fail => {
            let role = small_at(words, Value::Role, 0, u32::MAX)?;
            end_of(after_first(words), Line::Fail { role })
        }
        Verb::Add => {
            let slot = small_at(words, Value::Slot, 0, u32::MAX)?;
            end_of(after_first(words), Line::Add { slot })
        }
        Verb::Step => {
            let most = small_at(words, Value::Steps, 1, u32::MAX)?;
            end_of(after_first(words), Line::Step { most })
        }
        Verb::Wait => end_of(words, Line::Wait),
        Verb::ArraySize => {
            let limit = limit_at(words)?;
            end_of(after_first(words), Line::ArraySize { limit })
        }
        Verb::Grow => grow_from(words),
        Verb::Stop => end_of(words, Line::Stop),
        Verb::Halt => end_of(words, Line::Halt),
        Verb::Detail => end_of(words, Line::Detail),
        Verb::Mdstat => end_of(words, Line::Mdstat),
        Verb::Examine => {
            let slot = small_at(words, Value::Slot, 0, u32::MAX)?;
            end_of(after_first(words), Line::Examine { slot })
        }
        Verb::Alerts => end_of(words, Line::Alerts),
    }
}

fn is_for_lanes(verb: Verb) -> bool
    ensures { result ≡ is_for_lanes_verb verb }
{
    matches!(verb, Verb::Read | Verb::Write | Verb::Flush | Verb::Fail)
}

// A line of this lane asks this.
fn asked_by(lane: Lane, asked: Result<Line, Wrong>) -> Result<Meaning, Wrong>
    ensures { result ≡ asked_by lane asked }
{
    match asked {
        Ok(line) => Ok(Meaning::Asks(lane, line)),
        Err(wrong) => Err(wrong),
    }
}

// What stands behind the name of a lane.
fn read_lane(lane: Lane, words: Words<'_>) -> Result<Meaning, Wrong>
    ensures { result ≡ read_lane lane (words_of words.entry.line.now) }
{
    let place = Place::Lane;
    let mut values = words;
    let Some(word) = values.next() else {
        return Err(wrong_at(words, 0, Mistake::Missing { value: Value::Word }));
    };
    match verb_named(word) {
        Some(verb) if is_for_lanes(verb) => asked_by(lane, read_verb(verb, values)),
        Some(_) => Err(wrong_at(words, 0, Mistake::WordElsewhere { place })),
        None => match block_word_named(word) {
            Some(_) => Err(wrong_at(words, 0, Mistake::WordElsewhere { place })),
            None => Err(wrong_at(words, 0, Mistake::UnknownWord { place })),
        },
    }
}

// A line outside a block.
fn read_outside(words: Words<'_>) -> Result<Meaning, Wrong>
    ensures { result ≡ read_outside (words_of words.entry.line.now) }
{
    let place = Place::Outside;
    let mut values = words;
    let Some(word) = values.next() else {
        return Err(wrong_at(words, 0, Mistake::Missing { value: Value::Word }));
    };
    match verb_named(word) {
        Some(verb) => asked_by(Lane::Script, read_verb(verb, values)),
        None => match block_word_named(word) {
            Some(BlockWord::Together) => end_of(values, Meaning::Opens),
            Some(_) => Err(wrong_at(words, 0, Mistake::WordElsewhere { place })),
            None => Err(wrong_at(words, 0, Mistake::UnknownWord { place })),
        },
    }
}

// A line of a block.
fn read_inside(words: Words<'_>) -> Result<Meaning, Wrong>
    ensures { result ≡ read_inside (words_of words.entry.line.now) }
{
    let place = Place::Block;
    let mut values = words;
    let Some(word) = values.next() else {
        return Err(wrong_at(words, 0, Mistake::Missing { value: Value::Word }));
    };
    match block_word_named(word) {
        Some(BlockWord::A) => read_lane(Lane::A, values),
        Some(BlockWord::B) => read_lane(Lane::B, values),
        Some(BlockWord::End) => end_of(values, Meaning::Asks(Lane::Worker, Line::Wait)),
        Some(BlockWord::Together) => Err(wrong_at(words, 0, Mistake::WordElsewhere { place })),
        None => match verb_named(word) {
            Some(_) => Err(wrong_at(words, 0, Mistake::WordElsewhere { place })),
            None => Err(wrong_at(words, 0, Mistake::UnknownWord { place })),
        },
    }
}

// What a line of words means, inside a block or outside.
fn read_words(inside: bool, words: Words<'_>) -> Result<Meaning, Wrong>
    ensures { result ≡ read_words inside (words_of words.entry.line.now) }
{
    if inside {
        read_inside(words)
    } else {
        read_outside(words)
    }
}

// Where the first byte stands that a line may not have.
fn first_bad_byte(text: &[u8]) -> Option<usize>
    ensures { result ≡ position (λ b. not (nat_le 32 b && nat_le b 126)) text.now }
{
    text.iter().position(|byte| !(32..=126).contains(byte))
}

// Lines without a byte, of spaces alone, or that begin with `#`.
fn is_passed_over(text: &[u8]) -> bool
    ensures { result ≡ is_passed_over text.now }
{
    is_blank(text) || is_comment(text)
}

fn is_blank(text: &[u8]) -> bool
    ensures { result ≡ list_all is_space text.now }
{
    text.iter().all(|byte| *byte == b' ')
}

fn is_comment(text: &[u8]) -> bool
    ensures { result ≡ (slice_index text.now 0 == 35) }
{
    matches!(text, [b'#', ..])
}

/// What this line of the text means, inside a block or outside, or what is wrong with it.
pub fn read_line(inside: bool, text: &[u8]) -> Result<Meaning, Diagnosis>
    ensures meaning { IfOk result (λ meaning. meaning ≡ meaning_of inside text.now) }
    ensures bad { IsErr result ↔ (meaning_of inside text.now ≡ Meaning.Bad) }
    ensures diagnosis { IfErr result (λ d. IsDiagnosis inside text.now d.column d.width d.mistake) }
{
    if let Some(column) = first_bad_byte(text) {
        let byte = text[column];
        return Err(Diagnosis {
            column,
            width: 1,
            mistake: Mistake::BadByte { byte },
        });
    }
    if is_passed_over(text) {
        return Ok(Meaning::PassedOver);
    }
    match read_words(inside, Words::of(text)) {
        Ok(meaning) => Ok(meaning),
        Err(wrong) => Err(place_of(text, wrong)),
    }
}

/// What is wrong with this line of the text, inside a block or outside; nothing exactly where it means something.
pub fn diagnose_line(inside: bool, text: &[u8]) -> Option<Diagnosis>
    ensures bad { IsSome result ↔ (meaning_of inside text.now ≡ Meaning.Bad) }
    ensures diagnosis { IfSome result (λ d. IsDiagnosis inside text.now d.column d.width d.mistake) }
{
    match read_line(inside, text) {
        Ok(_) => None,
        Err(diagnosis) => Some(diagnosis),
    }
}

/// What this line of the text means, inside a block or outside.
pub fn meaning_of_line(inside: bool, text: &[u8]) -> Meaning
    ensures { result ≡ meaning_of inside text.now }
{
    match read_line(inside, text) {
        Ok(meaning) => meaning,
        Err(_) => Meaning::Bad,
    }
}
