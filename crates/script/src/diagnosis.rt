//! What is wrong with a line that means nothing, and where.

ghost use Rattle.std.specs.Prelude.{◌≡◌, ◌+◌, ◌-◌, ◌≤◌, length, take, drop, slice_index_or, not, position, unwrap_or, []};
ghost use Rattle.script_words.specs.Numbers.{is_space, words_of};
ghost use Rattle.script.specs.Mistakes.{StandsAt};

use crate::mistakes::{Mistake, Wrong};
use crate::reader::count_words;
use script_words::{Words, first_other, first_space};

/// What is wrong with a line, and where: at the bytes from `column` on, `width` of them. Where something is missing at the line's end, there are none.
#[derive(Clone, Copy, Debug, PartialEq, Eq)]
pub struct Diagnosis {
    pub column: usize,
    pub width: usize,
    pub mistake: Mistake,
}

// The line from its first byte on that is no space.
fn behind_spaces(line: &[u8]) -> &[u8]
    ensures found { result.now ≡ drop (unwrap_or (position (λ b. not (is_space b)) line.now) (length line.now)) line.now }
    ensures tail { result.now ≡ drop (length line.now - length result.now) line.now }
    ensures within { length result.now ≤ length line.now }
{
    let start = first_other(line).unwrap_or(line.len());
    let (_, found) = line.split_at(start);
    found
}

// How long the word is with which a line begins.
fn first_len(line: &[u8]) -> usize
    ensures value { result ≡ unwrap_or (position is_space line.now) (length line.now) }
    ensures within { result ≤ length line.now }
{
    first_space(line).unwrap_or(line.len())
}

// The line behind its first word.
fn behind_word(line: &[u8]) -> &[u8]
    ensures words { words_of result.now ≡ drop 1 (words_of line.now) }
    ensures tail { result.now ≡ drop (length line.now - length result.now) line.now }
    ensures within { length result.now ≤ length line.now }
{
    let found = behind_spaces(line);
    let (_, rest) = found.split_at(first_len(found));
    rest
}

/// Where the word stands of which so many are left, and what of it is wrong.
pub fn place_of(text: &[u8], wrong: Wrong) -> Diagnosis
    ensures place { StandsAt text.now (length (words_of text.now) - wrong.left) wrong.skip result.column result.width }
    ensures mistake { result.mistake ≡ wrong.mistake }
{
    let mut line = text;
    let mut more = count_words(Words::of(text));
    while more > wrong.left {
        line = behind_word(line);
        more -= 1;
    }
    let found = behind_spaces(line);
    let width = first_len(found);
    let skip = wrong.skip.min(width);
    Diagnosis {
        column: text.len() - found.len() + skip,
        width: width - skip,
        mistake: wrong.mistake,
    }
}
