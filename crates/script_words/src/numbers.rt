//! The words of a line, and the numbers that they write.

ghost use Rattle.std.specs.Prelude.{◌≡◌, ◌≤◌, ◌^◌, length, not, position, unwrap_or};
ghost use Rattle.std.specs.Iterator.{YieldsFirstRef, item_count};
ghost use Rattle.script_words.specs.Numbers.{is_space, words_of, number_below};

/// The words that are left of a line.
#[derive(Clone, Copy)]
pub struct Words<'a> {
    pub line: &'a [u8],
}

impl<'a> Words<'a> {
    /// All the words of this line.
    pub fn of(line: &'a [u8]) -> Self
        ensures { result.line.now ≡ line.now }
    {
        Words { line }
    }
}

impl<'a> Iterator for Words<'a> {
    type Item = &'a [u8];

    ghost next_gives = { YieldsFirstRef (λ s. words_of s.line.now) };

    ghost remaining = { item_count (λ s. words_of s.line.now) };

    fn next(&mut self) -> Option<&'a [u8]> {
        let start = first_other(self.line)?;
        let (_, found) = self.line.split_at(start);
        let end = first_space(found).unwrap_or(found.len());
        let (word, rest) = found.split_at(end);
        self.line = rest;
        Some(word)
    }
}

/// Where the first byte stands that is no space.
pub fn first_other(line: &[u8]) -> Option<usize>
    ensures { result ≡ position (λ b. not (is_space b)) line.now }
{
    line.iter().position(|byte| *byte != b' ')
}

/// Where the first space stands.
pub fn first_space(line: &[u8]) -> Option<usize>
    ensures { result ≡ position is_space line.now }
{
    line.iter().position(|byte| *byte == b' ')
}

/// The number below 2^64 that a word writes, if it writes one.
pub fn number(word: &[u8]) -> Option<u64>
    ensures { result ≡ number_below (2 ^ 64) word.now }
{
    if word.is_empty() || (word[0] == b'0' && word.len() > 1) {
        return None;
    }
    let mut value = 0u64;
    for byte in word {
        if !byte.is_ascii_digit() {
            return None;
        }
        value = value.checked_mul(10)?.checked_add(u64::from(*byte - b'0'))?;
    }
    Some(value)
}

/// The number below 2^32 that a word writes, if it writes one.
pub fn small_number(word: &[u8]) -> Option<u32>
    ensures { result ≡ number_below (2 ^ 32) word.now }
{
    let value = number(word)?;
    if value > 0xffff_ffff {
        return None;
    }
    Some(value as u32)
}
