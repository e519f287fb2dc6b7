//! The size of a demo that the words after `demo` name.

ghost use Rattle.std.specs.Prelude.{◌≡◌, map, string_bytes, IfOk, IfSome};
ghost use Rattle.clap.specs.Words.{found_of, rows_of};
ghost use Rattle.script_demo.specs.Demo.{IsDemoSize};
ghost use Rattle.script_argv.specs.Words.{size_of, size_found, size_in};

use crate::parsing::parse_demo;
use clap::ArgMatches;
use script_words::{NoMemory, number};
use std::alloc::Global;

/// The largest demo.
pub const MOST_SIZE: u64 = 64;

// The size that a word writes.
fn size_of(word: &str) -> Option<u64>
    ensures named { result ≡ size_of word.now }
    ensures few { IfSome result IsDemoSize }
{
    let size = number(word.as_bytes())?;
    if 1 <= size && size <= MOST_SIZE {
        Some(size)
    } else {
        None
    }
}

// The size that the parser found.
fn found_size<'a>(matches: &ArgMatches<'a>) -> Option<u64>
    ensures named { result ≡ size_found (rows_of (found_of matches.now)) }
    ensures few { IfSome result IsDemoSize }
{
    let Some(word) = matches.get_str("N") else {
        return None;
    };
    size_of(word)
}

/// The size that the words name, the first of which is `demo`, and `None` where they are not of its form.
pub fn demo_size(alloc: Global, words: &[String]) -> Result<Option<u64>, NoMemory>
    ensures named { IfOk result (λ found. found ≡ size_in (map string_bytes words.now)) }
    ensures few { IfOk result (λ found. IfSome found IsDemoSize) }
{
    match parse_demo(alloc, words) {
        Ok(Some(matches)) => Ok(found_size(&matches)),
        Ok(None) => Ok(None),
        Err(none) => Err(none),
    }
}
