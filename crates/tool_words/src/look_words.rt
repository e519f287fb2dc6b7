//! The words of the run by which files are looked at.

ghost use Rattle.std.specs.Prelude.{◌≡◌, ◌++◌, ◌∷◌, [], map, drop, codes, string_bytes, IfOk, OnOk};

use std::alloc::{AllocError, Global};

// Appends a copy of the word.
fn push_word(alloc: Global, words: &mut Vec<String>, word: &str) -> Result<(), AllocError>
    ensures { OnOk result (map string_bytes words.new.items ≡ map string_bytes words.old.items ++ word.now ∷ []) }
{
    let copy = String::from_str(alloc, word)?;
    words.push(copy)?;
    Ok(())
}

// Appends copies of these words.
fn push_words(alloc: Global, words: &mut Vec<String>, more: &[String]) -> Result<(), AllocError>
    ensures { OnOk result (map string_bytes words.new.items ≡ map string_bytes words.old.items ++ map string_bytes more.now) }
{
    for i in 0..more.len() {
        push_word(alloc, words, more[i].as_str())?;
    }
    Ok(())
}

/// The words of a run over the files that these words name behind the first, with a script that the program has itself.
pub fn run_words(alloc: Global, words: &[String]) -> Result<Vec<String>, AllocError>
    ensures { IfOk result (λ run. map string_bytes run.items ≡ codes "run" ∷ codes "-" ∷ drop 1 (map string_bytes words.now)) }
{
    let mut run = Vec::new(alloc);
    push_word(alloc, &mut run, "run")?;
    push_word(alloc, &mut run, "-")?;
    match words {
        [] => {}
        [_, more @ ..] => push_words(alloc, &mut run, more)?,
    }
    Ok(run)
}
