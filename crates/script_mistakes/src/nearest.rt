//! The word that may have been meant.

ghost use Rattle.std.specs.Prelude.{◌≡◌, ◌==◌, ◌||◌, ◌&&◌, not, is_some, nat_lt, map, IfOk};
ghost use Rattle.script_mistakes.specs.Nearest.{IsNearest};

use std::alloc::{AllocError, Global};
use strsim::generic_levenshtein;

// Whether a name is nearer than the one that was found, or the first that is near enough.
fn is_nearer(letters: usize, least: usize, found: Option<usize>) -> bool
    ensures { result ≡ nat_lt letters least || (letters == least && not (is_some found)) }
{
    letters < least || (letters == least && found.is_none())
}

/// Which of these names is nearest to a word, by the letters that are to be put in, left out or changed, `most` of them at most. The first of several.
pub fn nearest(
    alloc: Global,
    word: &[u8],
    names: &[&[u8]],
    most: usize,
) -> Result<Option<usize>, AllocError>
    ensures { IfOk result (λ found. IsNearest word.now (map (λ name. name.now) names.now) most found) }
{
    let mut found = None;
    let mut least = most;
    for index in 0..names.len() {
        let letters = generic_levenshtein(alloc, word, names[index])?;
        if is_nearer(letters, least, found) {
            least = letters;
            found = Some(index);
        }
    }
    Ok(found)
}
