//! The paths that the words after `run` name.

ghost use Rattle.std.specs.Prelude.{◌≡◌, ◌++◌, [], ◌∷◌, Some, map, option_map, string_bytes, IfOk};
ghost use Rattle.clap.specs.Words.{found_of, rows_of};
ghost use Rattle.script_argv.specs.Words.{told_by, is_few, listed, paths_from, paths_found, paths_in};

use crate::parsing::parse_run;
use clap::ArgMatches;
use script_words::NoMemory;
use std::alloc::Global;

/// The paths of a script and of the files that it is performed on, one for each slot. The backup is the last, where there is
/// one.
#[derive(Drop)]
pub struct Paths {
    pub script: String,
    pub slots: Vec<String>,
    pub has_backup: bool,
}

const MOST_IMAGES: usize = 31;

// The same text in memory of its own.
fn copy(alloc: Global, text: &str) -> Result<String, NoMemory>
    ensures { IfOk result (λ copy. string_bytes copy ≡ text.now) }
{
    match String::from_str(alloc, text) {
        Ok(copy) => Ok(copy),
        Err(_) => Err(NoMemory {}),
    }
}

// Appends the same text.
fn push_copy(alloc: Global, text: &str, into: &mut Vec<String>) -> Result<(), NoMemory>
    ensures { IfOk result (λ done. map string_bytes into.new.items ≡ map string_bytes into.old.items ++ text.now ∷ []) }
{
    let copy = match copy(alloc, text) {
        Ok(copy) => copy,
        Err(none) => return Err(none),
    };
    match into.push(copy) {
        Ok(()) => Ok(()),
        Err(_) => Err(NoMemory {}),
    }
}

// Appends the same texts, one after another.
#[tactic(auto, using(crate::proofs::Named::copied_all))]
fn push_copies(alloc: Global, texts: &[&str], into: &mut Vec<String>) -> Result<(), NoMemory>
    ensures { IfOk result (λ done. map string_bytes into.new.items ≡ map string_bytes into.old.items ++ map (λ t. t.now) texts.now) }
{
    for i in 0..texts.len() {
        match push_copy(alloc, texts[i], into) {
            Ok(()) => {}
            Err(none) => return Err(none),
        }
    }
    Ok(())
}

// Appends the same text, if there is one.
fn push_backup(alloc: Global, backup: Option<&str>, into: &mut Vec<String>) -> Result<(), NoMemory>
    ensures { IfOk result (λ done. map string_bytes into.new.items ≡ map string_bytes into.old.items ++ listed (option_map (λ t. t.now) backup.entry)) }
{
    match backup {
        Some(path) => push_copy(alloc, path, into),
        None => Ok(()),
    }
}

// A path for each slot.
fn slots_of(alloc: Global, images: &[&str], backup: Option<&str>) -> Result<Vec<String>, NoMemory>
    ensures { IfOk result (λ slots. map string_bytes slots.items ≡ map (λ t. t.now) images.now ++ listed (option_map (λ t. t.now) backup.entry)) }
{
    let mut slots = Vec::new(alloc);
    match push_copies(alloc, images, &mut slots) {
        Ok(()) => {}
        Err(none) => return Err(none),
    }
    match push_backup(alloc, backup, &mut slots) {
        Ok(()) => Ok(slots),
        Err(none) => Err(none),
    }
}

// Whether there may be so many images.
fn is_few(images: usize) -> bool
    ensures { result ≡ is_few images }
{
    1 <= images && images <= MOST_IMAGES
}

// The paths that these words name, if there are 1 to 31 images.
#[tactic(auto, using(crate::proofs::Named::none_named, crate::proofs::Named::some_named))]
fn new_paths(
    alloc: Global,
    script: &str,
    images: &[&str],
    backup: Option<&str>,
) -> Result<Option<Paths>, NoMemory>
    ensures { IfOk result (λ found. option_map told_by found ≡ paths_from (Some script.now) (map (λ t. t.now) images.now) (option_map (λ t. t.now) backup.entry)) }
{
    if !is_few(images.len()) {
        return Ok(None);
    }
    let slots = match slots_of(alloc, images, backup) {
        Ok(slots) => slots,
        Err(none) => return Err(none),
    };
    match copy(alloc, script) {
        Ok(script) => Ok(Some(Paths {
            script,
            slots,
            has_backup: backup.is_some(),
        })),
        Err(none) => Err(none),
    }
}

// The paths that the parser found.
fn found_paths<'a>(alloc: Global, matches: &ArgMatches<'a>) -> Result<Option<Paths>, NoMemory>
    ensures { IfOk result (λ found. option_map told_by found ≡ paths_found (rows_of (found_of matches.now))) }
{
    let Some(script) = matches.get_str("SCRIPT") else {
        return Ok(None);
    };
    let Some(images) = matches.get_strs("IMAGE") else {
        return Ok(None);
    };
    new_paths(alloc, script, images, matches.get_str("backup"))
}

/// The paths that the words name, the first of which is `run`, and `None` where they are not of its form.
pub fn paths_of(alloc: Global, words: &[String]) -> Result<Option<Paths>, NoMemory>
    ensures { IfOk result (λ found. option_map told_by found ≡ paths_in (map string_bytes words.now)) }
{
    match parse_run(alloc, words) {
        Ok(Some(matches)) => found_paths(alloc, &matches),
        Ok(None) => Ok(None),
        Err(none) => Err(none),
    }
}
