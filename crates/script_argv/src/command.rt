//! The command that the words name.

ghost use Rattle.std.specs.Prelude.{◌≡◌, true, false, map, option_map, string_bytes, IfOk, IfSome, OnErr};
ghost use Rattle.script_demo.specs.Demo.{IsDemoSize};
ghost use Rattle.script_argv.specs.Words.{asked_by, command_in, is_memory, is_run, is_demo, is_parsed, demo_for};

use crate::paths::{Paths, paths_of};
use crate::sizes::demo_size;
use script_words::NoMemory;
use std::alloc::Global;

/// What the words ask the program to do.
#[derive(Drop)]
pub enum Command {
    /// A script from standard input, over members in memory.
    Memory,
    /// A script from a file, over image files.
    Run(Paths),
    /// The script of a demo of this size, 1 to 64, over members in memory.
    Demo(u64),
}

// Whether the words are `memory`, alone.
fn is_memory(words: &[String]) -> bool
    ensures { result ≡ is_memory (map string_bytes words.now) }
{
    match words {
        [word] => word.as_str() == "memory",
        _ => false,
    }
}

// Whether the first word is `run`.
fn is_run(words: &[String]) -> bool
    ensures { result ≡ is_run (map string_bytes words.now) }
{
    match words {
        [word, ..] => word.as_str() == "run",
        [] => false,
    }
}

// Whether the first word is `demo`.
fn is_demo(words: &[String]) -> bool
    ensures { result ≡ is_demo (map string_bytes words.now) }
{
    match words {
        [word, ..] => word.as_str() == "demo",
        [] => false,
    }
}

// The run that the words name.
fn run_of(alloc: Global, words: &[String]) -> Result<Option<Command>, NoMemory>
    requires other { is_memory (map string_bytes words.now) ≡ false }
    requires run { is_run (map string_bytes words.now) ≡ true }
    ensures named { IfOk result (λ found. option_map asked_by found ≡ command_in (map string_bytes words.now)) }
    ensures few { IfOk result (λ found. IfSome found (λ command. IfSome (demo_for (asked_by command)) IsDemoSize)) }
{
    match paths_of(alloc, words) {
        Ok(Some(paths)) => Ok(Some(Command::Run(paths))),
        Ok(None) => Ok(None),
        Err(none) => Err(none),
    }
}

// The demo that the words name.
fn demo_of(alloc: Global, words: &[String]) -> Result<Option<Command>, NoMemory>
    requires other { is_memory (map string_bytes words.now) ≡ false }
    requires no_run { is_run (map string_bytes words.now) ≡ false }
    requires demo { is_demo (map string_bytes words.now) ≡ true }
    ensures named { IfOk result (λ found. option_map asked_by found ≡ command_in (map string_bytes words.now)) }
    ensures few { IfOk result (λ found. IfSome found (λ command. IfSome (demo_for (asked_by command)) IsDemoSize)) }
{
    match demo_size(alloc, words) {
        Ok(Some(size)) => Ok(Some(Command::Demo(size))),
        Ok(None) => Ok(None),
        Err(none) => Err(none),
    }
}

/// The command that the words name, and `None` where they are no command's form. Memory is wanted for words that begin with `run`
/// or `demo` alone.
pub fn command_of(alloc: Global, words: &[String]) -> Result<Option<Command>, NoMemory>
    ensures named { IfOk result (λ found. option_map asked_by found ≡ command_in (map string_bytes words.now)) }
    ensures few { IfOk result (λ found. IfSome found (λ command. IfSome (demo_for (asked_by command)) IsDemoSize)) }
    ensures short { OnErr result (is_parsed (map string_bytes words.now) ≡ true) }
{
    if is_memory(words) {
        return Ok(Some(Command::Memory));
    }
    if is_run(words) {
        return run_of(alloc, words);
    }
    if !is_demo(words) {
        return Ok(None);
    }
    demo_of(alloc, words)
}
