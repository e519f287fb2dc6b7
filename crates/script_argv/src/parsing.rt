//! The words after `run` and after `demo`, as the parser of command lines takes them.

ghost use Rattle.std.specs.Prelude.{◌≡◌, ◌≢◌, true, map, string_bytes, IfOk, IsTrue, IsFalse};
ghost use Rattle.clap.specs.Words.{app_of, kind_of, is_simple, is_simple_and_free};
ghost use Rattle.script_argv.specs.Words.{run_app, demo_app, IsParsedAs};

use clap::error::ErrorKind;
use clap::{Arg, ArgAction, ArgMatches, Command, Error};
use script_words::NoMemory;
use std::alloc::{AllocError, Global};

// The form of the words: an option with a value, a positional, and a last positional with several values.
fn run_form<'a>(alloc: Global) -> Result<Command<'a>, AllocError>
    ensures { IfOk result (λ c. app_of c ≡ run_app) }
{
    let backup = Arg::new(alloc, "backup")
        .long("backup")
        .action(ArgAction::Set);
    let script = Arg::new(alloc, "SCRIPT")
        .required(true)
        .action(ArgAction::Set);
    let image = Arg::new(alloc, "IMAGE")
        .required(true)
        .action(ArgAction::Append);
    let command = Command::new(alloc, "run")
        .arg(backup)?
        .arg(script)?
        .arg(image)?;
    Ok(command)
}

// Whether memory was short.
fn is_short(error: &Error) -> bool
    ensures yes { IsTrue result → kind_of error.now ≡ ErrorKind.OutOfMemory }
    ensures no { IsFalse result → kind_of error.now ≢ ErrorKind.OutOfMemory }
{
    match error.kind() {
        ErrorKind::OutOfMemory => true,
        _ => false,
    }
}

// The form of the words: one positional.
fn demo_form<'a>(alloc: Global) -> Result<Command<'a>, AllocError>
    ensures { IfOk result (λ c. app_of c ≡ demo_app) }
{
    let size = Arg::new(alloc, "N").required(true).action(ArgAction::Set);
    let command = Command::new(alloc, "demo").arg(size)?;
    Ok(command)
}

// What is found in the words by this form, and `None` where they are not of it.
fn parse<'a>(form: Command<'a>, words: &'a [String]) -> Result<Option<ArgMatches<'a>>, NoMemory>
    requires simple { is_simple (app_of form) ≡ true }
    requires free { is_simple_and_free (app_of form) ≡ true }
    ensures { IfOk result (λ found. IsParsedAs (app_of form.entry) (map string_bytes words.now) found) }
{
    match form.try_get_matches_from(words) {
        Ok(matches) => Ok(Some(matches)),
        Err(error) => {
            if is_short(&error) {
                Err(NoMemory {})
            } else {
                Ok(None)
            }
        }
    }
}

/// What is found in the words, the first of which is `run`, and `None` where they are not of the form.
pub fn parse_run<'a>(alloc: Global, words: &'a [String]) -> Result<Option<ArgMatches<'a>>, NoMemory>
    ensures { IfOk result (λ found. IsParsedAs run_app (map string_bytes words.now) found) }
{
    match run_form(alloc) {
        Ok(form) => parse(form, words),
        Err(_) => Err(NoMemory {}),
    }
}

/// What is found in the words, the first of which is `demo`, and `None` where they are not of the form.
pub fn parse_demo<'a>(
    alloc: Global,
    words: &'a [String],
) -> Result<Option<ArgMatches<'a>>, NoMemory>
    ensures { IfOk result (λ found. IsParsedAs demo_app (map string_bytes words.now) found) }
{
    match demo_form(alloc) {
        Ok(form) => parse(form, words),
        Err(_) => Err(NoMemory {}),
    }
}
