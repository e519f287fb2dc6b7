//! The program: makes the source, the sink and the bank that its words ask for, runs, and ends with the run's status.
#![tactic(auto)]

ghost use Rattle.std.specs.Prelude.{◌≡◌, ◌≤◌, length, map, string_bytes, Some, None, IfOk, IfSome};
ghost use Rattle.script_argv.specs.Words.{command_in, slots_for};
ghost use Rattle.script_argv.specs.Words.Asked.{Memory as IsMemory, Demo as IsDemo};

mod ended;
mod files;
mod looks;

use bank::{Bank, MemoryBank};
use ended::{BAD_WORDS, CANNOT_WRITE, Ended, NO_MEMORY, bad_words, say, tell, unreadable_words};
use files::run_files;
use looks::look_by;
use run_command::{Hook, Pace, run};
use script_argv::{Command, command_of};
use script_io::{MemorySource, Source, StdSink, StdSource};
use script_kept::KeptSource;
use std::alloc::{AllocError, Global};
use std::fs::{File, Files};
use std::process::ExitCode;
use std::rt::Env;
use std::sync::Wait;
use std::thread::Threads;
use std::{env, io};
use tool_layout::{picture, shape_of};
use tool_words::{Tool, VERSION, help_text, take_quiet, tool_of};

// A bank in memory: seven members and the backup.
const SLOTS: usize = 8;

// The sectors of each slot.
const SECTORS: u64 = 6_144;

// The operations that the bank's tape has room for.
const ROOM: u64 = 262_144;

// The bank of a demo: its members, and the sectors of its backup, which has room for a window.
const DEMO_MEMBERS: usize = 5;

const DEMO_BACKUP: u64 = 104;

// How many of the steps that are left a turn of background work does.
fn steps(_turn: u64, left: u64) -> u64
    ensures low { 1 ≤ result }
    ensures high { result ≤ 64 }
{
    if left < 16 { 1 } else { 16 }
}

fn memory_bank(alloc: Global) -> Result<MemoryBank, AllocError>
    ensures { IfOk result (λ bank. length bank.start ≡ 8) }
{
    let lengths = vec![in alloc; SECTORS; SLOTS]?;
    MemoryBank::new(alloc, lengths, ROOM, Vec::new(alloc))
}

fn demo_bank(alloc: Global, size: u64) -> Result<MemoryBank, AllocError>
    requires some { 1 ≤ size }
    requires few { size ≤ 64 }
    ensures { IfOk result (λ bank. length bank.start ≡ 6) }
{
    let mut lengths = vec![in alloc; 16 + 64 * size; DEMO_MEMBERS]?;
    lengths.push(DEMO_BACKUP)?;
    MemoryBank::new(alloc, lengths, 2_048 * size + 16_384, Vec::new(alloc))
}

// Runs over this bank in memory, as the words ask.
fn run_over<
    B: Bank + Drop + Send,
    S: Source + Drop,
    R: Print + AllocGlobal + Threads + Wait + Sync,
>(rt: &R, words: &[String], source: S, bank: B) -> Ended
    requires { IfSome (command_in (map string_bytes words.now)) (λ command. (B.given bank).slots ≡ slots_for command) }
{
    let alloc = rt.alloc();
    let mut script = KeptSource::new(alloc, source);
    let mut sink = StdSink::new(io::writer(rt));
    let pace = Pace::new(|turn, left| steps(turn, left));
    let hook = Hook::new(|_, _| true);
    let report = run(rt, alloc, words, &mut script, &mut sink, bank, pace, hook);
    Ended::of(alloc, report, &script)
}

// Words that are no command's form open nothing.
fn run_without_command<R: Print + AllocGlobal + Threads + Wait + Sync>(
    rt: &R,
    words: &[String],
) -> Result<Ended, AllocError>
    requires { command_in (map string_bytes words.now) ≡ None }
{
    let alloc = rt.alloc();
    let source = MemorySource::new(Vec::new(alloc), Vec::new(alloc));
    let bank = MemoryBank::new(alloc, Vec::new(alloc), 0, Vec::new(alloc))?;
    let ended = run_over(rt, words, source, bank);
    if ended.status == BAD_WORDS {
        return Ok(bad_words(alloc, words));
    }
    Ok(ended)
}

fn run_memory<R: Input + Print + AllocGlobal + Threads + Wait + Sync>(
    rt: &R,
    words: &[String],
) -> Result<Ended, AllocError>
    requires { command_in (map string_bytes words.now) ≡ Some IsMemory }
{
    let alloc = rt.alloc();
    let source = StdSource::new(rt.reader());
    let bank = memory_bank(alloc)?;
    Ok(run_over(rt, words, source, bank))
}

// A demo reads no script.
fn run_demo<R: Print + AllocGlobal + Threads + Wait + Sync>(
    rt: &R,
    words: &[String],
    size: u64,
) -> Result<Ended, AllocError>
    requires asked { command_in (map string_bytes words.now) ≡ Some (IsDemo size) }
    requires some { 1 ≤ size }
    requires few { size ≤ 64 }
{
    let alloc = rt.alloc();
    let source = MemorySource::new(Vec::new(alloc), Vec::new(alloc));
    let bank = demo_bank(alloc, size)?;
    Ok(run_over(rt, words, source, bank))
}

// What words ask for that is no run.
fn run_tool<R: Files<File = File> + Print + Eprint + AllocGlobal + Threads + Wait + Sync>(
    rt: &R,
    words: &[String],
    tool: Tool,
) -> Result<Ended, AllocError> {
    match tool {
        Tool::Help(topic) => Ok(say(rt, help_text(topic))),
        Tool::Version => Ok(say(rt, VERSION)),
        Tool::Examine => look_by(rt, words, false),
        Tool::Detail => look_by(rt, words, true),
        Tool::Layout => draw(rt, words),
    }
}

// Draws the first stripes of an array whose shape stands behind the first word.
fn draw<R: Print + AllocGlobal>(rt: &R, words: &[String]) -> Result<Ended, AllocError> {
    let alloc = rt.alloc();
    let keys = match words {
        [_, keys @ ..] => keys,
        [] => words,
    };
    let Some(shape) = shape_of(alloc, keys)? else {
        return Ok(bad_words(alloc, words));
    };
    let drawn = picture(alloc, &shape)?;
    match str::from_utf8(drawn.as_slice()) {
        Ok(text) => Ok(say(rt, text)),
        Err(_) => Ok(Ended::with(CANNOT_WRITE)),
    }
}

fn words_of<R: Env + AllocGlobal>(rt: &R) -> io::Result<Vec<String>> {
    let mut words = Vec::new(rt.alloc());
    for word in env::args(rt)?.skip(1) {
        words.push(word)?;
    }
    Ok(words)
}

fn perform<
    R: Env + Files<File = File> + Input + Print + Eprint + AllocGlobal + Threads + Wait + Sync,
>(rt: &R) -> io::Result<Ended> {
    let mut words = words_of(rt)?;
    let is_quiet = take_quiet(&mut words);
    match command_of(rt.alloc(), &words) {
        Ok(Some(Command::Memory)) => Ok(run_memory(rt, &words)?),
        Ok(Some(Command::Run(paths))) => Ok(run_files(rt, &words, &paths, is_quiet)),
        Ok(Some(Command::Demo(size))) => Ok(run_demo(rt, &words, size)?),
        Ok(None) => match tool_of(&words) {
            Some(tool) => Ok(run_tool(rt, &words, tool)?),
            None => Ok(run_without_command(rt, &words)?),
        },
        Err(_) => Ok(Ended::with(NO_MEMORY)),
    }
}

fn main(rt: HostRuntime) -> ExitCode {
    let ended = match perform(&rt) {
        Ok(ended) => ended,
        Err(error) if error.kind() == io::ErrorKind::OutOfMemory => Ended::with(NO_MEMORY),
        Err(_) => unreadable_words(rt.alloc()),
    };
    let _ = tell(&rt, &ended);
    ExitCode::from(ended.status)
}
