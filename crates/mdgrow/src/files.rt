//! A script over image files.

ghost use Rattle.std.specs.Prelude.{◌≡◌, map, string_bytes, Some};
ghost use Rattle.script_argv.specs.Words.{command_in, told_by};
ghost use Rattle.script_argv.specs.Words.Asked.{Run as IsRun};

use crate::ended::{CANNOT_READ, Ended, NO_MEMORY, cannot_open, cannot_take, tell_lines};
use crate::looks::{MOST_SLOTS, look};
use crate::steps;
use bank::Bank;
use bank_file::{FileBank, ImageFile};
use run_command::{Hook, Pace, Report, TextFault, read_text, run_over_devices};
use script_argv::Paths;
use script_io::{MemorySource, Source, StdSink, StdSource};
use script_kept::KeptSource;
use std::alloc::Global;
use std::fs::{File, Files};
use std::io;
use std::sync::Wait;
use std::thread::Threads;
use tool_files::{FileId, OpenFault, assemble_script, first_line, take_images};
use tool_losses::{push_losses, push_states};
use tool_warnings::{look_at, newest_for, push_locks, push_warnings, superblocks};

// Opens the script, which may be a FIFO, and tells which file it is.
fn open_script<R: Files<File = File>>(rt: &R, path: &str) -> io::Result<(File, FileId)> {
    let script = File::open(rt, path)?;
    let found = script.metadata()?;
    Ok((script, FileId::of(&found)))
}

// Tells which slots failed.
fn tell_failed<R: Eprint>(rt: &R, paths: &Paths, bank: &FileBank<ImageFile>) -> io::Result<()> {
    for slot in 0..bank.slots() {
        if bank.faults(slot) > 0
            && let Some(path) = paths.slots.get(slot as usize)
        {
            if paths.has_backup && slot as usize + 1 == paths.slots.len() {
                eprintln!(rt; "mdgrow: the backup ({path}) failed")?;
            } else {
                eprintln!(rt; "mdgrow: slot {slot} ({path}) failed")?;
            }
        }
    }
    Ok(())
}

// Tells which members were lost, and gives the UUID of the array that was opened last.
fn tell_lost<R: Files<File = File> + Eprint + AllocGlobal>(
    rt: &R,
    paths: &Paths,
    report: &Report<FileBank<ImageFile>>,
) -> io::Result<Option<[u8; 16]>> {
    let alloc = rt.alloc();
    let slots = look_at(rt, alloc, &paths.slots)?;
    let seen = superblocks(alloc, &slots)?;
    let mut lines = Vec::new(alloc);
    let mut last = None;
    for epoch in &report.epochs {
        let newest = newest_for(alloc, &seen, Some(epoch.uuid))?;
        push_losses(&mut lines, &epoch.entries, &slots, newest.as_ref())?;
        last = Some(epoch.uuid);
    }
    tell_failed(rt, paths, &report.bank)?;
    tell_lines(rt, lines.as_slice())?;
    Ok(last)
}

// Tells how the array was left, as the next assembly will find it: the files are only looked at.
fn tell_left<R: Files<File = File> + Eprint + AllocGlobal + Threads + Wait + Sync>(
    rt: &R,
    words: &[String],
    paths: &Paths,
    uuid: [u8; 16],
) -> io::Result<()>
    requires { command_in (map string_bytes words.now) ≡ Some (IsRun (told_by paths.now)) }
{
    if paths.slots.len() > MOST_SLOTS {
        return Ok(());
    }
    let alloc = rt.alloc();
    let text = assemble_script(alloc, uuid)?;
    let mut told = Vec::new(alloc);
    let Ok(report) = look(rt, words, paths, text, &mut StdSink::new(&mut told)) else {
        return Ok(());
    };
    let mut lines = Vec::new(alloc);
    for epoch in &report.epochs {
        push_states(&mut lines, &epoch.entries)?;
    }
    tell_lines(rt, lines.as_slice())?;
    match told.as_slice() {
        [b'r', b'e', b'f', b'u', b's', b'e', b'd', b' ', refusal @ ..] => {
            eprint!(rt; "mdgrow: the next assembly is refused: ")?;
            tell_lines(rt, first_line(refusal))
        }
        _ => Ok(()),
    }
}

// Warns of what a script is about to do to the files, which are looked at, and of files that can't be locked.
fn warn<R: Files<File = File> + Eprint + AllocGlobal>(
    rt: &R,
    paths: &Paths,
    text: &[u8],
) -> io::Result<()> {
    let alloc = rt.alloc();
    let mut told = Vec::new(alloc);
    let mut slots = look_at(rt, alloc, &paths.slots)?;
    push_locks(&mut told, &slots)?;
    let backup = if paths.has_backup { slots.pop() } else { None };
    push_warnings(&mut told, alloc, text, &slots, backup.as_ref())?;
    tell_lines(rt, told.as_slice())
}

// Runs a script over image files, by the call for any devices. None of the files may be one that is taken already.
fn run_images<
    S: Source + Drop,
    R: Files<File = File> + Print + Eprint + AllocGlobal + Threads + Wait + Sync,
>(rt: &R, words: &[String], paths: &Paths, is_quiet: bool, source: S, taken: &[FileId]) -> Ended
    requires { command_in (map string_bytes words.now) ≡ Some (IsRun (told_by paths.now)) }
{
    let alloc = rt.alloc();
    let bank = match take_images(rt, alloc, &paths.slots, taken) {
        Ok(bank) => bank,
        Err(fault) => return cannot_take(rt, &paths.slots, fault),
    };
    let mut source = source;
    let text = match read_text(alloc, &mut source) {
        Ok(text) => text,
        Err(TextFault::Failed) => return Ended::with(CANNOT_READ),
        Err(TextFault::NoMemory) => return Ended::with(NO_MEMORY),
    };
    if !is_quiet {
        let _ = warn(rt, paths, &text);
    }
    let mut script = KeptSource::new(alloc, MemorySource::new(text, Vec::new(alloc)));
    let mut sink = StdSink::new(io::writer(rt));
    let pace = Pace::new(|turn, left| steps(turn, left));
    let hook = Hook::new(|_, _| true);
    let report = run_over_devices(rt, alloc, words, &mut script, &mut sink, bank, pace, hook);
    if is_quiet {
        return Ended::of(alloc, report, &script);
    }
    let last = tell_lost(rt, paths, &report);
    let ended = Ended::of(alloc, report, &script);
    if let Ok(Some(uuid)) = last {
        let _ = tell_left(rt, words, paths, uuid);
    }
    ended
}

/// Runs a script's file, or standard input where that is `-`, over image files, of which none is the script. Warnings and losses are told on
/// standard error, unless that is to stay quiet.
pub fn run_files<
    R: Files<File = File> + Input + Print + Eprint + AllocGlobal + Threads + Wait + Sync,
>(rt: &R, words: &[String], paths: &Paths, is_quiet: bool) -> Ended
    requires { command_in (map string_bytes words.now) ≡ Some (IsRun (told_by paths.now)) }
{
    let path = paths.script.as_str();
    if path == "-" {
        return run_images(rt, words, paths, is_quiet, StdSource::new(rt.reader()), &[]);
    }
    match open_script(rt, path) {
        Ok((script, id)) => {
            run_images(rt, words, paths, is_quiet, StdSource::new(script), &[id])
        }
        Err(error) => cannot_open(rt, path, OpenFault::System(error)),
    }
}
