//! Image files that are only looked at.

ghost use Rattle.std.specs.Prelude.{◌≡◌, ◌<◌, ◌^◌, length, map, string_bytes, Some};
ghost use Rattle.script_argv.specs.Words.{command_in, told_by};
ghost use Rattle.script_argv.specs.Words.Asked.{Run as IsRun};

use crate::ended::{CANNOT_WRITE, Ended, NO_MEMORY, REFUSED, bad_words, cannot_take};
use crate::steps;
use bank_file::FileBank;
use run_command::{Hook, Pace, Report, run_over_devices};
use script_argv::{Command, Paths, command_of};
use script_io::{MemorySource, Sink, StdSink};
use std::alloc::AllocError;
use std::fs::{File, Files};
use std::io;
use std::sync::Wait;
use std::thread::Threads;
use tool_files::{FilesFault, LookedAt, examine_script, first_line, look_at};
use tool_words::run_words;

/// The most files of a run: its images and the backup.
pub const MOST_SLOTS: usize = 32;

/// Asks this script of files that are only looked at, and has the replies go to the sink.
pub fn look<R: Files<File = File> + AllocGlobal + Threads + Wait + Sync, K: Sink>(
    rt: &R,
    words: &[String],
    paths: &Paths,
    text: Vec<u8>,
    sink: &mut K,
) -> Result<Report<FileBank<LookedAt>>, FilesFault>
    requires asked { command_in (map string_bytes words.now) ≡ Some (IsRun (told_by paths.now)) }
    requires few { length paths.now.slots.items < 2 ^ 32 }
{
    let alloc = rt.alloc();
    let bank = look_at(rt, alloc, &paths.slots)?;
    let mut script = MemorySource::new(text, Vec::new(alloc));
    let pace = Pace::new(|turn, left| steps(turn, left));
    let hook = Hook::new(|_, _| true);
    Ok(run_over_devices(rt, alloc, words, &mut script, sink, bank, pace, hook))
}

// How a look ended.
fn end_of<R: Eprint>(
    rt: &R,
    paths: &Paths,
    looked: Result<Report<FileBank<LookedAt>>, FilesFault>,
) -> Ended {
    match looked {
        Ok(report) => Ended::with(report.status),
        Err(fault) => cannot_take(rt, &paths.slots, fault),
    }
}

// Prints what the superblock on each image says.
fn examine<R: Files<File = File> + Print + Eprint + AllocGlobal + Threads + Wait + Sync>(
    rt: &R,
    words: &[String],
    paths: &Paths,
) -> Result<Ended, AllocError>
    requires asked { command_in (map string_bytes words.now) ≡ Some (IsRun (told_by paths.now)) }
    requires few { length paths.now.slots.items < 2 ^ 32 }
{
    let text = examine_script(rt.alloc(), paths.slots.len() as u64)?;
    let mut sink = StdSink::new(io::writer(rt));
    let looked = look(rt, words, paths, text, &mut sink);
    Ok(end_of(rt, paths, looked))
}

// Assembles the array on the images, in memory, and prints its state; or why it isn't assembled, and what the superblocks say.
fn detail<R: Files<File = File> + Print + Eprint + AllocGlobal + Threads + Wait + Sync>(
    rt: &R,
    words: &[String],
    paths: &Paths,
) -> Result<Ended, AllocError>
    requires asked { command_in (map string_bytes words.now) ≡ Some (IsRun (told_by paths.now)) }
    requires few { length paths.now.slots.items < 2 ^ 32 }
{
    let alloc = rt.alloc();
    let mut told = Vec::new(alloc);
    let text = Vec::from_slice(alloc, b"assemble\ndetail\n")?;
    let looked = look(rt, words, paths, text, &mut StdSink::new(&mut told));
    let ended = end_of(rt, paths, looked);
    let mut sink = StdSink::new(io::writer(rt));
    let shown = if ended.status == REFUSED {
        first_line(told.as_slice())
    } else {
        told.as_slice()
    };
    if sink.push(shown).is_err() {
        return Ok(Ended::with(CANNOT_WRITE));
    }
    if ended.status == REFUSED {
        let seen = examine(rt, words, paths)?;
        return Ok(Ended::with(seen.status.max(REFUSED)));
    }
    Ok(ended)
}

/// Looks at the files that the words name behind the first: prints their superblocks, or the state of the array on them.
pub fn look_by<R: Files<File = File> + Print + Eprint + AllocGlobal + Threads + Wait + Sync>(
    rt: &R,
    words: &[String],
    is_detail: bool,
) -> Result<Ended, AllocError> {
    let alloc = rt.alloc();
    let run = run_words(alloc, words)?;
    match command_of(alloc, &run) {
        Ok(Some(Command::Run(paths))) if paths.slots.len() <= MOST_SLOTS => {
            if is_detail {
                detail(rt, &run, &paths)
            } else if !paths.has_backup {
                examine(rt, &run, &paths)
            } else {
                Ok(bad_words(alloc, words))
            }
        }
        Ok(_) => Ok(bad_words(alloc, words)),
        Err(_) => Ok(Ended::with(NO_MEMORY)),
    }
}
