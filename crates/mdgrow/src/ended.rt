//! How a run ended, and what is told of that.

use run_command::Report;
use script_io::Source;
use script_kept::KeptSource;
use script_mistakes::explain;
use std::alloc::{AllocError, Global};
use std::io;
use tool_files::{FilesFault, OpenFault};
use tool_words::advice;

pub const REFUSED: u8 = 1;

pub const BAD_WORDS: u8 = 2;

pub const BAD_LINE: u8 = 3;

pub const CANNOT_READ: u8 = 4;

pub const CANNOT_WRITE: u8 = 5;

pub const NO_MEMORY: u8 = 6;

pub const CANNOT_OPEN: u8 = 7;

/// How a run ended: its status, the number of the first bad line, where there is one, and what is told below.
#[derive(Drop)]
pub struct Ended {
    pub status: u8,
    pub bad_line: u64,
    pub reason: Option<Vec<u8>>,
}

impl Ended {
    /// An end of which no more is told.
    pub fn with(status: u8) -> Ended {
        Ended {
            status,
            bad_line: 0,
            reason: None,
        }
    }

    /// What a report says of the end; of a bad line also why it is one, where the text that was read is kept.
    pub fn of<B: Drop, S: Source>(
        alloc: Global,
        report: Report<B>,
        script: &KeptSource<S>,
    ) -> Ended {
        let mut reason = None;
        if report.status == BAD_LINE
            && let Some(text) = script.text()
            && let Ok(lines) = why_bad(alloc, text)
        {
            reason = lines;
        }
        Ended {
            status: report.status,
            bad_line: report.bad_line,
            reason,
        }
    }
}

// Why a script isn't taken, as lines.
fn why_bad(alloc: Global, text: &[u8]) -> Result<Option<Vec<u8>>, AllocError> {
    match explain(alloc, text)? {
        None => Ok(None),
        Some(why) => {
            let mut lines = why.shown;
            lines.extend_from_slice(why.words.as_bytes())?;
            lines.push(b'\n')?;
            Ok(Some(lines))
        }
    }
}

/// The end at words that are no command's, with what may have been meant.
pub fn bad_words(alloc: Global, words: &[String]) -> Ended {
    let mut ended = Ended::with(BAD_WORDS);
    if let Ok(advice) = advice(alloc, words) {
        ended.reason = Some(advice.into_bytes());
    }
    ended
}

/// The end at words of which one is no text.
pub fn unreadable_words(alloc: Global) -> Ended {
    let mut ended = Ended::with(BAD_WORDS);
    if let Ok(lines) = Vec::from_slice(
        alloc,
        b"a word isn't UTF-8: a file is taken by a name that is\n",
    ) {
        ended.reason = Some(lines);
    }
    ended
}

/// Tells the path of a file that can't be opened, and why, so that nothing is run.
pub fn cannot_open<R: Eprint>(rt: &R, path: &str, why: OpenFault) -> Ended {
    let _ = eprintln!(rt; "mdgrow: cannot open {path}\n{why}");
    Ended::with(CANNOT_OPEN)
}

/// So of the files of slots.
pub fn cannot_take<R: Eprint>(rt: &R, paths: &[String], fault: FilesFault) -> Ended {
    match fault {
        FilesFault::CannotOpen(place, why) => match paths.get(place as usize) {
            Some(path) => cannot_open(rt, path.as_str(), why),
            None => Ended::with(CANNOT_OPEN),
        },
        FilesFault::NoMemory => Ended::with(NO_MEMORY),
    }
}

/// Prints a text of the program's own.
pub fn say<R: Print>(rt: &R, text: &str) -> Ended {
    match print!(rt; "{text}") {
        Ok(()) => Ended::with(0),
        Err(_) => Ended::with(CANNOT_WRITE),
    }
}

/// Prints lines of ASCII on standard error.
pub fn tell_lines<R: Eprint>(rt: &R, lines: &[u8]) -> io::Result<()> {
    match str::from_utf8(lines) {
        Ok(lines) => eprint!(rt; "{lines}"),
        Err(_) => Ok(()),
    }
}

/// What the status means, on standard error, and below it the reason.
pub fn tell<R: Eprint>(rt: &R, ended: &Ended) -> io::Result<()> {
    let line = ended.bad_line;
    match ended.status {
        BAD_WORDS => eprintln!(rt; "mdgrow: bad words"),
        BAD_LINE => eprintln!(rt; "mdgrow: bad line {line}"),
        CANNOT_READ => eprintln!(rt; "mdgrow: cannot read the script"),
        CANNOT_WRITE => eprintln!(rt; "mdgrow: cannot write"),
        NO_MEMORY => eprintln!(rt; "mdgrow: out of memory"),
        _ => Ok(()),
    }?;
    match &ended.reason {
        Some(reason) => tell_lines(rt, reason.as_slice()),
        None => Ok(()),
    }
}
