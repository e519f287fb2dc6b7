//! How the program is used, in words.

use crate::tools::Topic;
use script_mistakes::nearest::nearest;
use std::alloc::{AllocError, Global};

/// How to use the program, or one command of it, in lines.
pub fn help_text(topic: Topic) -> &'static str {
    match topic {
        Topic::All => {
            "usage: mdgrow memory < SCRIPT
       mdgrow [--quiet] run [--backup FILE] SCRIPT IMAGE..
       mdgrow demo N
       mdgrow examine IMAGE..
       mdgrow detail [--backup FILE] IMAGE..
       mdgrow layout level=L disks=N [chunk=C] [layout=NAME]
       mdgrow help [COMMAND]
       mdgrow --version

memory   performs the script on standard input, on eight slots in memory
run      performs the script in a file on image files
demo     performs a script of its own: an array grows while it is read and written
examine  prints what the superblock on each image says; no file is changed
detail   prints the state of the array on the images; no file is changed
layout   draws the first stripes of an array of this shape

docs/LINES.md has the lines of a script, README.md the statuses.
"
        }
        Topic::Memory => {
            "usage: mdgrow memory < SCRIPT

Performs the script on standard input, on eight slots in memory, and prints a reply for each line.
Slots 0 to 6 may be members of an array, and 7 is the backup. They have 6144 sectors each.
"
        }
        Topic::Run => {
            "usage: mdgrow run [--backup FILE] SCRIPT IMAGE..
       mdgrow --quiet run [--backup FILE] SCRIPT IMAGE..

Performs the script in the file SCRIPT, or on standard input where that is -, and prints a reply for each line.
The slots are 1 to 31 image files, which must exist, in their order, and last the backup, where one is named.
Members that are lost, and an array that is left degraded or dirty, are told on standard error, unless quiet.
"
        }
        Topic::Demo => {
            "usage: mdgrow demo N

Performs a script of its own in memory, N from 1 to 64: an array of four members of 64 N sectors
grows to five while two lanes read and write it.
"
        }
        Topic::Examine => {
            "usage: mdgrow examine IMAGE..

Prints what the superblock on each image says, a line for each. The files are only read.
"
        }
        Topic::Detail => {
            "usage: mdgrow detail [--backup FILE] IMAGE..

Assembles the array on the images, and prints its state. The files are only read:
what an assembly writes stands in memory. Where it is refused, the superblocks are printed.
"
        }
        Topic::Layout => {
            "usage: mdgrow layout level=L disks=N [chunk=C] [layout=NAME]

Draws the first stripes of an array of this shape, one a line: for each disk P, Q or the chunk of the list that stands there, by its number.
The keys are those of the line create of a script.
"
        }
    }
}

/// The form of the command of this name.
pub fn usage_of(command: &str) -> Option<&'static str> {
    match command {
        "memory" => Some("mdgrow memory < SCRIPT"),
        "run" => Some("mdgrow run [--backup FILE] SCRIPT IMAGE.., with 1 to 31 images"),
        "demo" => Some("mdgrow demo N, with N from 1 to 64"),
        "examine" => Some("mdgrow examine IMAGE.., with 1 to 31 images"),
        "detail" => Some("mdgrow detail [--backup FILE] IMAGE.., with 1 to 31 images"),
        "layout" => Some("mdgrow layout level=L disks=N [chunk=C] [layout=NAME]"),
        "help" => Some("mdgrow help [COMMAND]"),
        "--help" | "-h" => Some("mdgrow --help"),
        "--version" => Some("mdgrow --version"),
        _ => None,
    }
}

// How many letters of a command may be wrong.
const MOST_WRONG: usize = 2;

// The command that may have been meant by a word.
fn near_command(alloc: Global, word: &[u8]) -> Result<Option<&'static str>, AllocError> {
    let names: [&[u8]; 7] = [
        b"memory", b"run", b"demo", b"examine", b"detail", b"layout", b"help",
    ];
    let found = nearest(alloc, word, &names, MOST_WRONG)?;
    Ok(match found {
        Some(0) => Some("memory"),
        Some(1) => Some("run"),
        Some(2) => Some("demo"),
        Some(3) => Some("examine"),
        Some(4) => Some("detail"),
        Some(5) => Some("layout"),
        Some(_) => Some("help"),
        None => None,
    })
}

/// What is told below words that are no command: the form of the command that the first word names, or the command that may have been meant.
pub fn advice(alloc: Global, words: &[String]) -> Result<String, AllocError> {
    let Some(first) = words.first() else {
        return format!(in alloc; "mdgrow help tells what is taken\n");
    };
    if let Some(usage) = usage_of(first.as_str()) {
        return format!(in alloc; "usage: {usage}\n");
    }
    match near_command(alloc, first.as_bytes())? {
        Some(near) => format!(in alloc; "did you mean {near}?\n"),
        None => format!(in alloc; "mdgrow help tells what is taken\n"),
    }
}

/// The program's name and version, in a line.
pub const VERSION: &str = "mdgrow 0.1.0\n";
