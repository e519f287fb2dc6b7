// The text of a script is read whole before any of it is performed.
ghost use Rattle.std.specs.Prelude.{◌≡◌, ◌<◌, ◌≤◌, length, IfOk, IfErr, IfSome};
ghost use Rattle.script_demo.specs.Demo.{IsDemoSize};
ghost use Rattle.run_scripts.specs.Source.{IsTextOf, IsTextFor, IsPiece, IsCaused};

use run_session::Source;
use script_demo::demo_text;
use std::alloc::Global;
use thiserror::Error;

#[derive(Clone, Copy, Debug, PartialEq, Eq, Error)]
pub enum TextFault {
    #[error("the source failed")]
    Failed,
    #[error("out of memory")]
    NoMemory,
}

/// The most bytes of a script.
pub const LONGEST_TEXT: usize = 1_048_576;

// How many bytes are pulled at once, at most.
const PIECE: usize = 65_536;

// Pulls once into the piece and appends what came to the text. Answers how many bytes came.
fn pull_piece<S: Source>(
    source: &mut S,
    piece: &mut [u8],
    text: &mut Vec<u8>,
) -> Result<usize, TextFault>
    requires { 0 < length piece.old }
    ensures pulled { IfOk result (IsPiece S.tells (S.left source.old) (S.left source.new) text.old.items text.new.items (length piece.old)) }
    ensures cause { IfErr result (IsCaused (S.faults_of source.old) (S.faults_of source.new)) }
    ensures never_falls { S.faults_of source.old ≤ S.faults_of source.new }
{
    let count = match source.pull(piece) {
        Err(_) => return Err(TextFault::Failed),
        Ok(count) => count,
    };
    match text.extend_from_slice(&piece[..count]) {
        Err(_) => Err(TextFault::NoMemory),
        Ok(()) => Ok(count),
    }
}

/// All that the source has left, or where that is more than `LONGEST_TEXT` bytes, one byte more than these.
pub fn read_text<S: Source>(alloc: Global, source: &mut S) -> Result<Vec<u8>, TextFault>
    ensures text { IfOk result (λ text. IsTextOf S.tells (S.left source.old) (S.left source.new) text.items) }
    ensures cause { IfErr result (IsCaused (S.faults_of source.old) (S.faults_of source.new)) }
    ensures never_falls { S.faults_of source.old ≤ S.faults_of source.new }
{
    let Ok(mut buffer) = vec![in alloc; 0u8; PIECE] else {
        return Err(TextFault::NoMemory);
    };
    let piece = buffer.as_mut_slice();
    let mut text = Vec::new(alloc);
    while text.len() <= LONGEST_TEXT {
        let wanted = piece.len().min(LONGEST_TEXT + 1 - text.len());
        match pull_piece(source, &mut piece[..wanted], &mut text) {
            Err(fault) => return Err(fault),
            Ok(0) => return Ok(text),
            Ok(_) => {}
        }
    }
    Ok(text)
}

/// The text of a script: that of a demo of this size, and else what the source has left.
pub fn script_text<S: Source>(
    alloc: Global,
    demo: Option<u64>,
    source: &mut S,
) -> Result<Vec<u8>, TextFault>
    requires few { IfSome demo IsDemoSize }
    ensures text { IfOk result (λ text. IsTextFor demo S.tells (S.left source.old) (S.left source.new) text.items) }
    ensures cause { IfErr result (IsCaused (S.faults_of source.old) (S.faults_of source.new)) }
    ensures unread { IfSome demo (λ size. source.new ≡ source.old) }
    ensures never_falls { S.faults_of source.old ≤ S.faults_of source.new }
{
    let Some(size) = demo else {
        return read_text(alloc, source);
    };
    match demo_text(alloc, size) {
        Ok(text) => Ok(text),
        Err(_) => Err(TextFault::NoMemory),
    }
}
