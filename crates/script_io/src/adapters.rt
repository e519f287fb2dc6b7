// std's readers and writers as sources and sinks. What a signal interrupted is tried again.
ghost use Rattle.std.specs.Prelude.{◌≡◌, ◌+◌, ◌-◌, ◌^◌, ◌<◌, ◌≤◌, ℕ, length, min, IfOk, is_err, if◌then◌else◌};
ghost use Rattle.std.specs.Io.KnownBytes.{Keeps};
ghost use Rattle.script_io.specs.Causes.{HasCause};
ghost use Rattle.script_io.specs.Moves.{Pulled, Pushed};
ghost use Rattle.script_io.specs.Known.{known_bytes, AreKnown};

use crate::{Sink, SinkFault, Source, SourceFault};
use std::io::{ErrorKind, Read, Write};

// Reads once.
fn read_some<R: Read>(reader: &mut R, into: &mut [u8]) -> Result<usize, SourceFault>
    requires { 0 < length into.old }
    ensures within { IfOk result (λ n. n ≤ length into.old) }
    ensures pulled { Pulled (AreKnown R.remaining) result (known_bytes (R.remaining reader.old)) (known_bytes (R.remaining reader.new)) into.new }
{
    for _ in 0..u64::MAX {
        match reader.read(into) {
            Ok(count) => return Ok(count),
            Err(error) => {
                if error.kind() != ErrorKind::Interrupted {
                    return Err(SourceFault::Failed);
                }
            }
        }
    }
    Err(SourceFault::Failed)
}

// Writes the whole piece. A writer that takes nothing of what is left has failed.
fn write_whole<W: Write>(writer: &mut W, from: &[u8]) -> Result<(), SinkFault>
    ensures { Pushed (AreKnown W.contents) result (known_bytes (W.contents writer.old)) (known_bytes (W.contents writer.new)) from.now }
{
    let mut rest = from;
    for _ in 0..u64::MAX {
        if rest.is_empty() {
            return Ok(());
        }
        match writer.write(rest) {
            Ok(0) => return Err(SinkFault::Failed),
            Ok(count) => rest = &rest[count..],
            Err(error) => {
                if error.kind() != ErrorKind::Interrupted {
                    return Err(SinkFault::Failed);
                }
            }
        }
    }
    Err(SinkFault::Failed)
}

// Hands on what the writer holds back.
fn flush_whole<W: Write>(writer: &mut W) -> Result<(), SinkFault>
    ensures { Keeps (W.contents writer.old) (W.contents writer.new) }
{
    for _ in 0..u64::MAX {
        match writer.flush() {
            Ok(()) => return Ok(()),
            Err(error) => {
                if error.kind() != ErrorKind::Interrupted {
                    return Err(SinkFault::Failed);
                }
            }
        }
    }
    Err(SinkFault::Failed)
}

/// A source over one of std's readers. It tells what is left where the reader's type does.
#[derive(Drop)]
pub struct StdSource<R> {
    reader: R,
    faults: u64,
}

impl<R: Read> StdSource<R> {
    ghost use Rattle.script_io.specs.Adapters.{reader_of, faults_of_reader};

    pub fn new(reader: R) -> StdSource<R>
        ensures reader { reader_of result ≡ reader }
        ensures faults { faults_of_reader result ≡ 0 }
    {
        StdSource { reader, faults: 0 }
    }
}

impl<R: Read> Source for StdSource<R> {
    ghost use Rattle.script_io.specs.Adapters.{reader_of, faults_of_reader};

    ghost tells = { AreKnown R.remaining };

    ghost left = { λ s. known_bytes (R.remaining (reader_of s)) };

    ghost faults_of = { λ s. faults_of_reader s };

    fn faults(&self) -> u64 {
        self.faults
    }

    fn pull(&mut self, into: &mut [u8]) -> Result<usize, SourceFault>
        requires { 0 < length into.old }
        ensures within { IfOk result (λ n. n ≤ length into.old) }
        ensures pulled { Pulled (AreKnown R.remaining) result (known_bytes (R.remaining (reader_of self.old))) (known_bytes (R.remaining (reader_of self.new))) into.new }
        ensures cause { HasCause (faults_of_reader self.old) (faults_of_reader self.new) result }
        ensures faults { faults_of_reader self.new ≡ (if is_err result then min (faults_of_reader self.old + 1) (2 ^ 64 - 1) else faults_of_reader self.old) }
    {
        match read_some(&mut self.reader, into) {
            Ok(count) => Ok(count),
            Err(fault) => {
                self.faults = self.faults.saturating_add(1);
                Err(fault)
            }
        }
    }
}

/// A sink over one of std's writers, which is flushed after each piece. It tells what was taken where the writer's
/// type does.
#[derive(Drop)]
pub struct StdSink<W> {
    writer: W,
    faults: u64,
}

impl<W: Write> StdSink<W> {
    ghost use Rattle.script_io.specs.Adapters.{writer_of, faults_of_writer};

    pub fn new(writer: W) -> StdSink<W>
        ensures writer { writer_of result ≡ writer }
        ensures faults { faults_of_writer result ≡ 0 }
    {
        StdSink { writer, faults: 0 }
    }

    // Writes the piece and flushes.
    fn write_and_flush(&mut self, from: &[u8]) -> Result<(), SinkFault>
        ensures pushed { Pushed (AreKnown W.contents) result (known_bytes (W.contents (writer_of self.old))) (known_bytes (W.contents (writer_of self.new))) from.now }
        ensures faults { faults_of_writer self.new ≡ faults_of_writer self.old }
    {
        write_whole(&mut self.writer, from)?;
        flush_whole(&mut self.writer)
    }
}

impl<W: Write> Sink for StdSink<W> {
    ghost use Rattle.script_io.specs.Adapters.{writer_of, faults_of_writer};

    ghost tells = { AreKnown W.contents };

    ghost taken = { λ s. known_bytes (W.contents (writer_of s)) };

    ghost faults_of = { λ s. faults_of_writer s };

    fn faults(&self) -> u64 {
        self.faults
    }

    fn push(&mut self, from: &[u8]) -> Result<(), SinkFault>
        ensures pushed { Pushed (AreKnown W.contents) result (known_bytes (W.contents (writer_of self.old))) (known_bytes (W.contents (writer_of self.new))) from.now }
        ensures cause { HasCause (faults_of_writer self.old) (faults_of_writer self.new) result }
        ensures faults { faults_of_writer self.new ≡ (if is_err result then min (faults_of_writer self.old + 1) (2 ^ 64 - 1) else faults_of_writer self.old) }
    {
        match self.write_and_flush(from) {
            Ok(()) => Ok(()),
            Err(fault) => {
                self.faults = self.faults.saturating_add(1);
                Err(fault)
            }
        }
    }
}
