use script_io::{Sink, SinkFault, Source, SourceFault, StdSink, StdSource};
use std::io;
use std::io::{ErrorKind, Read, Write};
use std::test::Fail;

// Gives a byte at a time, each after an interruption, and fails at the end.
#[derive(Drop)]
struct Halting {
    bytes: [u8; 2],
    calls: usize,
}

impl Read for Halting {
    fn read(&mut self, buf: &mut [u8]) -> io::Result<usize> {
        let call = self.calls;
        self.calls = call.saturating_add(1);
        if call % 2 == 0 {
            return Err(io::Error::from(ErrorKind::Interrupted));
        }
        if call / 2 >= 2 || buf.is_empty() {
            return Err(io::Error::from(ErrorKind::Other));
        }
        buf[0] = self.bytes[call / 2];
        Ok(1)
    }
}

// The answer of each pull, and the buffer of two bytes then.
type Pulled = (Result<usize, SourceFault>, [u8; 2]);

const WHOLE: [Pulled; 3] = [(Ok(2), *b"ab"), (Ok(1), *b"cb"), (Ok(0), *b"cb")];

const BYTEWISE: [Pulled; 4] = [
    (Ok(1), *b"d."),
    (Ok(1), *b"e."),
    (Err(SourceFault::Failed), *b"e."),
    (Err(SourceFault::Failed), *b"e."),
];

// Whether the pulls go so, one after the other.
fn gives<S: Source>(source: &mut S, pulls: &[Pulled]) -> bool {
    let mut into = *b"..";
    for (answer, bytes) in pulls {
        if source.pull(&mut into) != *answer || into != *bytes {
            return false;
        }
    }
    true
}

#[test]
fn sources_read_from_readers(rt: HostRuntime) {
    let mut source = StdSource::new(b"abc".as_slice());
    assert!(rt; gives(&mut source, &WHOLE) && source.faults() == 0);
    let mut halting = StdSource::new(Halting {
        bytes: *b"de",
        calls: 0,
    });
    assert!(rt; gives(&mut halting, &BYTEWISE) && halting.faults() == 2);
}

// Takes a byte at a time, each after an interruption, up to its room, and then none. It is to be flushed.
#[derive(Drop)]
struct Narrow<'a> {
    taken: &'a mut Vec<u8>,
    room: usize,
    flushes: &'a mut u32,
    calls: usize,
}

impl Write for Narrow<'_> {
    fn write(&mut self, buf: &[u8]) -> io::Result<usize> {
        let call = self.calls;
        self.calls = call.saturating_add(1);
        if call % 2 == 0 {
            return Err(io::Error::from(ErrorKind::Interrupted));
        }
        if self.taken.len() >= self.room || buf.is_empty() {
            return Ok(0);
        }
        self.taken.push(buf[0])?;
        Ok(1)
    }

    fn flush(&mut self) -> io::Result<()> {
        *self.flushes = self.flushes.saturating_add(1);
        Ok(())
    }
}

// A piece, and the answer of its push.
type Pushed<'a> = (&'a [u8], Result<(), SinkFault>);

// Whether the pushes go so, one after the other.
fn takes<K: Sink>(sink: &mut K, pushes: &[Pushed<'_>]) -> bool {
    for (piece, answer) in pushes {
        if sink.push(*piece) != *answer {
            return false;
        }
    }
    true
}

#[test]
fn sinks_write_to_writers(rt: HostRuntime) {
    let mut bytes = Vec::new(rt.alloc());
    let mut sink = StdSink::new(&mut bytes);
    let pushes = [(b"ab".as_slice(), Ok(())), (b"", Ok(())), (b"c", Ok(()))];
    assert!(rt; takes(&mut sink, &pushes) && sink.faults() == 0);
    assert!(rt; bytes.as_slice() == b"abc".as_slice());
    // a writer that takes no more after three bytes fails
    let mut taken = Vec::new(rt.alloc());
    let mut flushes = 0;
    let mut sink = StdSink::new(Narrow {
        taken: &mut taken,
        room: 3,
        flushes: &mut flushes,
        calls: 0,
    });
    let failed = Err(SinkFault::Failed);
    let pushes = [
        (b"ab".as_slice(), Ok(())),
        (b"cd", failed),
        (b"d", failed),
        (b"", Ok(())),
    ];
    assert!(rt; takes(&mut sink, &pushes) && sink.faults() == 2);
    assert!(rt; taken.as_slice() == b"abc".as_slice() && flushes == 2);
}
