use script_io::{MemorySink, MemorySource, Sink, Source};
use std::test::Fail;

// What one pull moves into a buffer of three bytes.
fn pulled<S: Source>(source: &mut S, into: &mut [u8; 3]) -> Option<usize> {
    *into = *b"...";
    source.pull(into).ok()
}

// What each pull moves, and the buffer then; pulls 1 and 4 are listed.
const PULLED: [(Option<usize>, [u8; 3]); 6] = [
    (Some(3), *b"abc"),
    (None, *b"..."),
    (Some(2), *b"de."),
    (Some(0), *b"..."),
    (None, *b"..."),
    (Some(0), *b"..."),
];

#[test]
fn pulls_that_are_listed_fail(rt: HostRuntime) -> Result<(), Fail> {
    let bytes = b"abcde".to_vec(rt.alloc())?;
    let mut source = MemorySource::new(bytes, vec![in rt.alloc(); 1, 4]?);
    let mut into = [0; 3];
    for (count, front) in &PULLED {
        assert!(rt; pulled(&mut source, &mut into) == *count && into == *front);
    }
    assert!(rt; source.faults() == 2);
    Ok(())
}

fn pushes<K: Sink>(sink: &mut K, piece: &[u8]) -> bool {
    sink.push(piece).is_ok()
}

// Pieces, whether each is pushed, and how many of the bytes `abcd` are there then. Push 1 is listed, and four bytes fit.
const PUSHED: [(&[u8], bool, usize); 5] = [
    (b"ab", true, 2),
    (b"c", false, 2),
    (b"cde", false, 4),
    (b"", true, 4),
    (b"e", false, 4),
];

#[test]
fn pushes_that_are_listed_or_do_not_fit_fail(rt: HostRuntime) -> Result<(), Fail> {
    let alloc = rt.alloc();
    let mut sink = MemorySink::new(alloc, 4, vec![in alloc; 1]?)?;
    for (piece, is_ok, count) in &PUSHED {
        assert!(rt; pushes(&mut sink, *piece) == *is_ok);
        assert!(rt; sink.bytes().len() == *count && b"abcd".starts_with(sink.bytes()));
    }
    assert!(rt; sink.faults() == 3);
    assert!(rt; MemorySink::new(alloc, u64::MAX, Vec::new(alloc)).is_err());
    Ok(())
}
