use bank::example::write_both;
use bank::{Bank, MemoryBank, Op, Pick};
use std::alloc::Global;
use std::process::Abort;
use std::test::Fail;

/// A call of a bank.
#[derive(Clone, Copy)]
enum Call {
    /// One sector of this byte, to a slot at a place.
    Write(u32, u64, u8),
    /// Two of them.
    WriteTwo(u32, u64, u8),
    Flush(u32),
    Read(u32, u64),
}

/// A call, whether it is answered Ok, and then the operations and the slot's faults.
type Line = (Call, bool, u64, u64);

// Whether a call is answered Ok. A sector that is read holds zeros.
fn answer(rt: &impl Abort, bank: &mut MemoryBank, call: Call) -> bool {
    match call {
        Call::Write(slot, at, byte) => {
            assert!(rt; slot < bank.slots() && at < bank.len(slot));
            bank.write(slot, at, &[byte; 512]).is_ok()
        }
        Call::WriteTwo(slot, at, byte) => {
            assert!(rt; slot < bank.slots() && at < bank.len(slot) && 2 <= bank.len(slot) - at);
            bank.write(slot, at, &[byte; 1024]).is_ok()
        }
        Call::Flush(slot) => {
            assert!(rt; slot < bank.slots());
            bank.flush(slot).is_ok()
        }
        Call::Read(slot, at) => {
            let byte = filling(rt, bank, slot, at);
            assert!(rt; byte.is_none() || byte == Some(0));
            byte.is_some()
        }
    }
}

// The byte that fills a sector, and none where the read failed or the bytes differ.
fn filling(rt: &impl Abort, bank: &mut MemoryBank, slot: u32, at: u64) -> Option<u8> {
    assert!(rt; slot < bank.slots() && at < bank.len(slot));
    let mut sector = [0u8; 512];
    if bank.read(slot, at, &mut sector).is_err() {
        return None;
    }
    let first = sector[0];
    for byte in sector {
        if byte != first {
            return None;
        }
    }
    Some(first)
}

fn faults(rt: &impl Abort, bank: &MemoryBank, slot: u32) -> u64 {
    assert!(rt; slot < bank.slots());
    bank.faults(slot)
}

fn slot_of(call: Call) -> u32 {
    match call {
        Call::Write(slot, _, _)
        | Call::WriteTwo(slot, _, _)
        | Call::Flush(slot)
        | Call::Read(slot, _) => slot,
    }
}

// Makes the calls, and compares.
fn follow(rt: &impl Abort, bank: &mut MemoryBank, lines: &[Line]) {
    for (call, is_ok, ops, count) in lines {
        assert!(rt; answer(rt, bank, *call) == *is_ok);
        assert!(rt; bank.ops() == *ops);
        assert!(rt; faults(rt, bank, slot_of(*call)) == *count);
    }
}

// Two slots of two sectors and one. Sector 1 of slot 0 holds nines at the start, and eight operations follow.
const TAPE: [Line; 8] = [
    (Call::Write(0, 0, 1), true, 1, 0),
    (Call::Write(1, 0, 2), true, 2, 0),
    (Call::Flush(0), true, 3, 0),
    (Call::Write(0, 0, 3), true, 4, 0),
    (Call::Write(0, 1, 4), true, 5, 0),
    (Call::Write(0, 0, 5), true, 6, 0),
    (Call::Flush(1), true, 7, 0),
    (Call::Flush(0), true, 8, 0),
];

// Sectors 0 and 1 of slot 0 and sector 0 of slot 1, after each number of operations.
const FLUSHED: [[u8; 3]; 9] = [
    [0, 9, 0],
    [0, 9, 0],
    [0, 9, 0],
    [1, 9, 0],
    [1, 9, 0],
    [1, 9, 0],
    [1, 9, 0],
    [1, 9, 2],
    [5, 4, 2],
];

const LATEST: [[u8; 3]; 9] = [
    [0, 9, 0],
    [1, 9, 0],
    [1, 9, 2],
    [1, 9, 2],
    [3, 9, 2],
    [3, 4, 2],
    [5, 4, 2],
    [5, 4, 2],
    [5, 4, 2],
];
// operations 1, 3 and 4 are kept
const MIXED_26: [[u8; 3]; 9] = [
    [0, 9, 0],
    [0, 9, 0],
    [0, 9, 2],
    [1, 9, 2],
    [3, 9, 2],
    [3, 4, 2],
    [3, 4, 2],
    [3, 4, 2],
    [5, 4, 2],
];
// operations 0 and 5 are kept
const MIXED_33: [[u8; 3]; 9] = [
    [0, 9, 0],
    [1, 9, 0],
    [1, 9, 0],
    [1, 9, 0],
    [1, 9, 0],
    [1, 9, 0],
    [5, 9, 0],
    [5, 9, 2],
    [5, 4, 2],
];

// Compares the images of a pick at each mark.
fn compare(
    rt: &impl Abort,
    alloc: Global,
    bank: &MemoryBank,
    pick: Pick,
    table: &[[u8; 3]; 9],
) -> Result<(), Fail> {
    let mut mark = 0u64;
    for [first, second, other] in table {
        assert!(rt; mark <= bank.ops());
        let mut image = bank.image(alloc, mark, pick, 1)?;
        assert!(rt; filling(rt, &mut image, 0, 0) == Some(*first), "at {mark}");
        assert!(rt; filling(rt, &mut image, 0, 1) == Some(*second), "at {mark}");
        assert!(rt; filling(rt, &mut image, 1, 0) == Some(*other), "at {mark}");
        mark = mark.wrapping_add(1);
    }
    Ok(())
}

#[test]
fn each_mark_has_the_image_that_was_picked(rt: HostRuntime) -> Result<(), Fail> {
    let alloc = rt.alloc();
    let lengths = Vec::from_slice(alloc, &[2u64, 1])?;
    let mut bank = MemoryBank::new(alloc, lengths, 8, Vec::new(alloc))?;
    assert!(rt; bank.ops() == 0 && bank.slots() == 2 && bank.len(0) == 2);
    bank.set_sector(0, 1, &[9; 512]);
    follow(&rt, &mut bank, &TAPE);
    compare(&rt, alloc, &bank, Pick::Flushed, &FLUSHED)?;
    compare(&rt, alloc, &bank, Pick::Latest, &LATEST)?;
    compare(&rt, alloc, &bank, Pick::Mixed(26), &MIXED_26)?;
    compare(&rt, alloc, &bank, Pick::Mixed(33), &MIXED_33)
}

// Calls 1, 4 and 7 are to fail, and there is room for four operations.
const FAILING: [Line; 9] = [
    (Call::Write(0, 0, 1), true, 1, 0),
    // listed: all its sectors are appended
    (Call::WriteTwo(1, 0, 2), false, 3, 1),
    // two more operations don't fit
    (Call::WriteTwo(0, 0, 3), false, 3, 1),
    // the slot failed before
    (Call::Flush(0), false, 3, 2),
    // listed: nothing is appended
    (Call::Flush(2), false, 3, 1),
    (Call::Read(3, 1), true, 3, 0),
    (Call::Flush(3), true, 4, 0),
    // listed, and failed before
    (Call::Read(3, 1), false, 4, 1),
    (Call::Read(3, 1), false, 4, 2),
];

#[test]
fn calls_fail_where_they_are_to(rt: HostRuntime) -> Result<(), Fail> {
    let alloc = rt.alloc();
    let lengths = Vec::from_slice(alloc, &[2u64, 2, 2, 2])?;
    let failing = Vec::from_slice(alloc, &[1u64, 4, 7])?;
    let mut bank = MemoryBank::new(alloc, lengths, 4, failing)?;
    follow(&rt, &mut bank, &FAILING);
    assert!(rt; 1 < bank.ops());
    assert!(rt; bank.op(1) == Op::Write { slot: 1, sector: 0 });
    Ok(())
}

#[test]
fn both_copies_are_written(rt: HostRuntime) -> Result<(), Fail> {
    let lengths = Vec::from_slice(rt.alloc(), &[4u64, 4])?;
    let mut bank = MemoryBank::new(rt.alloc(), lengths, 4, Vec::new(rt.alloc()))?;
    assert!(rt; bank.slots() == 2 && bank.len(0) == 4 && bank.len(1) == 4);
    assert!(rt; write_both(&mut bank, 3, &[7; 512]).is_ok());
    assert!(rt; filling(&rt, &mut bank, 0, 3) == Some(7));
    assert!(rt; filling(&rt, &mut bank, 1, 3) == Some(7));
    Ok(())
}
