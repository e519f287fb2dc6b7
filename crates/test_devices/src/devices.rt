//! A bank over devices in memory that move a little at a time, and of which each call fails in turn.
ghost use Rattle.std.specs.Prelude.{◌≡◌, ◌<◌, length, All, IfOk, slice_index};
ghost use Rattle.bank_file.specs.Images.{IsFresh};
ghost use Rattle.bank_file.specs.Entries.{noted};

use crate::files::{faults, flushes, reads, writes};
use bank::Bank;
use bank_file::{FileBank, Manner, MemoryDevice};
use std::alloc::{AllocError, Global};
use std::process::Abort;
use std::test::Fail;

// Four sectors of sevens, and 100 bytes behind them. A call moves one sector, or 700 bytes of a read.
fn device(alloc: Global, failing: &[u64], interrupted: &[u64]) -> Result<MemoryDevice, AllocError>
    ensures { IfOk result (λ device. IsFresh (slice_index device.start.items) (slice_index device.held.items) (noted device.log.items)) }
{
    let manner = Manner {
        sectors: 1,
        bytes: 700,
        failing: Vec::from_slice(alloc, failing)?,
        interrupted: Vec::from_slice(alloc, interrupted)?,
    };
    MemoryDevice::new(alloc, vec![in alloc; 7u8; 2148]?, manner)
}

// Two such devices, of which the first has calls that fail or are interrupted.
fn two(
    alloc: Global,
    failing: &[u64],
    interrupted: &[u64],
) -> Result<FileBank<MemoryDevice>, AllocError> {
    let mut devices = Vec::new(alloc);
    devices.push(device(alloc, failing, interrupted)?)?;
    devices.push(device(alloc, &[], &[])?)?;
    FileBank::with_devices(alloc, devices)
}

// Whether the bytes are sectors of these values, with sevens behind them.
fn are(bytes: &[u8], values: [u8; 4]) -> bool {
    if bytes.len() != 2148 {
        return false;
    }
    for (i, &byte) in bytes.iter().enumerate() {
        let wanted = if i < 2048 { values[i / 512] } else { 7 };
        if byte != wanted {
            return false;
        }
    }
    true
}

// What slot 0 holds.
fn holds(rt: &impl Abort, bank: &FileBank<MemoryDevice>, slot: u32, values: [u8; 4]) -> bool {
    assert!(rt; slot < bank.slots());
    are(bank.device(slot).bytes(), values)
}

// Three sectors of ones, twos and threes.
fn three() -> [u8; 1536] {
    let mut bytes = [1u8; 1536];
    bytes[512..1024].fill(2);
    bytes[1024..].fill(3);
    bytes
}

#[test]
fn small_moves_are_joined(rt: HostRuntime) -> Result<(), Fail> {
    let mut bank = two(rt.alloc(), &[], &[0, 2, 5, 7])?;
    assert!(rt; bank.slots() == 2 && bank.ops() == 0);
    assert!(rt; bank.len(0) == 4 && bank.len(1) == 4);
    assert!(rt; writes(&rt, &mut bank, 0, 1, &three()) && bank.ops() == 3);
    assert!(rt; writes(&rt, &mut bank, 1, 0, &[5; 512]) && bank.ops() == 4);
    assert!(rt; flushes(&rt, &mut bank, 1) && bank.ops() == 5);
    let mut found = [0u8; 2048];
    assert!(rt; reads(&rt, &mut bank, 0, 0, &mut found) && bank.ops() == 5);
    for (i, &byte) in found.iter().enumerate() {
        assert!(rt; byte == [7, 1, 2, 3][i / 512]);
    }
    assert!(rt; holds(&rt, &bank, 0, [7, 1, 2, 3]) && holds(&rt, &bank, 1, [5, 7, 7, 7]));
    assert!(rt; faults(&rt, &bank, 0) == 0 && faults(&rt, &bank, 1) == 0);
    Ok(())
}

// Writes three sectors, flushes and reads all, where this call of the first device fails. The three that follow are answered so.
fn run(
    rt: &impl Abort,
    alloc: Global,
    call: u64,
    answers: [bool; 3],
    ops: u64,
    values: [u8; 4],
) -> Result<(), Fail> {
    let mut bank = two(alloc, &[call], &[])?;
    let mut found = [0u8; 2048];
    let wrote = writes(rt, &mut bank, 0, 1, &three());
    let flushed = flushes(rt, &mut bank, 0);
    let read = reads(rt, &mut bank, 0, 0, &mut found);
    assert!(rt;
        wrote == answers[0] && flushed == answers[1] && read == answers[2],
        "call {call}"
    );
    assert!(rt;
        bank.ops() == ops && holds(rt, &bank, 0, values),
        "call {call}"
    );
    let missed = answers.iter().filter(|&&answer| !answer).count();
    assert!(rt; faults(rt, &bank, 0) == missed as u64);
    assert!(rt; writes(rt, &mut bank, 1, 3, &[6; 512]) && flushes(rt, &mut bank, 1));
    assert!(rt; holds(rt, &bank, 1, [7, 7, 7, 6]) && faults(rt, &bank, 1) == 0);
    Ok(())
}

#[test]
fn each_call_fails_in_turn(rt: HostRuntime) -> Result<(), Fail> {
    run(&rt, rt.alloc(), 0, [false, false, false], 0, [7, 7, 7, 7])?;
    run(&rt, rt.alloc(), 1, [false, false, false], 1, [7, 1, 7, 7])?;
    run(&rt, rt.alloc(), 2, [false, false, false], 2, [7, 1, 2, 7])?;
    run(&rt, rt.alloc(), 3, [true, false, false], 3, [7, 1, 2, 3])?;
    for call in 4..7 {
        run(&rt, rt.alloc(), call, [true, true, false], 4, [7, 1, 2, 3])?;
    }
    run(&rt, rt.alloc(), 7, [true, true, true], 4, [7, 1, 2, 3])
}
