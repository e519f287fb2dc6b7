//! Running arrays in memory. Each is ended by a halt.
ghost use Rattle.std.specs.Prelude.{◌≡◌, IfOk};
ghost use Rattle.history.specs.Flat.{next_number};
ghost use Rattle.lane_shared.specs.array_requests_Replies.{IsAskable};

use array_requests::halt;
use bank::{Bank, MemoryBank};
use history::{Epoch, Event, Request};
use lane_shared::{CreateSpec, Reply, Running, create_array, open_running, perform};
use raid_types::{Sectors, Shape, Who, Wish};
use std::alloc::Global;
use std::test::Fail;

/// Five stripes of 8 rows on three members.
pub(crate) const SPEC: CreateSpec = CreateSpec {
    uuid: [7; 16],
    shape: Shape {
        level: 5,
        layout: 2,
        chunk: 8,
        disks: 3,
    },
    size: 40,
    offset: 16,
};

// Sixteen stripes of 8 rows on four members.
const WIDER: CreateSpec = CreateSpec {
    uuid: [8; 16],
    shape: Shape {
        level: 5,
        layout: 2,
        chunk: 8,
        disks: 4,
    },
    size: 128,
    offset: 16,
};

/// Slots of these lengths, and room for so many operations.
pub(crate) fn bank_of(alloc: Global, lengths: &[u64], room: u64) -> Result<MemoryBank, Fail> {
    if lengths.len() > 32 {
        return Err(Fail::from("too many slots"));
    }
    let lengths = Vec::from_slice(alloc, lengths)?;
    Ok(MemoryBank::new(alloc, lengths, room, Vec::new(alloc))?)
}

/// An array that is made without a backup.
pub(crate) fn created_alone<B: Bank + Drop>(
    alloc: Global,
    bank: B,
    spec: CreateSpec,
) -> Result<Running<B>, Fail> {
    if bank.slots() > 32 {
        return Err(Fail::from("too many slots"));
    }
    match create_array(alloc, bank, None, spec) {
        Ok(array) => Ok(array),
        Err((_bank, _)) => Err(Fail::from("not made")),
    }
}

/// An array that is made, with the last slot as the backup.
pub(crate) fn created<B: Bank + Drop>(
    alloc: Global,
    bank: B,
    backup: u32,
    spec: CreateSpec,
) -> Result<Running<B>, Fail> {
    if backup >= 32 || bank.slots() > 32 || backup + 1 != bank.slots() {
        return Err(Fail::from("no backup"));
    }
    match create_array(alloc, bank, Some(backup), spec) {
        Ok(array) => Ok(array),
        Err((_bank, _)) => Err(Fail::from("not made")),
    }
}

// An array that is found, with this slot as the backup.
fn found<B: Bank + Drop>(alloc: Global, bank: B, backup: u32) -> Result<Running<B>, Fail> {
    if bank.slots() > 32 || backup >= bank.slots() {
        return Err(Fail::from("no backup"));
    }
    match open_running(alloc, bank, Some(backup), None) {
        Ok(array) => Ok(array),
        Err((_bank, _)) => Err(Fail::from("not found")),
    }
}

// The next call of caller 3.
fn next_call<B: Bank>(array: &Running<B>) -> Who
    ensures caller { result.caller ≡ 3 }
    ensures number { result.number ≡ next_number result.caller array.now.parts.entries }
{
    Who {
        caller: 3,
        number: array.next_number(3),
    }
}

/// The bank of an array that is halted, and what became of it.
pub(crate) fn halted<B: Bank>(array: Running<B>) -> (B, Epoch) {
    let who = next_call(&array);
    halt(array, who)
}

// Whether a reply tells that the request was done.
fn is_done(reply: &Reply) -> bool {
    match reply {
        Reply::NoMemory => false,
        Reply::Done { at: _, event } => !matches!(event, Event::Refused { .. }),
    }
}

// Asks a request of caller 3, and tells whether it was done.
fn does<B: Bank>(alloc: Global, array: &mut Running<B>, request: Request) -> bool
    requires { IsAskable request }
{
    let who = next_call(array);
    is_done(&perform(alloc, array, who, request))
}

// The array, once two requests were done.
fn behind<B: Bank + Drop>(
    alloc: Global,
    array: Running<B>,
    first: Request,
    second: Request,
) -> Result<Running<B>, Fail>
    requires first { IsAskable first }
    requires second { IsAskable second }
{
    let mut array = array;
    let one = does(alloc, &mut array, first);
    let two = does(alloc, &mut array, second);
    if one && two {
        Ok(array)
    } else {
        let _ = halted(array);
        Err(Fail::from("not done"))
    }
}

/// A request that writes a sector of this byte.
pub(crate) fn write_of(alloc: Global, at: u32, byte: u8) -> Result<Request, Fail>
    ensures { IfOk result (λ request. IsAskable request) }
{
    let body = Sectors::copy_of(alloc, &[byte; 512])?;
    Ok(Request::Write {
        at: at as u64,
        body,
    })
}

// The bank of an array that is written and halted.
fn dirtied<B: Bank>(alloc: Global, array: Running<B>, write: Request) -> B
    requires { IsAskable write }
{
    let mut array = array;
    let _ = does(alloc, &mut array, write);
    let (bank, _) = halted(array);
    bank
}

/// An array that was written and halted, and is found again: five stripes to resync, and its end.
pub(crate) fn dirty(alloc: Global) -> Result<Running<MemoryBank>, Fail> {
    let write = write_of(alloc, 7, 5)?;
    let array = created(alloc, bank_of(alloc, &[64; 4], 800)?, 3, SPEC)?;
    found(alloc, dirtied(alloc, array, write), 3)
}

/// Such an array that lost a role behind the first two stripes of its resync.
pub(crate) fn unsynced(alloc: Global) -> Result<Running<MemoryBank>, Fail> {
    let array = dirty(alloc)?;
    behind(
        alloc,
        array,
        Request::Steps { most: 2 },
        Request::Fail { role: 1 },
    )
}

/// An array with a spare in slot 3, which lacks role 1: the spare gets the role, its five stripes are rebuilt, and the rebuild ends.
pub(crate) fn lacking(alloc: Global) -> Result<Running<MemoryBank>, Fail> {
    let array = created_alone(alloc, bank_of(alloc, &[64; 5], 800)?, SPEC)?;
    behind(
        alloc,
        array,
        Request::Add { slot: 3 },
        Request::Fail { role: 1 },
    )
}

/// An array with nothing to do.
pub(crate) fn clean(alloc: Global) -> Result<Running<MemoryBank>, Fail> {
    created(alloc, bank_of(alloc, &[64; 4], 800)?, 3, SPEC)
}

// A request for five disks.
fn grow() -> Request
    ensures { IsAskable result }
{
    let wish = Wish {
        level: None,
        disks: Some(5),
        chunk: None,
        layout: None,
    };
    Request::Grow { wish }
}

/// An array of four members with a spare, and a plan to reshape it to five: 26 steps.
pub(crate) fn planned(alloc: Global) -> Result<Running<MemoryBank>, Fail> {
    let bank = bank_of(alloc, &[144, 144, 144, 144, 144, 104], 8_000)?;
    let array = created(alloc, bank, 5, WIDER)?;
    behind(alloc, array, Request::Add { slot: 4 }, grow())
}
