//! Banks, and what is made and found in them, for tests.
#![tactic(auto)]

pub use array_create_assemble::{CreateSpec, Opened, refusal_of_create};
use array_create_assemble::{Bank, Fault, MemoryBank, Sb, Shape, find, make, sectors_of};
use std::alloc::Global;
use std::test::Fail;

pub const SHAPE: Shape = Shape {
    level: 5,
    layout: 2,
    chunk: 8,
    disks: 3,
};

/// Five stripes of 8 rows on three members.
pub const SPEC: CreateSpec = CreateSpec {
    uuid: [7; 16],
    shape: SHAPE,
    size: 40,
    offset: 16,
};

/// Slots of these lengths, and room for so many operations; the calls of these numbers fail.
pub fn bank_of(
    alloc: Global,
    lengths: &[u64],
    room: u64,
    failing: &[u64],
) -> Result<MemoryBank, Fail> {
    if lengths.len() > 32 {
        return Err(Fail::from("too many slots"));
    }
    let lengths = Vec::from_slice(alloc, lengths)?;
    let failing = Vec::from_slice(alloc, failing)?;
    Ok(MemoryBank::new(alloc, lengths, room, failing)?)
}

/// Writes the superblock of a slot.
pub fn put(bank: &mut MemoryBank, slot: u32, sb: &Sb) -> Result<(), Fail> {
    if slot >= bank.slots() || bank.len(slot) < 10 {
        return Err(Fail::from("no room for a superblock"));
    }
    if sb.magic != 0xa92b_4efc || sb.major != 1 || sb.super_offset != 8 || sb.max_dev > 384 {
        return Err(Fail::from("no superblock"));
    }
    let sectors = sectors_of(sb);
    match bank.write(slot, 8, &sectors) {
        Ok(()) => Ok(()),
        Err(_) => Err(Fail::from("not written")),
    }
}

/// Stores these superblocks in the first slots.
pub fn write_all_rows(bank: &mut MemoryBank, superblocks: &[Sb]) -> Result<(), Fail> {
    if superblocks.len() > 32 {
        return Err(Fail::from("too many superblocks"));
    }
    for slot in 0..superblocks.len() as u32 {
        put(bank, slot, &superblocks[slot as usize])?;
    }
    Ok(())
}

/// What an opening answers.
pub fn opened(
    alloc: Global,
    bank: &mut MemoryBank,
    backup: Option<u32>,
) -> Result<Result<Opened, Fault>, Fail> {
    if bank.slots() > 32 {
        return Err(Fail::from("too many slots"));
    }
    if let Some(slot) = backup {
        if slot >= bank.slots() {
            return Err(Fail::from("no backup"));
        }
    }
    Ok(find(alloc, bank, backup, None))
}

/// What it answers to make an array. The last of five slots is the backup.
pub fn made(
    alloc: Global,
    bank: &mut MemoryBank,
    spec: &CreateSpec,
) -> Result<Result<Opened, Fault>, Fail> {
    if bank.slots() != 5 {
        return Err(Fail::from("not five slots"));
    }
    Ok(make(alloc, bank, Some(4), spec))
}
