//! Banks with superblocks, and elections on them.

ghost use Rattle.std.specs.Prelude.{◌≡◌, length};

use bank::{Bank, MemoryBank};
use raid_types::Fault;
use sb_codec::{Sb, sectors_of};
use sb_election::elect;
use sb_specs::Members;
use std::alloc::Global;
use std::process::Abort;
use std::test::Fail;

// Puts both sectors of a superblock in place.
fn set_sectors(rt: &impl Abort, bank: &mut MemoryBank, slot: u32, sectors: &[u8])
    requires { length sectors.now ≡ 1024 }
{
    for i in 0..2usize {
        assert!(rt; slot < bank.slots() && bank.len(slot) >= 10 && bank.ops() == 0);
        bank.set_sector(slot, 8 + i as u64, &sectors[512 * i..512 * i + 512]);
    }
}

fn set_superblock(rt: &impl Abort, bank: &mut MemoryBank, slot: u32, sb: &Sb) {
    assert!(rt; sb.magic == 0xa92b_4efc && sb.major == 1);
    assert!(rt; sb.super_offset == 8 && sb.max_dev <= 384);
    let sectors = sectors_of(sb);
    set_sectors(rt, bank, slot, &sectors);
}

// A bank with these superblocks, one in each slot of so many sectors, and room for so many operations, on which these
// calls are to fail.
pub fn bank_of(
    rt: &impl Abort,
    alloc: Global,
    superblocks: &[Sb],
    sectors: u64,
    room: u64,
    failing: &[u64],
) -> Result<MemoryBank, Fail> {
    assert!(rt; superblocks.len() <= 32);
    let lengths = vec![in alloc; sectors; superblocks.len()]?;
    let failing = Vec::from_slice(alloc, failing)?;
    let mut bank = MemoryBank::new(alloc, lengths, room, failing)?;
    for slot in 0..superblocks.len() {
        set_superblock(rt, &mut bank, slot as u32, &superblocks[slot]);
    }
    Ok(bank)
}

// What the election on a bank answers.
pub fn said_of(rt: &impl Abort, alloc: Global, bank: &mut MemoryBank) -> Result<Members, Fault> {
    assert!(rt; bank.slots() <= 32);
    elect(alloc, bank, None, None)
}
