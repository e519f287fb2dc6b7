//! What the stored superblocks of a bank say of an array, and what they are refused for.
#![tactic(auto)]

ghost use Rattle.std.specs.Prelude.{◌≡◌, ◌≤◌, ◌-◌, None, length, map, take, drop, replicate, slice_index};
ghost use Rattle.sb_specs.specs.bank_Tape.{contents};
ghost use Rattle.sb_specs.specs.Reading.{of_array};
ghost use Rattle.sb_specs.specs.Election.{uuid_for, IsAnswer, HasElected, OnlyMembersFail};

pub mod features;
pub mod fields;
pub mod found;
pub mod fresh;
pub mod holders;
pub mod judged;
pub mod missing;
pub mod numbers;
pub mod position;
pub mod reads;

use found::{chosen_uuid, keep_array, newest};
use judged::judge;
use reads::{lengths, read_superblocks};
pub use sb_specs::says::{is_clean, is_reshaping, list_length, shape_of, target_of};
pub use sb_specs::sets::{contains, with, without};
use sb_specs::{Fault, Refusal};
pub use sb_specs::{
    Bank, BankFault, MOST_ROWS, Members, Sb, SbList, encode, fields_of, is_chunk, is_disk_count,
    is_layout, is_level, is_multiple, list_end, sectors_of, unit,
};
use std::alloc::Global;

/// What the superblocks of a bank's member slots, which are all slots but the backup, say of the array with this uuid;
/// without one, of the array of the first superblock. A slot that fails counts as one without a superblock, and is named
/// as lost. It writes nothing.
pub fn elect<B: Bank>(
    alloc: Global,
    bank: &mut B,
    backup: Option<u32>,
    uuid: Option<[u8; 16]>,
) -> Result<Members, Fault>
    requires { (B.given bank.old).slots ≤ 32 }
    ensures elected { let given = B.given bank.old in let tape = B.tape bank.old in
        HasElected B.tells given (contents given.start tape (length tape)) backup uuid (B.faults_of bank.old) (B.faults_of bank.new) result }
    ensures tape { B.tells → B.tape bank.new ≡ B.tape bank.old }
    ensures given { B.given bank.new ≡ B.given bank.old }
    ensures faults { OnlyMembersFail (B.given bank.old) backup (B.faults_of bank.old) (B.faults_of bank.new) }
{
    let (seen, lost) = match read_superblocks(alloc, bank, backup) {
        Err(_) => return Err(Fault::NoMemory),
        Ok(found) => found,
    };
    let lengths = lengths(bank);
    let slots = bank.slots() as usize;
    elect_seen(alloc, seen, lost, uuid, &lengths[..slots])
}

/// The same, of superblocks that were read: what they say of the array with this uuid, or of that of the first one. These
/// slots were lost. Each slot of the bank has a length in sectors.
pub fn elect_seen(
    alloc: Global,
    seen: SbList,
    lost: u32,
    uuid: Option<[u8; 16]>,
    lengths: &[u64],
) -> Result<Members, Fault>
    requires few { length lengths.now ≤ 32 }
    requires rest { drop (length lengths.now) seen ≡ replicate (32 - length lengths.now) None }
    ensures { let found = take (length lengths.now) seen in
        IsAnswer (slice_index lengths.now) (map (of_array (uuid_for uuid found)) found) lost result }
{
    match chosen_uuid(uuid, &seen.as_slice()[..lengths.len()]) {
        None => Err(Fault::Refused(Refusal::NoSuperblock)),
        Some(uuid) => {
            let mut own = seen;
            keep_array(&mut own, &uuid);
            elect_own(alloc, own, lost, lengths)
        }
    }
}

// The same, of the array's superblocks.
fn elect_own(alloc: Global, own: SbList, lost: u32, lengths: &[u64]) -> Result<Members, Fault>
    requires few { length lengths.now ≤ 32 }
    requires rest { drop (length lengths.now) own ≡ replicate (32 - length lengths.now) None }
    ensures { IsAnswer (slice_index lengths.now) (take (length lengths.now) own) lost result }
{
    let slots = &own.as_slice()[..lengths.len()];
    let newest = match newest(slots) {
        None => return Err(Fault::Refused(Refusal::NoSuperblock)),
        Some(newest) => newest,
    };
    match judge(alloc, &newest, slots, lengths) {
        Err(fault) => Err(fault),
        Ok((roles, spares)) => Ok(Members {
            newest,
            own,
            roles,
            spares,
            lost,
        }),
    }
}
