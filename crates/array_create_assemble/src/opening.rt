//! An opening.

ghost use Rattle.std.specs.Prelude.{◌≡◌, ◌≤◌, ◌<◌, ◌-◌, ◌^◌, ℕ, IfOk, IfErr, IfSome, None, length, map, take, drop, replicate, slice_index};
ghost use Rattle.bank.specs.Tape.{contents};
ghost use Rattle.array_found_laws.specs.sb_specs_Reading.{of_array};
ghost use Rattle.array_found_laws.specs.sb_specs_Election.{uuid_for};
ghost use Rattle.array_found_laws.specs.sb_specs_Writing.{AreWritable};
ghost use Rattle.array_found_laws.specs.sb_specs_Found.{AreInSectors};
ghost use Rattle.array_create_assemble.specs.Looking.{lengths_scope, IsJudged};
ghost use Rattle.array_create_assemble.specs.Opening.{IsFound, IsAside, HasFoundNone, AreGiven, AreOfGiven, AreCounted, AreFlushed};
ghost use Rattle.sb_add_spare.specs.array_members_Flushing.{OnlyFlushesAdded, OnlyItsSlotsFail};

use crate::reshape::backup_refusal;
use crate::slots::{Found, look};
use bank::{Bank, Fault};
use sb_election::reads::lengths;
use sb_election::{Members, elect_seen};
use std::alloc::Global;

/// What an array's superblocks say, and a bit for each slot of the bank that hasn't failed in the opening.
#[derive(Drop)]
pub struct Opened {
    pub members: Members,
    pub given: u32,
}

/// Finds the array with this uuid, or without one that of the first superblock in a member slot, which are all slots but
/// the backup. The superblocks are read, and all slots are flushed, so that a stop leaves what they hold. A slot that
/// fails counts as absent. It writes nothing. It is refused for the first cause that what the slots hold gives.
pub fn find<B: Bank>(
    alloc: Global,
    bank: &mut B,
    backup: Option<u32>,
    uuid: Option<[u8; 16]>,
) -> Result<Opened, Fault>
    requires slots { (B.given bank.old).slots ≤ 32 }
    requires backup { IfSome backup (λ slot. slot < (B.given bank.old).slots) }
    ensures found { let slots = B.given bank.old in let tape = B.tape bank.new in
        IfOk result (λ opened. IsFound B.tells slots (contents slots.start tape (length tape)) backup uuid opened) }
    ensures aside { IfOk result (λ opened. IsAside backup opened.members.own) }
    ensures given { IfOk result (λ opened. AreGiven (B.given bank.old) opened.given (B.faults_of bank.old) (B.faults_of bank.new)) }
    ensures writable { IfOk result (λ opened. AreWritable (B.given bank.old) opened.members.own) }
    ensures own { IfOk result (λ opened. AreOfGiven opened.given opened.members.own) }
    ensures counted { IfOk result (λ opened. AreCounted (B.given bank.old)) }
    ensures named { IfOk result (λ opened. IfSome uuid (λ asked. opened.members.newest.set_uuid ≡ asked)) }
    ensures sectors { let slots = B.given bank.old in let tape = B.tape bank.new in
        IfOk result (λ opened. B.tells → AreInSectors (contents slots.start tape (length tape)) opened.members.own) }
    ensures flushed { IfOk result (λ opened. B.tells → AreFlushed (B.given bank.old).start (B.tape bank.new) opened.given) }
    ensures refused { let slots = B.given bank.old in let tape = B.tape bank.new in IfErr result (λ fault.
        HasFoundNone B.tells slots (contents slots.start tape (length tape)) backup uuid (B.faults_of bank.old) (B.faults_of bank.new) fault) }
    ensures tape { B.tells → OnlyFlushesAdded (B.tape bank.old) (B.tape bank.new) }
    ensures contents { B.tells → let start = (B.given bank.old).start in
        contents start (B.tape bank.new) (length (B.tape bank.new)) ≡ contents start (B.tape bank.old) (length (B.tape bank.old)) }
    ensures slots { B.given bank.new ≡ B.given bank.old }
    ensures counts { OnlyItsSlotsFail (B.given bank.old) (B.faults_of bank.old) (B.faults_of bank.new) }
{
    let found = match look(alloc, bank, backup) {
        Err(_) => return Err(Fault::NoMemory),
        Ok(found) => found,
    };
    let lengths = lengths(bank);
    judge(
        alloc,
        found,
        backup,
        uuid,
        &lengths[..bank.slots() as usize],
    )
}

// Judges the superblocks that were found. Each slot of the bank has a length in sectors.
fn judge(
    alloc: Global,
    found: Found,
    backup: Option<u32>,
    uuid: Option<[u8; 16]>,
    lengths: &[u64],
) -> Result<Opened, Fault>
    requires slots { length lengths.now ≤ 32 }
    requires backup { IfSome backup (λ slot. slot < length lengths.now) }
    requires rest { drop (length lengths.now) found.seen ≡ replicate (32 - length lengths.now) None }
    ensures given { IfOk result (λ opened. opened.given ≡ found.given) }
    ensures counted { (s : ℕ) → slice_index lengths.now s < 2 ^ 64 }
    ensures judged { let seen = take (length lengths.now) found.seen in
        IsJudged (lengths_scope backup found.given lengths.now) (map (of_array (uuid_for uuid seen)) seen) found.lost result }
{
    let given = found.given;
    let members = match elect_seen(alloc, found.seen, found.lost, uuid, lengths) {
        Err(fault) => return Err(fault),
        Ok(members) => members,
    };
    match backup_refusal(&members.newest, backup, given, lengths) {
        Some(refusal) => Err(Fault::Refused(refusal)),
        None => Ok(Opened { members, given }),
    }
}
