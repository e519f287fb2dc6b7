//! The superblocks as they are read.

ghost use Rattle.std.specs.Prelude.{◌≡◌, ◌↔◌, ◌<◌, ◌≤◌, ◌-◌, [], ℕ, Some, None, IfOk, IfSome, IsSome, OnErr, IsTrue, IsFalse, take, drop, replicate, length, slice_index, slice_index_or, if◌then◌else◌};
ghost use Rattle.sb_specs.specs.sb_codec_Superblock.{superblock_in, sb_of, is_valid};
ghost use Rattle.sb_specs.specs.bank_Given.{sizes};
ghost use Rattle.sb_specs.specs.bank_Tape.{contents};
ghost use Rattle.sb_specs.specs.sb_codec_the_Sb.{Sb};
ghost use Rattle.sb_specs.specs.Reading.{is_backup};
ghost use Rattle.sb_specs.specs.Writing.{IsMember, AreWritable};
ghost use Rattle.sb_specs.specs.Found.{IsInSectors, AreInSectors};
ghost use Rattle.sb_specs.specs.Election.{members_scope, seen_superblocks, IsCausedBy, OnlyMembersFail, AreLost};

use sb_specs::{Bank, BankFault, Sb, SbList, decode};
use std::alloc::{AllocError, Global};

// The superblock in two sectors.
fn decoded(sectors: &[u8; 1024]) -> Option<Sb>
    ensures valid { IsSome result ↔ IsTrue (is_valid sectors.now) }
    ensures fields { IfSome result (λ sb. sb ≡ sb_of sectors.now) }
    ensures bytes { (i : ℕ) → slice_index_or sectors.now i 0 < 256 }
{
    decode(sectors)
}

/// The superblock of a slot, whichever array's it is. A slot that is too short for one is not read.
pub fn read_superblock<B: Bank>(bank: &mut B, slot: u32) -> Result<Option<Sb>, BankFault>
    requires { slot < (B.given bank.old).slots }
    ensures writable { IfOk result (λ found. (sb : Sb) → found ≡ Some sb → IsMember (B.given bank.old) (Some sb) slot) }
    ensures found { let given = B.given bank.old in let tape = B.tape bank.old in IfOk result (λ found. B.tells →
        found ≡ superblock_in (given.sectors slot) (contents given.start tape (length tape) slot)) }
    ensures sectors { let given = B.given bank.old in let tape = B.tape bank.old in IfOk result (λ found. B.tells → (sb : Sb) → found ≡ Some sb →
        IsInSectors (contents given.start tape (length tape) slot)) }
    ensures tape { B.tells → B.tape bank.new ≡ B.tape bank.old }
    ensures given { B.given bank.new ≡ B.given bank.old }
    ensures cause { IsCausedBy slot (B.faults_of bank.old) (B.faults_of bank.new) result }
{
    if bank.len(slot) < 10 {
        return Ok(None);
    }
    let mut sectors = [0u8; 1024];
    match bank.read(slot, 8, &mut sectors) {
        Err(fault) => return Err(fault),
        Ok(()) => {}
    }
    Ok(decoded(&sectors))
}

fn is_backup(backup: Option<u32>, slot: u32) -> bool
    ensures { result ≡ is_backup backup slot }
{
    match backup {
        None => false,
        Some(backup) => backup == slot,
    }
}

/// The length of each slot in sectors; past the last slot there are none.
pub fn lengths<B: Bank>(bank: &B) -> [u64; 32]
    requires { (B.given bank.now).slots ≤ 32 }
    ensures each { (s : ℕ) → slice_index result s ≡ (sizes (B.given bank.now)).sectors s }
    ensures count { length result ≡ 32 }
{
    let mut lengths = [0u64; 32];
    for slot in 0..bank.slots() {
        lengths[slot as usize] = bank.len(slot);
    }
    lengths
}

// The superblock of a member slot; the backup has none.
fn read_member<B: Bank>(
    bank: &mut B,
    backup: Option<u32>,
    slot: u32,
) -> Result<Option<Sb>, BankFault>
    requires { slot < (B.given bank.old).slots }
    ensures writable { IfOk result (λ found. (sb : Sb) → found ≡ Some sb → IsMember (B.given bank.old) (Some sb) slot) }
    ensures found { let given = B.given bank.old in let tape = B.tape bank.old in IfOk result (λ found. B.tells →
        found ≡ (if is_backup backup slot then None else superblock_in (given.sectors slot) (contents given.start tape (length tape) slot))) }
    ensures sectors { let given = B.given bank.old in let tape = B.tape bank.old in IfOk result (λ found. B.tells → (sb : Sb) → found ≡ Some sb →
        IsInSectors (contents given.start tape (length tape) slot)) }
    ensures tape { B.tells → B.tape bank.new ≡ B.tape bank.old }
    ensures given { B.given bank.new ≡ B.given bank.old }
    ensures cause { IsCausedBy slot (B.faults_of bank.old) (B.faults_of bank.new) result }
    ensures backup { IsTrue (is_backup backup slot) → B.faults_of bank.new slot ≡ B.faults_of bank.old slot }
    ensures member { OnErr result (IsFalse (is_backup backup slot)) }
    ensures aside { IfOk result (λ found. IsTrue (is_backup backup slot) → found ≡ None) }
{
    if is_backup(backup, slot) {
        return Ok(None);
    }
    read_superblock(bank, slot)
}

/// The superblocks of all member slots, whichever array's they are, and a bit for each slot that failed.
pub fn read_superblocks<B: Bank>(
    alloc: Global,
    bank: &mut B,
    backup: Option<u32>,
) -> Result<(SbList, u32), AllocError>
    requires { (B.given bank.old).slots ≤ 32 }
    ensures seen { let given = B.given bank.old in let tape = B.tape bank.old in IfOk result (λ found. B.tells →
        take given.slots found.0
        ≡ seen_superblocks (members_scope given backup found.1 []) (contents given.start tape (length tape))) }
    ensures rest { let given = B.given bank.old in IfOk result (λ found. drop given.slots found.0 ≡ replicate (32 - given.slots) None) }
    ensures aside { IfOk result (λ found. (slot : ℕ) → IsTrue (is_backup backup slot) → slice_index_or found.0 slot None ≡ None) }
    ensures writable { IfOk result (λ found. AreWritable (B.given bank.old) found.0) }
    ensures sectors { let given = B.given bank.old in let tape = B.tape bank.old in IfOk result (λ found. B.tells →
        AreInSectors (contents given.start tape (length tape)) found.0) }
    ensures lost { IfOk result (λ found. AreLost (B.given bank.old) backup found.1 (B.faults_of bank.old) (B.faults_of bank.new)) }
    ensures tape { B.tells → B.tape bank.new ≡ B.tape bank.old }
    ensures given { B.given bank.new ≡ B.given bank.old }
    ensures faults { OnlyMembersFail (B.given bank.old) backup (B.faults_of bank.old) (B.faults_of bank.new) }
{
    let mut seen = SbList::new(alloc)?;
    let mut lost = 0u32;
    for slot in 0..bank.slots() {
        match read_member(bank, backup, slot) {
            Ok(superblock) => seen.set(slot, superblock),
            Err(_) => lost |= 1 << slot,
        }
    }
    Ok((seen, lost))
}
