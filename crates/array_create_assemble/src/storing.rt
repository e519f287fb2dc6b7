//! The superblocks of an array that is made are stored.

ghost use Rattle.std.specs.Prelude.{◌≡◌, ◌≢◌, ◌∷◌, [], ◌+◌, ◌<◌, ◌≤◌, ◌^◌, ℕ, length, take, drop, replicate, slice_index, slice_index_or, Some, None, IfOk, OnOk, IfErr, IsTrue};
ghost use Rattle.bank.specs.declared.bank.Operation.TheVariants.{Write, Flush};
ghost use Rattle.bank.specs.Given.{IsPlace, HasCause, IsFaulted};
ghost use Rattle.bank.specs.Tape.{Did};
ghost use Rattle.array_found_laws.specs.sb_codec_Superblock.{is_valid, sb_of};
ghost use Rattle.sb_add_spare.specs.stripe_row_Rows.{present};
ghost use Rattle.array_create_assemble.specs.Creating.{rows_end};
ghost use Rattle.array_create_assemble.specs.Filling.{OnlyBelow, IsSlotDone, IsMade, IsStored, AreFirst, AreStored, AreSlotsDone, OnlyFirstFail};

use crate::device::created_sb;
use crate::spec::CreateSpec;
use bank::{Bank, BankFault, write_sector};
use sb_election::{Sb, SbList, encode, fields_of};

/// The first sector of a superblock.
const SUPERBLOCK: u64 = 8;

// The role entries that stand in the second sector.
fn last_entries(entries: &[u16]) -> &[u16]
    requires { length entries.now ≡ 384 }
    ensures { result.now ≡ drop 128 entries.now }
{
    &entries[128..]
}

// Puts the superblock of the member with this number into its two sectors, the second of which stays as it is, and gives
// it as it stands there. The member's slot has so many sectors.
fn prepare(spec: &CreateSpec, number: u32, sectors: u64, bytes: &mut [u8; 1024]) -> Sb
    requires disks { spec.now.shape.disks ≤ 16 }
    requires long { spec.now.offset ≤ sectors }
    ensures valid { IsTrue (is_valid bytes.new) }
    ensures fields { result ≡ sb_of bytes.new }
    ensures made { IsMade spec.now number sectors result }
    ensures second_half { drop 512 bytes.new ≡ drop 512 bytes.old }
    ensures small { (k : ℕ) → slice_index bytes.old k < 256 }
{
    let found = fields_of(bytes);
    let sb = created_sb(spec, number, sectors, last_entries(&found.dev_roles));
    encode(&sb, bytes);
    fields_of(bytes)
}

// Writes the first sector of a superblock and flushes the slot.
#[tactic(auto, using(bank::proofs::Calls::did_step, bank::proofs::Calls::did_end, bank::proofs::Causes::cause_step))]
fn put_sector<B: Bank>(bank: &mut B, slot: u32, sector: &[u8]) -> Result<(), BankFault>
    requires size { length sector.now ≡ 512 }
    requires place { IsPlace (B.given bank.old) slot 8 512 }
    ensures did { Did B.tells result (B.tape bank.old) (B.tape bank.new) (Write slot 8 sector.now ∷ Flush slot ∷ []) }
    ensures given { B.given bank.new ≡ B.given bank.old }
    ensures cause { HasCause slot (B.faults_of bank.old) (B.faults_of bank.new) result }
{
    match write_sector(bank, slot, SUPERBLOCK, sector) {
        Err(fault) => return Err(fault),
        Ok(()) => {}
    }
    bank.flush(slot)
}

// The first of two sectors.
fn first_sector(sectors: &[u8]) -> &[u8]
    requires { length sectors.now ≡ 1024 }
    ensures { result.now ≡ take 512 sectors.now }
{
    &sectors[..512]
}

/// Stores the superblock of the member with this number in the slot of that number, flushes the slot, and gives the
/// superblock as it is stored. Its second sector is read, and stays.
pub fn store_member<B: Bank>(bank: &mut B, spec: &CreateSpec, slot: u32) -> Result<Sb, BankFault>
    requires disks { spec.now.shape.disks ≤ 16 }
    requires slot { slot < (B.given bank.old).slots }
    requires long { spec.now.offset ≤ (B.given bank.old).sectors slot }
    requires room { 10 ≤ (B.given bank.old).sectors slot }
    ensures made { let given = B.given bank.old in IfOk result (λ sb. IsMade spec.now slot (given.sectors slot) sb) }
    ensures stored { let given = B.given bank.old in let tape = B.tape bank.new in
        IfOk result (λ sb. B.tells → IsStored (given.sectors slot) (present given tape slot) (Some sb)) }
    ensures rows { OnOk result (B.tells → (k : ℕ) → k ≢ 8 →
        present (B.given bank.old) (B.tape bank.new) slot k ≡ present (B.given bank.old) (B.tape bank.old) slot k) }
    ensures done { OnOk result (B.tells → IsSlotDone (B.given bank.old).start (B.tape bank.old) (B.tape bank.new) slot) }
    ensures tape { B.tells → OnlyBelow (slot + 1) (B.tape bank.old) (B.tape bank.new) }
    ensures short { OnOk result ((B.given bank.old).sectors slot < 2 ^ 64) }
    ensures given { B.given bank.new ≡ B.given bank.old }
    ensures cause { HasCause slot (B.faults_of bank.old) (B.faults_of bank.new) result }
{
    let mut bytes = [0u8; 1024];
    match bank.read(slot, SUPERBLOCK, &mut bytes) {
        Err(fault) => return Err(fault),
        Ok(()) => {}
    }
    let sectors = bank.len(slot);
    let stored = prepare(spec, slot, sectors, &mut bytes);
    match put_sector(bank, slot, first_sector(&bytes)) {
        Err(fault) => Err(fault),
        Ok(()) => Ok(stored),
    }
}

// The same, and the superblock is kept in the list.
fn store_next<B: Bank>(
    bank: &mut B,
    spec: &CreateSpec,
    slot: u32,
    own: &mut SbList,
) -> Result<Sb, BankFault>
    requires disks { spec.now.shape.disks ≤ 16 }
    requires slot { slot < (B.given bank.old).slots }
    requires few { slot < 32 }
    requires within { rows_end spec.now ≤ (B.given bank.old).sectors slot }
    requires behind { 16 ≤ spec.now.offset }
    requires first { AreFirst (B.given bank.old) spec.now slot own.old }
    ensures newest { IfOk result (λ sb. slice_index_or own.new slot None ≡ Some sb) }
    ensures first { OnOk result (AreFirst (B.given bank.old) spec.now (slot + 1) own.new) }
    ensures others { (s : ℕ) → s ≢ slot → slice_index_or own.new s None ≡ slice_index_or own.old s None }
    ensures stored { let given = B.given bank.old in let tape = B.tape bank.new in
        OnOk result (B.tells → IsStored (given.sectors slot) (present given tape slot) (slice_index_or own.new slot None)) }
    ensures rows { OnOk result (B.tells → (k : ℕ) → k ≢ 8 →
        present (B.given bank.old) (B.tape bank.new) slot k ≡ present (B.given bank.old) (B.tape bank.old) slot k) }
    ensures done { OnOk result (B.tells → IsSlotDone (B.given bank.old).start (B.tape bank.old) (B.tape bank.new) slot) }
    ensures tape { B.tells → OnlyBelow (slot + 1) (B.tape bank.old) (B.tape bank.new) }
    ensures given { B.given bank.new ≡ B.given bank.old }
    ensures cause { HasCause slot (B.faults_of bank.old) (B.faults_of bank.new) result }
{
    match store_member(bank, spec, slot) {
        Err(fault) => Err(fault),
        Ok(stored) => {
            own.set(slot, Some(stored));
            Ok(stored)
        }
    }
}

/// Stores the superblock of each member, flushes its slot, and keeps the superblocks in the list, which has none yet. The
/// answer is that of the first member, and at an Err the slot that failed.
pub fn store_members<B: Bank>(bank: &mut B, spec: &CreateSpec, own: &mut SbList) -> Result<Sb, u32>
    requires disks { spec.now.shape.disks ≤ 16 }
    requires some { 1 ≤ spec.now.shape.disks }
    requires known { spec.now.shape.disks ≤ (B.given bank.old).slots }
    requires within { (slot : ℕ) → slot < spec.now.shape.disks → rows_end spec.now ≤ (B.given bank.old).sectors slot }
    requires behind { 16 ≤ spec.now.offset }
    requires none { own.old ≡ replicate 32 None }
    ensures newest { IfOk result (λ sb. slice_index_or own.new 0 None ≡ Some sb) }
    ensures first { OnOk result (AreFirst (B.given bank.old) spec.now spec.now.shape.disks own.new) }
    ensures stored { OnOk result (B.tells → AreStored (B.given bank.old) spec.now.shape.disks own.new (present (B.given bank.old) (B.tape bank.new))) }
    ensures rows { OnOk result (B.tells → (s k : ℕ) → k ≢ 8 →
        present (B.given bank.old) (B.tape bank.new) s k ≡ present (B.given bank.old) (B.tape bank.old) s k) }
    ensures done { OnOk result (B.tells → AreSlotsDone (B.given bank.old).start spec.now.shape.disks (B.tape bank.old) (B.tape bank.new)) }
    ensures tape { B.tells → OnlyBelow spec.now.shape.disks (B.tape bank.old) (B.tape bank.new) }
    ensures given { B.given bank.new ≡ B.given bank.old }
    ensures counts { OnlyFirstFail spec.now.shape.disks (B.faults_of bank.old) (B.faults_of bank.new) }
    ensures cause { IfErr result (λ slot. (slot < spec.now.shape.disks) × IsFaulted slot (B.faults_of bank.old) (B.faults_of bank.new)) }
{
    let first = match store_next(bank, spec, 0, own) {
        Err(_) => return Err(0),
        Ok(first) => first,
    };
    for slot in 1..spec.shape.disks {
        match store_next(bank, spec, slot, own) {
            Err(_) => return Err(slot),
            Ok(_) => {}
        }
    }
    Ok(first)
}
