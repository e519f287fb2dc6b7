//! The slots of a bank are looked at: their superblocks are read, and they are flushed.

ghost use Rattle.std.specs.Prelude.{◌≡◌, ◌<◌, ◌≤◌, ◌-◌, ℕ, true, [], None, IfOk, nat_lt, not, ◌&&◌, take, drop, replicate, length, slice_index_or, IsTrue, if◌then◌else◌};
ghost use Rattle.array_found_laws.specs.raid_types_Shapes.{has_slot};
ghost use Rattle.bank.specs.Tape.{contents};
ghost use Rattle.array_found_laws.specs.sb_specs_Reading.{is_backup};
ghost use Rattle.array_found_laws.specs.sb_specs_Election.{seen_superblocks};
ghost use Rattle.array_found_laws.specs.sb_specs_Writing.{AreWritable};
ghost use Rattle.array_found_laws.specs.sb_specs_Found.{AreInSectors};
ghost use Rattle.array_create_assemble.specs.Opening.{scope_of, AreGiven, AreFlushed};
ghost use Rattle.sb_add_spare.specs.array_members_Flushing.{OnlyFlushesAdded, OnlyItsSlotsFail};

use bank::Bank;
use sb_add_spare::flush_slots;
use sb_election::reads::read_superblocks;
use sb_election::{SbList, contains, with};
use std::alloc::{AllocError, Global};

/// The superblocks that were found, whichever array's they are, and a bit for each slot of the bank: which ones failed,
/// and which ones didn't.
#[derive(Drop)]
pub struct Found {
    pub seen: SbList,
    pub lost: u32,
    pub given: u32,
}

// The slots of the bank that are not in the set.
fn others(slots: u32, set: u32) -> u32
    requires { slots ≤ 32 }
    ensures { (s : ℕ) → has_slot result s ≡ (nat_lt s slots && not (has_slot set s)) }
{
    let mut others = 0;
    for slot in 0..slots {
        if !contains(set, slot) {
            others = with(others, slot);
        }
    }
    others
}

// Leaves the superblocks of the slots that weren't lost.
fn forget(seen: &mut SbList, lost: u32)
    ensures each { (s : ℕ) → s < 32 → slice_index_or seen.new s None ≡ (if has_slot lost s then None else slice_index_or seen.old s None) }
    ensures count { length seen.new ≡ 32 }
{
    let count = seen.as_slice().len() as u32;
    for slot in 0..count {
        if contains(lost, slot) {
            seen.set(slot, None);
        }
    }
}

/// Reads the superblocks of all member slots, and then flushes all slots. It writes nothing. A slot that fails in this
/// is lost, and has no superblock.
pub fn look<B: Bank>(alloc: Global, bank: &mut B, backup: Option<u32>) -> Result<Found, AllocError>
    requires { (B.given bank.old).slots ≤ 32 }
    ensures seen { let bank_given = B.given bank.old in let tape = B.tape bank.new in IfOk result (λ found. B.tells →
        take bank_given.slots found.seen ≡ seen_superblocks (scope_of bank_given backup found.given []) (contents bank_given.start tape (length tape))) }
    ensures rest { let bank_given = B.given bank.old in IfOk result (λ found. drop bank_given.slots found.seen ≡ replicate (32 - bank_given.slots) None) }
    ensures count { IfOk result (λ found. length found.seen ≡ 32) }
    ensures aside { IfOk result (λ found. (slot : ℕ) → IsTrue (is_backup backup slot) → slice_index_or found.seen slot None ≡ None) }
    ensures writable { IfOk result (λ found. AreWritable (B.given bank.old) found.seen) }
    ensures sectors { let bank_given = B.given bank.old in let tape = B.tape bank.new in IfOk result (λ found. B.tells →
        AreInSectors (contents bank_given.start tape (length tape)) found.seen) }
    ensures none { IfOk result (λ found. (s : ℕ) → has_slot found.lost s ≡ true → slice_index_or found.seen s None ≡ None) }
    ensures slots { IfOk result (λ found. AreGiven (B.given bank.old) found.given (B.faults_of bank.old) (B.faults_of bank.new)) }
    ensures lost { IfOk result (λ found. (s : ℕ) → has_slot found.lost s ≡ (nat_lt s (B.given bank.old).slots && not (has_slot found.given s))) }
    ensures flushed { IfOk result (λ found. B.tells → AreFlushed (B.given bank.old).start (B.tape bank.new) found.given) }
    ensures tape { B.tells → OnlyFlushesAdded (B.tape bank.old) (B.tape bank.new) }
    ensures given { B.given bank.new ≡ B.given bank.old }
    ensures counts { OnlyItsSlotsFail (B.given bank.old) (B.faults_of bank.old) (B.faults_of bank.new) }
{
    let (mut seen, failed) = match read_superblocks(alloc, bank, backup) {
        Err(fault) => return Err(fault),
        Ok(found) => found,
    };
    let lost = flush_slots(bank, failed);
    forget(&mut seen, lost);
    let given = others(bank.slots(), lost);
    Ok(Found { seen, lost, given })
}
