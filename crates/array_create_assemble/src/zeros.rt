//! The rows of an array that is made.

ghost use Rattle.std.specs.Prelude.{◌≡◌, ◌≢◌, ◌+◌, ◌<◌, ◌≤◌, ◌^◌, ℕ, OnOk, OnErr, IfErr};
ghost use Rattle.array_found_laws.specs.raid_types_Sectors.{zero_sector};
ghost use Rattle.bank.specs.Given.{Given, IsFaulted, NeverFalls};
ghost use Rattle.sb_add_spare.specs.stripe_row_Rows.{present};
ghost use Rattle.array_create_assemble.specs.Creating.{rows_end};
ghost use Rattle.array_create_assemble.specs.Filling.{OnlyBelow, IsSlotDone, AreSlotsDone, OnlyFirstFail, AreZeros};

use crate::spec::CreateSpec;
use bank::{Bank, BankFault, write_sector};

// A sector of zeros.
fn zero_bytes() -> [u8; 512]
    ensures { result ≡ zero_sector }
{
    [0; 512]
}

// Writes zeros over the rows of one slot, and flushes it.
fn zero_member<B: Bank>(
    bank: &mut B,
    slot: u32,
    offset: u64,
    size: u64,
    zeros: &[u8],
) -> Result<(), BankFault>
    requires slot { slot < (B.given bank.old).slots }
    requires within { offset + size ≤ (B.given bank.old).sectors slot }
    requires short { offset + size < 2 ^ 63 }
    requires zeros { zeros.now ≡ zero_sector }
    ensures zero { OnOk result (B.tells → (row : ℕ) → row < size → present (B.given bank.old) (B.tape bank.new) slot (offset + row) ≡ zero_sector) }
    ensures done { OnOk result (B.tells → IsSlotDone (B.given bank.old).start (B.tape bank.old) (B.tape bank.new) slot) }
    ensures tape { B.tells → OnlyBelow (slot + 1) (B.tape bank.old) (B.tape bank.new) }
    ensures given { B.given bank.new ≡ B.given bank.old }
    ensures never_falls { NeverFalls (B.faults_of bank.old) (B.faults_of bank.new) }
    ensures others { (s : ℕ) → s ≢ slot → B.faults_of bank.new s ≡ B.faults_of bank.old s }
    ensures cause { OnErr result (IsFaulted slot (B.faults_of bank.old) (B.faults_of bank.new)) }
{
    for row in 0..size {
        match write_sector(bank, slot, offset + row, zeros) {
            Err(fault) => return Err(fault),
            Ok(()) => {}
        }
    }
    bank.flush(slot)
}

/// Writes zeros over the rows of each member, and flushes its slot. An Err is the slot that failed.
pub fn zero_members<B: Bank>(bank: &mut B, spec: &CreateSpec) -> Result<(), u32>
    requires known { spec.now.shape.disks ≤ (B.given bank.old).slots }
    requires within { (slot : ℕ) → slot < spec.now.shape.disks → rows_end spec.now ≤ (B.given bank.old).sectors slot }
    requires short { rows_end spec.now < 2 ^ 63 }
    ensures zeros { OnOk result (B.tells → AreZeros spec.now.shape.disks spec.now (present (B.given bank.old) (B.tape bank.new))) }
    ensures done { OnOk result (B.tells → AreSlotsDone (B.given bank.old).start spec.now.shape.disks (B.tape bank.old) (B.tape bank.new)) }
    ensures tape { B.tells → OnlyBelow spec.now.shape.disks (B.tape bank.old) (B.tape bank.new) }
    ensures given { B.given bank.new ≡ B.given bank.old }
    ensures counts { OnlyFirstFail spec.now.shape.disks (B.faults_of bank.old) (B.faults_of bank.new) }
    ensures cause { IfErr result (λ slot. (slot < spec.now.shape.disks) × IsFaulted slot (B.faults_of bank.old) (B.faults_of bank.new)) }
{
    let zeros = zero_bytes();
    for slot in 0..spec.shape.disks {
        match zero_member(bank, slot, spec.offset, spec.size, &zeros) {
            Err(_) => return Err(slot),
            Ok(()) => {}
        }
    }
    Ok(())
}
