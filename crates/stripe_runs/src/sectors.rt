//! Sectors of a slot, one behind the other, read and written in one device call.

ghost use Rattle.std.specs.Prelude.{◌≡◌, ◌+◌, ◌*◌, ◌<◌, ◌≤◌, ◌∷◌, ℕ, true, length, OnOk};
ghost use Rattle.raid_parity_simd.specs.Parts.{IsOutside};
ghost use Rattle.stripe_row.specs.bank_Given.{IsPlace, HasCause};
ghost use Rattle.stripe_row.specs.bank_Tape.{EachMark, disk};
ghost use Rattle.stripe_row.specs.raid_parity_Rows.{sector_of};
ghost use Rattle.stripe_row.specs.Rows.{present};
ghost use Rattle.stripe_runs.specs.Writing.{IsGaining, IsSlotSector};

use stripe_row::{Bank, BankFault};

/// Reads `count` sectors of a slot, from sector `at` on, into the sectors of a buffer from `first` on.
pub fn read_sectors<B: Bank>(
    bank: &mut B,
    slot: u32,
    at: u64,
    buffer: &mut [u8],
    first: usize,
    count: usize,
) -> Result<(), BankFault>
    requires place { IsPlace (B.given bank.old) slot at (512 * count) }
    requires room { 512 * (first + count) ≤ length buffer.old }
    ensures here { OnOk result (B.tells → (j : ℕ) → j < count → sector_of buffer.new (first + j) ≡ present (B.given bank.old) (B.tape bank.old) slot (at + j)) }
    ensures others { (i : ℕ) → IsOutside first count i → sector_of buffer.new i ≡ sector_of buffer.old i }
    ensures tape { B.tells → B.tape bank.new ≡ B.tape bank.old }
    ensures given { B.given bank.new ≡ B.given bank.old }
    ensures cause { HasCause slot (B.faults_of bank.old) (B.faults_of bank.new) result }
{
    bank.read(slot, at, &mut buffer[512 * first..512 * (first + count)])
}

/// Writes `count` sectors of a buffer, from `first` on, to those of a slot from sector `at` on.
pub fn write_sectors<B: Bank>(
    bank: &mut B,
    slot: u32,
    at: u64,
    buffer: &[u8],
    first: usize,
    count: usize,
) -> Result<(), BankFault>
    requires place { IsPlace (B.given bank.old) slot at (512 * count) }
    requires room { 512 * (first + count) ≤ length buffer.now }
    ensures each_mark { let start = (B.given bank.old).start in EachMark B.tells start (B.tape bank.old) (B.tape bank.new)
        (IsGaining (IsSlotSector slot at 0 count (λ j. true) (λ j. sector_of buffer.now (first + j))) (disk start (B.tape bank.old))) }
    ensures written { OnOk result (B.tells → let start = (B.given bank.old).start in (j : ℕ) → j < count
        → disk start (B.tape bank.new) slot (at + j) ≡ sector_of buffer.now (first + j) ∷ disk start (B.tape bank.old) slot (at + j)) }
    ensures given { B.given bank.new ≡ B.given bank.old }
    ensures cause { HasCause slot (B.faults_of bank.old) (B.faults_of bank.new) result }
{
    bank.write(slot, at, &buffer[512 * first..512 * (first + count)])
}
