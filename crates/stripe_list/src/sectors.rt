//! One sector at a time.

ghost use Rattle.std.specs.Prelude.{◌≡◌, ◌≢◌, ◌+◌, ◌*◌, ◌≤◌, ℕ, length, OnOk};
ghost use Rattle.stripe_row.specs.bank_Given.{IsPlace, HasCause};
ghost use Rattle.stripe_row.specs.raid_parity_Rows.{sector_of};
ghost use Rattle.stripe_row.specs.Rows.{present};

use stripe_row::{Bank, BankFault};

/// Reads a sector into its place in many.
pub fn read_into<B: Bank>(
    bank: &mut B,
    slot: u32,
    at: u64,
    into: &mut [u8],
    index: usize,
) -> Result<(), BankFault>
    requires place { IsPlace (B.given bank.old) slot at 512 }
    requires index { 512 * index + 512 ≤ length into.old }
    ensures here { OnOk result (B.tells → sector_of into.new index ≡ present (B.given bank.old) (B.tape bank.old) slot at) }
    ensures others { (i : ℕ) → i ≢ index → sector_of into.new i ≡ sector_of into.old i }
    ensures tape { B.tells → B.tape bank.new ≡ B.tape bank.old }
    ensures given { B.given bank.new ≡ B.given bank.old }
    ensures cause { HasCause slot (B.faults_of bank.old) (B.faults_of bank.new) result }
{
    bank.read(slot, at, &mut into[512 * index..512 * index + 512])
}

/// Copies one sector of many into its place in others.
pub fn copy_sector(from: &[u8], at: usize, into: &mut [u8], index: usize)
    requires at { 512 * at + 512 ≤ length from.now }
    requires index { 512 * index + 512 ≤ length into.old }
    ensures here { sector_of into.new index ≡ sector_of from.now at }
    ensures others { (i : ℕ) → i ≢ index → sector_of into.new i ≡ sector_of into.old i }
{
    into[512 * index..512 * index + 512].copy_from_slice(&from[512 * at..512 * at + 512]);
}
