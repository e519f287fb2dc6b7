//! A row is read.

ghost use Rattle.std.specs.Prelude.{◌≡◌, ◌≢◌, ◌+◌, ◌*◌, ◌<◌, ◌≤◌, ℕ, true, false, length, OnOk, OnErr};
ghost use Rattle.sb_specs.specs.bank_Given.{IsPlace, HasCause, NeverFalls};
ghost use Rattle.sb_specs.specs.raid_types_Shapes.{has_slot, tolerance};
ghost use Rattle.raid_parity_simd.specs.raid_parity_Rows.{IsRowOf, sector_of};
ghost use Rattle.stripe_row.specs.Rows.{present, reading_of, standing_sector, missing_count, lost_of, members_without, IsRow, IsTolerated, IsLoss, HaveFailed, HasSector};

use crate::fill::reconstruct_missing;
use crate::held::{data_offset, held_slot};
use crate::lose::{lose_slots, missing_count};
use crate::sets::{contains, with};
use sb_specs::{Bank, BankFault, Members, Shape};

/// How many missing roles a row of the shape can do without.
pub fn tolerance(shape: &Shape) -> u32
    ensures { result ≡ tolerance shape.now }
{
    if shape.level == 6 { 2 } else { 1 }
}

// Reads a sector into a role's place of a row.
fn read_into<B: Bank>(
    bank: &mut B,
    slot: u32,
    at: u64,
    into: &mut [u8],
    role: usize,
) -> Result<(), BankFault>
    requires place { IsPlace (B.given bank.old) slot at 512 }
    requires role { 512 * role + 512 ≤ length into.old }
    ensures here { OnOk result (B.tells → sector_of into.new role ≡ present (B.given bank.old) (B.tape bank.old) slot at) }
    ensures others { (r : ℕ) → r ≢ role → sector_of into.new r ≡ sector_of into.old r }
    ensures tape { B.tells → B.tape bank.new ≡ B.tape bank.old }
    ensures given { B.given bank.new ≡ B.given bank.old }
    ensures cause { HasCause slot (B.faults_of bank.old) (B.faults_of bank.new) result }
{
    bank.read(slot, at, &mut into[512 * role..512 * role + 512])
}

// Reads a role's sector of a row, if a slot holds it that wasn't lost. The lost slots after it.
fn read_role<B: Bank>(
    members: &Members,
    bank: &mut B,
    shape: &Shape,
    role: u32,
    row: u64,
    lost: u32,
    into: &mut [u8],
) -> u32
    requires row { IsRow (B.given bank.old) (reading_of members.now) shape.now row }
    requires role { role < shape.now.disks }
    requires whole { IsRowOf shape.now.disks into.old }
    ensures here { B.tells → HasSector (present (B.given bank.old) (B.tape bank.old)) (reading_of members.now) row result into.new role }
    ensures others { (r : ℕ) → r ≢ role → sector_of into.new r ≡ sector_of into.old r }
    ensures stay { (s : ℕ) → has_slot lost s ≡ true → has_slot result s ≡ true }
    ensures loss { IsLoss (reading_of members.now) role lost result (B.faults_of bank.old) (B.faults_of bank.new) }
    ensures tape { B.tells → B.tape bank.new ≡ B.tape bank.old }
    ensures given { B.given bank.new ≡ B.given bank.old }
    ensures never_falls { NeverFalls (B.faults_of bank.old) (B.faults_of bank.new) }
{
    let Some(slot) = held_slot(members, role, row) else {
        return lost;
    };
    if contains(lost, slot) {
        return lost;
    }
    let at = data_offset(members, slot) + row;
    match read_into(bank, slot, at, into, role as usize) {
        Ok(()) => lost,
        Err(_) => with(lost, slot),
    }
}

// Reads the sectors of a row that are held. The slots that failed.
fn read_held<B: Bank>(
    members: &Members,
    bank: &mut B,
    shape: &Shape,
    row: u64,
    into: &mut [u8],
) -> u32
    requires row { IsRow (B.given bank.old) (reading_of members.now) shape.now row }
    requires whole { IsRowOf shape.now.disks into.old }
    ensures sectors { B.tells → (role : ℕ) → role < shape.now.disks
        → HasSector (present (B.given bank.old) (B.tape bank.old)) (reading_of members.now) row result into.new role }
    ensures failed { HaveFailed (reading_of members.now) shape.now.disks result (B.faults_of bank.old) (B.faults_of bank.new) }
    ensures tape { B.tells → B.tape bank.new ≡ B.tape bank.old }
    ensures given { B.given bank.new ≡ B.given bank.old }
    ensures never_falls { NeverFalls (B.faults_of bank.old) (B.faults_of bank.new) }
{
    let mut lost = 0;
    for role in 0..shape.disks {
        lost = read_role(members, bank, shape, role, row, lost, into);
    }
    lost
}

/// Reads a row of a shape in force, role after role; roles that no slot holds are filled from the others. A slot that
/// fails is lost, and so is its role. The answer is the set of the slots that were lost in this call: an Err exactly
/// where more roles are missing than the shape tolerates.
pub fn read_row<B: Bank>(
    members: &mut Members,
    bank: &mut B,
    shape: &Shape,
    row: u64,
    into: &mut [u8],
) -> Result<u32, u32>
    requires row { IsRow (B.given bank.old) (reading_of members.old) shape.now row }
    requires whole { IsRowOf shape.now.disks into.old }
    ensures sectors { OnOk result (B.tells → (role : ℕ) → role < shape.now.disks → sector_of into.new role
        ≡ standing_sector (present (B.given bank.old) (B.tape bank.old)) (reading_of members.new) shape.now row role) }
    ensures ok { OnOk result (IsTolerated (reading_of members.new) shape.now) }
    ensures err { OnErr result (tolerance shape.now < missing_count (reading_of members.new) shape.now) }
    ensures members { members.new ≡ members_without (lost_of result) members.old }
    ensures failed { HaveFailed (reading_of members.old) shape.now.disks (lost_of result) (B.faults_of bank.old) (B.faults_of bank.new) }
    ensures tape { B.tells → B.tape bank.new ≡ B.tape bank.old }
    ensures given { B.given bank.new ≡ B.given bank.old }
    ensures never_falls { NeverFalls (B.faults_of bank.old) (B.faults_of bank.new) }
{
    let lost = read_held(members, bank, shape, row, into);
    lose_slots(members, lost);
    if tolerance(shape) < missing_count(members, shape.disks) {
        return Err(lost);
    }
    reconstruct_missing(members, shape, row, into);
    Ok(lost)
}
