//! A run of rows is read.

ghost use Rattle.std.specs.Prelude.{◌≡◌, ◌≢◌, ◌+◌, ◌<◌, ℕ, true, length, OnOk, OnErr};
ghost use Rattle.raid_layout.specs.raid_types_Shapes.{has_slot, tolerance};
ghost use Rattle.raid_parity_simd.specs.Buffers.{IsRun, buffered, role_sectors};
ghost use Rattle.raid_parity_simd.specs.Parts.{IsOutside};
ghost use Rattle.stripe_row.specs.bank_Given.{NeverFalls};
ghost use Rattle.stripe_row.specs.Rows.{present, reading_of, standing_sector, missing_count, lost_of, members_without, IsTolerated, IsLoss, HaveFailed};
ghost use Rattle.stripe_runs.specs.Runs.{AreRowsOf, IsHeldSector};

use crate::fills::reconstruct_run;
use crate::held::held_slot;
use crate::runs::Run;
use crate::sectors::read_sectors;
use raid_layout::Shape;
use raid_parity_simd::ROLE_SECTORS;
use stripe_row::{Bank, Members, contains, data_offset, lose_slots, missing_count, with};

/// How many missing roles a row of the shape can do without.
pub fn tolerance(shape: &Shape) -> u32
    ensures { result ≡ tolerance shape.now }
{
    if shape.level == 6 { 2 } else { 1 }
}

// Reads a role's sectors of a run's rows in one call, if a slot holds them that wasn't lost. The lost slots after it.
fn read_role<B: Bank>(
    members: &Members,
    bank: &mut B,
    shape: &Shape,
    run: Run,
    role: u32,
    lost: u32,
    buffer: &mut [u8],
) -> u32
    requires rows { AreRowsOf (B.given bank.old) (reading_of members.now) shape.now run }
    requires role { role < shape.now.disks }
    requires room { IsRun shape.now.disks run.at run.count (length buffer.old) }
    ensures here { B.tells → (j : ℕ) → j < run.count
        → IsHeldSector (present (B.given bank.old) (B.tape bank.old)) (reading_of members.now) result role (run.row + j) (buffered buffer.new (run.at + j) role) }
    ensures others { (i other : ℕ) → i < role_sectors → other ≢ role → buffered buffer.new i other ≡ buffered buffer.old i other }
    ensures outside { (i other : ℕ) → i < role_sectors → IsOutside run.at run.count i → buffered buffer.new i other ≡ buffered buffer.old i other }
    ensures stay { (s : ℕ) → has_slot lost s ≡ true → has_slot result s ≡ true }
    ensures loss { IsLoss (reading_of members.now) role lost result (B.faults_of bank.old) (B.faults_of bank.new) }
    ensures tape { B.tells → B.tape bank.new ≡ B.tape bank.old }
    ensures given { B.given bank.new ≡ B.given bank.old }
    ensures never_falls { NeverFalls (B.faults_of bank.old) (B.faults_of bank.new) }
{
    let Some(slot) = held_slot(members, role, run.row) else {
        return lost;
    };
    if contains(lost, slot) {
        return lost;
    }
    let at = data_offset(members, slot) + run.row;
    let first = ROLE_SECTORS * role as usize + run.at;
    match read_sectors(bank, slot, at, buffer, first, run.count) {
        Ok(()) => lost,
        Err(_) => with(lost, slot),
    }
}

// Reads the sectors of a run's rows that are held, role after role. The slots that failed.
fn read_held<B: Bank>(
    members: &Members,
    bank: &mut B,
    shape: &Shape,
    run: Run,
    buffer: &mut [u8],
) -> u32
    requires rows { AreRowsOf (B.given bank.old) (reading_of members.now) shape.now run }
    requires room { IsRun shape.now.disks run.at run.count (length buffer.old) }
    ensures sectors { B.tells → (role j : ℕ) → role < shape.now.disks → j < run.count
        → IsHeldSector (present (B.given bank.old) (B.tape bank.old)) (reading_of members.now) result role (run.row + j) (buffered buffer.new (run.at + j) role) }
    ensures outside { (i other : ℕ) → i < role_sectors → IsOutside run.at run.count i → buffered buffer.new i other ≡ buffered buffer.old i other }
    ensures failed { HaveFailed (reading_of members.now) shape.now.disks result (B.faults_of bank.old) (B.faults_of bank.new) }
    ensures tape { B.tells → B.tape bank.new ≡ B.tape bank.old }
    ensures given { B.given bank.new ≡ B.given bank.old }
    ensures never_falls { NeverFalls (B.faults_of bank.old) (B.faults_of bank.new) }
{
    let mut lost = 0;
    for role in 0..shape.disks {
        lost = read_role(members, bank, shape, run, role, lost, buffer);
    }
    lost
}

/// Reads a run of rows into a buffer, one device call for each role; what no slot holds is reconstructed. A slot that fails is lost,
/// and so is its role, in all rows of the run. The answer is the set of the slots that were lost in this call: an Err exactly where
/// more roles are missing than the shape tolerates.
pub fn read_run<B: Bank>(
    members: &mut Members,
    bank: &mut B,
    shape: &Shape,
    run: Run,
    buffer: &mut [u8],
) -> Result<u32, u32>
    requires rows { AreRowsOf (B.given bank.old) (reading_of members.old) shape.now run }
    requires room { IsRun shape.now.disks run.at run.count (length buffer.old) }
    ensures sectors { OnOk result (B.tells → (role j : ℕ) → role < shape.now.disks → j < run.count → buffered buffer.new (run.at + j) role
        ≡ standing_sector (present (B.given bank.old) (B.tape bank.old)) (reading_of members.new) shape.now (run.row + j) role) }
    ensures outside { (i role : ℕ) → i < role_sectors → IsOutside run.at run.count i → buffered buffer.new i role ≡ buffered buffer.old i role }
    ensures ok { OnOk result (IsTolerated (reading_of members.new) shape.now) }
    ensures err { OnErr result (tolerance shape.now < missing_count (reading_of members.new) shape.now) }
    ensures members { members.new ≡ members_without (lost_of result) members.old }
    ensures failed { HaveFailed (reading_of members.old) shape.now.disks (lost_of result) (B.faults_of bank.old) (B.faults_of bank.new) }
    ensures tape { B.tells → B.tape bank.new ≡ B.tape bank.old }
    ensures given { B.given bank.new ≡ B.given bank.old }
    ensures never_falls { NeverFalls (B.faults_of bank.old) (B.faults_of bank.new) }
{
    let lost = read_held(members, bank, shape, run, buffer);
    lose_slots(members, lost);
    if tolerance(shape) < missing_count(members, shape.disks) {
        return Err(lost);
    }
    reconstruct_run(members, shape, run, buffer);
    Ok(lost)
}
