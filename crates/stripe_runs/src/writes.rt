//! A run of rows is written.

ghost use Rattle.std.specs.Prelude.{◌≡◌, ◌+◌, ◌*◌, ◌^◌, ◌<◌, ◌≤◌, ◌∷◌, ℕ, Bool, true, not, length, slice_index, OnOk, OnErr};
ghost use Rattle.raid_layout.specs.raid_types_Shapes.{has_slot};
ghost use Rattle.raid_parity_simd.specs.Buffers.{IsRun, buffered, role_sectors};
ghost use Rattle.raid_parity_simd.specs.Parts.{IsOutside};
ghost use Rattle.stripe_row.specs.bank_Given.{IsPlace, IsFaulted, NeverFalls};
ghost use Rattle.stripe_row.specs.bank_Tape.{EachMark, disk};
ghost use Rattle.raid_layout.specs.Layout.{row_roles};
ghost use Rattle.stripe_row.specs.raid_parity_Parity.{AreEquationsMet};
ghost use Rattle.stripe_row.specs.Rows.{present, reading_of, held_row, standing_sector, members_without, IsTolerated, IsLoss, HaveFailed};
ghost use Rattle.stripe_row.specs.Writes.{AreApart};
ghost use Rattle.stripe_runs.specs.Runs.{AreRowsOf};
ghost use Rattle.stripe_runs.specs.Writing.{new_buffered, IsGaining, IsNewSector, HaveNewSectors, IsWritingRun, IsRunWritten, OthersStandIn, IsSlotSector};

use crate::held::holder_of;
use crate::parities::{due_roles, set_parity};
use crate::runs::Run;
use crate::sectors::write_sectors;
use raid_layout::Shape;
use raid_parity_simd::ROLE_SECTORS;
use stripe_row::{Bank, BankFault, Members, contains, data_offset, lose_slots, with};

// The first of these rows in which the role is due, or isn't, as is asked; else their end.
fn next_row(due: &[u32], role: u32, from: usize, to: usize, is_due: bool) -> usize
    requires role { role < 32 }
    requires order { from ≤ to }
    requires within { to ≤ length due.now }
    ensures low { from ≤ result }
    ensures high { result ≤ to }
    ensures here { result < to → has_slot (slice_index due.now result) role ≡ is_due }
    ensures before { (j : ℕ) → from ≤ j → j < result → has_slot (slice_index due.now j) role ≡ not is_due }
{
    for j in from..to {
        if contains(due[j], role) == is_due {
            return j;
        }
    }
    to
}

// Writes a role's sectors of the rows in which it is due to its slot, where the first row has this place: those one behind the
// other in one call, up to a call that fails.
fn write_due<B: Bank>(
    bank: &mut B,
    slot: u32,
    at: u64,
    run: Run,
    role: u32,
    due: &[u32],
    buffer: &[u8],
) -> Result<(), BankFault>
    requires place { IsPlace (B.given bank.old) slot at (512 * run.count) }
    requires short { at + run.count < 2 ^ 64 }
    requires role { role < 32 }
    requires due { run.count ≤ length due.now }
    requires room { 512 * (role_sectors * role + (run.at + run.count)) ≤ length buffer.now }
    ensures each_mark { let start = (B.given bank.old).start in EachMark B.tells start (B.tape bank.old) (B.tape bank.new)
        (IsGaining (IsSlotSector slot at 0 run.count (λ j. has_slot (slice_index due.now j) role) (λ j. buffered buffer.now (run.at + j) role)) (disk start (B.tape bank.old))) }
    ensures written { OnOk result (B.tells → let start = (B.given bank.old).start in (j : ℕ) → j < run.count → has_slot (slice_index due.now j) role ≡ true
        → disk start (B.tape bank.new) slot (at + j) ≡ buffered buffer.now (run.at + j) role ∷ disk start (B.tape bank.old) slot (at + j)) }
    ensures failed { OnErr result (IsFaulted slot (B.faults_of bank.old) (B.faults_of bank.new)) }
    ensures given { B.given bank.new ≡ B.given bank.old }
    ensures never_falls { NeverFalls (B.faults_of bank.old) (B.faults_of bank.new) }
{
    let base = ROLE_SECTORS * role as usize + run.at;
    let mut from = next_row(due, role, 0, run.count, true);
    while from < run.count {
        let to = next_row(due, role, from, run.count, false);
        match write_sectors(bank, slot, at + from as u64, buffer, base + from, to - from) {
            Err(fault) => return Err(fault),
            Ok(()) => {}
        }
        from = next_row(due, role, to, run.count, true);
    }
    Ok(())
}

// Writes a role's sectors of the rows in which it is due, if it has a slot that wasn't lost, whole or recovering. The lost slots
// after it.
fn write_role<B: Bank>(
    members: &Members,
    bank: &mut B,
    shape: &Shape,
    run: Run,
    role: u32,
    due: &[u32],
    lost: u32,
    buffer: &[u8],
) -> u32
    requires rows { AreRowsOf (B.given bank.old) (reading_of members.now) shape.now run }
    requires role { role < shape.now.disks }
    requires small { role < 32 }
    requires due { run.count ≤ length due.now }
    requires room { IsRun shape.now.disks run.at run.count (length buffer.now) }
    ensures each_mark { let start = (B.given bank.old).start in EachMark B.tells start (B.tape bank.old) (B.tape bank.new)
        (IsGaining (IsNewSector (reading_of members.now) role (role + 1) run.row run.count (λ j r. has_slot (slice_index due.now j) r) (λ j r. buffered buffer.now (run.at + j) r))
        (disk start (B.tape bank.old))) }
    ensures written { B.tells → let start = (B.given bank.old).start in
        HaveNewSectors (reading_of members.now) role (role + 1) run.row run.count (λ j r. has_slot (slice_index due.now j) r) (λ j r. buffered buffer.now (run.at + j) r) result
        (disk start (B.tape bank.old)) (disk start (B.tape bank.new)) }
    ensures stay { (s : ℕ) → has_slot lost s ≡ true → has_slot result s ≡ true }
    ensures loss { IsLoss (reading_of members.now) role lost result (B.faults_of bank.old) (B.faults_of bank.new) }
    ensures given { B.given bank.new ≡ B.given bank.old }
    ensures never_falls { NeverFalls (B.faults_of bank.old) (B.faults_of bank.new) }
{
    let Some(slot) = holder_of(members, role) else {
        return lost;
    };
    if contains(lost, slot) {
        return lost;
    }
    let at = data_offset(members, slot) + run.row;
    match write_due(bank, slot, at, run, role, due, buffer) {
        Ok(()) => lost,
        Err(_) => with(lost, slot),
    }
}

// Writes the due sectors of a run's rows, role after role. The slots that failed.
fn write_roles<B: Bank>(
    members: &Members,
    bank: &mut B,
    shape: &Shape,
    run: Run,
    due: &[u32],
    buffer: &[u8],
) -> u32
    requires rows { AreRowsOf (B.given bank.old) (reading_of members.now) shape.now run }
    requires apart { AreApart (reading_of members.now) }
    requires due { run.count ≤ length due.now }
    requires room { IsRun shape.now.disks run.at run.count (length buffer.now) }
    ensures each_mark { let start = (B.given bank.old).start in EachMark B.tells start (B.tape bank.old) (B.tape bank.new)
        (IsGaining (IsNewSector (reading_of members.now) 0 shape.now.disks run.row run.count (λ j r. has_slot (slice_index due.now j) r) (λ j r. buffered buffer.now (run.at + j) r))
        (disk start (B.tape bank.old))) }
    ensures written { B.tells → let start = (B.given bank.old).start in
        HaveNewSectors (reading_of members.now) 0 shape.now.disks run.row run.count (λ j r. has_slot (slice_index due.now j) r) (λ j r. buffered buffer.now (run.at + j) r) result
        (disk start (B.tape bank.old)) (disk start (B.tape bank.new)) }
    ensures failed { HaveFailed (reading_of members.now) shape.now.disks result (B.faults_of bank.old) (B.faults_of bank.new) }
    ensures given { B.given bank.new ≡ B.given bank.old }
    ensures never_falls { NeverFalls (B.faults_of bank.old) (B.faults_of bank.new) }
{
    let mut lost = 0;
    for role in 0..shape.disks {
        lost = write_role(members, bank, shape, run, role, due, lost, buffer);
    }
    lost
}

/// Writes a run's rows of a buffer: the roles that have changed, a set for each row of the buffer, and the parity, which is set
/// there first. Each role's sectors of rows one behind the other go in one device call, to its slot, also one that is still
/// recovering. A slot that fails is lost, and so is its role; the others go on, in all rows of the run. The answer is the set of the
/// slots that were lost in this call.
pub fn write_run<B: Bank>(
    members: &mut Members,
    bank: &mut B,
    shape: &Shape,
    run: Run,
    changed: &[u32],
    buffer: &mut [u8],
) -> u32
    requires rows { AreRowsOf (B.given bank.old) (reading_of members.old) shape.now run }
    requires apart { AreApart (reading_of members.old) }
    requires changed { run.at + run.count ≤ length changed.now }
    requires room { IsRun shape.now.disks run.at run.count (length buffer.old) }
    ensures each_mark { let start = (B.given bank.old).start in EachMark B.tells start (B.tape bank.old) (B.tape bank.new)
        (IsWritingRun (reading_of members.old) shape.now run changed.now buffer.old (disk start (B.tape bank.old))) }
    ensures written { B.tells → let start = (B.given bank.old).start in
        IsRunWritten (reading_of members.old) shape.now run changed.now buffer.old result (disk start (B.tape bank.old)) (disk start (B.tape bank.new)) }
    ensures good { B.tells → IsTolerated (reading_of members.new) shape.now → OthersStandIn (present (B.given bank.old) (B.tape bank.old)) (reading_of members.old) shape.now run changed.now buffer.old
        → (j : ℕ) → j < run.count → AreEquationsMet (row_roles shape.now (run.row + j)) (held_row (present (B.given bank.new) (B.tape bank.new)) (reading_of members.new) shape.now (run.row + j)) }
    ensures stands { B.tells → IsTolerated (reading_of members.new) shape.now → OthersStandIn (present (B.given bank.old) (B.tape bank.old)) (reading_of members.old) shape.now run changed.now buffer.old
        → (role j : ℕ) → role < shape.now.disks → j < run.count
        → standing_sector (present (B.given bank.new) (B.tape bank.new)) (reading_of members.new) shape.now (run.row + j) role ≡ new_buffered shape.now run buffer.old j role }
    ensures sectors { (role j : ℕ) → role < shape.now.disks → j < run.count → buffered buffer.new (run.at + j) role ≡ new_buffered shape.now run buffer.old j role }
    ensures outside { (i role : ℕ) → i < role_sectors → IsOutside run.at run.count i → buffered buffer.new i role ≡ buffered buffer.old i role }
    ensures members { members.new ≡ members_without result members.old }
    ensures failed { HaveFailed (reading_of members.old) shape.now.disks result (B.faults_of bank.old) (B.faults_of bank.new) }
    ensures given { B.given bank.new ≡ B.given bank.old }
    ensures never_falls { NeverFalls (B.faults_of bank.old) (B.faults_of bank.new) }
{
    set_parity(shape, run, buffer);
    let due = due_roles(shape, run, changed);
    let lost = write_roles(members, bank, shape, run, &due, buffer);
    lose_slots(members, lost);
    lost
}
