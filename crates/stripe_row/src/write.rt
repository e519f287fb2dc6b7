//! A row is written.

ghost use Rattle.std.specs.Prelude.{◌≡◌, ◌≢◌, ◌+◌, ◌*◌, ◌++◌, ◌<◌, ◌≤◌, List, ℕ, true, false, length, OnOk, OnErr, Err};
ghost use Rattle.sb_specs.specs.bank_the_Operation.{Operation};
ghost use Rattle.sb_specs.specs.bank_Given.{NeverFalls};
ghost use Rattle.sb_specs.specs.bank_Tape.{EachMark, disk};
ghost use Rattle.sb_specs.specs.raid_types_Shapes.{has_slot, tolerance};
ghost use Rattle.sb_specs.specs.raid_layout_Layout.{row_roles};
ghost use Rattle.raid_parity_simd.specs.raid_parity_Parity.{AreEquationsMet};
ghost use Rattle.raid_parity_simd.specs.raid_parity_Rows.{IsRowOf, sector_of};
ghost use Rattle.stripe_row.specs.Rows.{present, reading_of, held_row, standing_sector, missing_count, lost_of, members_without, IsRow, IsTolerated, IsLoss, HaveFailed};
ghost use Rattle.stripe_row.specs.Writes.{new_sector, slot_in, place_on, AreApart, OthersStand, IsWriting, AreWritten, IsWritingTo, AreWrittenTo, IsTurn, IsGoodRow};

use crate::held::data_offset;
use crate::lose::{holder_of, lose_slots, missing_count};
use crate::new_row::{due_roles, set_parity};
use crate::read::tolerance;
use crate::sets::{contains, with};
use sb_specs::{Bank, Members, Shape, write_sector};

/// The bytes of a row of sixteen disks.
const MOST: usize = 8192;

// Writes a role's sector of a row, if it is one of these and has a slot that wasn't lost, whole or recovering. The lost
// slots after it.
fn write_role<B: Bank>(
    members: &Members,
    bank: &mut B,
    shape: &Shape,
    row: u64,
    role: u32,
    due: u32,
    lost: u32,
    bytes: &[u8],
) -> u32
    requires row { IsRow (B.given bank.old) (reading_of members.now) shape.now row }
    requires role { role < shape.now.disks }
    requires whole { IsRowOf shape.now.disks bytes.now }
    ensures tape { B.tells → (ops : List Operation) × (B.tape bank.new ≡ B.tape bank.old ++ ops)
        × IsTurn (slot_in (reading_of members.now) due role) (place_on (reading_of members.now) row) (sector_of bytes.now role) lost result ops }
    ensures stay { (s : ℕ) → has_slot lost s ≡ true → has_slot result s ≡ true }
    ensures loss { IsLoss (reading_of members.now) role lost result (B.faults_of bank.old) (B.faults_of bank.new) }
    ensures given { B.given bank.new ≡ B.given bank.old }
    ensures never_falls { NeverFalls (B.faults_of bank.old) (B.faults_of bank.new) }
{
    if !contains(due, role) {
        return lost;
    }
    let Some(slot) = holder_of(members, role) else {
        return lost;
    };
    if contains(lost, slot) {
        return lost;
    }
    let at = data_offset(members, slot) + row;
    let start = 512 * role as usize;
    match write_sector(bank, slot, at, &bytes[start..start + 512]) {
        Ok(()) => lost,
        Err(_) => with(lost, slot),
    }
}

// Writes the sectors of these roles, role after role. The slots that failed.
fn write_roles<B: Bank>(
    members: &Members,
    bank: &mut B,
    shape: &Shape,
    row: u64,
    due: u32,
    bytes: &[u8],
) -> u32
    requires row { IsRow (B.given bank.old) (reading_of members.now) shape.now row }
    requires apart { AreApart (reading_of members.now) }
    requires whole { IsRowOf shape.now.disks bytes.now }
    ensures each_mark { let start = (B.given bank.old).start in let r = reading_of members.now in EachMark B.tells start (B.tape bank.old) (B.tape bank.new)
        (IsWritingTo shape.now.disks (slot_in r due) (place_on r row) (sector_of bytes.now) (disk start (B.tape bank.old))) }
    ensures written { B.tells → let start = (B.given bank.old).start in let r = reading_of members.now in
        AreWrittenTo shape.now.disks (slot_in r due) (place_on r row) (sector_of bytes.now) result (disk start (B.tape bank.old)) (disk start (B.tape bank.new)) }
    ensures failed { HaveFailed (reading_of members.now) shape.now.disks result (B.faults_of bank.old) (B.faults_of bank.new) }
    ensures given { B.given bank.new ≡ B.given bank.old }
    ensures never_falls { NeverFalls (B.faults_of bank.old) (B.faults_of bank.new) }
{
    let mut lost = 0;
    for role in 0..shape.disks {
        lost = write_role(members, bank, shape, row, role, due, lost, bytes);
    }
    lost
}

// Writes the changed sectors of a row, and its parity. The slots that failed.
fn write_new<B: Bank>(
    members: &Members,
    bank: &mut B,
    shape: &Shape,
    row: u64,
    from: &[u8],
    changed: u32,
) -> u32
    requires row { IsRow (B.given bank.old) (reading_of members.now) shape.now row }
    requires apart { AreApart (reading_of members.now) }
    requires whole { IsRowOf shape.now.disks from.now }
    ensures each_mark { let start = (B.given bank.old).start in EachMark B.tells start (B.tape bank.old) (B.tape bank.new)
        (IsWriting (reading_of members.now) shape.now row from.now changed (disk start (B.tape bank.old))) }
    ensures written { B.tells → let start = (B.given bank.old).start in
        AreWritten (reading_of members.now) shape.now row from.now changed result (disk start (B.tape bank.old)) (disk start (B.tape bank.new)) }
    ensures good { IsGoodRow (row_roles shape.now row) (new_sector shape.now row from.now) }
    ensures failed { HaveFailed (reading_of members.now) shape.now.disks result (B.faults_of bank.old) (B.faults_of bank.new) }
    ensures given { B.given bank.new ≡ B.given bank.old }
    ensures never_falls { NeverFalls (B.faults_of bank.old) (B.faults_of bank.new) }
{
    let mut room = [0u8; MOST];
    let bytes = &mut room[..from.len()];
    bytes.copy_from_slice(from);
    set_parity(shape, row, bytes);
    let due = due_roles(shape, row, changed);
    write_roles(members, bank, shape, row, due, bytes)
}

/// Writes a row of a shape in force with its parity: the sectors of the changed roles, one bit for each, and those of the
/// parity roles, to the slots that have these roles, also one that is still recovering. `from` is the row, 512 bytes for
/// each disk, role after role; its parity sectors don't count. A slot that fails is lost, and so is its role; the others
/// go on. The answer is the set of the slots that were lost in this call: an Err exactly where more roles are missing than
/// the shape tolerates, and before anything is written where they are so at the start.
pub fn write_row<B: Bank>(
    members: &mut Members,
    bank: &mut B,
    shape: &Shape,
    row: u64,
    from: &[u8],
    changed: u32,
) -> Result<u32, u32>
    requires row { IsRow (B.given bank.old) (reading_of members.old) shape.now row }
    requires apart { AreApart (reading_of members.old) }
    requires whole { IsRowOf shape.now.disks from.now }
    requires others { B.tells → OthersStand (present (B.given bank.old) (B.tape bank.old)) (reading_of members.old) shape.now row from.now changed }
    ensures good { OnOk result (B.tells → AreEquationsMet (row_roles shape.now row)
        (held_row (present (B.given bank.new) (B.tape bank.new)) (reading_of members.new) shape.now row)) }
    ensures sectors { OnOk result (B.tells → (role : ℕ) → role < shape.now.disks
        → standing_sector (present (B.given bank.new) (B.tape bank.new)) (reading_of members.new) shape.now row role ≡ new_sector shape.now row from.now role) }
    ensures each_mark { let start = (B.given bank.old).start in EachMark B.tells start (B.tape bank.old) (B.tape bank.new)
        (IsWriting (reading_of members.old) shape.now row from.now changed (disk start (B.tape bank.old))) }
    ensures written { B.tells → IsTolerated (reading_of members.old) shape.now → let start = (B.given bank.old).start in
        AreWritten (reading_of members.old) shape.now row from.now changed (lost_of result) (disk start (B.tape bank.old)) (disk start (B.tape bank.new)) }
    ensures ok { OnOk result (IsTolerated (reading_of members.new) shape.now) }
    ensures err { OnErr result (tolerance shape.now < missing_count (reading_of members.new) shape.now) }
    ensures refused { tolerance shape.now < missing_count (reading_of members.old) shape.now → (result ≡ Err 0) × (bank.new ≡ bank.old) }
    ensures members { members.new ≡ members_without (lost_of result) members.old }
    ensures failed { HaveFailed (reading_of members.old) shape.now.disks (lost_of result) (B.faults_of bank.old) (B.faults_of bank.new) }
    ensures given { B.given bank.new ≡ B.given bank.old }
    ensures never_falls { NeverFalls (B.faults_of bank.old) (B.faults_of bank.new) }
{
    if tolerance(shape) < missing_count(members, shape.disks) {
        return Err(0);
    }
    let lost = write_new(members, bank, shape, row, from, changed);
    lose_slots(members, lost);
    if tolerance(shape) < missing_count(members, shape.disks) {
        return Err(lost);
    }
    Ok(lost)
}
