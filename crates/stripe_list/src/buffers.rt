//! Whole rows, read into one buffer.

ghost use Rattle.std.specs.Prelude.{◌≡◌, ◌+◌, ◌*◌, ◌/◌, ◌<◌, ◌≤◌, ◌^◌, ◌⊎◌, ℕ, true, false, length, Contains, [], IsTrue, vec_len, vec_capacity, MatchOption, OnOk};
ghost use Rattle.raid_layout.specs.raid_types_Shapes.{is_valid_shape, data_disks};
ghost use Rattle.raid_layout.specs.Layout.{place, is_parity_only};
ghost use Rattle.stripe_row.specs.raid_parity_Rows.{IsRowOf, sector_of};
ghost use Rattle.stripe_row.specs.Rows.{present, reading_of, is_missing, IsRow};
ghost use Rattle.stripe_list.specs.Calls.{HasRows, AreLost, IsAnswer};
ghost use Rattle.stripe_list.specs.Buffers.{AreDistinct, AreTouched, HasData, IsDataWhole, IsRowRead, AreRead};

use crate::outcome::{Outcome, Unavailable, are_too_many};
use raid_layout::{Shape, parity_only, place};
use stripe_row::{Bank, Members, is_missing, read_row};

/// The bytes that each row has in the buffer: room for 16 sectors.
pub const ROW_BYTES: usize = 8192;

// Appends a row, unless it is there.
fn touch(rows: &mut Vec<u64>, row: u64)
    requires room { vec_len rows.old < vec_capacity rows.old }
    ensures has { Contains rows.new.items row }
    ensures keeps { (r : ℕ) → Contains rows.old.items r → Contains rows.new.items r }
    ensures only { (r : ℕ) → Contains rows.new.items r → Contains rows.old.items r ⊎ (r ≡ row) }
    ensures once { AreDistinct rows.old.items → AreDistinct rows.new.items }
    ensures few { vec_len rows.new ≤ vec_len rows.old + 1 }
    ensures capacity { vec_capacity rows.old ≤ vec_capacity rows.new }
{
    if !rows.contains(&row) {
        let _ = rows.push(row);
    }
}

// Appends each row on which one of these sectors has its place, and no other.
fn touched_rows(shape: &Shape, first: u64, count: u64, rows: &mut Vec<u64>)
    requires shape { IsTrue (is_valid_shape shape.now) }
    requires short { first + count < 2 ^ 53 }
    requires empty { rows.old.items ≡ [] }
    requires room { vec_len rows.old + count ≤ vec_capacity rows.old }
    ensures touched { AreTouched shape.now first count rows.new.items }
    ensures few { vec_len rows.new ≤ vec_len rows.old + count }
    ensures capacity { vec_capacity rows.old ≤ vec_capacity rows.new }
{
    for x in first..first + count {
        touch(rows, place(shape, x).row);
    }
}

/// The first role that has data, and is missing.
pub fn missing_data(members: &Members, shape: &Shape) -> Option<u32>
    requires shape { IsTrue (is_valid_shape shape.now) }
    requires disks { shape.now.disks ≤ length members.now.roles }
    ensures { MatchOption result (IsDataWhole (reading_of members.now) shape.now)
        (λ role. (is_missing (reading_of members.now) role ≡ true) × HasData shape.now role) }
{
    for role in 0..shape.disks {
        if is_missing(members, role) && !parity_only(shape, role) {
            return Some(role);
        }
    }
    None
}

// Whether rows can be read whole, all their data at least, and why not.
fn check(members: &Members, shape: &Shape, synced: bool) -> Result<(), Unavailable>
    requires shape { IsTrue (is_valid_shape shape.now) }
    requires disks { shape.now.disks ≤ length members.now.roles }
    ensures answer { IsAnswer shape.now synced (reading_of members.now) (HasData shape.now) result }
    ensures whole { OnOk result (synced ≡ false → IsDataWhole (reading_of members.now) shape.now) }
{
    if are_too_many(members, shape) {
        return Err(Unavailable::TooManyMissing);
    }
    if synced {
        return Ok(());
    }
    match missing_data(members, shape) {
        Some(role) => Err(Unavailable::NotResynced(role)),
        None => Ok(()),
    }
}

// Reads a row whole.
fn read_whole<B: Bank>(
    members: &mut Members,
    bank: &mut B,
    shape: &Shape,
    row: u64,
    into: &mut [u8],
    synced: bool,
) -> Outcome
    requires row { IsRow (B.given bank.old) (reading_of members.old) shape.now row }
    requires whole { IsRowOf shape.now.disks into.old }
    ensures lost { AreLost shape.now members.old members.new result.lost (B.faults_of bank.old) (B.faults_of bank.new) }
    ensures answer { IsAnswer shape.now synced (reading_of members.new) (HasData shape.now) result.answer }
    ensures whole { OnOk result.answer (synced ≡ false → IsDataWhole (reading_of members.new) shape.now) }
    ensures read { OnOk result.answer (B.tells → IsRowRead shape.now synced (reading_of members.old) (reading_of members.new)
        (present (B.given bank.old) (B.tape bank.old)) row (sector_of into.new)) }
    ensures tape { B.tells → B.tape bank.new ≡ B.tape bank.old }
    ensures given { B.given bank.new ≡ B.given bank.old }
{
    match read_row(members, bank, shape, row, into) {
        Err(lost) => Outcome {
            lost,
            answer: Err(Unavailable::TooManyMissing),
        },
        Ok(lost) => Outcome {
            lost,
            answer: check(members, shape, synced),
        },
    }
}

// Reads these rows into the buffer, one behind the other, up to the first that can't be had.
fn read_rows<B: Bank>(
    members: &mut Members,
    bank: &mut B,
    shape: &Shape,
    rows: &[u64],
    buffer: &mut [u8],
    synced: bool,
) -> Outcome
    requires rows { HasRows (B.given bank.old) (reading_of members.old) shape.now }
    requires below { (row : ℕ) → Contains rows.now row → row < members.old.newest.size }
    requires buffer { 8192 * length rows.now ≤ length buffer.old }
    ensures lost { AreLost shape.now members.old members.new result.lost (B.faults_of bank.old) (B.faults_of bank.new) }
    ensures answer { IsAnswer shape.now synced (reading_of members.new) (HasData shape.now) result.answer }
    ensures whole { OnOk result.answer (synced ≡ false → IsDataWhole (reading_of members.new) shape.now) }
    ensures read { OnOk result.answer (B.tells → AreRead shape.now synced (reading_of members.old) (reading_of members.new)
        (present (B.given bank.old) (B.tape bank.old)) rows.now buffer.new) }
    ensures tape { B.tells → B.tape bank.new ≡ B.tape bank.old }
    ensures given { B.given bank.new ≡ B.given bank.old }
{
    if let Err(cause) = check(members, shape, synced) {
        return Outcome {
            lost: 0,
            answer: Err(cause),
        };
    }
    let len = 512 * shape.disks as usize;
    let mut lost = 0;
    for i in 0..rows.len() {
        let part = &mut buffer[ROW_BYTES * i..ROW_BYTES * i + len];
        let one = read_whole(members, bank, shape, rows[i], part, synced);
        lost |= one.lost;
        if let Err(cause) = one.answer {
            return Outcome {
                lost,
                answer: Err(cause),
            };
        }
    }
    Outcome {
        lost,
        answer: Ok(()),
    }
}

/// Reads the rows that so many sectors of the list from `first` on touch, up to the first that can't be had: which they
/// are, and each whole into its part of the buffer. What no slot holds is filled in; in an array that isn't synced each
/// role that has data must be there. A slot that fails is lost, and so is its role.
pub fn read_touched<B: Bank>(
    members: &mut Members,
    bank: &mut B,
    shape: &Shape,
    first: u64,
    count: u64,
    rows: &mut Vec<u64>,
    buffer: &mut Vec<u8>,
    synced: bool,
) -> Outcome
    requires rows { HasRows (B.given bank.old) (reading_of members.old) shape.now }
    requires few { count ≤ 128 }
    requires within { first + count ≤ data_disks shape.now * members.old.newest.size }
    requires short { first + count < 2 ^ 53 }
    requires room { 128 ≤ vec_capacity rows.old }
    requires buffer { 1048576 ≤ length buffer.old.items }
    ensures lost { AreLost shape.now members.old members.new result.lost (B.faults_of bank.old) (B.faults_of bank.new) }
    ensures answer { IsAnswer shape.now synced (reading_of members.new) (HasData shape.now) result.answer }
    ensures whole { OnOk result.answer (synced ≡ false → IsDataWhole (reading_of members.new) shape.now) }
    ensures read { OnOk result.answer (B.tells → AreRead shape.now synced (reading_of members.old) (reading_of members.new)
        (present (B.given bank.old) (B.tape bank.old)) rows.new.items buffer.new.items) }
    ensures touched { AreTouched shape.now first count rows.new.items }
    ensures below { (row : ℕ) → Contains rows.new.items row → row < members.old.newest.size }
    ensures few { length rows.new.items ≤ count }
    ensures tape { B.tells → B.tape bank.new ≡ B.tape bank.old }
    ensures given { B.given bank.new ≡ B.given bank.old }
    ensures capacity { vec_capacity rows.old ≤ vec_capacity rows.new }
    ensures size { length buffer.new.items ≡ length buffer.old.items }
{
    rows.clear();
    touched_rows(shape, first, count, rows);
    read_rows(
        members,
        bank,
        shape,
        rows.as_slice(),
        buffer.as_mut_slice(),
        synced,
    )
}
