//! A write of sectors of the list: the rows that it touches were read whole, and are written one after another.

ghost use Rattle.std.specs.Prelude.{◌≡◌, ◌≢◌, ◌+◌, ◌*◌, ◌/◌, ◌^◌, ◌<◌, ◌≤◌, ℕ, true, length, slice_index, Contains, OnOk};
ghost use Rattle.stripe_row.specs.bank_Tape.{EachMark, disk};
ghost use Rattle.raid_layout.specs.raid_types_Sectors.{Sector, IsWhole};
ghost use Rattle.stripe_row.specs.Rows.{present, reading_of, IsTolerated};
ghost use Rattle.stripe_row.specs.Writes.{AreApart};
ghost use Rattle.stripe_list.specs.Calls.{HasRows, AreLost, IsAnswer};
ghost use Rattle.stripe_list.specs.Buffers.{buffered, AreDistinct, AreStanding};
ghost use Rattle.stripe_list.specs.Writing.{IsWritten, AreDataFrom, IsFull, StaysRebuilt, IsRowKept, IsPutting, AreSuperblocksKept, AreBehind};

use crate::buffers::ROW_BYTES;
use crate::outcome::{Unavailable, are_too_many};
use crate::rows::rewrite_row;
use raid_layout::Shape;
use stripe_row::{Bank, Members};

/// The set of the slots that were lost in a write, the first row that wasn't written, and what it answers.
#[derive(Drop)]
pub struct Written {
    pub lost: u32,
    pub next_row: usize,
    pub answer: Result<(), Unavailable>,
}

// The same without an answer.
struct Stretch {
    lost: u32,
    next_row: usize,
}

// What a write answers in the end.
fn answer_of(members: &Members, shape: &Shape) -> Result<(), Unavailable>
    requires { shape.now.disks ≤ length members.now.roles }
    ensures { IsAnswer shape.now true (reading_of members.now) (λ role. ⊥) result }
{
    if are_too_many(members, shape) {
        return Err(Unavailable::TooManyMissing);
    }
    Ok(())
}

// Puts the sectors of `from`, which begin at `first` in the list, into these rows, from one on, with their parity, up to
// the first in which a slot is lost. The buffer holds the rows as they stand, with what they lack filled in.
fn write_rows<B: Bank>(
    members: &mut Members,
    bank: &mut B,
    shape: &Shape,
    first: u64,
    from: &[u8],
    rows: &[u64],
    from_row: usize,
    buffer: &mut [u8],
) -> Stretch
    requires rows { HasRows (B.given bank.old) (reading_of members.old) shape.now }
    requires apart { AreApart (reading_of members.old) }
    requires tolerated { IsTolerated (reading_of members.old) shape.now }
    requires from { IsWhole from.now }
    requires short { first + length from.now / 512 < 2 ^ 63 }
    requires below { (row : ℕ) → Contains rows.now row → row < members.old.newest.size }
    requires once { AreDistinct rows.now }
    requires start { from_row ≤ length rows.now }
    requires buffer { 8192 * length rows.now ≤ length buffer.old }
    requires standing { B.tells → (i : ℕ) → from_row ≤ i → i < length rows.now → AreStanding (reading_of members.old)
        (present (B.given bank.old) (B.tape bank.old)) shape.now (slice_index rows.now i) (buffered buffer.old i) }
    ensures lost { AreLost shape.now members.old members.new result.lost (B.faults_of bank.old) (B.faults_of bank.new) }
    ensures each_mark { let start = (B.given bank.old).start in (list list' : ℕ → Sector) → IsWritten list list' first from.now
        → (B.tells → AreDataFrom from_row shape.now list rows.now buffer.old) → EachMark B.tells start (B.tape bank.old) (B.tape bank.new)
        (IsPutting (reading_of members.old) shape.now list' (Contains rows.now) (disk start (B.tape bank.old))) }
    ensures full { (list list' : ℕ → Sector) → IsWritten list list' first from.now → B.tells → AreDataFrom from_row shape.now list rows.now buffer.old
        → (i : ℕ) → from_row ≤ i → i < result.next_row → IsFull (reading_of members.new) (present (B.given bank.new) (B.tape bank.new)) shape.now list' (slice_index rows.now i) }
    ensures rebuilt { (list list' : ℕ → Sector) → IsWritten list list' first from.now → B.tells → AreDataFrom from_row shape.now list rows.now buffer.old
        → (i : ℕ) → from_row ≤ i → i < result.next_row → StaysRebuilt (reading_of members.new)
        (present (B.given bank.old) (B.tape bank.old)) (present (B.given bank.new) (B.tape bank.new)) shape.now list list' (slice_index rows.now i) }
    ensures others { B.tells → (row : ℕ) → ((i : ℕ) → from_row ≤ i → i < result.next_row → slice_index rows.now i ≢ row)
        → IsRowKept (reading_of members.new) (present (B.given bank.old) (B.tape bank.old)) (present (B.given bank.new) (B.tape bank.new)) row }
    ensures rest { (i role : ℕ) → result.next_row ≤ i → i < length rows.now → role < shape.now.disks → buffered buffer.new i role ≡ buffered buffer.old i role }
    ensures reached { from_row ≤ result.next_row }
    ensures within { result.next_row ≤ length rows.now }
    ensures further { from_row < length rows.now → from_row < result.next_row }
    ensures all { result.lost ≡ 0 → result.next_row ≡ length rows.now }
    ensures given { B.given bank.new ≡ B.given bank.old }
{
    let len = 512 * shape.disks as usize;
    for i in from_row..rows.len() {
        let part = &mut buffer[ROW_BYTES * i..ROW_BYTES * i + len];
        let lost = rewrite_row(members, bank, shape, rows[i], first, from, part);
        if lost != 0 {
            return Stretch {
                lost,
                next_row: i + 1,
            };
        }
    }
    Stretch {
        lost: 0,
        next_row: rows.len(),
    }
}

/// Puts the sectors of `from` into the list from `first` on: `rows` are those that they touch, which the buffer holds as
/// they stand, with what they lack filled in; they are written from one on, with their parity, up to the first in which a
/// slot is lost. The answer says which row is the next.
pub fn write_touched<B: Bank>(
    members: &mut Members,
    bank: &mut B,
    shape: &Shape,
    first: u64,
    from: &[u8],
    rows: &[u64],
    from_row: usize,
    buffer: &mut Vec<u8>,
) -> Written
    requires rows { HasRows (B.given bank.old) (reading_of members.old) shape.now }
    requires apart { AreApart (reading_of members.old) }
    requires behind { AreBehind (reading_of members.old) }
    requires from { IsWhole from.now }
    requires short { first + length from.now / 512 < 2 ^ 63 }
    requires below { (row : ℕ) → Contains rows.now row → row < members.old.newest.size }
    requires once { AreDistinct rows.now }
    requires few { length rows.now ≤ 128 }
    requires start { from_row ≤ length rows.now }
    requires buffer { 1048576 ≤ length buffer.old.items }
    requires standing { B.tells → (i : ℕ) → from_row ≤ i → i < length rows.now → AreStanding (reading_of members.old)
        (present (B.given bank.old) (B.tape bank.old)) shape.now (slice_index rows.now i) (buffered buffer.old.items i) }
    ensures lost { AreLost shape.now members.old members.new result.lost (B.faults_of bank.old) (B.faults_of bank.new) }
    ensures answer { IsAnswer shape.now true (reading_of members.new) (λ role. ⊥) result.answer }
    ensures each_mark { let start = (B.given bank.old).start in (list list' : ℕ → Sector) → IsWritten list list' first from.now
        → (B.tells → AreDataFrom from_row shape.now list rows.now buffer.old.items) → EachMark B.tells start (B.tape bank.old) (B.tape bank.new)
        (λ e. IsPutting (reading_of members.old) shape.now list' (Contains rows.now) (disk start (B.tape bank.old)) e × AreSuperblocksKept (disk start (B.tape bank.old)) e) }
    ensures full { (list list' : ℕ → Sector) → IsWritten list list' first from.now → B.tells → AreDataFrom from_row shape.now list rows.now buffer.old.items
        → (i : ℕ) → from_row ≤ i → i < result.next_row → IsFull (reading_of members.new) (present (B.given bank.new) (B.tape bank.new)) shape.now list' (slice_index rows.now i) }
    ensures rebuilt { (list list' : ℕ → Sector) → IsWritten list list' first from.now → B.tells → AreDataFrom from_row shape.now list rows.now buffer.old.items
        → (i : ℕ) → from_row ≤ i → i < result.next_row → StaysRebuilt (reading_of members.new)
        (present (B.given bank.old) (B.tape bank.old)) (present (B.given bank.new) (B.tape bank.new)) shape.now list list' (slice_index rows.now i) }
    ensures others { B.tells → (row : ℕ) → ((i : ℕ) → from_row ≤ i → i < result.next_row → slice_index rows.now i ≢ row)
        → IsRowKept (reading_of members.new) (present (B.given bank.old) (B.tape bank.old)) (present (B.given bank.new) (B.tape bank.new)) row }
    ensures rest { (i role : ℕ) → result.next_row ≤ i → i < length rows.now → role < shape.now.disks → buffered buffer.new.items i role ≡ buffered buffer.old.items i role }
    ensures standing { B.tells → (i : ℕ) → result.next_row ≤ i → i < length rows.now → AreStanding (reading_of members.new)
        (present (B.given bank.new) (B.tape bank.new)) shape.now (slice_index rows.now i) (buffered buffer.new.items i) }
    ensures reached { from_row ≤ result.next_row }
    ensures within { result.next_row ≤ length rows.now }
    ensures further { OnOk result.answer (from_row < length rows.now → from_row < result.next_row) }
    ensures all { OnOk result.answer (result.lost ≡ 0 → result.next_row ≡ length rows.now) }
    ensures given { B.given bank.new ≡ B.given bank.old }
    ensures size { length buffer.new.items ≡ length buffer.old.items }
{
    if are_too_many(members, shape) {
        return Written {
            lost: 0,
            next_row: from_row,
            answer: Err(Unavailable::TooManyMissing),
        };
    }
    let Stretch { lost, next_row } = write_rows(
        members,
        bank,
        shape,
        first,
        from,
        rows,
        from_row,
        buffer.as_mut_slice(),
    );
    Written {
        lost,
        next_row,
        answer: answer_of(members, shape),
    }
}
