//! A run of rows: a role's sectors of rows one after another, written in one call.

ghost use Rattle.std.specs.Prelude.{◌≡◌, ◌⊎◌, ◌+◌, ◌*◌, ◌/◌, ◌^◌, ◌<◌, ◌≤◌, ℕ, length, IsTrue};
ghost use Rattle.reshape_begin_end.specs.bank_Tape.{EachMark, disk};
ghost use Rattle.raid_layout.specs.raid_types_the_Span.{Span};
ghost use Rattle.raid_layout.specs.raid_types_Sectors.{Sector, IsWhole};
ghost use Rattle.raid_layout.specs.raid_types_Shapes.{is_valid_shape};
ghost use Rattle.reshape_begin_end.specs.raid_parity_Rows.{IsRowOf, sector_of};
ghost use Rattle.reshape_begin_end.specs.sb_specs_Reading.{holder, role_state};
ghost use Rattle.reshape_begin_end.specs.stripe_row_Rows.{present, reading_of};
ghost use Rattle.reshape_begin_end.specs.stripe_row_Writes.{new_sector, AreApart};
ghost use Rattle.reshape_begin_end.specs.stripe_list_Buffers.{buffered};
ghost use Rattle.reshape_begin_end.specs.stripe_list_Calls.{HasRows, AreLost};
ghost use Rattle.reshape_begin_end.specs.stripe_list_Full.{full_sector};
ghost use Rattle.reshape_begin_end.specs.stripe_list_Writing.{IsFull, IsRowKept};
ghost use Rattle.reshape_window_rows.specs.Copies.{IsRoomFor, IsCopied, IsOwnRow, IsChangedAt, IsRowsPlace};
ghost use Rattle.reshape_window_rows.specs.Runs.{reach, HasRun, IsRolePlace};

use crate::rows::{copy_sector, window_row};
use raid_layout::{Role, Shape, Span, row_of};
use reshape_begin_end::{Bank, Members, data_offset, lose_slot, syndromes};

/// The bytes that each row has in a buffer of many: room for 16 sectors.
const ROW_BYTES: usize = 8192;

/// The most rows that are written at once.
pub const MOST_ROWS: u64 = 16;

/// The bytes of so many rows.
const MOST: usize = 131072;

// Sets the parity of a row.
fn set_parity(shape: &Shape, row: u64, bytes: &mut [u8])
    requires shape { IsTrue (is_valid_shape shape.now) }
    requires row { row < 2 ^ 53 }
    requires whole { IsRowOf shape.now.disks bytes.old }
    ensures sectors { (role : ℕ) → role < shape.now.disks → sector_of bytes.new role ≡ new_sector shape.now row bytes.old role }
{
    syndromes(bytes, &row_of(shape, row));
}

// Makes a row of the shape with its parity, from the window's sectors.
fn make_row(shape: &Shape, span: &Span, buffer: &[u8], row: u64, into: &mut [u8])
    requires shape { IsTrue (is_valid_shape shape.now) }
    requires row { row < 2 ^ 53 }
    requires buffer { IsRoomFor span.now buffer.now }
    requires whole { IsRowOf shape.now.disks into.old }
    ensures full { (tail : Span) (list : ℕ → Sector) → IsOwnRow shape.now span.now tail row → IsCopied span.now buffer.now tail list
        → (role : ℕ) → role < shape.now.disks → sector_of into.new role ≡ full_sector shape.now list row role }
{
    window_row(shape, span, buffer, row, into);
    set_parity(shape, row, into);
}

// Makes rows of the shape with their parity, from one on, each in its own part of the buffer.
#[tactic(auto, using(raid_layout::proofs::Limits::limited))]
fn make_rows(shape: &Shape, span: &Span, buffer: &[u8], from: u64, count: usize, rows: &mut [u8])
    requires shape { IsTrue (is_valid_shape shape.now) }
    requires short { from + count ≤ 2 ^ 53 }
    requires buffer { IsRoomFor span.now buffer.now }
    requires room { 8192 * count ≤ length rows.old }
    ensures full { (tail : Span) (list : ℕ → Sector) → IsCopied span.now buffer.now tail list → (i : ℕ) → i < count → IsOwnRow shape.now span.now tail (from + i)
        → (role : ℕ) → role < shape.now.disks → buffered rows.new i role ≡ full_sector shape.now list (from + i) role }
{
    let len = 512 * shape.disks as usize;
    for i in 0..count {
        let part = &mut rows[ROW_BYTES * i..ROW_BYTES * i + len];
        make_row(shape, span, buffer, from + i as u64, part);
    }
}

// Gathers a role's sectors of the first of these rows, as many as there is room for.
fn gather(rows: &[u8], role: u32, into: &mut [u8])
    requires role { role < 16 }
    requires room { 8192 * (length into.old / 512) ≤ length rows.now }
    ensures { (i : ℕ) → i < length into.old / 512 → sector_of into.new i ≡ buffered rows.now i role }
{
    for i in 0..into.len() / 512 {
        copy_sector(rows, 16 * i + role as usize, into, i);
    }
}

// The slot that has a role, whole or recovering.
fn holder_of(members: &Members, role: u32) -> Option<u32>
    requires { role < length members.now.roles }
    ensures { result ≡ holder (role_state (reading_of members.now) role) }
{
    match members.roles.get(role) {
        Role::Whole(slot) | Role::Recovering(slot) => Some(slot),
        Role::Missing => None,
    }
}

// Writes a role's sectors of rows one after another, from one on, in one call, if a slot has the role, whole or recovering. The
// set of the slots that were lost.
fn write_run<B: Bank>(
    members: &mut Members,
    bank: &mut B,
    shape: &Shape,
    from: u64,
    role: u32,
    run: &[u8],
) -> u32
    requires rows { HasRows (B.given bank.old) (reading_of members.old) shape.now }
    requires role { role < shape.now.disks }
    requires whole { IsWhole run.now }
    requires some { 0 < length run.now / 512 }
    requires below { from + length run.now / 512 ≤ members.old.newest.size }
    ensures lost { AreLost shape.now members.old members.new result (B.faults_of bank.old) (B.faults_of bank.new) }
    ensures each_mark { let start = (B.given bank.old).start in EachMark B.tells start (B.tape bank.old) (B.tape bank.new)
        (IsChangedAt (IsRolePlace (reading_of members.old) role from (length run.now / 512)) (disk start (B.tape bank.old))) }
    ensures written { B.tells → HasRun (reading_of members.new) (present (B.given bank.new) (B.tape bank.new)) role from (length run.now / 512) (sector_of run.now) }
    ensures given { B.given bank.new ≡ B.given bank.old }
{
    let Some(slot) = holder_of(members, role) else {
        return 0;
    };
    let at = data_offset(members, slot) + from;
    match bank.write(slot, at, run) {
        Ok(()) => 0,
        Err(_) => lose_slot(members, slot),
    }
}

// Writes a role's sectors of the first of these rows, as many as are asked for, from one on.
fn write_part<B: Bank>(
    members: &mut Members,
    bank: &mut B,
    shape: &Shape,
    from: u64,
    count: usize,
    role: u32,
    rows: &[u8],
    scratch: &mut [u8],
) -> u32
    requires rows { HasRows (B.given bank.old) (reading_of members.old) shape.now }
    requires role { role < shape.now.disks }
    requires small { role < 16 }
    requires some { 0 < count }
    requires few { count ≤ 16 }
    requires below { from + count ≤ members.old.newest.size }
    requires room { 8192 * count ≤ length rows.now }
    requires scratch { 8192 ≤ length scratch.old }
    ensures lost { AreLost shape.now members.old members.new result (B.faults_of bank.old) (B.faults_of bank.new) }
    ensures each_mark { let start = (B.given bank.old).start in EachMark B.tells start (B.tape bank.old) (B.tape bank.new)
        (IsChangedAt (IsRolePlace (reading_of members.old) role from count) (disk start (B.tape bank.old))) }
    ensures written { B.tells → HasRun (reading_of members.new) (present (B.given bank.new) (B.tape bank.new)) role from count (λ i. buffered rows.now i role) }
    ensures given { B.given bank.new ≡ B.given bank.old }
{
    let run = &mut scratch[..512 * count];
    gather(rows, role, run);
    write_run(members, bank, shape, from, role, run)
}

// How many rows are written further: all of these, or, once a slot is lost, the first alone.
fn reach(lost: u32, count: usize) -> usize
    ensures { result ≡ reach lost count }
{
    if lost == 0 { count } else { 1 }
}

// Writes the sectors of each role, of the rows from one on: each role's in one call. Once a slot is lost, only the rest of the
// first row is written, so that the loss can be named before another.
fn write_parts<B: Bank>(
    members: &mut Members,
    bank: &mut B,
    shape: &Shape,
    from: u64,
    count: usize,
    rows: &[u8],
    scratch: &mut [u8],
) -> u32
    requires rows { HasRows (B.given bank.old) (reading_of members.old) shape.now }
    requires apart { AreApart (reading_of members.old) }
    requires some { 0 < count }
    requires few { count ≤ 16 }
    requires below { from + count ≤ members.old.newest.size }
    requires room { 8192 * count ≤ length rows.now }
    requires scratch { 8192 ≤ length scratch.old }
    ensures lost { AreLost shape.now members.old members.new result (B.faults_of bank.old) (B.faults_of bank.new) }
    ensures each_mark { let start = (B.given bank.old).start in EachMark B.tells start (B.tape bank.old) (B.tape bank.new)
        (IsChangedAt (IsRowsPlace (reading_of members.old) from (from + count)) (disk start (B.tape bank.old))) }
    ensures written { B.tells → (role : ℕ) → role < shape.now.disks
        → HasRun (reading_of members.new) (present (B.given bank.new) (B.tape bank.new)) role from (reach result count) (λ i. buffered rows.now i role) }
    ensures given { B.given bank.new ≡ B.given bank.old }
{
    let mut lost = 0;
    for role in 0..shape.disks {
        let some = reach(lost, count);
        let more = write_part(members, bank, shape, from, some, role, rows, scratch);
        lost |= more;
    }
    lost
}

/// Writes rows of the shape with their parity, made of the window's sectors, from one on: of each role the sectors of all these rows
/// in one call. Once a slot is lost, only the rest of the first row is written. The answer is the set of the slots that were lost.
pub fn copy_run<B: Bank>(
    members: &mut Members,
    bank: &mut B,
    shape: &Shape,
    span: &Span,
    from: u64,
    count: usize,
    buffer: &[u8],
    scratch: &mut [u8],
) -> u32
    requires rows { HasRows (B.given bank.old) (reading_of members.old) shape.now }
    requires apart { AreApart (reading_of members.old) }
    requires some { 0 < count }
    requires few { count ≤ 16 }
    requires below { from + count ≤ members.old.newest.size }
    requires buffer { IsRoomFor span.now buffer.now }
    requires scratch { 8192 ≤ length scratch.old }
    ensures lost { AreLost shape.now members.old members.new result (B.faults_of bank.old) (B.faults_of bank.new) }
    ensures each_mark { let start = (B.given bank.old).start in EachMark B.tells start (B.tape bank.old) (B.tape bank.new)
        (IsChangedAt (IsRowsPlace (reading_of members.old) from (from + count)) (disk start (B.tape bank.old))) }
    ensures full { (tail : Span) (list : ℕ → Sector) → IsCopied span.now buffer.now tail list → B.tells
        → (row : ℕ) → from ≤ row → row < from + reach result count → IsOwnRow shape.now span.now tail row
        → IsFull (reading_of members.new) (present (B.given bank.new) (B.tape bank.new)) shape.now list row }
    ensures others { B.tells → (row : ℕ) → (row < from) ⊎ (from + count ≤ row) → IsRowKept (reading_of members.old)
        (present (B.given bank.old) (B.tape bank.old)) (present (B.given bank.new) (B.tape bank.new)) row }
    ensures given { B.given bank.new ≡ B.given bank.old }
{
    let mut room = [0u8; MOST];
    make_rows(shape, span, buffer, from, count, &mut room);
    write_parts(members, bank, shape, from, count, &room, scratch)
}
