//! One row, changed in memory and written with its parity.

ghost use Rattle.std.specs.Prelude.{◌≡◌, ◌≢◌, ◌+◌, ◌-◌, ◌*◌, ◌/◌, ◌^◌, ◌<◌, ◌≤◌, ◌⊎◌, ℕ, true, false, length, IsTrue};
ghost use Rattle.stripe_row.specs.bank_Tape.{EachMark, disk};
ghost use Rattle.raid_layout.specs.raid_types_Sectors.{Sector, IsWhole};
ghost use Rattle.raid_layout.specs.raid_types_Shapes.{is_valid_shape, has_slot};
ghost use Rattle.raid_layout.specs.Layout.{place, row_roles};
ghost use Rattle.stripe_row.specs.raid_parity_Rows.{IsRowOf, sector_of};
ghost use Rattle.stripe_row.specs.Rows.{present, reading_of, lost_of, IsRow, IsTolerated};
ghost use Rattle.stripe_row.specs.Writes.{is_parity, AreApart};
ghost use Rattle.stripe_list.specs.Calls.{AreLost};
ghost use Rattle.stripe_list.specs.Buffers.{AreStanding};
ghost use Rattle.stripe_list.specs.Writing.{IsOther, HasOther, IsChanged, IsWritten, AreDataOf, IsFull, StaysRebuilt, IsRowKept, IsPutting};

use crate::sectors::copy_sector;
use raid_layout::{Shape, at};
use stripe_row::{Bank, Members, with, write_row};

// The set of the slots that a row's call lost.
fn lost_of(answer: Result<u32, u32>) -> u32
    ensures { result ≡ lost_of answer }
{
    match answer {
        Ok(lost) | Err(lost) => lost,
    }
}

// Puts the sector of the list that has its place at this role of a row there, if it is one of those in `from`, which
// begin at `first`.
fn change_role(shape: &Shape, row: u64, role: u32, first: u64, from: &[u8], bytes: &mut [u8])
    requires shape { IsTrue (is_valid_shape shape.now) }
    requires row { row < 2 ^ 53 }
    requires role { role < shape.now.disks }
    requires size { IsRowOf shape.now.disks bytes.old }
    requires whole { IsWhole from.now }
    requires short { first + length from.now / 512 < 2 ^ 63 }
    ensures changed { (x : ℕ) → place shape.now x ≡ record { role = role; row = row } → first ≤ x → x < first + length from.now / 512
        → sector_of bytes.new role ≡ sector_of from.now (x - first) }
    ensures kept { IsOther shape.now first (length from.now / 512) role row → sector_of bytes.new role ≡ sector_of bytes.old role }
    ensures others { (r : ℕ) → r ≢ role → sector_of bytes.new r ≡ sector_of bytes.old r }
{
    let Some(x) = at(shape, role, row) else {
        return;
    };
    if first <= x && x - first < (from.len() / 512) as u64 {
        copy_sector(from, (x - first) as usize, bytes, role as usize);
    }
}

// Puts sectors of the list, from `first` on, into their places of a row that lies role after role.
fn change_row(shape: &Shape, row: u64, first: u64, from: &[u8], bytes: &mut [u8])
    requires shape { IsTrue (is_valid_shape shape.now) }
    requires row { row < 2 ^ 53 }
    requires size { IsRowOf shape.now.disks bytes.old }
    requires whole { IsWhole from.now }
    requires short { first + length from.now / 512 < 2 ^ 63 }
    ensures changed { (role x : ℕ) → role < shape.now.disks → place shape.now x ≡ record { role = role; row = row } → first ≤ x → x < first + length from.now / 512
        → sector_of bytes.new role ≡ sector_of from.now (x - first) }
    ensures kept { (role : ℕ) → role < shape.now.disks → IsOther shape.now first (length from.now / 512) role row → sector_of bytes.new role ≡ sector_of bytes.old role }
{
    for role in 0..shape.disks {
        change_role(shape, row, role, first, from, bytes);
    }
}

// Whether one of so many sectors from `first` on has its place at this role of a row.
fn is_changed(shape: &Shape, row: u64, role: u32, first: u64, count: u64) -> bool
    requires shape { IsTrue (is_valid_shape shape.now) }
    requires row { row < 2 ^ 53 }
    requires role { role < shape.now.disks }
    requires short { first + count < 2 ^ 63 }
    ensures changed { result ≡ true → IsChanged shape.now first count role row }
    ensures left { result ≡ false → is_parity (row_roles shape.now row) role ≡ false → HasOther shape.now first count role row }
{
    match at(shape, role, row) {
        Some(x) => first <= x && x < first + count,
        None => false,
    }
}

// The set with this role of a row, if one of so many sectors from `first` on has its place there.
fn with_changed(changed: u32, shape: &Shape, row: u64, role: u32, first: u64, count: u64) -> u32
    requires shape { IsTrue (is_valid_shape shape.now) }
    requires row { row < 2 ^ 53 }
    requires role { role < shape.now.disks }
    requires small { role < 32 }
    requires short { first + count < 2 ^ 63 }
    ensures changed { (r : ℕ) → has_slot result r ≡ true → (has_slot changed r ≡ true) ⊎ ((r ≡ role) × IsChanged shape.now first count role row) }
    ensures stay { (r : ℕ) → has_slot changed r ≡ true → has_slot result r ≡ true }
    ensures left { has_slot result role ≡ false → is_parity (row_roles shape.now row) role ≡ false → HasOther shape.now first count role row }
{
    if is_changed(shape, row, role, first, count) {
        with(changed, role)
    } else {
        changed
    }
}

// The roles of a row at which one of so many sectors from `first` on has its place.
#[tactic(auto, using(raid_layout::proofs::Limits::limited))]
fn changed_roles(shape: &Shape, row: u64, first: u64, count: u64) -> u32
    requires shape { IsTrue (is_valid_shape shape.now) }
    requires row { row < 2 ^ 53 }
    requires short { first + count < 2 ^ 63 }
    ensures changed { (role : ℕ) → has_slot result role ≡ true → IsChanged shape.now first count role row }
    ensures left { (role : ℕ) → role < shape.now.disks → has_slot result role ≡ false → is_parity (row_roles shape.now row) role ≡ false
        → HasOther shape.now first count role row }
{
    let mut changed = 0;
    for role in 0..shape.disks {
        changed = with_changed(changed, shape, row, role, first, count);
    }
    changed
}

/// Puts the sectors of `from` that have their places on a row into it, with its parity. `bytes` holds the row as it
/// stands, with what it lacks filled in. The answer is the set of the slots that were lost.
pub fn rewrite_row<B: Bank>(
    members: &mut Members,
    bank: &mut B,
    shape: &Shape,
    row: u64,
    first: u64,
    from: &[u8],
    bytes: &mut [u8],
) -> u32
    requires row { IsRow (B.given bank.old) (reading_of members.old) shape.now row }
    requires apart { AreApart (reading_of members.old) }
    requires tolerated { IsTolerated (reading_of members.old) shape.now }
    requires from { IsWhole from.now }
    requires short { first + length from.now / 512 < 2 ^ 63 }
    requires size { IsRowOf shape.now.disks bytes.old }
    requires standing { B.tells → AreStanding (reading_of members.old) (present (B.given bank.old) (B.tape bank.old)) shape.now row (sector_of bytes.old) }
    ensures lost { AreLost shape.now members.old members.new result (B.faults_of bank.old) (B.faults_of bank.new) }
    ensures each_mark { let start = (B.given bank.old).start in (list list' : ℕ → Sector) → IsWritten list list' first from.now
        → (B.tells → AreDataOf shape.now list row (sector_of bytes.old)) → EachMark B.tells start (B.tape bank.old) (B.tape bank.new)
        (IsPutting (reading_of members.old) shape.now list' (λ other. other ≡ row) (disk start (B.tape bank.old))) }
    ensures full { (list list' : ℕ → Sector) → IsWritten list list' first from.now → B.tells → AreDataOf shape.now list row (sector_of bytes.old)
        → IsFull (reading_of members.new) (present (B.given bank.new) (B.tape bank.new)) shape.now list' row }
    ensures rebuilt { (list list' : ℕ → Sector) → IsWritten list list' first from.now → B.tells → AreDataOf shape.now list row (sector_of bytes.old)
        → StaysRebuilt (reading_of members.new) (present (B.given bank.old) (B.tape bank.old)) (present (B.given bank.new) (B.tape bank.new)) shape.now list list' row }
    ensures others { B.tells → (other : ℕ) → other ≢ row → IsRowKept (reading_of members.old)
        (present (B.given bank.old) (B.tape bank.old)) (present (B.given bank.new) (B.tape bank.new)) other }
    ensures given { B.given bank.new ≡ B.given bank.old }
{
    change_row(shape, row, first, from, bytes);
    let changed = changed_roles(shape, row, first, (from.len() / 512) as u64);
    lost_of(write_row(members, bank, shape, row, bytes, changed))
}
