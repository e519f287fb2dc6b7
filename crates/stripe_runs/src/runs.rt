//! Rows one behind the other, of one stripe.

ghost use Rattle.std.specs.Prelude.{◌≡◌, ◌+◌, ◌-◌, ◌^◌, ◌%◌, ◌<◌, ◌≤◌, ℕ, Some, length, slice_index, Contains, IsTrue};
ghost use Rattle.raid_layout.specs.raid_types_Shapes.{is_valid_shape};
ghost use Rattle.stripe_row.specs.sb_specs_Reading.{role_state, holder};
ghost use Rattle.stripe_row.specs.Rows.{reading_of, is_held};
ghost use Rattle.stripe_runs.specs.declared.runs.Run.{Run};
ghost use Rattle.stripe_runs.specs.Runs.{IsRunAt};

use crate::held::rows_recovered;
use raid_layout::{Role, Shape};
use stripe_row::Members;

/// `count` rows of one stripe, one behind the other from `row` on. `at` is the place of the first in a list of rows, and in a
/// buffer of these.
#[derive(Clone, Copy, Debug, PartialEq, Eq)]
pub struct Run {
    pub at: usize,
    pub row: u64,
    pub count: usize,
}

// How many rows of a list follow one another from this place on, up to so many.
fn rows_listed(rows: &[u64], at: usize, most: usize) -> usize
    requires at { at < length rows.now }
    requires some { 0 < most }
    requires short { slice_index rows.now at + most < 2 ^ 64 }
    ensures some { 0 < result }
    ensures most { result ≤ most }
    ensures within { at + result ≤ length rows.now }
    ensures rows { (j : ℕ) → j < result → slice_index rows.now (at + j) ≡ slice_index rows.now at + j }
    ensures longest { (n : ℕ) → n ≤ most → at + n ≤ length rows.now → ((j : ℕ) → j < n → slice_index rows.now (at + j) ≡ slice_index rows.now at + j) → n ≤ result }
{
    let row = rows[at];
    let most = most.min(rows.len() - at);
    for count in 1..most {
        if rows[at + count] != row + count as u64 {
            return count;
        }
    }
    most
}

// In how many of these rows the role is held as in the first.
fn rows_alike(members: &Members, role: u32, row: u64, count: usize) -> usize
    requires role { role < length members.now.roles }
    requires small { (slot : ℕ) → holder (role_state (reading_of members.now) role) ≡ Some slot → slot < 32 }
    requires some { 0 < count }
    requires below { row + count ≤ members.now.newest.size }
    ensures some { 0 < result }
    ensures most { result ≤ count }
    ensures held { (j : ℕ) → j < result → is_held (reading_of members.now) role (row + j) ≡ is_held (reading_of members.now) role row }
    ensures longest { (n : ℕ) → n ≤ count → ((j : ℕ) → j < n → is_held (reading_of members.now) role (row + j) ≡ is_held (reading_of members.now) role row) → n ≤ result }
{
    let Role::Recovering(slot) = members.roles.get(role) else {
        return count;
    };
    let recovered = rows_recovered(members, slot);
    if recovered <= row {
        return count;
    }
    count.min((recovered - row) as usize)
}

/// The longest run from this place of a list of rows on: of one stripe, and each role is held by one slot in all of its rows, or by
/// none in any.
pub fn run_at(members: &Members, shape: &Shape, rows: &[u64], at: usize) -> Run
    requires shape { IsTrue (is_valid_shape shape.now) }
    requires disks { shape.now.disks ≤ length members.now.roles }
    requires small { (role slot : ℕ) → holder (role_state (reading_of members.now) role) ≡ Some slot → slot < 32 }
    requires below { (row : ℕ) → Contains rows.now row → row < members.now.newest.size }
    requires short { members.now.newest.size ≤ 2 ^ 48 }
    requires at { at < length rows.now }
    ensures at { result.at ≡ at }
    ensures run { IsRunAt (reading_of members.now) shape.now rows.now result }
    ensures longest { (run : Run) → run.at ≡ at → IsRunAt (reading_of members.now) shape.now rows.now run → run.count ≤ result.count }
{
    let row = rows[at];
    let chunk = shape.chunk as u64;
    let left = (chunk - row % chunk) as usize;
    let mut count = rows_listed(rows, at, left);
    for role in 0..shape.disks {
        count = rows_alike(members, role, row, count);
    }
    Run { at, row, count }
}
