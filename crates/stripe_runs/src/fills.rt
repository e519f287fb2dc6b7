//! What the parity gives of the sectors of a run's rows that no slot holds.

ghost use Rattle.std.specs.Prelude.{◌≡◌, ◌+◌, ◌^◌, ◌<◌, ◌≤◌, ℕ, true, false, not, length, Some, IsTrue, MatchOption};
ghost use Rattle.raid_layout.specs.raid_types_Shapes.{is_valid_shape};
ghost use Rattle.raid_layout.specs.Layout.{row_roles};
ghost use Rattle.raid_parity_simd.specs.Buffers.{IsRun, buffered, role_sectors};
ghost use Rattle.raid_parity_simd.specs.Parts.{IsOutside};
ghost use Rattle.stripe_row.specs.raid_parity_Parity.{fill};
ghost use Rattle.stripe_row.specs.raid_parity_Rows.{row_without};
ghost use Rattle.stripe_row.specs.sb_specs_Reading.{holder, role_state};
ghost use Rattle.stripe_row.specs.Rows.{reading_of, is_held, AreHeld, IsTolerated};
ghost use Rattle.stripe_runs.specs.Runs.{AreAlike};

use crate::held::held_slot;
use crate::runs::Run;
use raid_layout::{Shape, row_of};
use raid_parity_simd::{fill_one_run, fill_two_run};
use stripe_row::Members;

// The first role from `first` on that lacks its sector of the row.
fn next_lacking(members: &Members, row: u64, first: u32, disks: u32) -> Option<u32>
    requires disks { disks ≤ length members.now.roles }
    requires small { (role slot : ℕ) → holder (role_state (reading_of members.now) role) ≡ Some slot → slot < 32 }
    ensures { MatchOption result (AreHeld (reading_of members.now) row first disks)
        (λ role. (first ≤ role) × (role < disks) × (is_held (reading_of members.now) role row ≡ false) × AreHeld (reading_of members.now) row first role) }
{
    for role in first..disks {
        if held_slot(members, role, row).is_none() {
            return Some(role);
        }
    }
    None
}

/// Fills the roles of a run's rows that no slot holds, where no more roles are missing than the shape tolerates.
pub fn reconstruct_run(members: &Members, shape: &Shape, run: Run, buffer: &mut [u8])
    requires shape { IsTrue (is_valid_shape shape.now) }
    requires disks { shape.now.disks ≤ length members.now.roles }
    requires below { run.row < members.now.newest.size }
    requires short { run.row < 2 ^ 48 }
    requires small { (role slot : ℕ) → holder (role_state (reading_of members.now) role) ≡ Some slot → slot < 32 }
    requires alike { AreAlike (reading_of members.now) shape.now run.row run.count }
    requires room { IsRun shape.now.disks run.at run.count (length buffer.old) }
    requires tolerated { IsTolerated (reading_of members.now) shape.now }
    ensures held { (role j : ℕ) → role < shape.now.disks → j < run.count → is_held (reading_of members.now) role (run.row + j) ≡ true
        → buffered buffer.new (run.at + j) role ≡ buffered buffer.old (run.at + j) role }
    ensures lacking { (role j : ℕ) → role < shape.now.disks → j < run.count → is_held (reading_of members.now) role (run.row + j) ≡ false
        → buffered buffer.new (run.at + j) role ≡ fill (row_roles shape.now (run.row + j))
        (row_without (λ other. not (is_held (reading_of members.now) other (run.row + j))) shape.now.disks (buffered buffer.old (run.at + j))) role }
    ensures outside { (i role : ℕ) → i < role_sectors → IsOutside run.at run.count i → buffered buffer.new i role ≡ buffered buffer.old i role }
{
    let Some(first) = next_lacking(members, run.row, 0, shape.disks) else {
        return;
    };
    let roles = row_of(shape, run.row);
    match next_lacking(members, run.row, first + 1, shape.disks) {
        None => fill_one_run(buffer, &roles, first, run.at, run.count),
        Some(second) => fill_two_run(buffer, &roles, first, second, run.at, run.count),
    }
}
