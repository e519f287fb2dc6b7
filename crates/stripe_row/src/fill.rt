//! What the parity gives of the sectors of a row that no slot holds.

ghost use Rattle.std.specs.Prelude.{◌≡◌, ◌<◌, ◌≤◌, ◌^◌, ℕ, true, false, not, length, Some, IsTrue, MatchOption};
ghost use Rattle.sb_specs.specs.raid_types_Shapes.{is_valid_shape};
ghost use Rattle.sb_specs.specs.raid_layout_Layout.{row_roles};
ghost use Rattle.raid_parity_simd.specs.raid_parity_Parity.{fill};
ghost use Rattle.raid_parity_simd.specs.raid_parity_Rows.{IsRowOf, sector_of, row_without};
ghost use Rattle.sb_specs.specs.Reading.{holder, role_state};
ghost use Rattle.stripe_row.specs.Rows.{reading_of, is_held, AreHeld, IsTolerated};

use crate::held::held_slot;
use raid_parity_simd::{fill_one, fill_two};
use sb_specs::{Members, Shape, row_of};

// The first role from `first` on that lacks its sector of the row.
fn next_lacking(members: &Members, row: u64, first: u32, disks: u32) -> Option<u32>
    requires disks { disks ≤ length members.now.roles }
    requires small { (role slot : ℕ) → holder (role_state (reading_of members.now) role) ≡ Some slot → slot < 32 }
    ensures { MatchOption result (AreHeld (reading_of members.now) row first disks)
        (λ role. (first ≤ role) × (role < disks) × (is_held (reading_of members.now) role row ≡ false) × AreHeld (reading_of members.now) row first role) }
{
    for role in first..disks {
        if held_slot(members, role, row).is_none() {
            return Some(role);
        }
    }
    None
}

/// Fills the roles of a row that no slot holds, where no more roles are missing than the shape tolerates.
pub fn reconstruct_missing(members: &Members, shape: &Shape, row: u64, into: &mut [u8])
    requires shape { IsTrue (is_valid_shape shape.now) }
    requires disks { shape.now.disks ≤ length members.now.roles }
    requires row { row < members.now.newest.size }
    requires short { row < 2 ^ 48 }
    requires small { (role slot : ℕ) → holder (role_state (reading_of members.now) role) ≡ Some slot → slot < 32 }
    requires whole { IsRowOf shape.now.disks into.old }
    requires tolerated { IsTolerated (reading_of members.now) shape.now }
    ensures held { (role : ℕ) → role < shape.now.disks → is_held (reading_of members.now) role row ≡ true → sector_of into.new role ≡ sector_of into.old role }
    ensures lacking { (role : ℕ) → role < shape.now.disks → is_held (reading_of members.now) role row ≡ false → sector_of into.new role
        ≡ fill (row_roles shape.now row) (row_without (λ other. not (is_held (reading_of members.now) other row)) shape.now.disks (sector_of into.old)) role }
{
    let Some(first) = next_lacking(members, row, 0, shape.disks) else {
        return;
    };
    let roles = row_of(shape, row);
    match next_lacking(members, row, first + 1, shape.disks) {
        None => fill_one(into, &roles, first),
        Some(second) => fill_two(into, &roles, first, second),
    }
}
