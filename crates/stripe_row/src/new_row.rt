//! The row that is to be written.

ghost use Rattle.std.specs.Prelude.{◌≡◌, ◌||◌, ◌^◌, ◌<◌, ℕ, IsTrue, IfSome};
ghost use Rattle.sb_specs.specs.raid_types_Shapes.{is_valid_shape, has_slot};
ghost use Rattle.sb_specs.specs.raid_layout_Layout.{row_roles};
ghost use Rattle.raid_parity_simd.specs.raid_parity_Rows.{IsRowOf, sector_of};
ghost use Rattle.stripe_row.specs.Writes.{is_parity, is_due, new_sector, IsGoodRow};

use crate::sets::with;
use raid_parity_simd::{RowRoles, syndromes};
use sb_specs::{Shape, row_of};

/// Sets the parity of a row.
pub fn set_parity(shape: &Shape, row: u64, bytes: &mut [u8])
    requires shape { IsTrue (is_valid_shape shape.now) }
    requires row { row < 2 ^ 53 }
    requires whole { IsRowOf shape.now.disks bytes.old }
    ensures sectors { (role : ℕ) → role < shape.now.disks → sector_of bytes.new role ≡ new_sector shape.now row bytes.old role }
    ensures good { IsGoodRow (row_roles shape.now row) (new_sector shape.now row bytes.old) }
{
    syndromes(bytes, &row_of(shape, row));
}

// The set with the parity roles of a row.
fn with_parity(changed: u32, roles: &RowRoles) -> u32
    requires p { roles.now.p < 32 }
    requires q { IfSome roles.now.q (λ q. q < 32) }
    ensures { (role : ℕ) → has_slot result role ≡ (has_slot changed role || is_parity roles.now role) }
{
    let set = with(changed, roles.p);
    match roles.q {
        Some(q) => with(set, q),
        None => set,
    }
}

/// The roles of a row that are written: those that have changed, and the parity.
pub fn due_roles(shape: &Shape, row: u64, changed: u32) -> u32
    requires shape { IsTrue (is_valid_shape shape.now) }
    requires row { row < 2 ^ 53 }
    ensures { (role : ℕ) → has_slot result role ≡ is_due shape.now row changed role }
{
    with_parity(changed, &row_of(shape, row))
}
