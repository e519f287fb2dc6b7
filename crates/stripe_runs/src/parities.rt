//! The rows of a run that are to be written.

ghost use Rattle.std.specs.Prelude.{◌≡◌, ◌||◌, ◌+◌, ◌*◌, ◌^◌, ◌<◌, ◌≤◌, ℕ, length, slice_index, IsTrue, IfSome};
ghost use Rattle.raid_layout.specs.raid_types_Shapes.{is_valid_shape, has_slot};
ghost use Rattle.raid_layout.specs.Layout.{row_roles};
ghost use Rattle.raid_parity_simd.specs.Buffers.{IsRun, buffered, buffer_rows, role_sectors};
ghost use Rattle.raid_parity_simd.specs.Parts.{IsOutside};
ghost use Rattle.stripe_row.specs.Writes.{is_parity, IsGoodRow};
ghost use Rattle.stripe_runs.specs.Runs.{IsOneStripe};
ghost use Rattle.stripe_runs.specs.Writing.{is_due_in, new_sector_of, new_buffered};

use crate::runs::Run;
use raid_layout::{Shape, row_of};
use raid_parity_simd::{BUFFER_ROWS, RowRoles, syndromes_run};
use stripe_row::with;

/// Sets the parity of a run's rows.
pub fn set_parity(shape: &Shape, run: Run, buffer: &mut [u8])
    requires shape { IsTrue (is_valid_shape shape.now) }
    requires row { run.row < 2 ^ 53 }
    requires stripe { IsOneStripe shape.now run.row run.count }
    requires room { IsRun shape.now.disks run.at run.count (length buffer.old) }
    ensures sectors { (role j : ℕ) → role < shape.now.disks → j < run.count → buffered buffer.new (run.at + j) role ≡ new_buffered shape.now run buffer.old j role }
    ensures good { (j : ℕ) → j < run.count → IsGoodRow (row_roles shape.now (run.row + j)) (new_buffered shape.now run buffer.old j) }
    ensures outside { (i role : ℕ) → i < role_sectors → IsOutside run.at run.count i → buffered buffer.new i role ≡ buffered buffer.old i role }
{
    syndromes_run(buffer, &row_of(shape, run.row), run.at, run.count);
}

// The set with the parity roles of a row.
fn with_parity(changed: u32, roles: &RowRoles) -> u32
    requires p { roles.now.p < 32 }
    requires q { IfSome roles.now.q (λ q. q < 32) }
    ensures { (role : ℕ) → has_slot result role ≡ (has_slot changed role || is_parity roles.now role) }
{
    let set = with(changed, roles.p);
    match roles.q {
        Some(q) => with(set, q),
        None => set,
    }
}

/// The roles that are written, of each row of a run: those that have changed there, and the parity.
pub fn due_roles(shape: &Shape, run: Run, changed: &[u32]) -> [u32; BUFFER_ROWS]
    requires shape { IsTrue (is_valid_shape shape.now) }
    requires row { run.row < 2 ^ 53 }
    requires stripe { IsOneStripe shape.now run.row run.count }
    requires few { run.count ≤ buffer_rows }
    requires changed { run.at + run.count ≤ length changed.now }
    ensures { (j role : ℕ) → j < run.count → has_slot (slice_index result j) role ≡ is_due_in shape.now run changed.now j role }
{
    let roles = row_of(shape, run.row);
    let mut due = [0; BUFFER_ROWS];
    for j in 0..run.count {
        due[j] = with_parity(changed[run.at + j], &roles);
    }
    due
}
