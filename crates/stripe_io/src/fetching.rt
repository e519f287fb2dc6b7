//! Reads of an array that may lack members.

ghost use Rattle.std.specs.Prelude.{◌≡◌, ◌⊎◌, ◌+◌, ◌*◌, ◌/◌, ◌^◌, ◌<◌, ◌≤◌, ℕ, false, length, OnOk, IsTrue};
ghost use Rattle.sb_safe_updates.specs.raid_types_Sectors.{Sector, IsWhole};
ghost use Rattle.sb_safe_updates.specs.raid_types_Shapes.{is_multiple, data_disks};
ghost use Rattle.sb_safe_updates.specs.raid_layout_Layout.{place};
ghost use Rattle.sb_safe_updates.specs.raid_parity_Rows.{sector_of};
ghost use Rattle.sb_safe_updates.specs.stripe_row_Rows.{reading_of, present};
ghost use Rattle.sb_safe_updates.specs.stripe_list_Calls.{AreLost, IsAnswer};
ghost use Rattle.sb_safe_updates.specs.array_members_Placed.{AreWhole, IsPlaced, IsInForce};
ghost use Rattle.sb_safe_updates.specs.stripe_list_Full.{DataStands, RowStands};
ghost use Rattle.sb_safe_updates.specs.array_members_Lacking.{IsAskedBeyond};

use sb_safe_updates::roles::list_length;
use sb_safe_updates::{Bank, Members, Outcome, Shape, read_list};

/// Reads sectors of the list, from `first` on, which are placed by this shape: each from the slot that holds it, or, in one of the
/// mended rows, filled in from its row. It names no role.
pub fn read_parts<B: Bank>(
    members: &mut Members,
    bank: &mut B,
    shape: &Shape,
    first: u64,
    into: &mut [u8],
    scratch: &mut [u8],
    mended: u64,
) -> Outcome
    requires placed { IsPlaced (B.given bank.old) members.old }
    requires shape { IsInForce members.old.newest shape.now }
    requires into { IsWhole into.old }
    requires within { first + length into.old / 512 ≤ data_disks shape.now * members.old.newest.size }
    requires short { first + length into.old / 512 ≤ 2 ^ 53 }
    requires scratch { 8192 ≤ length scratch.old }
    requires mended { mended ≤ members.old.newest.size }
    requires stripes { IsTrue (is_multiple mended shape.now.chunk) }
    ensures lost { AreLost shape.now members.old members.new result.lost (B.faults_of bank.old) (B.faults_of bank.new) }
    ensures answer { IsAnswer shape.now false (reading_of members.new) (IsAskedBeyond shape.now mended first (length into.old / 512)) result.answer }
    ensures sectors { OnOk result.answer (B.tells → (list : ℕ → Sector) → (i : ℕ) → i < length into.old / 512 → let row = (place shape.now (first + i)).row in
        DataStands (reading_of members.old) (present (B.given bank.old) (B.tape bank.old)) shape.now list row
        → (row < mended → AreWhole members.new ⊎ RowStands (reading_of members.old) (present (B.given bank.old) (B.tape bank.old)) shape.now list row)
        → sector_of into.new i ≡ list (first + i)) }
    ensures tape { B.tells → B.tape bank.new ≡ B.tape bank.old }
    ensures given { B.given bank.new ≡ B.given bank.old }
{
    let reach = list_length(shape, mended).saturating_sub(first);
    let split = reach.min((into.len() / 512) as u64);
    let (below, beyond) = into.split_at_mut(512 * split as usize);
    let read = read_list(members, bank, shape, first, below, scratch, true);
    if read.answer.is_err() {
        return read;
    }
    let rest = read_list(members, bank, shape, first + split, beyond, scratch, false);
    Outcome {
        lost: read.lost | rest.lost,
        answer: rest.answer,
    }
}
