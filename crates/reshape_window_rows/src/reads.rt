//! The sectors of a window, read by the old shape.

ghost use Rattle.std.specs.Prelude.{◌≡◌, ◌*◌, ◌/◌, ◌≤◌, ℕ, true, length, Some, None, OnOk};
ghost use Rattle.raid_layout.specs.raid_types_Sectors.{Sector};
ghost use Rattle.reshape_begin_end.specs.sb_specs_Reading.{shape_of, next_window};
ghost use Rattle.reshape_begin_end.specs.stripe_row_Rows.{present, reading_of};
ghost use Rattle.reshape_begin_end.specs.stripe_list_Calls.{HasRows, AreLost, IsAnswer, IsAsked};
ghost use Rattle.reshape_begin_end.specs.crash_views_Regions.{AreShapesFit};
ghost use Rattle.reshape_begin_end.specs.crash_views_Windows.{ListStands};
ghost use Rattle.reshape_window_rows.specs.Copies.{HasWindow, IsRoomFor, AreLackingGood};

use raid_layout::{Shape, Span};
use reshape_begin_end::{Bank, Members, Outcome, read_list};

/// Reads the sectors of the next window into the buffer, by the old shape: each from the slot that holds it, or, in a synced
/// array, filled in from its row, for which there is room in `scratch`. A slot that fails is lost, and so is its role.
pub fn read_window<B: Bank>(
    members: &mut Members,
    bank: &mut B,
    shape: &Shape,
    span: &Span,
    buffer: &mut [u8],
    scratch: &mut [u8],
    synced: bool,
) -> Outcome
    requires fit { AreShapesFit members.old.newest }
    requires rows { HasRows (B.given bank.old) (reading_of members.old) shape.now }
    requires shape { shape.now ≡ shape_of members.old.newest }
    requires next { next_window members.old.newest ≡ Some span.now }
    requires buffer { IsRoomFor span.now buffer.old }
    requires scratch { 8192 ≤ length scratch.old }
    ensures lost { AreLost shape.now members.old members.new result.lost (B.faults_of bank.old) (B.faults_of bank.new) }
    ensures answer { IsAnswer shape.now synced (reading_of members.new) (IsAsked shape.now span.now.lo (length buffer.old / 512)) result.answer }
    ensures sectors { OnOk result.answer (B.tells → let c = present (B.given bank.old) (B.tape bank.old) in (list : ℕ → Sector) → ListStands None members.old c list
        → (synced ≡ true → AreLackingGood (reading_of members.old) (reading_of members.new) c shape.now span.now list) → HasWindow span.now buffer.new list) }
    ensures tape { B.tells → B.tape bank.new ≡ B.tape bank.old }
    ensures given { B.given bank.new ≡ B.given bank.old }
{
    read_list(members, bank, shape, span.lo, buffer, scratch, synced)
}
