//! Sectors of the list that stand on one role, in rows one behind the other, read in one device call.

ghost use Rattle.std.specs.Prelude.{◌≡◌, ◌⊎◌, ◌+◌, ◌*◌, ◌/◌, ◌-◌, ◌^◌, ◌<◌, ◌≤◌, ℕ, false, length, None, OnOk, IsTrue, unwrap_or};
ghost use Rattle.stripe_io.specs.raid_types_Sectors.{Sector, IsWhole};
ghost use Rattle.stripe_io.specs.raid_types_Shapes.{is_multiple, data_disks};
ghost use Rattle.stripe_io.specs.raid_layout_Layout.{place};
ghost use Rattle.stripe_io.specs.raid_parity_Rows.{sector_of};
ghost use Rattle.stripe_io.specs.stripe_row_Rows.{present, reading_of};
ghost use Rattle.stripe_io.specs.stripe_list_Calls.{AreLost, IsAnswer};
ghost use Rattle.stripe_io.specs.stripe_list_Full.{DataStands, RowStands};
ghost use Rattle.stripe_io.specs.history_Stands.{shape_for};
ghost use Rattle.stripe_io.specs.crash_views_Regions.{AreShapesFit};
ghost use Rattle.stripe_io.specs.array_members_Placed.{AreWhole, IsPlaced, IsInForce};
ghost use Rattle.stripe_io.specs.array_members_Lacking.{IsAskedBeyond};
ghost use Rattle.stripe_region_read.specs.Stretches.{IsStretch, IsOneRun};

use crate::stretches::{Stretch, stretch_at};
use stripe_io::fetching::read_parts;
use stripe_io::{
    Bank, Members, Outcome, Role, Shape, Unavailable, are_too_many, data_offset, lose_slot, place,
};

/// The sectors of the list from this one on, up to `to`, that are placed by one shape and stand on one role, in rows one behind the
/// other: those of its chunk.
pub fn run_at(members: &Members, from: u64, to: u64) -> Stretch
    requires fit { AreShapesFit members.now.newest }
    requires some { from < to }
    requires short { to ≤ 2 ^ 53 }
    ensures shape { result.shape ≡ shape_for members.now.newest from }
    ensures force { IsInForce members.now.newest result.shape }
    ensures one { IsStretch members.now.newest result.shape from result.end }
    ensures some { from < result.end }
    ensures within { result.end ≤ to }
    ensures run { IsOneRun result.shape from (result.end - from) }
{
    let stretch = stretch_at(members, from, to);
    let chunk = stretch.shape.chunk as u64;
    let behind = from / chunk * chunk + chunk;
    Stretch {
        shape: stretch.shape,
        end: stretch.end.min(behind),
    }
}

// Reads sectors of the list that stand on one role, in rows one behind the other, in one call, where a slot has all rows of the role.
// None where they were read; else no slot has them all, after the loss of these.
fn read_run<B: Bank>(
    members: &mut Members,
    bank: &mut B,
    shape: &Shape,
    first: u64,
    into: &mut [u8],
) -> Option<u32>
    requires placed { IsPlaced (B.given bank.old) members.old }
    requires shape { IsInForce members.old.newest shape.now }
    requires into { IsWhole into.old }
    requires some { 0 < length into.old / 512 }
    requires within { first + length into.old / 512 ≤ data_disks shape.now * members.old.newest.size }
    requires short { first + length into.old / 512 ≤ 2 ^ 53 }
    requires run { IsOneRun shape.now first (length into.old / 512) }
    ensures lost { AreLost shape.now members.old members.new (unwrap_or result 0) (B.faults_of bank.old) (B.faults_of bank.new) }
    ensures kept { result ≡ None → members.new ≡ members.old }
    ensures read { result ≡ None → B.tells → (list : ℕ → Sector) → (i : ℕ) → i < length into.old / 512
        → DataStands (reading_of members.old) (present (B.given bank.old) (B.tape bank.old)) shape.now list (place shape.now (first + i)).row → sector_of into.new i ≡ list (first + i) }
    ensures tape { B.tells → B.tape bank.new ≡ B.tape bank.old }
    ensures given { B.given bank.new ≡ B.given bank.old }
{
    let at = place(shape, first);
    let Role::Whole(slot) = members.roles.get(at.role) else {
        return Some(0);
    };
    let sector = data_offset(members, slot) + at.row;
    match bank.read(slot, sector, into) {
        Ok(()) => None,
        Err(_) => Some(lose_slot(members, slot)),
    }
}

/// Reads sectors of the list, from `first` on, which are placed by this shape and stand on one role, in rows one behind the other: in one
/// device call where a slot has all rows of the role; else each from the slot that holds it, or, in one of the mended rows, filled in from
/// its row. It names no role.
pub fn read_chunk<B: Bank>(
    members: &mut Members,
    bank: &mut B,
    shape: &Shape,
    first: u64,
    into: &mut [u8],
    scratch: &mut [u8],
    mended: u64,
) -> Outcome
    requires placed { IsPlaced (B.given bank.old) members.old }
    requires shape { IsInForce members.old.newest shape.now }
    requires into { IsWhole into.old }
    requires some { 0 < length into.old / 512 }
    requires within { first + length into.old / 512 ≤ data_disks shape.now * members.old.newest.size }
    requires short { first + length into.old / 512 ≤ 2 ^ 53 }
    requires run { IsOneRun shape.now first (length into.old / 512) }
    requires scratch { 8192 ≤ length scratch.old }
    requires mended { mended ≤ members.old.newest.size }
    requires stripes { IsTrue (is_multiple mended shape.now.chunk) }
    ensures lost { AreLost shape.now members.old members.new result.lost (B.faults_of bank.old) (B.faults_of bank.new) }
    ensures answer { IsAnswer shape.now false (reading_of members.new) (IsAskedBeyond shape.now mended first (length into.old / 512)) result.answer }
    ensures sectors { OnOk result.answer (B.tells → (list : ℕ → Sector) → (i : ℕ) → i < length into.old / 512 → let row = (place shape.now (first + i)).row in
        DataStands (reading_of members.old) (present (B.given bank.old) (B.tape bank.old)) shape.now list row
        → (row < mended → AreWhole members.new ⊎ RowStands (reading_of members.old) (present (B.given bank.old) (B.tape bank.old)) shape.now list row)
        → sector_of into.new i ≡ list (first + i)) }
    ensures tape { B.tells → B.tape bank.new ≡ B.tape bank.old }
    ensures given { B.given bank.new ≡ B.given bank.old }
{
    if are_too_many(members, shape) {
        return Outcome {
            lost: 0,
            answer: Err(Unavailable::TooManyMissing),
        };
    }
    let Some(lost) = read_run(members, bank, shape, first, into) else {
        return Outcome {
            lost: 0,
            answer: Ok(()),
        };
    };
    let rest = read_parts(members, bank, shape, first, into, scratch, mended);
    Outcome {
        lost: lost | rest.lost,
        answer: rest.answer,
    }
}
