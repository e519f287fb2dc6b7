//! Sectors of the flat list, read one by one: each from the slot that holds it, or filled in from its row.

ghost use Rattle.std.specs.Prelude.{◌≡◌, ◌≢◌, ◌+◌, ◌*◌, ◌/◌, ◌^◌, ◌<◌, ◌≤◌, ℕ, true, false, length, unwrap_or, Some, None, OnOk, IfSome};
ghost use Rattle.raid_layout.specs.raid_types_Sectors.{IsWhole};
ghost use Rattle.raid_layout.specs.raid_types_Shapes.{data_disks};
ghost use Rattle.raid_layout.specs.Layout.{place};
ghost use Rattle.stripe_row.specs.raid_parity_Rows.{sector_of};
ghost use Rattle.stripe_row.specs.Rows.{present, reading_of, is_held, held_sector, standing_sector, IsRow, IsTolerated};
ghost use Rattle.stripe_list.specs.Calls.{HasRows, AreLost, IsAnswer, IsAsked, IsListed};

use crate::held::held_slot;
use crate::outcome::{Outcome, Unavailable, are_too_many};
use crate::sectors::{copy_sector, read_into};
use raid_layout::{Place, Shape, place};
use stripe_row::{Bank, Members, data_offset, lose_slot, read_row};

// Reads the sector at a place from the slot that holds it. None where it was read; else no slot holds it, after the loss
// of these.
fn read_held<B: Bank>(
    members: &mut Members,
    bank: &mut B,
    shape: &Shape,
    at: Place,
    into: &mut [u8],
    index: usize,
) -> Option<u32>
    requires row { IsRow (B.given bank.old) (reading_of members.old) shape.now at.row }
    requires role { at.role < shape.now.disks }
    requires index { 512 * index + 512 ≤ length into.old }
    ensures lost { AreLost shape.now members.old members.new (unwrap_or result 0) (B.faults_of bank.old) (B.faults_of bank.new) }
    ensures read { result ≡ None → B.tells
        → held_sector (present (B.given bank.old) (B.tape bank.old)) (reading_of members.old) at.role at.row ≡ Some (sector_of into.new index) }
    ensures lacks { IfSome result (λ lost. is_held (reading_of members.new) at.role at.row ≡ false) }
    ensures others { (i : ℕ) → i ≢ index → sector_of into.new i ≡ sector_of into.old i }
    ensures tape { B.tells → B.tape bank.new ≡ B.tape bank.old }
    ensures given { B.given bank.new ≡ B.given bank.old }
{
    let Some(slot) = held_slot(members, at.role, at.row) else {
        return Some(0);
    };
    let sector = data_offset(members, slot) + at.row;
    match read_into(bank, slot, sector, into, index) {
        Ok(()) => None,
        Err(_) => Some(lose_slot(members, slot)),
    }
}

// Fills in the sector at a place that no slot holds, from its row.
fn fill_in<B: Bank>(
    members: &mut Members,
    bank: &mut B,
    shape: &Shape,
    at: Place,
    into: &mut [u8],
    index: usize,
    scratch: &mut [u8],
    synced: bool,
) -> Outcome
    requires row { IsRow (B.given bank.old) (reading_of members.old) shape.now at.row }
    requires role { at.role < shape.now.disks }
    requires lacks { is_held (reading_of members.old) at.role at.row ≡ false }
    requires index { 512 * index + 512 ≤ length into.old }
    requires scratch { 8192 ≤ length scratch.old }
    ensures lost { AreLost shape.now members.old members.new result.lost (B.faults_of bank.old) (B.faults_of bank.new) }
    ensures answer { IsAnswer shape.now synced (reading_of members.new) (λ role. role ≡ at.role) result.answer }
    ensures synced { OnOk result.answer (synced ≡ true) }
    ensures filled { OnOk result.answer (B.tells → sector_of into.new index
        ≡ standing_sector (present (B.given bank.old) (B.tape bank.old)) (reading_of members.new) shape.now at.row at.role) }
    ensures others { (i : ℕ) → i ≢ index → sector_of into.new i ≡ sector_of into.old i }
    ensures tape { B.tells → B.tape bank.new ≡ B.tape bank.old }
    ensures given { B.given bank.new ≡ B.given bank.old }
{
    if are_too_many(members, shape) {
        return Outcome {
            lost: 0,
            answer: Err(Unavailable::TooManyMissing),
        };
    }
    if !synced {
        return Outcome {
            lost: 0,
            answer: Err(Unavailable::NotResynced(at.role)),
        };
    }
    let row = &mut scratch[..512 * shape.disks as usize];
    match read_row(members, bank, shape, at.row, row) {
        Err(lost) => Outcome {
            lost,
            answer: Err(Unavailable::TooManyMissing),
        },
        Ok(lost) => {
            copy_sector(row, at.role as usize, into, index);
            Outcome {
                lost,
                answer: Ok(()),
            }
        }
    }
}

// Reads a sector of the list, or fills it in.
fn read_one<B: Bank>(
    members: &mut Members,
    bank: &mut B,
    shape: &Shape,
    x: u64,
    into: &mut [u8],
    index: usize,
    scratch: &mut [u8],
    synced: bool,
) -> Outcome
    requires rows { HasRows (B.given bank.old) (reading_of members.old) shape.now }
    requires tolerated { IsTolerated (reading_of members.old) shape.now }
    requires within { x < data_disks shape.now * members.old.newest.size }
    requires short { x < 2 ^ 53 }
    requires index { 512 * index + 512 ≤ length into.old }
    requires scratch { 8192 ≤ length scratch.old }
    ensures lost { AreLost shape.now members.old members.new result.lost (B.faults_of bank.old) (B.faults_of bank.new) }
    ensures answer { IsAnswer shape.now synced (reading_of members.new) (λ role. (place shape.now x).role ≡ role) result.answer }
    ensures sector { OnOk result.answer (B.tells
        → IsListed shape.now synced (reading_of members.old) (reading_of members.new) (present (B.given bank.old) (B.tape bank.old)) x (sector_of into.new index)) }
    ensures others { (i : ℕ) → i ≢ index → sector_of into.new i ≡ sector_of into.old i }
    ensures tape { B.tells → B.tape bank.new ≡ B.tape bank.old }
    ensures given { B.given bank.new ≡ B.given bank.old }
{
    let at = place(shape, x);
    let Some(lost) = read_held(members, bank, shape, at, into, index) else {
        return Outcome {
            lost: 0,
            answer: Ok(()),
        };
    };
    let filled = fill_in(members, bank, shape, at, into, index, scratch, synced);
    Outcome {
        lost: lost | filled.lost,
        answer: filled.answer,
    }
}

/// Reads the sectors of the list from `first` on, up to the first that can't be had: each from the slot that holds it, or,
/// in a synced array, filled in from its row, for which there is room in `scratch`. A slot that fails is lost, and so is its
/// role.
pub fn read_list<B: Bank>(
    members: &mut Members,
    bank: &mut B,
    shape: &Shape,
    first: u64,
    into: &mut [u8],
    scratch: &mut [u8],
    synced: bool,
) -> Outcome
    requires rows { HasRows (B.given bank.old) (reading_of members.old) shape.now }
    requires into { IsWhole into.old }
    requires within { first + length into.old / 512 ≤ data_disks shape.now * members.old.newest.size }
    requires short { first + length into.old / 512 ≤ 2 ^ 53 }
    requires scratch { 8192 ≤ length scratch.old }
    ensures lost { AreLost shape.now members.old members.new result.lost (B.faults_of bank.old) (B.faults_of bank.new) }
    ensures answer { IsAnswer shape.now synced (reading_of members.new) (IsAsked shape.now first (length into.old / 512)) result.answer }
    ensures sectors { OnOk result.answer (B.tells → (i : ℕ) → i < length into.old / 512
        → IsListed shape.now synced (reading_of members.old) (reading_of members.new) (present (B.given bank.old) (B.tape bank.old)) (first + i) (sector_of into.new i)) }
    ensures tape { B.tells → B.tape bank.new ≡ B.tape bank.old }
    ensures given { B.given bank.new ≡ B.given bank.old }
{
    if are_too_many(members, shape) {
        return Outcome {
            lost: 0,
            answer: Err(Unavailable::TooManyMissing),
        };
    }
    let mut lost = 0;
    for i in 0..into.len() / 512 {
        let one = read_one(
            members,
            bank,
            shape,
            first + i as u64,
            into,
            i,
            scratch,
            synced,
        );
        lost |= one.lost;
        if let Err(cause) = one.answer {
            return Outcome {
                lost,
                answer: Err(cause),
            };
        }
    }
    Outcome {
        lost,
        answer: Ok(()),
    }
}
