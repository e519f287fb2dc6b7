// The writes that an image keeps, carried out over the start.
ghost use Rattle.std.specs.Prelude.{◌≡◌, ◌<◌, ◌||◌, [], List, ℕ, All, nat_lt, length, slice_index, IfOk, if◌then◌else◌};
ghost use Rattle.bank.specs.declared.bank.Operation.TheVariants.{Flush};
ghost use Rattle.bank.specs.Tape.{after_one, value_after};
ghost use Rattle.bank.specs.Memory.{sector_of, sectors_of, IsInside};
ghost use Rattle.bank.specs.Picks.{IsLastFlush, keeps, kept, is_taken, noted};

use crate::image::put;
use crate::slot_sectors::SlotSectors;
use crate::{Operation, Pick};
use std::alloc::{AllocError, Global};

// Whether a write since the last flush is kept, by its place on the tape.
fn is_kept(pick: Pick, place: usize) -> bool
    ensures { result ≡ keeps pick place }
{
    match pick {
        Pick::Flushed => false,
        Pick::Latest => true,
        Pick::Mixed(number) => (number >> (place % 64) as u32) % 2 == 1,
    }
}

// Notes an operation that stands before this mark, where it is a flush.
fn note(marks: &mut Vec<usize>, operation: &Operation, mark: usize)
    requires { (t : ℕ) → operation.now ≡ Flush t → t < length marks.old.items }
    ensures { marks.new.items ≡ noted operation.now mark marks.old.items }
{
    match operation {
        Operation::Write(_, _, _) => {}
        Operation::Flush(slot) => marks[*slot as usize] = mark,
    }
}

/// The mark after each slot's last flush.
pub fn last_flushes(
    alloc: Global,
    tape: &[Operation],
    slots: &Vec<SlotSectors>,
) -> Result<Vec<usize>, AllocError>
    requires { All (IsInside slots.now.items) tape.now }
    ensures count { IfOk result (λ v. length v.items ≡ length slots.now.items) }
    ensures each { IfOk result (λ v. (s : ℕ) → IsLastFlush tape.now (length tape.now) s (slice_index v.items s)) }
{
    let mut marks = vec![in alloc; 0usize; slots.len()]?;
    for place in 0..tape.len() {
        note(&mut marks, &tape[place], place + 1);
    }
    Ok(marks)
}

// One operation, where it is kept.
fn take_one(
    slots: &mut Vec<SlotSectors>,
    place: usize,
    operation: &Operation,
    marks: &Vec<usize>,
    pick: Pick,
)
    requires inside { IsInside slots.old.items operation.now }
    requires count { length marks.now.items ≡ length slots.old.items }
    ensures count { length slots.new.items ≡ length slots.old.items }
    ensures sectors { (s : ℕ) → sectors_of slots.new.items s ≡ sectors_of slots.old.items s }
    ensures each { (s k : ℕ) → sector_of slots.new.items s k
        ≡ (if is_taken pick (slice_index marks.now.items s) place then after_one s k operation.now (sector_of slots.old.items s k)
        else sector_of slots.old.items s k) }
{
    match operation {
        Operation::Write(slot, sector, bytes) => {
            if place < marks[*slot as usize] || is_kept(pick, place) {
                put(slots, *slot as usize, *sector as usize, *bytes);
            }
        }
        Operation::Flush(_) => {}
    }
}

/// The operations before each slot's last flush, and those since that are kept.
pub fn replay(slots: &mut Vec<SlotSectors>, tape: &[Operation], marks: &Vec<usize>, pick: Pick)
    requires inside { All (IsInside slots.old.items) tape.now }
    requires count { length marks.now.items ≡ length slots.old.items }
    ensures count { length slots.new.items ≡ length slots.old.items }
    ensures sectors { (s : ℕ) → sectors_of slots.new.items s ≡ sectors_of slots.old.items s }
    ensures each { (s k : ℕ) → sector_of slots.new.items s k
        ≡ value_after s k (sector_of slots.old.items s k) (kept (is_taken pick (slice_index marks.now.items s)) 0 tape.now) }
{
    for place in 0..tape.len() {
        take_one(slots, place, &tape[place], marks, pick);
    }
}
