//! Stripes of the new shape: those of a window are written from its buffer, and those behind the list as zeros.

ghost use Rattle.std.specs.Prelude.{◌≡◌, ◌⊎◌, ◌+◌, ◌*◌, ◌<◌, ◌≤◌, ℕ, true, length, Some, OnOk};
ghost use Rattle.reshape_begin_end.specs.bank_Tape.{EachMark, disk};
ghost use Rattle.raid_layout.specs.raid_types_the_Span.{Span};
ghost use Rattle.raid_layout.specs.raid_types_Sectors.{Sector};
ghost use Rattle.reshape_begin_end.specs.sb_specs_Reading.{final_shape, list_length, next_window};
ghost use Rattle.reshape_begin_end.specs.stripe_row_Rows.{present, reading_of};
ghost use Rattle.reshape_begin_end.specs.stripe_row_Writes.{AreApart};
ghost use Rattle.reshape_begin_end.specs.stripe_list_Calls.{HasRows, AreLost, IsAnswer};
ghost use Rattle.reshape_begin_end.specs.stripe_list_Full.{RowStands};
ghost use Rattle.reshape_begin_end.specs.stripe_list_Writing.{IsFull, IsRowKept, AreBehind, AreSuperblocksKept};
ghost use Rattle.reshape_begin_end.specs.crash_views_Regions.{AreShapesFit};
ghost use Rattle.reshape_begin_end.specs.crash_views_Windows.{IsWrittenAt, IsCopying};
ghost use Rattle.reshape_begin_end.specs.crash_safety_laws_Updates.{IsPastPlace};
ghost use Rattle.reshape_window_rows.specs.Copies.{IsRoomFor, tail_of, IsCopied, IsZeroIn, IsOwnRow, IsStripeOf, IsPastStripe, IsChangedAt, IsRowsPlace};

use crate::runs::{MOST_ROWS, copy_run};
use raid_layout::{Shape, Span};
use reshape_begin_end::{Bank, Members, Unavailable, are_too_many};

/// The set of the slots that were lost, how many rows of the stripe are written, and what the call answers.
#[derive(Drop)]
pub struct Copied {
    pub lost: u32,
    pub done: u64,
    pub answer: Result<(), Unavailable>,
}

// The slots that were lost, and the first row that isn't written.
struct Stretch {
    lost: u32,
    next: u64,
}

// Writes rows of the shape from one up to another, made of the window's sectors, a run of them at a time, up to the first in which a
// slot is lost. Rows behind that one may be written in part.
fn copy_rows<B: Bank>(
    members: &mut Members,
    bank: &mut B,
    shape: &Shape,
    span: &Span,
    from: u64,
    to: u64,
    buffer: &[u8],
    scratch: &mut [u8],
) -> Stretch
    requires rows { HasRows (B.given bank.old) (reading_of members.old) shape.now }
    requires apart { AreApart (reading_of members.old) }
    requires order { from ≤ to }
    requires below { to ≤ members.old.newest.size }
    requires buffer { IsRoomFor span.now buffer.now }
    requires scratch { 8192 ≤ length scratch.old }
    ensures lost { AreLost shape.now members.old members.new result.lost (B.faults_of bank.old) (B.faults_of bank.new) }
    ensures each_mark { let start = (B.given bank.old).start in EachMark B.tells start (B.tape bank.old) (B.tape bank.new)
        (IsChangedAt (IsRowsPlace (reading_of members.old) from to) (disk start (B.tape bank.old))) }
    ensures full { (tail : Span) (list : ℕ → Sector) → IsCopied span.now buffer.now tail list → B.tells
        → (row : ℕ) → from ≤ row → row < result.next → IsOwnRow shape.now span.now tail row
        → IsFull (reading_of members.new) (present (B.given bank.new) (B.tape bank.new)) shape.now list row }
    ensures others { B.tells → (row : ℕ) → (row < from) ⊎ (to ≤ row) → IsRowKept (reading_of members.new)
        (present (B.given bank.old) (B.tape bank.old)) (present (B.given bank.new) (B.tape bank.new)) row }
    ensures reached { from ≤ result.next }
    ensures within { result.next ≤ to }
    ensures further { from < to → from < result.next }
    ensures all { result.lost ≡ 0 → result.next ≡ to }
    ensures given { B.given bank.new ≡ B.given bank.old }
{
    let mut row = from;
    while row < to {
        let count = (to - row).min(MOST_ROWS);
        let lost = copy_run(
            members,
            bank,
            shape,
            span,
            row,
            count as usize,
            buffer,
            scratch,
        );
        if lost != 0 {
            return Stretch {
                lost,
                next: row + 1,
            };
        }
        row += count;
    }
    Stretch { lost: 0, next: to }
}

// What a call answers in the end.
fn answer_of(members: &Members, shape: &Shape) -> Result<(), Unavailable>
    requires { shape.now.disks ≤ length members.now.roles }
    ensures { IsAnswer shape.now true (reading_of members.now) (λ role. ⊥) result }
{
    if are_too_many(members, shape) {
        return Err(Unavailable::TooManyMissing);
    }
    Ok(())
}

// Writes the rows of a stripe from one on, up to the first in which a slot is lost.
fn put_stripe<B: Bank>(
    members: &mut Members,
    bank: &mut B,
    shape: &Shape,
    span: &Span,
    stripe: u64,
    done: u64,
    buffer: &[u8],
    scratch: &mut [u8],
) -> Copied
    requires rows { HasRows (B.given bank.old) (reading_of members.old) shape.now }
    requires apart { AreApart (reading_of members.old) }
    requires done { done ≤ shape.now.chunk }
    requires below { stripe * shape.now.chunk + shape.now.chunk ≤ members.old.newest.size }
    requires buffer { IsRoomFor span.now buffer.now }
    requires scratch { 8192 ≤ length scratch.old }
    ensures lost { AreLost shape.now members.old members.new result.lost (B.faults_of bank.old) (B.faults_of bank.new) }
    ensures answer { IsAnswer shape.now true (reading_of members.new) (λ role. ⊥) result.answer }
    ensures each_mark { let start = (B.given bank.old).start in let first = stripe * shape.now.chunk in EachMark B.tells start (B.tape bank.old) (B.tape bank.new)
        (IsChangedAt (IsRowsPlace (reading_of members.old) first (first + shape.now.chunk)) (disk start (B.tape bank.old))) }
    ensures full { (tail : Span) (list : ℕ → Sector) → IsCopied span.now buffer.now tail list → B.tells
        → (i : ℕ) → done ≤ i → i < result.done → IsOwnRow shape.now span.now tail (stripe * shape.now.chunk + i)
        → IsFull (reading_of members.new) (present (B.given bank.new) (B.tape bank.new)) shape.now list (stripe * shape.now.chunk + i) }
    ensures others { B.tells → (row : ℕ) → (row < stripe * shape.now.chunk + done) ⊎ (stripe * shape.now.chunk + shape.now.chunk ≤ row)
        → IsRowKept (reading_of members.new) (present (B.given bank.old) (B.tape bank.old)) (present (B.given bank.new) (B.tape bank.new)) row }
    ensures reached { done ≤ result.done }
    ensures within { result.done ≤ shape.now.chunk }
    ensures further { OnOk result.answer (done < shape.now.chunk → done < result.done) }
    ensures all { OnOk result.answer (result.lost ≡ 0 → result.done ≡ shape.now.chunk) }
    ensures given { B.given bank.new ≡ B.given bank.old }
{
    if are_too_many(members, shape) {
        return Copied {
            lost: 0,
            done,
            answer: Err(Unavailable::TooManyMissing),
        };
    }
    let chunk = u64::from(shape.chunk);
    let first = stripe * chunk;
    let Stretch { lost, next } = copy_rows(
        members,
        bank,
        shape,
        span,
        first + done,
        first + chunk,
        buffer,
        scratch,
    );
    Copied {
        lost,
        done: next - first,
        answer: answer_of(members, shape),
    }
}

/// Writes a stripe of the next window by the new shape, with its parity, from the buffer that has the window's sectors, and
/// zeros where the list has ended. It begins at the first row that isn't done, and stops behind one in which a slot is lost,
/// so that the loss can be named before the next call goes on.
pub fn copy_stripe<B: Bank>(
    members: &mut Members,
    bank: &mut B,
    shape: &Shape,
    span: &Span,
    stripe: u64,
    done: u64,
    buffer: &[u8],
    scratch: &mut [u8],
) -> Copied
    requires fit { AreShapesFit members.old.newest }
    requires rows { HasRows (B.given bank.old) (reading_of members.old) shape.now }
    requires apart { AreApart (reading_of members.old) }
    requires behind { AreBehind (reading_of members.old) }
    requires shape { shape.now ≡ final_shape members.old.newest }
    requires next { next_window members.old.newest ≡ Some span.now }
    requires stripe { IsStripeOf shape.now span.now stripe }
    requires done { done ≤ shape.now.chunk }
    requires buffer { IsRoomFor span.now buffer.now }
    requires scratch { 8192 ≤ length scratch.old }
    ensures lost { AreLost shape.now members.old members.new result.lost (B.faults_of bank.old) (B.faults_of bank.new) }
    ensures answer { IsAnswer shape.now true (reading_of members.new) (λ role. ⊥) result.answer }
    ensures each_mark { let start = (B.given bank.old).start in EachMark B.tells start (B.tape bank.old) (B.tape bank.new)
        (λ e. IsCopying members.old span.now (disk start (B.tape bank.old)) e × AreSuperblocksKept (disk start (B.tape bank.old)) e) }
    ensures stands { B.tells → (list : ℕ → Sector) → IsCopied span.now buffer.now (tail_of members.old.newest) list → (i : ℕ) → done ≤ i → i < result.done
        → RowStands (reading_of members.new) (present (B.given bank.new) (B.tape bank.new)) shape.now list (stripe * shape.now.chunk + i) }
    ensures others { B.tells → (row : ℕ) → (row < stripe * shape.now.chunk + done) ⊎ (stripe * shape.now.chunk + shape.now.chunk ≤ row)
        → IsRowKept (reading_of members.new) (present (B.given bank.old) (B.tape bank.old)) (present (B.given bank.new) (B.tape bank.new)) row }
    ensures reached { done ≤ result.done }
    ensures within { result.done ≤ shape.now.chunk }
    ensures further { OnOk result.answer (done < shape.now.chunk → done < result.done) }
    ensures all { OnOk result.answer (result.lost ≡ 0 → result.done ≡ shape.now.chunk) }
    ensures given { B.given bank.new ≡ B.given bank.old }
{
    put_stripe(members, bank, shape, span, stripe, done, buffer, scratch)
}

/// Writes a stripe of the new shape behind the list as zeros, with its parity. It begins at the first row that isn't done,
/// and stops behind one in which a slot is lost.
pub fn zero_stripe<B: Bank>(
    members: &mut Members,
    bank: &mut B,
    shape: &Shape,
    stripe: u64,
    done: u64,
    scratch: &mut [u8],
) -> Copied
    requires rows { HasRows (B.given bank.old) (reading_of members.old) shape.now }
    requires apart { AreApart (reading_of members.old) }
    requires behind { AreBehind (reading_of members.old) }
    requires shape { shape.now ≡ final_shape members.old.newest }
    requires stripe { IsPastStripe shape.now members.old.newest.size (list_length members.old.newest) stripe }
    requires done { done ≤ shape.now.chunk }
    requires scratch { 8192 ≤ length scratch.old }
    ensures lost { AreLost shape.now members.old members.new result.lost (B.faults_of bank.old) (B.faults_of bank.new) }
    ensures answer { IsAnswer shape.now true (reading_of members.new) (λ role. ⊥) result.answer }
    ensures each_mark { let start = (B.given bank.old).start in EachMark B.tells start (B.tape bank.old) (B.tape bank.new)
        (λ e. IsWrittenAt (IsPastPlace members.old) (disk start (B.tape bank.old)) e × AreSuperblocksKept (disk start (B.tape bank.old)) e) }
    ensures stands { B.tells → (list : ℕ → Sector) → IsZeroIn (tail_of members.old.newest) list → (i : ℕ) → done ≤ i → i < result.done
        → RowStands (reading_of members.new) (present (B.given bank.new) (B.tape bank.new)) shape.now list (stripe * shape.now.chunk + i) }
    ensures others { B.tells → (row : ℕ) → (row < stripe * shape.now.chunk + done) ⊎ (stripe * shape.now.chunk + shape.now.chunk ≤ row)
        → IsRowKept (reading_of members.new) (present (B.given bank.old) (B.tape bank.old)) (present (B.given bank.new) (B.tape bank.new)) row }
    ensures reached { done ≤ result.done }
    ensures within { result.done ≤ shape.now.chunk }
    ensures further { OnOk result.answer (done < shape.now.chunk → done < result.done) }
    ensures all { OnOk result.answer (result.lost ≡ 0 → result.done ≡ shape.now.chunk) }
    ensures given { B.given bank.new ≡ B.given bank.old }
{
    let none = Span { lo: 0, hi: 0 };
    put_stripe(members, bank, shape, &none, stripe, done, &[], scratch)
}
