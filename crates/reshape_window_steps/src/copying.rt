//! A stripe of a window is copied, or one behind the list zeroed, and what is lost in it is named.

ghost use Rattle.std.specs.Prelude.{◌≡◌, ◌<◌, ◌≤◌, ℕ, true, false, length, None, Some, MatchOption, ⊤};
ghost use Rattle.reshape_window_rows.specs.bank_Tape.{disk};
ghost use Rattle.reshape_window_rows.specs.raid_types_Sectors.{Sector};
ghost use Rattle.reshape_window_rows.specs.sb_specs_Reading.{final_shape, next_window, is_clean};
ghost use Rattle.reshape_window_rows.specs.stripe_row_Rows.{present, reading_of};
ghost use Rattle.reshape_window_rows.specs.stripe_list_Full.{RowStands};
ghost use Rattle.reshape_window_rows.specs.history_World.{World};
ghost use Rattle.reshape_window_rows.specs.crash_views_Regions.{DoWithout};
ghost use Rattle.reshape_window_rows.specs.crash_views_Views.{Ledger};
ghost use Rattle.reshape_window_rows.specs.crash_views_Windows.{IsCopyable};
ghost use Rattle.reshape_window_rows.specs.crash_safety_laws_Safety.{HasLiveSlot, HasRoomLeft};
ghost use Rattle.reshape_window_rows.specs.sb_safe_updates_Named.{AreNamedMissing};
ghost use Rattle.reshape_window_rows.specs.crash_safety_laws_Steady.{AreUnlost, IsSafeOver, KeepsSafe, AreGoneTold, IsUncleanTold};
ghost use Rattle.reshape_window_rows.specs.array_members_Placed.{IsPlaced};
ghost use Rattle.reshape_window_rows.specs.array_members_Lacking.{DoesWithout, AreTooMany, AreOtherRowsKept, IsOfStripe};
ghost use Rattle.reshape_window_rows.specs.Copies.{IsRoomFor, tail_of, IsCopied, IsStripeOf};
ghost use Rattle.reshape_window_steps.specs.Copying.{IsOfStripeFrom, AreHeadersKept};
ghost use Rattle.reshape_window_rows.specs.sb_safe_updates_Frame.{Stands, Keeps};

use reshape_window_rows::{
    Bank, Members, Refusal, Shape, Span, copy_stripe, record_missing, too_many,
};

/// The spares that were lost in a step, and why it wasn't done.
#[derive(Clone, Copy)]
pub struct Stepped {
    pub spares: u32,
    pub refusal: Option<Refusal>,
}

// The first row of the stripe that isn't written, and whether too many roles of the shape are missing.
#[derive(Clone, Copy)]
pub struct Stretch {
    pub done: u64,
    pub refused: bool,
}

// How many rows of the stripe are written, the spares that were lost, and why not all are.
#[derive(Clone, Copy)]
pub struct Part {
    pub done: u64,
    pub spares: u32,
    pub refusal: Option<Refusal>,
}

// Copies rows of a stripe from one on, up to the first in which a slot is lost.
fn copy_stretch<B: Bank>(
    members: &mut Members,
    bank: &mut B,
    shape: &Shape,
    span: &Span,
    stripe: u64,
    done: u64,
    buffer: &[u8],
    scratch: &mut [u8],
) -> Stretch
    requires slots { (B.given bank.old).slots ≤ 32 }
    requires placed { IsPlaced (B.given bank.old) members.old }
    requires unlost { AreUnlost members.old }
    requires shape { shape.now ≡ final_shape members.old.newest }
    requires next { next_window members.old.newest ≡ Some span.now }
    requires stripe { IsStripeOf shape.now span.now stripe }
    requires done { done < shape.now.chunk }
    requires buffer { IsRoomFor span.now buffer.now }
    requires scratch { 8192 ≤ length scratch.old }
    ensures keeps { Keeps B.tells B.given B.tape B.faults_of bank.old bank.new members.old members.new 0 }
    ensures refused { result.refused ≡ true → DoesWithout shape.now members.new → ⊥ }
    ensures clean { is_clean members.new.newest ≡ is_clean members.old.newest }
    ensures further { result.refused ≡ false → done < result.done }
    ensures reached { done ≤ result.done }
    ensures within { result.done ≤ shape.now.chunk }
    ensures stands { B.tells → (list : ℕ → Sector) → IsCopied span.now buffer.now (tail_of members.old.newest) list
        → (row : ℕ) → IsOfStripeFrom shape.now stripe done result.done row
        → RowStands (reading_of members.new) (present (B.given bank.old) (B.tape bank.new)) shape.now list row }
    ensures others { B.tells → AreOtherRowsKept (IsOfStripeFrom shape.now stripe done shape.now.chunk) (reading_of members.new)
        (present (B.given bank.old) (B.tape bank.old)) (present (B.given bank.old) (B.tape bank.new)) }
    ensures safe { B.tells → (world : World) → (told : Ledger) → IsCopyable world.scope members.old span.now (disk (B.given bank.old).start (B.tape bank.old))
        → IsSafeOver world (B.given bank.old) told members.old (B.tape bank.old)
        → KeepsSafe world (B.given bank.old) told members.new (B.tape bank.old) (B.tape bank.new) }
    ensures copyable { B.tells → (world : World) → IsCopyable world.scope members.old span.now (disk (B.given bank.old).start (B.tape bank.old))
        → IsCopyable world.scope members.new span.now (disk (B.given bank.old).start (B.tape bank.new)) }
    ensures headers { B.tells → AreHeadersKept (disk (B.given bank.old).start (B.tape bank.old)) (disk (B.given bank.old).start (B.tape bank.new)) }
{
    let copied = copy_stripe(members, bank, shape, span, stripe, done, buffer, scratch);
    Stretch {
        done: copied.done,
        refused: copied.answer.is_err(),
    }
}

// Copies rows of a stripe from one on, up to the first in which a slot is lost, and names what was lost.
fn copy_part<B: Bank>(
    members: &mut Members,
    bank: &mut B,
    shape: &Shape,
    span: &Span,
    stripe: u64,
    done: u64,
    buffer: &[u8],
    scratch: &mut [u8],
) -> Part
    requires stands { Stands (B.given bank.old) members.old }
    requires shape { shape.now ≡ final_shape members.old.newest }
    requires next { next_window members.old.newest ≡ Some span.now }
    requires stripe { IsStripeOf shape.now span.now stripe }
    requires done { done < shape.now.chunk }
    requires buffer { IsRoomFor span.now buffer.now }
    requires scratch { 8192 ≤ length scratch.old }
    ensures keeps { Keeps B.tells B.given B.tape B.faults_of bank.old bank.new members.old members.new result.spares }
    ensures refused { MatchOption result.refusal (DoWithout members.new) (AreTooMany members.new) }
    ensures clean { is_clean members.new.newest ≡ is_clean members.old.newest }
    ensures further { result.refusal ≡ None → done < result.done }
    ensures reached { done ≤ result.done }
    ensures within { result.done ≤ shape.now.chunk }
    ensures stands { B.tells → (list : ℕ → Sector) → IsCopied span.now buffer.now (tail_of members.old.newest) list
        → (row : ℕ) → IsOfStripeFrom shape.now stripe done result.done row
        → RowStands (reading_of members.new) (present (B.given bank.old) (B.tape bank.new)) shape.now list row }
    ensures others { B.tells → AreOtherRowsKept (IsOfStripeFrom shape.now stripe done shape.now.chunk) (reading_of members.new)
        (present (B.given bank.old) (B.tape bank.old)) (present (B.given bank.old) (B.tape bank.new)) }
    ensures named { HasLiveSlot members.new → AreNamedMissing members.new }
    ensures safe { B.tells → (world : World) → (told : Ledger) → HasRoomLeft members.old (B.tape bank.old) (B.tape bank.new)
        → AreGoneTold told members.new → IsUncleanTold told members.old
        → IsCopyable world.scope members.old span.now (disk (B.given bank.old).start (B.tape bank.old))
        → IsSafeOver world (B.given bank.old) told members.old (B.tape bank.old)
        → KeepsSafe world (B.given bank.old) told members.new (B.tape bank.old) (B.tape bank.new) }
    ensures copyable { B.tells → (world : World) → IsCopyable world.scope members.old span.now (disk (B.given bank.old).start (B.tape bank.old))
        → IsCopyable world.scope members.new span.now (disk (B.given bank.old).start (B.tape bank.new)) }
    ensures headers { B.tells → AreHeadersKept (disk (B.given bank.old).start (B.tape bank.old)) (disk (B.given bank.old).start (B.tape bank.new)) }
{
    let Stretch { done, refused } = copy_stretch(
        members, bank, shape, span, stripe, done, buffer, scratch,
    );
    let _ = refused;
    let spares = record_missing(members, bank);
    Part {
        done,
        spares,
        refusal: too_many(members),
    }
}

/// Copies a stripe of the next window: writes its rows by the new shape, with their parity, from the buffer that has the window's
/// sectors, and zeros where the list has ended. What is lost in a row is named before the next row is written. It ends where more
/// roles of a shape in force are missing than it tolerates.
pub fn copy<B: Bank>(
    members: &mut Members,
    bank: &mut B,
    shape: &Shape,
    span: &Span,
    stripe: u64,
    buffer: &[u8],
    scratch: &mut [u8],
) -> Stepped
    requires stands { Stands (B.given bank.old) members.old }
    requires shape { shape.now ≡ final_shape members.old.newest }
    requires next { next_window members.old.newest ≡ Some span.now }
    requires stripe { IsStripeOf shape.now span.now stripe }
    requires buffer { IsRoomFor span.now buffer.now }
    requires scratch { 8192 ≤ length scratch.old }
    ensures keeps { Keeps B.tells B.given B.tape B.faults_of bank.old bank.new members.old members.new result.spares }
    ensures refused { MatchOption result.refusal ⊤ (AreTooMany members.new) }
    ensures clean { is_clean members.new.newest ≡ is_clean members.old.newest }
    ensures stands { result.refusal ≡ None → B.tells → (list : ℕ → Sector) → IsCopied span.now buffer.now (tail_of members.old.newest) list
        → (row : ℕ) → IsOfStripe shape.now stripe row
        → RowStands (reading_of members.new) (present (B.given bank.old) (B.tape bank.new)) shape.now list row }
    ensures others { B.tells → AreOtherRowsKept (IsOfStripe shape.now stripe) (reading_of members.new)
        (present (B.given bank.old) (B.tape bank.old)) (present (B.given bank.old) (B.tape bank.new)) }
    ensures named { HasLiveSlot members.new → AreNamedMissing members.new }
    ensures safe { B.tells → (world : World) → (told : Ledger) → HasRoomLeft members.old (B.tape bank.old) (B.tape bank.new)
        → AreGoneTold told members.new → IsUncleanTold told members.old
        → IsCopyable world.scope members.old span.now (disk (B.given bank.old).start (B.tape bank.old))
        → IsSafeOver world (B.given bank.old) told members.old (B.tape bank.old)
        → KeepsSafe world (B.given bank.old) told members.new (B.tape bank.old) (B.tape bank.new) }
    ensures copyable { B.tells → (world : World) → IsCopyable world.scope members.old span.now (disk (B.given bank.old).start (B.tape bank.old))
        → IsCopyable world.scope members.new span.now (disk (B.given bank.old).start (B.tape bank.new)) }
    ensures headers { B.tells → AreHeadersKept (disk (B.given bank.old).start (B.tape bank.old)) (disk (B.given bank.old).start (B.tape bank.new)) }
{
    let chunk = u64::from(shape.chunk);
    let mut done = 0;
    let mut spares = 0;
    while done < chunk {
        let part = copy_part(members, bank, shape, span, stripe, done, buffer, scratch);
        spares |= part.spares;
        if part.refusal.is_some() {
            return Stepped {
                spares,
                refusal: part.refusal,
            };
        }
        done = part.done;
    }
    Stepped {
        spares,
        refusal: None,
    }
}
