//! An open window is finished: what is left of it is copied, and it is recorded.

ghost use Rattle.std.specs.Prelude.{◌≡◌, ◌≤◌, ℕ, true, length, None, Some, MatchOption, ⊤};
ghost use Rattle.stripe_region_read.specs.bank_Tape.{disk};
ghost use Rattle.stripe_region_read.specs.raid_types_Sectors.{Sector};
ghost use Rattle.stripe_region_read.specs.reshape_geometry_Geometry.{stripes};
ghost use Rattle.stripe_region_read.specs.sb_specs_Reading.{Scope, final_shape, next_window, is_clean};
ghost use Rattle.reshape_window_steps.specs.stripe_row_Rows.{present, reading_of};
ghost use Rattle.reshape_window_steps.specs.history_World.{World};
ghost use Rattle.reshape_window_steps.specs.history_Sound.{OpensFit};
ghost use Rattle.reshape_window_steps.specs.crash_views_Regions.{ArePlaced, DoWithout};
ghost use Rattle.reshape_window_steps.specs.crash_views_Views.{AreHeadersFit, Ledger};
ghost use Rattle.reshape_window_steps.specs.crash_views_Windows.{IsCopyable, HasNoSection, ListStands, RowsStand, moved_past};
ghost use Rattle.reshape_window_steps.specs.crash_safety_laws_Safety.{HasLiveSlot, HasRoomLeft, IsRisen};
ghost use Rattle.reshape_window_steps.specs.crash_safety_laws_Steady.{IsSafeOver, KeepsSafe, AreGoneTold, IsUncleanTold};
ghost use Rattle.reshape_window_steps.specs.sb_safe_updates_Named.{AreNamedMissing};
ghost use Rattle.reshape_window_steps.specs.sb_safe_updates_Unused.{IsUnusedKept};
ghost use Rattle.reshape_window_steps.specs.array_members_Moving.{IsMoved};
ghost use Rattle.reshape_window_steps.specs.array_members_Lacking.{HaveFailedSince, AreHoldersFlushed, AreTooMany, AreOtherRowsKept};
ghost use Rattle.reshape_window_steps.specs.reshape_window_rows_Copies.{IsRoomFor, tail_of, IsCopied};
ghost use Rattle.reshape_window_steps.specs.Copying.{AreHeadersKept};
ghost use Rattle.reshape_window_steps.specs.Recording.{IsRecorded};
ghost use Rattle.reshape_window_io.specs.Finishing.{IsOfRest, AreStripesCopied, IsOpenWindow};
ghost use Rattle.reshape_window_steps.specs.sb_safe_updates_Frame.{Stands, Keeps, GoesOn};

use reshape_window_steps::{copy, record};
use stripe_region_read::{Bank, Members, Refusal, Shape, Span, stripe_sectors};

/// How many stripes of the window are copied, the spares that were lost, and why it isn't finished.
#[derive(Clone, Copy)]
pub struct Finished {
    pub copied: u64,
    pub spares: u32,
    pub refusal: Option<Refusal>,
}

// Copies the stripes of the next window behind the first `from`, up to one that is refused.
fn copy_rest<B: Bank>(
    members: &mut Members,
    bank: &mut B,
    shape: &Shape,
    span: &Span,
    from: u64,
    buffer: &[u8],
    scratch: &mut [u8],
) -> Finished
    requires stands { Stands (B.given bank.old) members.old }
    requires shape { shape.now ≡ final_shape members.old.newest }
    requires next { next_window members.old.newest ≡ Some span.now }
    requires from { from ≤ stripes shape.now span.now.lo span.now.hi }
    requires buffer { IsRoomFor span.now buffer.now }
    requires scratch { 8192 ≤ length scratch.old }
    ensures keeps { Keeps B.tells B.given B.tape B.faults_of bank.old bank.new members.old members.new result.spares }
    ensures refused { MatchOption result.refusal ⊤ (AreTooMany members.new) }
    ensures clean { is_clean members.new.newest ≡ is_clean members.old.newest }
    ensures reached { from ≤ result.copied }
    ensures within { result.copied ≤ stripes shape.now span.now.lo span.now.hi }
    ensures all { result.refusal ≡ None → result.copied ≡ stripes shape.now span.now.lo span.now.hi }
    ensures stands { B.tells → (list : ℕ → Sector) → IsCopied span.now buffer.now (tail_of members.old.newest) list
        → AreStripesCopied shape.now span.now from members.old (present (B.given bank.old) (B.tape bank.old)) list
        → AreStripesCopied shape.now span.now result.copied members.new (present (B.given bank.old) (B.tape bank.new)) list }
    ensures others { B.tells → AreOtherRowsKept (IsOfRest shape.now span.now from) (reading_of members.new)
        (present (B.given bank.old) (B.tape bank.old)) (present (B.given bank.old) (B.tape bank.new)) }
    ensures named { MatchOption result.refusal ⊤ (λ refusal. HasLiveSlot members.new → AreNamedMissing members.new) }
    ensures safe { B.tells → (world : World) → (told : Ledger) → HasRoomLeft members.old (B.tape bank.old) (B.tape bank.new)
        → AreGoneTold told members.new → IsUncleanTold told members.old
        → IsCopyable world.scope members.old span.now (disk (B.given bank.old).start (B.tape bank.old))
        → IsSafeOver world (B.given bank.old) told members.old (B.tape bank.old)
        → KeepsSafe world (B.given bank.old) told members.new (B.tape bank.old) (B.tape bank.new) }
    ensures copyable { B.tells → (world : World) → IsCopyable world.scope members.old span.now (disk (B.given bank.old).start (B.tape bank.old))
        → IsCopyable world.scope members.new span.now (disk (B.given bank.old).start (B.tape bank.new)) }
    ensures headers { B.tells → AreHeadersKept (disk (B.given bank.old).start (B.tape bank.old)) (disk (B.given bank.old).start (B.tape bank.new)) }
{
    let sectors = stripe_sectors(shape);
    let first = span.lo / sectors;
    let end = span.hi.div_ceil(sectors);
    let mut at = first + from;
    let mut spares = 0;
    while at < end {
        let part = copy(members, bank, shape, span, at, buffer, scratch);
        spares |= part.spares;
        if part.refusal.is_some() {
            return Finished {
                copied: at - first,
                spares,
                refusal: part.refusal,
            };
        }
        at += 1;
    }
    Finished {
        copied: at - first,
        spares,
        refusal: None,
    }
}

/// Finishes the open window, of which the first `from` stripes are copied: copies the others by the new shape from the buffer that
/// has the window's sectors, and records the position behind it. What is lost is named. It ends where more roles of a shape in force
/// are missing than it tolerates; then the window stays open, and so many of its stripes are copied.
pub fn finish_window<B: Bank>(
    members: &mut Members,
    bank: &mut B,
    shape: &Shape,
    span: &Span,
    from: u64,
    buffer: &[u8],
    scratch: &mut [u8],
) -> Finished
    requires stands { Stands (B.given bank.old) members.old }
    requires shape { shape.now ≡ final_shape members.old.newest }
    requires next { next_window members.old.newest ≡ Some span.now }
    requires from { from ≤ stripes shape.now span.now.lo span.now.hi }
    requires buffer { IsRoomFor span.now buffer.now }
    requires scratch { 8192 ≤ length scratch.old }
    ensures moved { MatchOption result.refusal (IsMoved (B.given bank.old) (moved_past span.now members.old) members.new) (λ refusal. IsMoved (B.given bank.old) members.old members.new) }
    ensures recorded { result.refusal ≡ None → IsRecorded B.tells (B.given bank.old) span.now members.old members.new (B.tape bank.old) (B.tape bank.new) }
    ensures failed { HaveFailedSince members.old members.new result.spares (B.faults_of bank.old) (B.faults_of bank.new) }
    ensures refused { MatchOption result.refusal ⊤ (AreTooMany members.new) }
    ensures bank { GoesOn B.tells B.given B.tape B.faults_of bank.old bank.new }
    ensures clean { is_clean members.new.newest ≡ is_clean members.old.newest }
    ensures reached { from ≤ result.copied }
    ensures within { result.copied ≤ stripes shape.now span.now.lo span.now.hi }
    ensures all { result.refusal ≡ None → result.copied ≡ stripes shape.now span.now.lo span.now.hi }
    ensures stands { B.tells → (list : ℕ → Sector) → IsCopied span.now buffer.now (tail_of members.old.newest) list
        → AreStripesCopied shape.now span.now from members.old (present (B.given bank.old) (B.tape bank.old)) list
        → AreStripesCopied shape.now span.now result.copied members.new (present (B.given bank.old) (B.tape bank.new)) list }
    ensures others { B.tells → AreOtherRowsKept (IsOfRest shape.now span.now from) (reading_of members.new)
        (present (B.given bank.old) (B.tape bank.old)) (present (B.given bank.old) (B.tape bank.new)) }
    ensures flushed { result.refusal ≡ None → B.tells → AreHoldersFlushed (reading_of members.new) (B.given bank.old) (B.tape bank.new) }
    ensures named { HasLiveSlot members.new → AreNamedMissing members.new }
    ensures unused { B.tells → IsUnusedKept members.old (disk (B.given bank.old).start (B.tape bank.old)) (disk (B.given bank.old).start (B.tape bank.new)) }
    ensures plain { result.refusal ≡ None → B.tells → (scope : Scope) → ArePlaced scope (B.given bank.old) members.old
        → AreHeadersFit scope members.old (disk (B.given bank.old).start (B.tape bank.old)) → let e = disk (B.given bank.old).start (B.tape bank.new) in
        HasNoSection scope members.new e × AreHeadersFit scope members.new e }
    ensures kept_open { MatchOption result.refusal ⊤ (λ refusal. B.tells → (world : World) → (told : Ledger) → (list : ℕ → Sector)
        → IsOpenWindow (OpensFit world) world.scope told members.old span.now buffer.now from list (present (B.given bank.old) (B.tape bank.old)) (disk (B.given bank.old).start (B.tape bank.old))
        → IsOpenWindow (OpensFit world) world.scope told members.new span.now buffer.now result.copied list (present (B.given bank.old) (B.tape bank.new)) (disk (B.given bank.old).start (B.tape bank.new))) }
    ensures listed { result.refusal ≡ None → B.tells → (world : World) → (told : Ledger) → (list : ℕ → Sector)
        → IsOpenWindow (OpensFit world) world.scope told members.old span.now buffer.now from list (present (B.given bank.old) (B.tape bank.old)) (disk (B.given bank.old).start (B.tape bank.old))
        → let c = present (B.given bank.old) (B.tape bank.new) in
        ListStands None members.new c list × (is_clean members.new.newest ≡ true → DoWithout members.new → OpensFit world → RowsStand None members.new c list) }
    ensures rise { IsRisen B.tells members.old members.new (B.tape bank.old) (B.tape bank.new) }
    ensures safe { B.tells → (world : World) → (told : Ledger) → HasRoomLeft members.old (B.tape bank.old) (B.tape bank.new)
        → AreGoneTold told members.new → IsUncleanTold told members.old → (list : ℕ → Sector)
        → IsOpenWindow (OpensFit world) world.scope told members.old span.now buffer.now from list (present (B.given bank.old) (B.tape bank.old)) (disk (B.given bank.old).start (B.tape bank.old))
        → IsSafeOver world (B.given bank.old) told members.old (B.tape bank.old)
        → KeepsSafe world (B.given bank.old) told members.new (B.tape bank.old) (B.tape bank.new) }
{
    let copied = copy_rest(members, bank, shape, span, from, buffer, scratch);
    if copied.refusal.is_some() {
        return copied;
    }
    let recorded = record(members, bank, span);
    Finished {
        copied: copied.copied,
        spares: copied.spares | recorded.spares,
        refusal: recorded.refusal,
    }
}
