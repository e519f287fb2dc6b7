//! A row that a write changed, kept in place of being written.

ghost use Rattle.std.specs.Prelude.{◌≡◌, ◌<◌, ◌≤◌, ℕ, List, [], ◌∷◌, length, true, false, Contains, None, MatchOption, ⊤};
ghost use Rattle.stripe_delayed_store.specs.bank_Given.{NeverFalls};
ghost use Rattle.stripe_delayed_store.specs.raid_types_Sectors.{Sector, IsWhole};
ghost use Rattle.stripe_delayed_store.specs.raid_types_the_Side.{Side as TheSide};
ghost use Rattle.stripe_delayed_store.specs.sb_specs_Reading.{is_clean, shape_of};
ghost use Rattle.stripe_delayed_store.specs.stripe_row_Rows.{reading_of, present};
ghost use Rattle.stripe_delayed_store.specs.stripe_row_Writes.{OthersStand};
ghost use Rattle.stripe_delayed_store.specs.raid_parity_Rows.{IsRowOf, sector_of};
ghost use Rattle.stripe_delayed_store.specs.stripe_list_Writing.{AreDataOf};
ghost use Rattle.stripe_delayed_store.specs.array_members_Placed.{IsPlaced};
ghost use Rattle.stripe_delayed_store.specs.crash_safety_laws_Steady.{AreUnlost, IsSafeOver, KeepsSafe, AreGoneTold, AreWritesAllowed};
ghost use Rattle.stripe_delayed_store.specs.array_members_Rebuilding.{AreSparesFree};
ghost use Rattle.stripe_delayed_store.specs.array_members_Moving.{Grows, IsMoved};
ghost use Rattle.stripe_delayed_store.specs.crash_safety_laws_Safety.{HasRoomLeft, IsRisen};
ghost use Rattle.stripe_delayed_store.specs.crash_views_Windows.{IsOfRegion};
ghost use Rattle.stripe_delayed_store.specs.array_members_Lacking.{HaveFailedSince, LacksTooMany, ListStands};
ghost use Rattle.stripe_delayed_store.specs.history_World.{World};
ghost use Rattle.stripe_delayed_store.specs.history_Sound.{OpensFit};
ghost use Rattle.stripe_delayed_store.specs.crash_views_Views.{Ledger, IsTailZero};
ghost use Rattle.stripe_delayed_rows.specs.stripe_cache_Apart.{IsCache};
ghost use Rattle.stripe_delayed_rows.specs.Overlay.{AreDelayed, AreRowsOfSides, IsRowWritten};
ghost use Rattle.stripe_write_back.specs.WrittenOut.{IsRowWrittenOut, AreRowsStanding, one_side};
ghost use Rattle.stripe_write_back.specs.Keeping.{row_of, all_changed, IsRowKept};

use crate::one_row::write_out_row;
use stripe_delayed_rows::{Cache, Kept};
use stripe_delayed_store::{Bank, Members, Shape, Side, Stored, store_delayed, too_many_of};

// Writes a row for which there is no memory, unless too many roles are missing.
fn write_through<B: Bank>(
    members: &mut Members,
    bank: &mut B,
    shape: &Shape,
    row: u64,
    bytes: &[u8],
    changed: u32,
) -> Stored
    requires slots { (B.given bank.old).slots ≤ 32 }
    requires placed { IsPlaced (B.given bank.old) members.old }
    requires unlost { AreUnlost members.old }
    requires free { AreSparesFree (B.given bank.old) members.old }
    requires shape { shape.now ≡ shape_of members.old.newest }
    requires row { row < members.old.newest.size }
    requires whole { IsWhole bytes.now }
    requires size { IsRowOf shape.now.disks bytes.now }
    requires others { B.tells → OthersStand (present (B.given bank.old) (B.tape bank.old)) (reading_of members.old) shape.now row bytes.now changed }
    ensures moved { IsMoved (B.given bank.old) members.old members.new }
    ensures failed { HaveFailedSince members.old members.new result.spares (B.faults_of bank.old) (B.faults_of bank.new) }
    ensures refused { MatchOption result.refusal ⊤ (LacksTooMany shape.now members.new) }
    ensures grows { Grows B.tells (B.tape bank.old) (B.tape bank.new) }
    ensures out { result.refusal ≡ None → B.tells → (side : TheSide) → IsRowWrittenOut shape.now (row_of side row bytes.now changed) members.new (present (B.given bank.old) (B.tape bank.old)) (present (B.given bank.old) (B.tape bank.new)) }
    ensures clean { is_clean members.new.newest ≡ is_clean members.old.newest }
    ensures rise { IsRisen B.tells members.old members.new (B.tape bank.old) (B.tape bank.new) }
    ensures safe { B.tells → (world : World) → (told : Ledger) → HasRoomLeft members.old (B.tape bank.old) (B.tape bank.new)
        → AreGoneTold told members.new → told.unclean ≡ true → is_clean members.old.newest ≡ false → IsOfRegion members.old shape.now (Contains (row ∷ [])) → (list : ℕ → Sector)
        → AreDataOf shape.now list row (sector_of bytes.now) → AreWritesAllowed members.old told.values list
        → (OpensFit world → IsTailZero members.old.newest list) → IsSafeOver world (B.given bank.old) told members.old (B.tape bank.old)
        → KeepsSafe world (B.given bank.old) told members.new (B.tape bank.old) (B.tape bank.new) }
    ensures given { B.given bank.new ≡ B.given bank.old }
    ensures counts { NeverFalls (B.faults_of bank.old) (B.faults_of bank.new) }
{
    let refusal = too_many_of(members, shape);
    if refusal.is_some() {
        return Stored { spares: 0, refusal };
    }
    store_delayed(members, bank, shape, row, bytes, changed)
}

/// Keeps a row that a write changed, in an array of one shape whose rows have this side: `bytes` is the whole row, as the new list has it. The delayed row that
/// has to leave for it is written, or the row itself where memory is short. It is refused where more roles are missing behind that than are tolerated.
pub fn keep_row<B: Bank>(
    members: &mut Members,
    bank: &mut B,
    cache: &mut Cache,
    side: Side,
    shape: &Shape,
    row: u64,
    bytes: &[u8],
    changed: u32,
) -> Stored
    requires slots { (B.given bank.old).slots ≤ 32 }
    requires placed { IsPlaced (B.given bank.old) members.old }
    requires unlost { AreUnlost members.old }
    requires free { AreSparesFree (B.given bank.old) members.old }
    requires shape { shape.now ≡ shape_of members.old.newest }
    requires row { row < members.old.newest.size }
    requires whole { IsWhole bytes.now }
    requires size { IsRowOf shape.now.disks bytes.now }
    requires cache { IsCache cache.old }
    requires rows { AreRowsOfSides (one_side side shape.now) members.old.newest.size cache.old }
    requires standing { B.tells → AreRowsStanding members.old (present (B.given bank.old) (B.tape bank.old)) side cache.old }
    requires own { B.tells → OthersStand (present (B.given bank.old) (B.tape bank.old)) (reading_of members.old) shape.now row bytes.now (all_changed side row changed cache.old) }
    ensures moved { IsMoved (B.given bank.old) members.old members.new }
    ensures failed { HaveFailedSince members.old members.new result.spares (B.faults_of bank.old) (B.faults_of bank.new) }
    ensures refused { MatchOption result.refusal ⊤ (LacksTooMany shape.now members.new) }
    ensures grows { Grows B.tells (B.tape bank.old) (B.tape bank.new) }
    ensures cache { IsCache cache.new }
    ensures rows { AreRowsOfSides (one_side side shape.now) members.old.newest.size cache.new }
    ensures kept { result.refusal ≡ None → B.tells → IsRowKept (one_side side shape.now) (row_of side row bytes.now changed) members.old members.new
        (present (B.given bank.old) (B.tape bank.old)) (present (B.given bank.old) (B.tape bank.new)) cache.old cache.new }
    ensures standing { result.refusal ≡ None → B.tells → AreRowsStanding members.new (present (B.given bank.old) (B.tape bank.new)) side cache.new }
    ensures clean { is_clean members.new.newest ≡ is_clean members.old.newest }
    ensures rise { IsRisen B.tells members.old members.new (B.tape bank.old) (B.tape bank.new) }
    ensures safe { B.tells → (world : World) → (told : Ledger) → HasRoomLeft members.old (B.tape bank.old) (B.tape bank.new)
        → AreGoneTold told members.new → told.unclean ≡ true → is_clean members.old.newest ≡ false → ((r : ℕ) → IsOfRegion members.old shape.now (Contains (r ∷ []))) → (stored list list' : ℕ → Sector)
        → AreDelayed (one_side side shape.now) cache.old stored list → ListStands members.old (present (B.given bank.old) (B.tape bank.old)) stored
        → IsRowWritten (one_side side shape.now) (row_of side row bytes.now changed) list list' → AreWritesAllowed members.old told.values list → AreWritesAllowed members.old told.values list'
        → (OpensFit world → IsTailZero members.old.newest list) → (OpensFit world → IsTailZero members.old.newest list') → IsSafeOver world (B.given bank.old) told members.old (B.tape bank.old)
        → KeepsSafe world (B.given bank.old) told members.new (B.tape bank.old) (B.tape bank.new) }
    ensures given { B.given bank.new ≡ B.given bank.old }
    ensures counts { NeverFalls (B.faults_of bank.old) (B.faults_of bank.new) }
{
    match cache.keep(side, row, bytes, changed) {
        Kept::Here => Stored {
            spares: 0,
            refusal: None,
        },
        Kept::Evicted(gone) => write_out_row(members, bank, shape, &gone),
        Kept::NoMemory => write_through(members, bank, shape, row, bytes, changed),
    }
}
