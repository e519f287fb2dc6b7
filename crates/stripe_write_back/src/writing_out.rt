//! Delayed rows of an array, written out: all of them, or those within some rows.

ghost use Rattle.std.specs.Prelude.{◌≡◌, ◌≢◌, ◌<◌, ◌≤◌, ℕ, List, [], ◌∷◌, length, true, false, Contains, None, MatchOption, ⊤};
ghost use Rattle.stripe_delayed_store.specs.bank_Given.{NeverFalls};
ghost use Rattle.stripe_delayed_store.specs.raid_types_Sectors.{Sector};
ghost use Rattle.stripe_delayed_store.specs.sb_specs_Reading.{is_clean, shape_of};
ghost use Rattle.stripe_delayed_store.specs.stripe_row_Rows.{reading_of, present};
ghost use Rattle.stripe_delayed_store.specs.stripe_row_Writes.{OthersStand};
ghost use Rattle.stripe_delayed_store.specs.raid_parity_Rows.{sector_of};
ghost use Rattle.stripe_delayed_store.specs.stripe_list_Writing.{AreDataOf, IsFull, StaysRebuilt};
ghost use Rattle.stripe_delayed_store.specs.array_members_Placed.{IsPlaced};
ghost use Rattle.stripe_delayed_store.specs.crash_safety_laws_Steady.{AreUnlost, IsSafeOver, KeepsSafe, AreGoneTold, AreWritesAllowed};
ghost use Rattle.stripe_delayed_store.specs.array_members_Rebuilding.{AreSparesFree};
ghost use Rattle.stripe_delayed_store.specs.array_members_Moving.{Grows, IsMoved};
ghost use Rattle.stripe_delayed_store.specs.crash_safety_laws_Safety.{HasRoomLeft, IsRisen};
ghost use Rattle.stripe_delayed_store.specs.crash_views_Windows.{IsOfRegion};
ghost use Rattle.stripe_delayed_store.specs.array_members_Lacking.{HaveFailedSince, LacksTooMany, ListStands, AreOtherRowsKept};
ghost use Rattle.stripe_delayed_store.specs.history_World.{World};
ghost use Rattle.stripe_delayed_store.specs.history_Sound.{OpensFit};
ghost use Rattle.stripe_delayed_store.specs.crash_views_Views.{Ledger, IsTailZero};
ghost use Rattle.stripe_delayed_rows.specs.stripe_cache_Apart.{IsCache};
ghost use Rattle.stripe_delayed_rows.specs.Overlay.{AreDelayed, AreRowsOfSides};
ghost use Rattle.stripe_delayed_rows.specs.stripe_cache_Rows.{is_meant};
ghost use Rattle.std.specs.List.{find};
ghost use Rattle.stripe_delayed_store.specs.Rows.{DifferWhereChanged};
ghost use Rattle.stripe_write_back.specs.WrittenOut.{IsWrittenOut, AreRowsStanding, one_side};

use crate::one_row::write_out_row;
use stripe_delayed_rows::{Cache, Delayed};
use stripe_delayed_store::{Bank, Members, Shape, Side, Stored};

/// Writes out delayed rows of an array of one shape, whose rows have this side: all, or those that are meant. It ends where more roles are missing than are tolerated.
pub fn write_out<B: Bank>(
    members: &mut Members,
    bank: &mut B,
    cache: &mut Cache,
    which: Delayed,
    side: Side,
    shape: &Shape,
) -> Stored
    requires slots { (B.given bank.old).slots ≤ 32 }
    requires placed { IsPlaced (B.given bank.old) members.old }
    requires unlost { AreUnlost members.old }
    requires free { AreSparesFree (B.given bank.old) members.old }
    requires shape { shape.now ≡ shape_of members.old.newest }
    requires cache { IsCache cache.old }
    requires rows { AreRowsOfSides (one_side side shape.now) members.old.newest.size cache.old }
    requires standing { B.tells → AreRowsStanding members.old (present (B.given bank.old) (B.tape bank.old)) side cache.old }
    ensures moved { IsMoved (B.given bank.old) members.old members.new }
    ensures failed { HaveFailedSince members.old members.new result.spares (B.faults_of bank.old) (B.faults_of bank.new) }
    ensures refused { MatchOption result.refusal ⊤ (LacksTooMany shape.now members.new) }
    ensures grows { Grows B.tells (B.tape bank.old) (B.tape bank.new) }
    ensures none { result.refusal ≡ None → find (is_meant which) cache.new.held ≡ None }
    ensures cache { IsCache cache.new }
    ensures rows { AreRowsOfSides (one_side side shape.now) members.old.newest.size cache.new }
    ensures out { result.refusal ≡ None → B.tells → IsWrittenOut (one_side side shape.now) members.old members.new (present (B.given bank.old) (B.tape bank.old)) (present (B.given bank.old) (B.tape bank.new)) cache.old cache.new }
    ensures standing { result.refusal ≡ None → B.tells → AreRowsStanding members.new (present (B.given bank.old) (B.tape bank.new)) side cache.new }
    ensures clean { is_clean members.new.newest ≡ is_clean members.old.newest }
    ensures rise { IsRisen B.tells members.old members.new (B.tape bank.old) (B.tape bank.new) }
    ensures safe { B.tells → (world : World) → (told : Ledger) → HasRoomLeft members.old (B.tape bank.old) (B.tape bank.new)
        → AreGoneTold told members.new → told.unclean ≡ true → is_clean members.old.newest ≡ false → ((row : ℕ) → IsOfRegion members.old shape.now (Contains (row ∷ []))) → (stored list : ℕ → Sector)
        → AreDelayed (one_side side shape.now) cache.old stored list → ListStands members.old (present (B.given bank.old) (B.tape bank.old)) stored → AreWritesAllowed members.old told.values list
        → (OpensFit world → IsTailZero members.old.newest list) → IsSafeOver world (B.given bank.old) told members.old (B.tape bank.old)
        → KeepsSafe world (B.given bank.old) told members.new (B.tape bank.old) (B.tape bank.new) }
    ensures given { B.given bank.new ≡ B.given bank.old }
    ensures counts { NeverFalls (B.faults_of bank.old) (B.faults_of bank.new) }
{
    let mut spares = 0;
    while let Some(row) = cache.take(which) {
        let one = write_out_row(members, bank, shape, &row);
        spares |= one.spares;
        if one.refusal.is_some() {
            return Stored {
                spares,
                refusal: one.refusal,
            };
        }
    }
    Stored {
        spares,
        refusal: None,
    }
}
