//! One row that was taken out of the cache, written.

ghost use Rattle.std.specs.Prelude.{◌≡◌, ◌≢◌, ◌<◌, ◌≤◌, ℕ, List, [], ◌∷◌, length, true, false, Contains, None, MatchOption, ⊤};
ghost use Rattle.stripe_delayed_store.specs.bank_Given.{NeverFalls};
ghost use Rattle.stripe_delayed_store.specs.raid_types_Sectors.{Sector};
ghost use Rattle.stripe_delayed_store.specs.sb_specs_Reading.{is_clean, shape_of};
ghost use Rattle.stripe_delayed_store.specs.stripe_row_Rows.{reading_of, present};
ghost use Rattle.stripe_delayed_store.specs.stripe_row_Writes.{OthersStand};
ghost use Rattle.stripe_delayed_store.specs.raid_parity_Rows.{sector_of};
ghost use Rattle.stripe_delayed_store.specs.stripe_list_Writing.{AreDataOf};
ghost use Rattle.stripe_delayed_store.specs.array_members_Placed.{IsPlaced};
ghost use Rattle.stripe_delayed_store.specs.crash_safety_laws_Steady.{AreUnlost, IsSafeOver, KeepsSafe, AreGoneTold, AreWritesAllowed};
ghost use Rattle.stripe_delayed_store.specs.array_members_Rebuilding.{AreSparesFree};
ghost use Rattle.stripe_delayed_store.specs.array_members_Moving.{Grows, IsMoved};
ghost use Rattle.stripe_delayed_store.specs.crash_safety_laws_Safety.{HasRoomLeft, IsRisen};
ghost use Rattle.stripe_delayed_store.specs.crash_views_Windows.{IsOfRegion};
ghost use Rattle.stripe_delayed_store.specs.array_members_Lacking.{HaveFailedSince, LacksTooMany};
ghost use Rattle.stripe_delayed_store.specs.history_World.{World};
ghost use Rattle.stripe_delayed_store.specs.history_Sound.{OpensFit};
ghost use Rattle.stripe_delayed_store.specs.crash_views_Views.{Ledger, IsTailZero};
ghost use Rattle.stripe_write_back.specs.WrittenOut.{AreBytesOf, IsRowWrittenOut};

use stripe_delayed_rows::Cached;
use stripe_delayed_store::{Bank, Members, Shape, Stored, store_delayed, too_many_of};

/// Writes a row that was taken out of the cache, unless too many roles are missing.
pub fn write_out_row<B: Bank>(
    members: &mut Members,
    bank: &mut B,
    shape: &Shape,
    row: &Cached,
) -> Stored
    requires slots { (B.given bank.old).slots ≤ 32 }
    requires placed { IsPlaced (B.given bank.old) members.old }
    requires unlost { AreUnlost members.old }
    requires free { AreSparesFree (B.given bank.old) members.old }
    requires shape { shape.now ≡ shape_of members.old.newest }
    requires row { row.now.row < members.old.newest.size }
    requires size { length row.now.body ≡ shape.now.disks }
    requires others { B.tells → (bytes : List ℕ) → AreBytesOf row.now bytes → OthersStand (present (B.given bank.old) (B.tape bank.old)) (reading_of members.old) shape.now row.now.row bytes row.now.changed }
    ensures moved { IsMoved (B.given bank.old) members.old members.new }
    ensures failed { HaveFailedSince members.old members.new result.spares (B.faults_of bank.old) (B.faults_of bank.new) }
    ensures refused { MatchOption result.refusal ⊤ (LacksTooMany shape.now members.new) }
    ensures grows { Grows B.tells (B.tape bank.old) (B.tape bank.new) }
    ensures out { result.refusal ≡ None → B.tells → IsRowWrittenOut shape.now row.now members.new (present (B.given bank.old) (B.tape bank.old)) (present (B.given bank.old) (B.tape bank.new)) }
    ensures clean { is_clean members.new.newest ≡ is_clean members.old.newest }
    ensures rise { IsRisen B.tells members.old members.new (B.tape bank.old) (B.tape bank.new) }
    ensures safe { B.tells → (world : World) → (told : Ledger) → HasRoomLeft members.old (B.tape bank.old) (B.tape bank.new)
        → AreGoneTold told members.new → told.unclean ≡ true → is_clean members.old.newest ≡ false → IsOfRegion members.old shape.now (Contains (row.now.row ∷ [])) → (list : ℕ → Sector)
        → ((bytes : List ℕ) → AreBytesOf row.now bytes → AreDataOf shape.now list row.now.row (sector_of bytes)) → AreWritesAllowed members.old told.values list
        → (OpensFit world → IsTailZero members.old.newest list) → IsSafeOver world (B.given bank.old) told members.old (B.tape bank.old)
        → KeepsSafe world (B.given bank.old) told members.new (B.tape bank.old) (B.tape bank.new) }
    ensures given { B.given bank.new ≡ B.given bank.old }
    ensures counts { NeverFalls (B.faults_of bank.old) (B.faults_of bank.new) }
{
    let refusal = too_many_of(members, shape);
    if refusal.is_some() {
        return Stored { spares: 0, refusal };
    }
    store_delayed(
        members,
        bank,
        shape,
        row.row,
        row.body.as_bytes(),
        row.changed,
    )
}
