//! One row that was kept in memory, written, and the members named that were lost in that.

ghost use Rattle.std.specs.Prelude.{◌≡◌, ◌≢◌, ◌<◌, ◌≤◌, ℕ, [], ◌∷◌, true, false, Contains, None, MatchOption, ⊤};
ghost use Rattle.sb_safe_updates.specs.bank_Given.{NeverFalls};
ghost use Rattle.sb_safe_updates.specs.bank_Tape.{disk};
ghost use Rattle.sb_safe_updates.specs.raid_types_Sectors.{Sector};
ghost use Rattle.sb_safe_updates.specs.sb_specs_Reading.{is_clean};
ghost use Rattle.sb_safe_updates.specs.stripe_row_Rows.{reading_of, present};
ghost use Rattle.sb_safe_updates.specs.stripe_row_Writes.{OthersStand};
ghost use Rattle.sb_safe_updates.specs.raid_parity_Rows.{IsRowOf, sector_of};
ghost use Rattle.sb_safe_updates.specs.stripe_list_Writing.{AreDataOf, IsFull, StaysRebuilt};
ghost use Rattle.sb_safe_updates.specs.array_members_Placed.{AreWhole, IsPlaced, IsInForce};
ghost use Rattle.sb_safe_updates.specs.crash_safety_laws_Steady.{AreUnlost, IsSafeOver, KeepsSafe, AreGoneTold, AreWritesAllowed};
ghost use Rattle.sb_safe_updates.specs.array_members_Rebuilding.{AreSparesFree};
ghost use Rattle.sb_safe_updates.specs.array_members_Moving.{Grows, IsMoved};
ghost use Rattle.sb_safe_updates.specs.crash_safety_laws_Safety.{HasRoomLeft, IsRisen};
ghost use Rattle.sb_safe_updates.specs.crash_views_Windows.{IsOfRegion};
ghost use Rattle.sb_safe_updates.specs.array_members_Lacking.{HaveFailedSince, LacksTooMany, DoesWithout, AreOtherRowsKept};
ghost use Rattle.sb_safe_updates.specs.history_World.{World};
ghost use Rattle.sb_safe_updates.specs.history_Sound.{OpensFit};
ghost use Rattle.sb_safe_updates.specs.crash_views_Views.{Ledger, IsTailZero};
ghost use Rattle.stripe_delayed_store.specs.Rows.{DifferWhereChanged};

use crate::row::store_row;
use sb_safe_updates::naming::record_missing;
use sb_safe_updates::refusing::too_many_of;
use sb_safe_updates::{Bank, Members, Refusal, Shape};

/// The spares that were lost, and why the row wasn't written whole.
#[derive(Clone, Copy)]
pub struct Stored {
    pub spares: u32,
    pub refusal: Option<Refusal>,
}

// Writes a row: the sectors of its changed roles, and its parity.
fn store_one<B: Bank>(
    members: &mut Members,
    bank: &mut B,
    shape: &Shape,
    row: u64,
    bytes: &[u8],
    changed: u32,
) -> Option<Refusal>
    requires slots { (B.given bank.old).slots ≤ 32 }
    requires placed { IsPlaced (B.given bank.old) members.old }
    requires unlost { AreUnlost members.old }
    requires shape { IsInForce members.old.newest shape.now }
    requires row { row < members.old.newest.size }
    requires size { IsRowOf shape.now.disks bytes.now }
    requires without { DoesWithout shape.now members.old }
    requires others { B.tells → OthersStand (present (B.given bank.old) (B.tape bank.old)) (reading_of members.old) shape.now row bytes.now changed }
    ensures moved { IsMoved (B.given bank.old) members.old members.new }
    ensures failed { HaveFailedSince members.old members.new 0 (B.faults_of bank.old) (B.faults_of bank.new) }
    ensures refused { MatchOption result (DoesWithout shape.now members.new) (LacksTooMany shape.now members.new) }
    ensures grows { Grows B.tells (B.tape bank.old) (B.tape bank.new) }
    ensures full { (list : ℕ → Sector) → B.tells → AreDataOf shape.now list row (sector_of bytes.now) → IsFull (reading_of members.new) (present (B.given bank.old) (B.tape bank.new)) shape.now list row }
    ensures rebuilt { (stored list : ℕ → Sector) → B.tells → AreDataOf shape.now list row (sector_of bytes.now) → DifferWhereChanged shape.now row changed stored list
        → StaysRebuilt (reading_of members.new) (present (B.given bank.old) (B.tape bank.old)) (present (B.given bank.old) (B.tape bank.new)) shape.now stored list row }
    ensures others { B.tells → AreOtherRowsKept (λ other. other ≡ row) (reading_of members.new) (present (B.given bank.old) (B.tape bank.old)) (present (B.given bank.old) (B.tape bank.new)) }
    ensures clean { is_clean members.new.newest ≡ is_clean members.old.newest }
    ensures rise { IsRisen B.tells members.old members.new (B.tape bank.old) (B.tape bank.new) }
    ensures safe { B.tells → (world : World) → (told : Ledger) → is_clean members.old.newest ≡ false → IsOfRegion members.old shape.now (Contains (row ∷ [])) → (list : ℕ → Sector)
        → AreDataOf shape.now list row (sector_of bytes.now) → AreWritesAllowed members.old told.values list
        → (OpensFit world → IsTailZero members.old.newest list) → IsSafeOver world (B.given bank.old) told members.old (B.tape bank.old)
        → KeepsSafe world (B.given bank.old) told members.new (B.tape bank.old) (B.tape bank.new) }
    ensures given { B.given bank.new ≡ B.given bank.old }
    ensures counts { NeverFalls (B.faults_of bank.old) (B.faults_of bank.new) }
{
    let _lost = store_row(members, bank, shape, row, bytes, changed);
    too_many_of(members, shape)
}

/// Writes a row that was kept in memory: the sectors of its changed roles, and its parity; and names the members that were lost in that. It is refused
/// where more roles of the shape are missing behind the write than it tolerates.
pub fn store_delayed<B: Bank>(
    members: &mut Members,
    bank: &mut B,
    shape: &Shape,
    row: u64,
    bytes: &[u8],
    changed: u32,
) -> Stored
    requires slots { (B.given bank.old).slots ≤ 32 }
    requires placed { IsPlaced (B.given bank.old) members.old }
    requires unlost { AreUnlost members.old }
    requires free { AreSparesFree (B.given bank.old) members.old }
    requires shape { IsInForce members.old.newest shape.now }
    requires row { row < members.old.newest.size }
    requires size { IsRowOf shape.now.disks bytes.now }
    requires without { DoesWithout shape.now members.old }
    requires others { B.tells → OthersStand (present (B.given bank.old) (B.tape bank.old)) (reading_of members.old) shape.now row bytes.now changed }
    ensures moved { IsMoved (B.given bank.old) members.old members.new }
    ensures failed { HaveFailedSince members.old members.new result.spares (B.faults_of bank.old) (B.faults_of bank.new) }
    ensures refused { MatchOption result.refusal ⊤ (LacksTooMany shape.now members.new) }
    ensures grows { Grows B.tells (B.tape bank.old) (B.tape bank.new) }
    ensures full { (list : ℕ → Sector) → B.tells → AreDataOf shape.now list row (sector_of bytes.now) → IsFull (reading_of members.new) (present (B.given bank.old) (B.tape bank.new)) shape.now list row }
    ensures rebuilt { (stored list : ℕ → Sector) → B.tells → AreDataOf shape.now list row (sector_of bytes.now) → DifferWhereChanged shape.now row changed stored list
        → StaysRebuilt (reading_of members.new) (present (B.given bank.old) (B.tape bank.old)) (present (B.given bank.old) (B.tape bank.new)) shape.now stored list row }
    ensures others { B.tells → AreOtherRowsKept (λ other. other ≡ row) (reading_of members.new) (present (B.given bank.old) (B.tape bank.old)) (present (B.given bank.old) (B.tape bank.new)) }
    ensures clean { is_clean members.new.newest ≡ is_clean members.old.newest }
    ensures rise { IsRisen B.tells members.old members.new (B.tape bank.old) (B.tape bank.new) }
    ensures safe { B.tells → (world : World) → (told : Ledger) → HasRoomLeft members.old (B.tape bank.old) (B.tape bank.new)
        → AreGoneTold told members.new → told.unclean ≡ true → is_clean members.old.newest ≡ false → IsOfRegion members.old shape.now (Contains (row ∷ [])) → (list : ℕ → Sector)
        → AreDataOf shape.now list row (sector_of bytes.now) → AreWritesAllowed members.old told.values list
        → (OpensFit world → IsTailZero members.old.newest list) → IsSafeOver world (B.given bank.old) told members.old (B.tape bank.old)
        → KeepsSafe world (B.given bank.old) told members.new (B.tape bank.old) (B.tape bank.new) }
    ensures given { B.given bank.new ≡ B.given bank.old }
    ensures counts { NeverFalls (B.faults_of bank.old) (B.faults_of bank.new) }
{
    let refusal = store_one(members, bank, shape, row, bytes, changed);
    if refusal.is_some() {
        return Stored { spares: 0, refusal };
    }
    let spares = record_missing(members, bank);
    Stored {
        spares,
        refusal: None,
    }
}
