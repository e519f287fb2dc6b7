//! One row, written with its parity: what of it is changed, and what stands then.

ghost use Rattle.std.specs.Prelude.{◌≡◌, ◌≢◌, ℕ, [], ◌∷◌, Contains};
ghost use Rattle.sb_safe_updates.specs.bank_Tape.{EachMark, disk};
ghost use Rattle.sb_safe_updates.specs.raid_types_Sectors.{Sector};
ghost use Rattle.sb_safe_updates.specs.raid_parity_Rows.{IsRowOf, sector_of};
ghost use Rattle.sb_safe_updates.specs.stripe_row_Rows.{present, reading_of, lost_of, IsRow, IsTolerated};
ghost use Rattle.sb_safe_updates.specs.stripe_row_Writes.{AreApart, OthersStand};
ghost use Rattle.sb_safe_updates.specs.stripe_list_Calls.{AreLost};
ghost use Rattle.sb_safe_updates.specs.stripe_list_Writing.{AreDataOf, IsFull, StaysRebuilt, IsRowKept, IsPutting, AreSuperblocksKept, AreBehind};
ghost use Rattle.stripe_delayed_store.specs.Rows.{DifferWhereChanged};

use sb_safe_updates::{Bank, Members, Shape};
use stripe_row::write_row;

// The set of the slots that a row's call lost.
fn lost_of(answer: Result<u32, u32>) -> u32
    ensures { result ≡ lost_of answer }
{
    match answer {
        Ok(lost) | Err(lost) => lost,
    }
}

/// Writes the changed sectors of a row, and its parity; `bytes` is the whole row, as a list has it. The answer is the set of the slots that were lost.
pub fn store_row<B: Bank>(
    members: &mut Members,
    bank: &mut B,
    shape: &Shape,
    row: u64,
    bytes: &[u8],
    changed: u32,
) -> u32
    requires row { IsRow (B.given bank.old) (reading_of members.old) shape.now row }
    requires apart { AreApart (reading_of members.old) }
    requires behind { AreBehind (reading_of members.old) }
    requires tolerated { IsTolerated (reading_of members.old) shape.now }
    requires size { IsRowOf shape.now.disks bytes.now }
    requires others { B.tells → OthersStand (present (B.given bank.old) (B.tape bank.old)) (reading_of members.old) shape.now row bytes.now changed }
    ensures lost { AreLost shape.now members.old members.new result (B.faults_of bank.old) (B.faults_of bank.new) }
    ensures each_mark { let start = (B.given bank.old).start in (list : ℕ → Sector) → (B.tells → AreDataOf shape.now list row (sector_of bytes.now)) → EachMark B.tells start (B.tape bank.old) (B.tape bank.new)
        (λ e. IsPutting (reading_of members.old) shape.now list (Contains (row ∷ [])) (disk start (B.tape bank.old)) e × AreSuperblocksKept (disk start (B.tape bank.old)) e) }
    ensures full { (list : ℕ → Sector) → B.tells → AreDataOf shape.now list row (sector_of bytes.now)
        → IsFull (reading_of members.new) (present (B.given bank.new) (B.tape bank.new)) shape.now list row }
    ensures rebuilt { (stored list : ℕ → Sector) → B.tells → AreDataOf shape.now list row (sector_of bytes.now) → DifferWhereChanged shape.now row changed stored list
        → StaysRebuilt (reading_of members.new) (present (B.given bank.old) (B.tape bank.old)) (present (B.given bank.new) (B.tape bank.new)) shape.now stored list row }
    ensures others { B.tells → (other : ℕ) → other ≢ row → IsRowKept (reading_of members.old)
        (present (B.given bank.old) (B.tape bank.old)) (present (B.given bank.new) (B.tape bank.new)) other }
    ensures given { B.given bank.new ≡ B.given bank.old }
{
    lost_of(write_row(members, bank, shape, row, bytes, changed))
}
