//! Reads of sectors that one shape places.

ghost use Rattle.std.specs.Prelude.{◌≡◌, ◌⊎◌, ◌+◌, ◌*◌, ◌/◌, ◌^◌, ◌<◌, ◌≤◌, ℕ, length, None, Some, MatchOption, IsTrue, ⊤};
ghost use Rattle.stripe_io.specs.raid_types_Sectors.{Sector, IsWhole};
ghost use Rattle.stripe_io.specs.raid_types_Shapes.{is_multiple, data_disks};
ghost use Rattle.stripe_io.specs.raid_parity_Rows.{sector_of};
ghost use Rattle.stripe_io.specs.sb_specs_Reading.{is_clean};
ghost use Rattle.stripe_io.specs.stripe_row_Rows.{present};
ghost use Rattle.stripe_io.specs.array_members_Placed.{AreWhole, IsInForce};
ghost use Rattle.stripe_io.specs.crash_safety_laws_Steady.{IsSafeOver, KeepsSafe, AreGoneTold, IsUncleanTold};
ghost use Rattle.stripe_io.specs.crash_safety_laws_Marking.{AreOthersPresent};
ghost use Rattle.stripe_io.specs.stripe_list_Buffers.{IsTouched};
ghost use Rattle.stripe_io.specs.array_members_Lacking.{IsUnread, DataStandsAmong, RowsStandAmong};
ghost use Rattle.stripe_io.specs.sb_safe_updates_First.{read_refusal};
ghost use Rattle.stripe_io.specs.history_World.{World};
ghost use Rattle.stripe_io.specs.crash_safety_laws_Safety.{HasRoomLeft};
ghost use Rattle.stripe_io.specs.crash_views_Views.{Ledger};
ghost use Rattle.stripe_io.specs.sb_safe_updates_Frame.{Stands, Keeps};

use stripe_io::fetching::read_parts;
use stripe_io::{Bank, Members, Refusal, Shape, first_read_refusal, record_missing};

/// The spares that were lost in a read, and why it wasn't done.
#[derive(Clone, Copy)]
pub struct Fetched {
    pub spares: u32,
    pub refusal: Option<Refusal>,
}

/// Fills `into` with sectors of the list, from `first` on, which are placed by this shape: each from the slot that holds it, or,
/// in one of the mended rows, filled in from its row; and names the members that are missing.
pub fn read_listed<B: Bank>(
    members: &mut Members,
    bank: &mut B,
    shape: &Shape,
    first: u64,
    into: &mut [u8],
    scratch: &mut [u8],
    mended: u64,
) -> Fetched
    requires stands { Stands (B.given bank.old) members.old }
    requires shape { IsInForce members.old.newest shape.now }
    requires into { IsWhole into.old }
    requires within { first + length into.old / 512 ≤ data_disks shape.now * members.old.newest.size }
    requires short { first + length into.old / 512 ≤ 2 ^ 53 }
    requires scratch { 8192 ≤ length scratch.old }
    requires mended { mended ≤ members.old.newest.size }
    requires stripes { IsTrue (is_multiple mended shape.now.chunk) }
    ensures keeps { Keeps B.tells B.given B.tape B.faults_of bank.old bank.new members.old members.new result.spares }
    ensures refused { MatchOption result.refusal ⊤ (IsUnread shape.now mended first (length into.old / 512) members.new) }
    ensures first { MatchOption result.refusal ⊤ (λ refusal. read_refusal shape.now mended first (length into.old / 512) members.new ≡ Some refusal) }
    ensures others { B.tells → AreOthersPresent (present (B.given bank.old) (B.tape bank.old)) (present (B.given bank.old) (B.tape bank.new)) }
    ensures holds { result.refusal ≡ None → B.tells → (list : ℕ → Sector)
        → DataStandsAmong shape.now (IsTouched shape.now first (length into.old / 512)) members.old (present (B.given bank.old) (B.tape bank.old)) list
        → AreWhole members.new ⊎ RowsStandAmong shape.now (λ row. IsTouched shape.now first (length into.old / 512) row × (row < mended)) members.old (present (B.given bank.old) (B.tape bank.old)) list
        → (i : ℕ) → i < length into.old / 512 → sector_of into.new i ≡ list (first + i) }
    ensures clean { is_clean members.new.newest ≡ is_clean members.old.newest }
    ensures kept { AreWhole members.new → members.new ≡ members.old }
    ensures tape { AreWhole members.new → B.tells → B.tape bank.new ≡ B.tape bank.old }
    ensures safe { B.tells → (world : World) → (told : Ledger) → HasRoomLeft members.old (B.tape bank.old) (B.tape bank.new)
        → AreGoneTold told members.new → IsUncleanTold told members.old → IsSafeOver world (B.given bank.old) told members.old (B.tape bank.old)
        → KeepsSafe world (B.given bank.old) told members.new (B.tape bank.old) (B.tape bank.new) }
{
    let count = (into.len() / 512) as u64;
    let read = read_parts(members, bank, shape, first, into, scratch, mended);
    if read.answer.is_err() {
        let refusal = first_read_refusal(members, shape, first, count, mended);
        return Fetched { spares: 0, refusal };
    }
    let spares = record_missing(members, bank);
    Fetched {
        spares,
        refusal: None,
    }
}
