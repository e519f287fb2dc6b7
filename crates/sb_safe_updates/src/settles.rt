//! A flush of the members, and the clean mark behind it.

ghost use Rattle.std.specs.Prelude.{◌≡◌, ◌<◌, ℕ, length, true, false, Some, None, MatchOption, ⊤};
ghost use Rattle.sb_update.specs.bank_Tape.{disk};
ghost use Rattle.raid_layout.specs.raid_types_Sectors.{Sector};
ghost use Rattle.sb_update.specs.sb_specs_Reading.{is_clean, role_count, role_state, holder};
ghost use Rattle.array_members.specs.stripe_row_Rows.{reading_of, present};
ghost use Rattle.array_members.specs.Placed.{AreWhole};
ghost use Rattle.array_members.specs.crash_safety_laws_Steady.{IsSafeOver, IsNamedOver, KeepsSafe, AreGoneTold, IsUncleanTold, AreWritesAllowed, settled_ledger};
ghost use Rattle.array_members.specs.crash_safety_laws_Marking.{AreOthersPresent};
ghost use Rattle.sb_safe_updates.specs.Named.{AreNamedMissing};
ghost use Rattle.array_members.specs.crash_safety_laws_Safety.{HasLiveSlot, HasRoomLeft};
ghost use Rattle.array_members.specs.Lacking.{AreHoldersFlushed, AreTooMany};
ghost use Rattle.array_members.specs.Under.{StandsUnder, RowsStandUnder, IsRestKept};
ghost use Rattle.array_members.specs.history_World.{World};
ghost use Rattle.array_members.specs.history_Sound.{OpensFit};
ghost use Rattle.array_members.specs.crash_views_Views.{Ledger};
ghost use Rattle.array_members.specs.crash_views_Regions.{DoWithout};
ghost use Rattle.sb_update.specs.sb_specs_Verdict.{AreValidShapes};
ghost use Rattle.sb_safe_updates.specs.Frame.{Stands, Keeps};

use crate::flushes::{flush_members, holders};
use crate::naming::{mark_all, record_missing};
use crate::refusing::too_many;
use array_members::lose_slots;
use raid_layout::Refusal;
use sb_update::{Bank, Members, is_clean};

/// The spares that were lost in a flush, and why it wasn't done.
#[derive(Clone, Copy)]
pub struct Settled {
    pub spares: u32,
    pub refusal: Option<Refusal>,
}

/// Flushes the members, and names the roles that no slot holds, where they aren't yet. The spares that were lost in this.
pub fn flush_naming<B: Bank>(members: &mut Members, bank: &mut B) -> u32
    requires stands { Stands (B.given bank.old) members.old }
    ensures keeps { Keeps B.tells B.given B.tape B.faults_of bank.old bank.new members.old members.new result }
    ensures others { B.tells → AreOthersPresent (present (B.given bank.old) (B.tape bank.old)) (present (B.given bank.old) (B.tape bank.new)) }
    ensures flushed { B.tells → AreHoldersFlushed (reading_of members.new) (B.given bank.old) (B.tape bank.new) }
    ensures clean { is_clean members.new.newest ≡ is_clean members.old.newest }
    ensures rest { B.tells → IsRestKept members.old (disk (B.given bank.old).start (B.tape bank.old)) (disk (B.given bank.old).start (B.tape bank.new)) }
    ensures kept { AreWhole members.new → members.new ≡ members.old }
    ensures missing { HasLiveSlot members.new → AreNamedMissing members.new }
    ensures safe { B.tells → (world : World) → (told : Ledger) → HasRoomLeft members.old (B.tape bank.old) (B.tape bank.new)
        → AreGoneTold told members.new → IsUncleanTold told members.old → IsSafeOver world (B.given bank.old) told members.old (B.tape bank.old)
        → KeepsSafe world (B.given bank.old) told members.new (B.tape bank.old) (B.tape bank.new) }
    ensures named { B.tells → (world : World) → (told : Ledger) → HasRoomLeft members.old (B.tape bank.old) (B.tape bank.new)
        → AreGoneTold told members.new → IsUncleanTold told members.old → IsSafeOver world (B.given bank.old) told members.old (B.tape bank.old)
        → HasLiveSlot members.new → IsNamedOver world (B.given bank.old) told members.new (B.tape bank.new) }
{
    let failed = flush_members(members, bank);
    lose_slots(members, failed);
    record_missing(members, bank)
}

// The refusal where no member is left on which a mark could stand.
fn unmarked(members: &Members) -> Option<Refusal>
    requires shapes { AreValidShapes members.now.newest }
    requires roles { length members.now.roles ≡ role_count members.now.newest }
    requires small { (role slot : ℕ) → holder (role_state (reading_of members.now) role) ≡ Some slot → slot < 32 }
    ensures refused { MatchOption result ⊤ (AreTooMany members.now) }
    ensures left { result ≡ None → (role : ℕ) × (slot : ℕ) × (holder (role_state (reading_of members.now) role) ≡ Some slot) }
{
    if holders(members) == 0 {
        return too_many(members);
    }
    None
}

/// Flushes the members, names those that are missing, and marks a dirty array clean, but for one whose resync is pending. It
/// ends before the mark where more are missing than the array can do without, and is refused too where the mark is left on
/// no member.
pub fn flush_and_mark<B: Bank>(members: &mut Members, bank: &mut B, unsynced: bool) -> Settled
    requires stands { Stands (B.given bank.old) members.old }
    ensures keeps { Keeps B.tells B.given B.tape B.faults_of bank.old bank.new members.old members.new result.spares }
    ensures refused { MatchOption result.refusal ⊤ (AreTooMany members.new) }
    ensures others { B.tells → AreOthersPresent (present (B.given bank.old) (B.tape bank.old)) (present (B.given bank.old) (B.tape bank.new)) }
    ensures flushed { B.tells → AreHoldersFlushed (reading_of members.new) (B.given bank.old) (B.tape bank.new) }
    ensures clean { result.refusal ≡ None → unsynced ≡ false → is_clean members.new.newest ≡ true }
    ensures stays { unsynced ≡ true → is_clean members.new.newest ≡ is_clean members.old.newest }
    ensures safe { B.tells → (world : World) → (told : Ledger) → HasRoomLeft members.old (B.tape bank.old) (B.tape bank.new)
        → AreGoneTold told members.new → IsUncleanTold told members.old → (list : ℕ → Sector) → (DoWithout members.old → StandsUnder world.scope members.old (present (B.given bank.old) (B.tape bank.old)) (disk (B.given bank.old).start (B.tape bank.old)) list)
        → (unsynced ≡ false → DoWithout members.old → OpensFit world → RowsStandUnder world.scope members.old (present (B.given bank.old) (B.tape bank.old)) (disk (B.given bank.old).start (B.tape bank.old)) list)
        → AreWritesAllowed members.old told.values list → IsSafeOver world (B.given bank.old) told members.old (B.tape bank.old)
        → KeepsSafe world (B.given bank.old) told members.new (B.tape bank.old) (B.tape bank.new) }
    ensures settled { result.refusal ≡ None → B.tells → (world : World) → (told : Ledger) → HasRoomLeft members.old (B.tape bank.old) (B.tape bank.new)
        → AreGoneTold told members.new → IsUncleanTold told members.old → (DoWithout members.old → unsynced ≡ true → is_clean members.old.newest ≡ false) → (list : ℕ → Sector) → (DoWithout members.old → StandsUnder world.scope members.old (present (B.given bank.old) (B.tape bank.old)) (disk (B.given bank.old).start (B.tape bank.old)) list)
        → (unsynced ≡ false → DoWithout members.old → OpensFit world → RowsStandUnder world.scope members.old (present (B.given bank.old) (B.tape bank.old)) (disk (B.given bank.old).start (B.tape bank.old)) list)
        → AreWritesAllowed members.old told.values list → IsSafeOver world (B.given bank.old) told members.old (B.tape bank.old)
        → IsSafeOver world (B.given bank.old) (settled_ledger unsynced list told) members.new (B.tape bank.new) }
{
    let named = flush_naming(members, bank);
    let refusal = too_many(members);
    if refusal.is_some() | unsynced | is_clean(&members.newest) {
        return Settled {
            spares: named,
            refusal,
        };
    }
    let marked = mark_all(members, bank, true);
    Settled {
        spares: named | marked,
        refusal: unmarked(members),
    }
}
