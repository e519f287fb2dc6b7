//! The steps of a rebuild, behind which each role that no slot holds is named.

ghost use Rattle.std.specs.Prelude.{◌≡◌, ◌≤◌, ◌<◌, ℕ, true, false, length, None, vec_capacity, MatchOption, ⊤};
ghost use Rattle.array_fixed_io.specs.bank_Given.{NeverFalls};
ghost use Rattle.array_fixed_io.specs.raid_types_Sectors.{Sector};
ghost use Rattle.array_fixed_io.specs.raid_types_the_Role_TheVariants.{Whole as IsWhole, Recovering as IsRecovering};
ghost use Rattle.array_fixed_io.specs.sb_specs_Reading.{is_reshaping, shape_of, is_clean, role_state, rows_held};
ghost use Rattle.array_fixed_io.specs.sb_specs_Reads.{has_spare};
ghost use Rattle.array_fixed_io.specs.stripe_row_Rows.{reading_of, present};
ghost use Rattle.array_fixed_io.specs.stripe_list_Writing.{HasFull};
ghost use Rattle.array_fixed_io.specs.history_World.{World};
ghost use Rattle.array_fixed_io.specs.history_Sound.{OpensFit};
ghost use Rattle.array_fixed_io.specs.crash_views_Regions.{DoWithout};
ghost use Rattle.array_fixed_io.specs.crash_views_Views.{Ledger};
ghost use Rattle.array_fixed_io.specs.crash_safety_laws_Marking.{AreOthersPresent};
ghost use Rattle.array_fixed_io.specs.crash_safety_laws_Safety.{HasLiveSlot, HasRoomLeft, IsRisen};
ghost use Rattle.array_fixed_io.specs.crash_safety_laws_Steady.{AreUnlost, IsSafeOver, KeepsSafe, AreGoneTold, IsUncleanTold, AreWritesAllowed, given_back};
ghost use Rattle.array_fixed_io.specs.array_members_Lacking.{HaveFailedSince, RowsStand, LacksTooMany, DataStandsAmong, RowsStandAmong, IsOfStripe};
ghost use Rattle.array_fixed_io.specs.array_members_Moving.{Grows, IsMoved};
ghost use Rattle.array_fixed_io.specs.array_members_Placed.{is_unassigned, IsPlaced};
ghost use Rattle.array_fixed_io.specs.array_members_Rebuilding.{AreSparesFree, with_recovering, with_whole, AreRowsFull, IsFilledAmong};
ghost use Rattle.array_fixed_io.specs.array_members_Status.{stripes_of};
ghost use Rattle.array_fixed_io.specs.sb_safe_updates_Named.{AreNamedMissing};

use array_fixed_io::{
    Bank, Filled, Members, Shape, fill, flush_and_record, give_role, is_unassigned, record_missing,
};

// Gives a role that no slot holds to a spare, which has nothing of it yet, and names the roles that no slot holds. The other spares
// that were lost in this.
pub(crate) fn give_and_name<B: Bank>(
    members: &mut Members,
    bank: &mut B,
    role: u32,
    slot: u32,
) -> u32
    requires slots { (B.given bank.old).slots ≤ 32 }
    requires placed { IsPlaced (B.given bank.old) members.old }
    requires unlost { AreUnlost members.old }
    requires free { AreSparesFree (B.given bank.old) members.old }
    requires still { is_reshaping members.old.newest ≡ false }
    requires role { role < (shape_of members.old.newest).disks }
    requires vacant { is_unassigned (reading_of members.old) role ≡ true }
    requires spare { has_spare members.old.spares slot ≡ true }
    ensures moved { IsMoved (B.given bank.old) (with_recovering role slot members.old) members.new }
    ensures failed { HaveFailedSince (with_recovering role slot members.old) members.new result (B.faults_of bank.old) (B.faults_of bank.new) }
    ensures grows { Grows B.tells (B.tape bank.old) (B.tape bank.new) }
    ensures others { B.tells → AreOthersPresent (present (B.given bank.old) (B.tape bank.old)) (present (B.given bank.old) (B.tape bank.new)) }
    ensures clean { is_clean members.new.newest ≡ is_clean members.old.newest }
    ensures missing { HasLiveSlot members.new → AreNamedMissing members.new }
    ensures rise { IsRisen B.tells members.old members.new (B.tape bank.old) (B.tape bank.new) }
    ensures safe { B.tells → (world : World) → (told : Ledger) → HasRoomLeft members.old (B.tape bank.old) (B.tape bank.new)
        → AreGoneTold told members.new → told.gone role ≡ true → IsUncleanTold told members.old → IsSafeOver world (B.given bank.old) told members.old (B.tape bank.old)
        → KeepsSafe world (B.given bank.old) told members.new (B.tape bank.old) (B.tape bank.new) }
    ensures given { B.given bank.new ≡ B.given bank.old }
    ensures counts { NeverFalls (B.faults_of bank.old) (B.faults_of bank.new) }
{
    let spares = give_role(members, bank, role, slot);
    let others = record_missing(members, bank);
    spares | others
}

// Flushes the slot that recovers a role, which has every row of it, and records the role whole; where the slot fails, it is lost.
// Names the roles that no slot holds. The spares that were lost in this.
pub(crate) fn record_and_name<B: Bank>(
    members: &mut Members,
    bank: &mut B,
    role: u32,
    slot: u32,
) -> u32
    requires slots { (B.given bank.old).slots ≤ 32 }
    requires placed { IsPlaced (B.given bank.old) members.old }
    requires unlost { AreUnlost members.old }
    requires free { AreSparesFree (B.given bank.old) members.old }
    requires few { length members.old.spares ≤ 32 }
    requires still { is_reshaping members.old.newest ≡ false }
    requires role { role < (shape_of members.old.newest).disks }
    requires recovering { role_state (reading_of members.old) role ≡ IsRecovering slot }
    ensures moved { IsMoved (B.given bank.old) (with_whole role slot members.old) members.new }
    ensures failed { HaveFailedSince (with_whole role slot members.old) members.new result (B.faults_of bank.old) (B.faults_of bank.new) }
    ensures grows { Grows B.tells (B.tape bank.old) (B.tape bank.new) }
    ensures others { B.tells → AreOthersPresent (present (B.given bank.old) (B.tape bank.old)) (present (B.given bank.old) (B.tape bank.new)) }
    ensures clean { is_clean members.new.newest ≡ is_clean members.old.newest }
    ensures missing { HasLiveSlot members.new → AreNamedMissing members.new }
    ensures rise { IsRisen B.tells members.old members.new (B.tape bank.old) (B.tape bank.new) }
    ensures safe { B.tells → (world : World) → (told : Ledger) → HasRoomLeft members.old (B.tape bank.old) (B.tape bank.new)
        → AreGoneTold told members.new → told.gone role ≡ true → IsUncleanTold told members.old → OpensFit world → DoWithout members.old → (list : ℕ → Sector)
        → RowsStand members.old (present (B.given bank.old) (B.tape bank.old)) list → AreWritesAllowed members.old told.values list
        → AreRowsFull members.old role slot list (present (B.given bank.old) (B.tape bank.old)) → IsSafeOver world (B.given bank.old) told members.old (B.tape bank.old)
        → KeepsSafe world (B.given bank.old) told members.new (B.tape bank.old) (B.tape bank.new) }
    ensures given_back { role_state (reading_of members.new) role ≡ IsWhole slot → B.tells → (world : World) → (told : Ledger) → HasRoomLeft members.old (B.tape bank.old) (B.tape bank.new)
        → AreGoneTold told members.new → told.gone role ≡ true → IsUncleanTold told members.old → OpensFit world → DoWithout members.old → (list : ℕ → Sector)
        → RowsStand members.old (present (B.given bank.old) (B.tape bank.old)) list → AreWritesAllowed members.old told.values list
        → AreRowsFull members.old role slot list (present (B.given bank.old) (B.tape bank.old)) → IsSafeOver world (B.given bank.old) told members.old (B.tape bank.old)
        → IsSafeOver world (B.given bank.old) (given_back role told) members.new (B.tape bank.new) }
    ensures given { B.given bank.new ≡ B.given bank.old }
    ensures counts { NeverFalls (B.faults_of bank.old) (B.faults_of bank.new) }
{
    let spares = flush_and_record(members, bank, role, slot);
    let others = record_missing(members, bank);
    spares | others
}

// Rebuilds a stripe of a role on the slot that recovers it; where that slot is lost, names the roles that no slot holds. It ends where
// more are missing than the array can do without.
pub(crate) fn fill_and_name<B: Bank>(
    members: &mut Members,
    bank: &mut B,
    shape: &Shape,
    role: u32,
    slot: u32,
    stripe: u64,
    rows: &mut Vec<u64>,
    buffer: &mut Vec<u8>,
) -> Filled
    requires slots { (B.given bank.old).slots ≤ 32 }
    requires placed { IsPlaced (B.given bank.old) members.old }
    requires unlost { AreUnlost members.old }
    requires free { AreSparesFree (B.given bank.old) members.old }
    requires still { is_reshaping members.old.newest ≡ false }
    requires shape { shape.now ≡ shape_of members.old.newest }
    requires role { role < shape.now.disks }
    requires recovering { role_state (reading_of members.old) role ≡ IsRecovering slot }
    requires stripe { stripe < stripes_of members.old }
    requires rows { 128 ≤ vec_capacity rows.old }
    requires buffer { 1048576 ≤ length buffer.old.items }
    ensures moved { IsMoved (B.given bank.old) members.old members.new }
    ensures failed { HaveFailedSince members.old members.new result.spares (B.faults_of bank.old) (B.faults_of bank.new) }
    ensures refused { MatchOption result.refusal ⊤ (LacksTooMany shape.now members.new) }
    ensures grows { Grows B.tells (B.tape bank.old) (B.tape bank.new) }
    ensures clean { is_clean members.new.newest ≡ is_clean members.old.newest }
    ensures missing { result.refusal ≡ None → is_unassigned (reading_of members.new) role ≡ true → HasLiveSlot members.new → AreNamedMissing members.new }
    ensures filled { result.refusal ≡ None → role_state (reading_of members.new) role ≡ IsRecovering slot → B.tells → (list : ℕ → Sector)
        → DataStandsAmong shape.now (IsOfStripe shape.now stripe) members.old (present (B.given bank.old) (B.tape bank.old)) list → RowsStandAmong shape.now (IsOfStripe shape.now stripe) members.old (present (B.given bank.old) (B.tape bank.old)) list
        → (row : ℕ) → IsOfStripe shape.now stripe row → rows_held (reading_of members.old) (IsRecovering slot) ≤ row
        → HasFull (reading_of members.new) (present (B.given bank.old) (B.tape bank.new)) shape.now list row role slot }
    ensures others { B.tells → IsFilledAmong members.old role slot (IsOfStripe shape.now stripe) (present (B.given bank.old) (B.tape bank.old)) (present (B.given bank.old) (B.tape bank.new)) }
    ensures rise { IsRisen B.tells members.old members.new (B.tape bank.old) (B.tape bank.new) }
    ensures safe { B.tells → (world : World) → (told : Ledger) → HasRoomLeft members.old (B.tape bank.old) (B.tape bank.new)
        → AreGoneTold told members.new → IsUncleanTold told members.old → IsSafeOver world (B.given bank.old) told members.old (B.tape bank.old)
        → KeepsSafe world (B.given bank.old) told members.new (B.tape bank.old) (B.tape bank.new) }
    ensures given { B.given bank.new ≡ B.given bank.old }
    ensures counts { NeverFalls (B.faults_of bank.old) (B.faults_of bank.new) }
    ensures rows { vec_capacity rows.old ≤ vec_capacity rows.new }
    ensures buffer { length buffer.new.items ≡ length buffer.old.items }
{
    let filled = fill(members, bank, shape, role, slot, stripe, rows, buffer);
    if filled.refusal.is_some() | !is_unassigned(members, role) {
        return filled;
    }
    let others = record_missing(members, bank);
    Filled {
        spares: filled.spares | others,
        refusal: None,
    }
}
