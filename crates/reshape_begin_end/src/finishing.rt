//! A reshape ends.

ghost use Rattle.std.specs.Prelude.{◌≡◌, ◌≤◌, ℕ, true, length, Some, None, MatchOption};
ghost use Rattle.sb_safe_updates.specs.bank_Tape.{disk};
ghost use Rattle.sb_safe_updates.specs.raid_types_Sectors.{Sector};
ghost use Rattle.sb_safe_updates.specs.raid_types_Shapes.{has_slot};
ghost use Rattle.sb_safe_updates.specs.sb_specs_Reading.{is_clean, is_reshaping, role_state, holder, data_offset_of};
ghost use Rattle.sb_safe_updates.specs.stripe_row_Rows.{present, reading_of};
ghost use Rattle.sb_safe_updates.specs.history_World.{World};
ghost use Rattle.sb_safe_updates.specs.history_Sound.{OpensFit};
ghost use Rattle.sb_safe_updates.specs.crash_views_Regions.{ArePlaced};
ghost use Rattle.sb_safe_updates.specs.crash_views_Views.{Ledger};
ghost use Rattle.sb_safe_updates.specs.crash_safety_laws_Marking.{AreOthersPresent};
ghost use Rattle.sb_safe_updates.specs.crash_safety_laws_Safety.{HasLiveSlot, HasRoomLeft, IsRisen};
ghost use Rattle.sb_safe_updates.specs.crash_safety_laws_Steady.{AreUnlost, IsSafeOver, KeepsSafe, AreGoneTold, IsUncleanTold};
ghost use Rattle.sb_safe_updates.specs.crash_safety_laws_Changing.{IsSafeChange};
ghost use Rattle.sb_safe_updates.specs.crash_safety_laws_Updates.{IsAtEnd};
ghost use Rattle.reshape_sb_updates.specs.crash_reshape_laws_Plans.{HasNoneRecovering};
ghost use Rattle.sb_safe_updates.specs.array_members_Placed.{IsPlaced};
ghost use Rattle.sb_safe_updates.specs.array_members_Moving.{IsMoved};
ghost use Rattle.sb_safe_updates.specs.array_members_Lacking.{AreTooMany, AreHoldersFlushed};
ghost use Rattle.sb_safe_updates.specs.array_members_Rebuilding.{AreSparesFree};
ghost use Rattle.sb_safe_updates.specs.Named.{AreNamedMissing};
ghost use Rattle.sb_safe_updates.specs.Unused.{IsUnusedKept};
ghost use Rattle.reshape_begin_end.specs.Finished.{IsOver, IsEndedBehind, AreLostInEnd, IsFinishable};
ghost use Rattle.sb_safe_updates.specs.Frame.{Stands, GoesOn};

use crate::beginning::{check_counts, check_entries};
use reshape_sb_updates::end_update;
use sb_safe_updates::naming::newly_unassigned;
use sb_safe_updates::refusing::too_many;
use sb_safe_updates::roles::unassigned_roles;
use sb_safe_updates::settles::flush_naming;
use sb_safe_updates::{Bank, Lostness, Members, Refusal};

/// What was lost as a reshape ended: the roles and the spares in the flush, the slots in the update that ends it. And why it
/// didn't end.
#[derive(Clone, Copy)]
pub struct Finished {
    pub roles: u32,
    pub spares: u32,
    pub lost: Lostness,
    pub refusal: Option<Refusal>,
}

// How many roles the array has.
fn count_roles(members: &Members) -> u32
    requires { length members.now.roles ≤ 16 }
    ensures { result ≡ length members.now.roles }
{
    members.roles.len() as u32
}

/// Ends a reshape that has gone through the list: flushes each slot that holds a role, names those that are missing, and records
/// the new shape alone in the superblocks of all live slots, of which those become spares whose roles it hasn't. No slot may be
/// recovering. Refused `TooManyMissing` where a shape in force misses more than it tolerates once they are flushed and named; then
/// the reshape goes on.
pub fn finish<B: Bank>(members: &mut Members, bank: &mut B) -> Finished
    requires stands { Stands (B.given bank.old) members.old }
    requires active { is_reshaping members.old.newest ≡ true }
    requires last { IsAtEnd members.old.newest }
    requires whole { HasNoneRecovering members.old }
    ensures answer { MatchOption result.refusal (IsOver members.old.newest members.new.newest) (AreTooMany members.new) }
    ensures refused { (why : Refusal) → result.refusal ≡ Some why → (result.lost ≡ 0) × IsMoved (B.given bank.old) members.old members.new }
    ensures untouched { (why : Refusal) → result.refusal ≡ Some why → (is_clean members.new.newest ≡ is_clean members.old.newest)
        × (B.tells → IsUnusedKept members.old (disk (B.given bank.old).start (B.tape bank.old)) (disk (B.given bank.old).start (B.tape bank.new))) }
    ensures ended { result.refusal ≡ None → IsEndedBehind B.tells (B.given bank.old) result.roles members.old members.new (B.tape bank.old) (B.tape bank.new) }
    ensures placed { IsPlaced (B.given bank.old) members.new }
    ensures unlost { AreUnlost members.new }
    ensures free { AreSparesFree (B.given bank.old) members.new }
    ensures states { (role slot : ℕ) → holder (role_state (reading_of members.new) role) ≡ Some slot → role_state (reading_of members.new) role ≡ role_state (reading_of members.old) role }
    ensures offsets { (slot : ℕ) → data_offset_of (reading_of members.new) slot ≡ data_offset_of (reading_of members.old) slot }
    ensures flushed { B.tells → AreHoldersFlushed (reading_of members.new) (B.given bank.old) (B.tape bank.new) }
    ensures others { B.tells → AreOthersPresent (present (B.given bank.old) (B.tape bank.old)) (present (B.given bank.old) (B.tape bank.new)) }
    ensures named { HasLiveSlot members.new → AreNamedMissing members.new }
    ensures bank { GoesOn B.tells B.given B.tape B.faults_of bank.old bank.new }
    ensures rise { IsRisen B.tells members.old members.new (B.tape bank.old) (B.tape bank.new) }
    ensures failed { AreLostInEnd members.old members.new result.roles result.spares result.lost (B.faults_of bank.old) (B.faults_of bank.new) }
    ensures kept { (why : Refusal) → result.refusal ≡ Some why → B.tells → (world : World) → (told : Ledger) → HasRoomLeft members.old (B.tape bank.old) (B.tape bank.new)
        → AreGoneTold told members.new → IsUncleanTold told members.old → IsSafeOver world (B.given bank.old) told members.old (B.tape bank.old)
        → KeepsSafe world (B.given bank.old) told members.new (B.tape bank.old) (B.tape bank.new) }
    ensures safe { result.refusal ≡ None → B.tells → (world : World) → (told more : Ledger) → (list : ℕ → Sector) → HasRoomLeft members.old (B.tape bank.old) (B.tape bank.new)
        → ArePlaced world.scope (B.given bank.old) members.old → IsFinishable (OpensFit world) more members.old (present (B.given bank.old) (B.tape bank.old)) list
        → AreGoneTold told members.old → ((role : ℕ) → has_slot result.roles role ≡ true → told.gone role ≡ true) → AreGoneTold more members.new
        → IsUncleanTold told members.old → IsUncleanTold more members.old → ((slot number : ℕ) → told.carried slot number ≡ true → more.carried slot number ≡ true)
        → IsSafeOver world (B.given bank.old) told members.old (B.tape bank.old)
        → IsSafeChange (OpensFit world) world.scope (B.given bank.old) told more members.new (B.tape bank.old) (B.tape bank.new) }
{
    let count = count_roles(members);
    let before = unassigned_roles(members, count);
    let spares = flush_naming(members, bank);
    let roles = newly_unassigned(members, count, before);
    match too_many(members) {
        Some(why) => {
            return Finished {
                roles,
                spares,
                lost: 0,
                refusal: Some(why),
            };
        }
        None => {}
    }
    check_counts(members);
    let lost = end_update(members, bank);
    check_entries(&members.newest);
    Finished {
        roles,
        spares,
        lost,
        refusal: None,
    }
}
