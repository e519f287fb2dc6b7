//! A stripe of the list of an array in a reshape is mended.

ghost use Rattle.std.specs.Prelude.{◌≡◌, ◌+◌, ◌<◌, ◌≤◌, ℕ, Bool, true, false, length, vec_capacity, None, Some, Option, MatchOption, ⊤};
ghost use Rattle.reshape_request.specs.raid_types_Sectors.{Sector};
ghost use Rattle.reshape_request.specs.raid_types_the_Shape.{Shape};
ghost use Rattle.reshape_request.specs.raid_types_the_Span.{Span};
ghost use Rattle.reshape_request.specs.sb_specs_Reading.{is_clean, final_shape, role_count, role_state};
ghost use Rattle.stripe_region_write.specs.stripe_row_Rows.{reading_of, present};
ghost use Rattle.reshape_request.specs.raid_types_the_Role_TheVariants.{Recovering as IsRecovering};
ghost use Rattle.stripe_region_write.specs.stripe_list_Full.{AreWholeIn, RowStands};
ghost use Rattle.stripe_region_write.specs.stripe_list_Writing.{HasFull};
ghost use Rattle.stripe_region_write.specs.history_Sound.{OpensFit};
ghost use Rattle.stripe_region_write.specs.history_World.{World};
ghost use Rattle.stripe_region_write.specs.crash_views_Regions.{AreShapesFit, DoWithout};
ghost use Rattle.stripe_region_write.specs.crash_views_Views.{IsTailZero, Ledger};
ghost use Rattle.stripe_region_write.specs.crash_views_Windows.{IsShown, AreTailsStanding};
ghost use Rattle.stripe_region_write.specs.crash_safety_laws_Steady.{IsSafeOver, KeepsSafe, AreGoneTold, AreWritesAllowed};
ghost use Rattle.stripe_region_write.specs.crash_safety_laws_Safety.{HasRoomLeft};
ghost use Rattle.stripe_region_write.specs.array_members_Lacking.{DoesWithout, AreOtherRowsKept};
ghost use Rattle.stripe_region_write.specs.stripe_region_read_Stretches.{ListStandsIn, RowsStandIn};
ghost use Rattle.stripe_region_resync.specs.Mends.{low_shape, resync_stripes, relied_sector, resync_shape, IsResyncRow, ResyncStands, AreEndsStanding, lacking_or, refusal_of_resync, IsNotSynced};
ghost use Rattle.stripe_region_write.specs.sb_safe_updates_Frame.{Stands, Keeps};

use crate::stripes::stripe_after;
use reshape_request::{Bank, Members, Refusal};
use stripe_region_write::{Mended, first_write_refusal, resync_rows, too_many};

// The refusal where more roles of a shape in force are missing than it tolerates, of the old one first, or else the one that was found.
fn lacking_or(members: &Members, found: Option<Refusal>) -> Option<Refusal>
    requires fit { AreShapesFit members.now.newest }
    requires roles { length members.now.roles ≡ role_count members.now.newest }
    ensures { result ≡ lacking_or members.now found }
{
    let refusal = too_many(members);
    if refusal.is_some() {
        return refusal;
    }
    found
}

/// Why the next stripe isn't mended, where a resync has mended so many, before any device is touched: more roles of a shape in force are
/// missing than it tolerates, or else one that has data by the stripe's shape.
pub fn first_resync_refusal(members: &Members, mended: u64) -> Option<Refusal>
    requires fit { AreShapesFit members.now.newest }
    requires roles { length members.now.roles ≡ role_count members.now.newest }
    requires pending { mended < resync_stripes members.now.newest }
    ensures first { result ≡ refusal_of_resync (resync_shape members.now.newest mended) members.now }
    ensures why { MatchOption result (DoWithout members.now) (IsNotSynced (resync_shape members.now.newest mended) members.now) }
{
    let next = stripe_after(members, mended);
    lacking_or(members, first_write_refusal(members, &next.shape, false))
}

/// Mends a stripe of the list, where a resync has mended so many before it: makes its parity fit its data, by the shape of its region,
/// and names the members that are missing. It isn't done where more roles of a shape in force are missing than it tolerates, at its end
/// at the latest, or one that has data by the stripe's shape.
pub fn resync_list<B: Bank>(
    members: &mut Members,
    bank: &mut B,
    mended: u64,
    rows: &mut Vec<u64>,
    buffer: &mut Vec<u8>,
) -> Mended
    requires stands { Stands (B.given bank.old) members.old }
    requires pending { mended < resync_stripes members.old.newest }
    requires dirty { is_clean members.old.newest ≡ false }
    requires rows { 128 ≤ vec_capacity rows.old }
    requires buffer { 1048576 ≤ length buffer.old.items }
    ensures keeps { Keeps B.tells B.given B.tape B.faults_of bank.old bank.new members.old members.new result.spares }
    ensures refused { MatchOption result.refusal (DoWithout members.new) (IsNotSynced (resync_shape members.old.newest mended) members.new) }
    ensures first { MatchOption result.refusal ⊤ (λ refusal. refusal_of_resync (resync_shape members.old.newest mended) members.new ≡ Some refusal) }
    ensures dirty { is_clean members.new.newest ≡ false }
    ensures mended { result.refusal ≡ None → B.tells → (among : Shape → Bool) → (hidden : Option Span) → (list : ℕ → Sector)
        → ((x : ℕ) → relied_sector members.old.newest (Some mended) ≤ x → x < relied_sector members.old.newest (Some (mended + 1)) → IsShown hidden members.old.newest x)
        → ((row : ℕ) → IsResyncRow members.old.newest mended row → AreWholeIn (resync_shape members.old.newest mended) list row)
        → ListStandsIn (λ s. among s ≡ true) hidden members.old (present (B.given bank.old) (B.tape bank.old)) list → AreEndsStanding members.old (present (B.given bank.old) (B.tape bank.old)) list
        → RowsStandIn (λ s. among s ≡ true) hidden (relied_sector members.old.newest (Some mended)) members.old (present (B.given bank.old) (B.tape bank.old)) list
        → RowsStandIn (λ s. among s ≡ true) hidden (relied_sector members.old.newest (Some (mended + 1))) members.new (present (B.given bank.old) (B.tape bank.new)) list }
    ensures kept { B.tells → (among : Shape → Bool) → (hidden : Option Span) → (list : ℕ → Sector)
        → RowsStandIn (λ s. among s ≡ true) hidden (relied_sector members.old.newest (Some mended)) members.old (present (B.given bank.old) (B.tape bank.old)) list
        → RowsStandIn (λ s. among s ≡ true) hidden (relied_sector members.old.newest (Some mended)) members.new (present (B.given bank.old) (B.tape bank.new)) list }
    ensures stands { B.tells → (among : Shape → Bool) → ((s : Shape) → among s ≡ true → DoesWithout s members.new) → (hidden : Option Span) → (list : ℕ → Sector)
        → ListStandsIn (λ s. among s ≡ true) hidden members.old (present (B.given bank.old) (B.tape bank.old)) list
        → ListStandsIn (λ s. among s ≡ true) hidden members.new (present (B.given bank.old) (B.tape bank.new)) list }
    ensures tail { DoesWithout (final_shape members.old.newest) members.new → B.tells → (list : ℕ → Sector)
        → AreTailsStanding members.old (present (B.given bank.old) (B.tape bank.old)) list → AreTailsStanding members.new (present (B.given bank.old) (B.tape bank.new)) list }
    ensures ends { DoesWithout (low_shape members.old.newest) members.new → B.tells → (list : ℕ → Sector)
        → AreEndsStanding members.old (present (B.given bank.old) (B.tape bank.old)) list → AreEndsStanding members.new (present (B.given bank.old) (B.tape bank.new)) list }
    ensures stripe_synced { result.refusal ≡ None → B.tells → (list : ℕ → Sector) → ResyncStands members.old.newest mended members.old (present (B.given bank.old) (B.tape bank.old)) list
        → (row : ℕ) → IsResyncRow members.old.newest mended row → AreWholeIn (resync_shape members.old.newest mended) list row → RowStands (reading_of members.new) (present (B.given bank.old) (B.tape bank.new)) (resync_shape members.old.newest mended) list row }
    ensures stripe_stands { DoesWithout (resync_shape members.old.newest mended) members.new → B.tells → (list : ℕ → Sector) → ResyncStands members.old.newest mended members.old (present (B.given bank.old) (B.tape bank.old)) list
        → ResyncStands members.old.newest mended members.new (present (B.given bank.old) (B.tape bank.new)) list }
    ensures stripe_kept { DoesWithout (resync_shape members.old.newest mended) members.new → B.tells → (list : ℕ → Sector) → ResyncStands members.old.newest mended members.old (present (B.given bank.old) (B.tape bank.old)) list
        → (row : ℕ) → IsResyncRow members.old.newest mended row → RowStands (reading_of members.old) (present (B.given bank.old) (B.tape bank.old)) (resync_shape members.old.newest mended) list row → RowStands (reading_of members.new) (present (B.given bank.old) (B.tape bank.new)) (resync_shape members.old.newest mended) list row }
    ensures stripe_rebuilt { DoesWithout (resync_shape members.old.newest mended) members.new → B.tells → (list : ℕ → Sector) → ResyncStands members.old.newest mended members.old (present (B.given bank.old) (B.tape bank.old)) list
        → (role slot row : ℕ) → role < (resync_shape members.old.newest mended).disks → role_state (reading_of members.new) role ≡ IsRecovering slot → IsResyncRow members.old.newest mended row
        → HasFull (reading_of members.old) (present (B.given bank.old) (B.tape bank.old)) (resync_shape members.old.newest mended) list row role slot → HasFull (reading_of members.new) (present (B.given bank.old) (B.tape bank.new)) (resync_shape members.old.newest mended) list row role slot }
    ensures others { B.tells → AreOtherRowsKept (IsResyncRow members.old.newest mended) (reading_of members.new) (present (B.given bank.old) (B.tape bank.old)) (present (B.given bank.old) (B.tape bank.new)) }
    ensures safe { B.tells → (world : World) → (told : Ledger) → HasRoomLeft members.old (B.tape bank.old) (B.tape bank.new)
        → AreGoneTold told members.new → told.unclean ≡ true → (hidden : Option Span) → (list : ℕ → Sector)
        → ((x : ℕ) → relied_sector members.old.newest (Some mended) ≤ x → x < relied_sector members.old.newest (Some (mended + 1)) → IsShown hidden members.old.newest x)
        → ListStandsIn (λ s. s ≡ resync_shape members.old.newest mended) hidden members.old (present (B.given bank.old) (B.tape bank.old)) list
        → (resync_shape members.old.newest mended ≡ final_shape members.old.newest → AreTailsStanding members.old (present (B.given bank.old) (B.tape bank.old)) list)
        → AreWritesAllowed members.old told.values list → (OpensFit world → IsTailZero members.old.newest list)
        → IsSafeOver world (B.given bank.old) told members.old (B.tape bank.old)
        → KeepsSafe world (B.given bank.old) told members.new (B.tape bank.old) (B.tape bank.new) }
    ensures stripe_safe { B.tells → (world : World) → (told : Ledger) → HasRoomLeft members.old (B.tape bank.old) (B.tape bank.new)
        → AreGoneTold told members.new → told.unclean ≡ true → (list : ℕ → Sector) → ResyncStands members.old.newest mended members.old (present (B.given bank.old) (B.tape bank.old)) list
        → AreWritesAllowed members.old told.values list → (OpensFit world → IsTailZero members.old.newest list) → IsSafeOver world (B.given bank.old) told members.old (B.tape bank.old)
        → KeepsSafe world (B.given bank.old) told members.new (B.tape bank.old) (B.tape bank.new) }
    ensures rows { vec_capacity rows.old ≤ vec_capacity rows.new }
    ensures buffer { length buffer.new.items ≡ length buffer.old.items }
{
    let next = stripe_after(members, mended);
    let done = resync_rows(members, bank, &next.shape, next.at, rows, buffer);
    let refusal = lacking_or(members, done.refusal);
    Mended {
        spares: done.spares,
        refusal,
    }
}
