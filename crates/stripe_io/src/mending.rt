//! The parity of stripes is made to fit their data.

ghost use Rattle.std.specs.Prelude.{◌≡◌, ◌/◌, ◌<◌, ◌≤◌, ℕ, true, false, length, vec_capacity, None, Some, MatchOption, IfSome, IsTrue, ⊤};
ghost use Rattle.sb_safe_updates.specs.raid_types_Sectors.{Sector};
ghost use Rattle.sb_safe_updates.specs.raid_types_Shapes.{is_valid_shape, is_multiple};
ghost use Rattle.sb_safe_updates.specs.raid_types_the_Role_TheVariants.{Recovering as IsRecovering};
ghost use Rattle.sb_safe_updates.specs.sb_specs_Reading.{shape_of, is_clean, role_state};
ghost use Rattle.sb_safe_updates.specs.stripe_row_Rows.{reading_of, present};
ghost use Rattle.sb_safe_updates.specs.stripe_list_Full.{AreWholeIn, RowStands};
ghost use Rattle.sb_safe_updates.specs.stripe_list_Writing.{HasFull};
ghost use Rattle.sb_safe_updates.specs.array_members_Placed.{IsInForce};
ghost use Rattle.sb_safe_updates.specs.crash_safety_laws_Steady.{IsSafeOver, KeepsSafe, AreGoneTold, AreWritesAllowed};
ghost use Rattle.sb_safe_updates.specs.crash_safety_laws_Safety.{HasRoomLeft};
ghost use Rattle.sb_safe_updates.specs.array_members_Status.{stripes_of};
ghost use Rattle.sb_safe_updates.specs.crash_views_Windows.{IsOfRegion};
ghost use Rattle.sb_safe_updates.specs.array_members_Lacking.{DoesWithout, IsUnwritten, DataStandsAmong, AreOtherRowsKept, IsOfStripe, synced_rows};
ghost use Rattle.sb_safe_updates.specs.First.{write_refusal};
ghost use Rattle.sb_safe_updates.specs.Frame.{Stands, Keeps};
ghost use Rattle.sb_safe_updates.specs.history_World.{World};
ghost use Rattle.sb_safe_updates.specs.history_Sound.{OpensFit};
ghost use Rattle.sb_safe_updates.specs.crash_views_Views.{Ledger, IsTailZero};

use crate::putting::write_listed;
use sb_safe_updates::roles::{list_length, shape_in};
use sb_safe_updates::{Bank, Members, Refusal, Shape};

/// The rows that are read and rewritten at a time.
const ROWS: u64 = 128;

/// How many stripes an array has.
pub fn stripes(members: &Members) -> u64
    requires shape { IsTrue (is_valid_shape (shape_of members.now.newest)) }
    ensures { result ≡ stripes_of members.now }
{
    members.newest.size / shape_in(members).chunk as u64
}

/// The rows whose parity is to be relied on: those of the stripes that a pending resync has mended, or else all.
pub fn synced_rows(members: &Members, resync: Option<u64>) -> u64
    requires shape { IsTrue (is_valid_shape (shape_of members.now.newest)) }
    requires multiple { IsTrue (is_multiple members.now.newest.size (shape_of members.now.newest).chunk) }
    requires progress { IfSome resync (λ mended. mended ≤ stripes_of members.now) }
    ensures rows { result ≡ synced_rows resync members.now }
    ensures within { result ≤ members.now.newest.size }
    ensures stripes { IsTrue (is_multiple result (shape_of members.now.newest).chunk) }
{
    let size = members.newest.size;
    match resync {
        Some(mended) => mended * shape_in(members).chunk as u64,
        None => size,
    }
}

/// The spares that were lost while a stripe was mended, and why it wasn't.
#[derive(Clone, Copy)]
pub struct Mended {
    pub spares: u32,
    pub refusal: Option<Refusal>,
}

/// Makes the parity of a stripe of this shape fit its data: its rows are read and rewritten, a part of them at a time, and those
/// that are missing are named. It ends where more roles of the shape are missing than it tolerates, or one that has data.
pub fn resync_rows<B: Bank>(
    members: &mut Members,
    bank: &mut B,
    shape: &Shape,
    stripe: u64,
    rows: &mut Vec<u64>,
    buffer: &mut Vec<u8>,
) -> Mended
    requires stands { Stands (B.given bank.old) members.old }
    requires shape { IsInForce members.old.newest shape.now }
    requires stripe { stripe < members.old.newest.size / shape.now.chunk }
    requires dirty { is_clean members.old.newest ≡ false }
    requires rows { 128 ≤ vec_capacity rows.old }
    requires buffer { 1048576 ≤ length buffer.old.items }
    ensures keeps { Keeps B.tells B.given B.tape B.faults_of bank.old bank.new members.old members.new result.spares }
    ensures refused { MatchOption result.refusal ⊤ (IsUnwritten shape.now false members.new) }
    ensures first { MatchOption result.refusal ⊤ (λ refusal. write_refusal shape.now false members.new ≡ Some refusal) }
    ensures dirty { is_clean members.new.newest ≡ false }
    ensures mended { result.refusal ≡ None → B.tells → (list : ℕ → Sector) → DataStandsAmong shape.now (IsOfStripe shape.now stripe) members.old (present (B.given bank.old) (B.tape bank.old)) list
        → (row : ℕ) → IsOfStripe shape.now stripe row → AreWholeIn shape.now list row → RowStands (reading_of members.new) (present (B.given bank.old) (B.tape bank.new)) shape.now list row }
    ensures stands { DoesWithout shape.now members.new → B.tells → (list : ℕ → Sector) → DataStandsAmong shape.now (IsOfStripe shape.now stripe) members.old (present (B.given bank.old) (B.tape bank.old)) list
        → DataStandsAmong shape.now (IsOfStripe shape.now stripe) members.new (present (B.given bank.old) (B.tape bank.new)) list }
    ensures others { B.tells → AreOtherRowsKept (IsOfStripe shape.now stripe) (reading_of members.new) (present (B.given bank.old) (B.tape bank.old)) (present (B.given bank.old) (B.tape bank.new)) }
    ensures kept { DoesWithout shape.now members.new → B.tells → (list : ℕ → Sector) → DataStandsAmong shape.now (IsOfStripe shape.now stripe) members.old (present (B.given bank.old) (B.tape bank.old)) list
        → (row : ℕ) → IsOfStripe shape.now stripe row → RowStands (reading_of members.old) (present (B.given bank.old) (B.tape bank.old)) shape.now list row
        → RowStands (reading_of members.new) (present (B.given bank.old) (B.tape bank.new)) shape.now list row }
    ensures rebuilt { DoesWithout shape.now members.new → B.tells → (list : ℕ → Sector) → DataStandsAmong shape.now (IsOfStripe shape.now stripe) members.old (present (B.given bank.old) (B.tape bank.old)) list
        → (role slot row : ℕ) → role < shape.now.disks → role_state (reading_of members.new) role ≡ IsRecovering slot → IsOfStripe shape.now stripe row
        → HasFull (reading_of members.old) (present (B.given bank.old) (B.tape bank.old)) shape.now list row role slot
        → HasFull (reading_of members.new) (present (B.given bank.old) (B.tape bank.new)) shape.now list row role slot }
    ensures safe { B.tells → (world : World) → (told : Ledger) → HasRoomLeft members.old (B.tape bank.old) (B.tape bank.new)
        → AreGoneTold told members.new → told.unclean ≡ true → (list : ℕ → Sector) → DataStandsAmong shape.now (IsOfStripe shape.now stripe) members.old (present (B.given bank.old) (B.tape bank.old)) list
        → IsOfRegion members.old shape.now (IsOfStripe shape.now stripe) → AreWritesAllowed members.old told.values list
        → (OpensFit world → IsTailZero members.old.newest list) → IsSafeOver world (B.given bank.old) told members.old (B.tape bank.old)
        → KeepsSafe world (B.given bank.old) told members.new (B.tape bank.old) (B.tape bank.new) }
    ensures rows { vec_capacity rows.old ≤ vec_capacity rows.new }
    ensures buffer { length buffer.new.items ≡ length buffer.old.items }
{
    let chunk = shape.chunk as u64;
    let first = stripe * list_length(shape, chunk);
    let mut done = 0;
    let mut spares = 0;
    while done < chunk {
        let count = ROWS.min(chunk - done);
        let part = write_listed(
            members,
            bank,
            shape,
            first + done,
            count,
            &[],
            rows,
            buffer,
            false,
        );
        spares |= part.spares;
        if part.refusal.is_some() {
            return Mended {
                spares,
                refusal: part.refusal,
            };
        }
        done += count;
    }
    Mended {
        spares,
        refusal: None,
    }
}
