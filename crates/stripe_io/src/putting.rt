//! Writes of an array that may lack members.

ghost use Rattle.std.specs.Prelude.{◌≡◌, ◌⊎◌, ◌+◌, ◌*◌, ◌/◌, ◌^◌, ◌<◌, ◌≤◌, ℕ, true, false, length, slice_index, Contains, vec_capacity, None, Some, MatchOption, ⊤};
ghost use Rattle.sb_safe_updates.specs.raid_types_Sectors.{Sector, IsWhole};
ghost use Rattle.sb_safe_updates.specs.raid_types_the_Role_TheVariants.{Recovering as IsRecovering};
ghost use Rattle.sb_safe_updates.specs.sb_specs_Reading.{is_clean, role_state};
ghost use Rattle.sb_safe_updates.specs.stripe_row_Rows.{reading_of, present};
ghost use Rattle.sb_safe_updates.specs.stripe_list_Buffers.{buffered, AreDistinct, AreStanding, AreTouched, IsTouched};
ghost use Rattle.sb_safe_updates.specs.stripe_list_Full.{AreWholeIn, RowStands};
ghost use Rattle.sb_safe_updates.specs.stripe_list_Writing.{IsWritten, AreDataFrom, HasFull};
ghost use Rattle.sb_safe_updates.specs.raid_types_Shapes.{data_disks};
ghost use Rattle.sb_safe_updates.specs.array_members_Placed.{IsPlaced, AreWhole, IsInForce};
ghost use Rattle.sb_safe_updates.specs.crash_safety_laws_Steady.{AreUnlost, IsSafeOver, KeepsSafe, AreGoneTold, AreWritesAllowed};
ghost use Rattle.sb_safe_updates.specs.crash_safety_laws_Marking.{AreOthersPresent};
ghost use Rattle.sb_safe_updates.specs.crash_safety_laws_Safety.{HasRoomLeft};
ghost use Rattle.sb_safe_updates.specs.crash_views_Windows.{IsOfRegion};
ghost use Rattle.sb_safe_updates.specs.array_members_Lacking.{LacksTooMany, IsUnwritten, DataStandsAmong, RowsStandAmong, AreOtherRowsKept, AreBytes, AreRowsRead, AreRowsWritten};
ghost use Rattle.sb_safe_updates.specs.First.{write_refusal};
ghost use Rattle.sb_safe_updates.specs.Frame.{Stands, Keeps};
ghost use Rattle.sb_safe_updates.specs.history_World.{World};
ghost use Rattle.sb_safe_updates.specs.history_Sound.{OpensFit};
ghost use Rattle.sb_safe_updates.specs.crash_views_Views.{Ledger, IsTailZero};

use sb_safe_updates::naming::{mark_dirty, record_missing};
use sb_safe_updates::refusing::{first_write_refusal, refused_by, too_many_of};
use sb_safe_updates::{Bank, Members, Refusal, Shape, read_touched, write_touched};

// The first row that isn't written, and why the rows weren't all written.
#[derive(Clone, Copy)]
struct Part {
    next: usize,
    refusal: Option<Refusal>,
}

/// The first row that isn't written, the spares that were lost, and why the rows weren't all written.
#[derive(Clone, Copy)]
pub struct Stretch {
    pub next: usize,
    pub spares: u32,
    pub refusal: Option<Refusal>,
}

// The spares that were lost before rows are written, and why none is.
#[derive(Clone, Copy)]
struct Prepared {
    spares: u32,
    refusal: Option<Refusal>,
}

// Writes rows from one on, up to the first in which a member is lost.
fn write_stretch<B: Bank>(
    members: &mut Members,
    bank: &mut B,
    shape: &Shape,
    first: u64,
    from: &[u8],
    rows: &[u64],
    start: usize,
    buffer: &mut Vec<u8>,
) -> Part
    requires slots { (B.given bank.old).slots ≤ 32 }
    requires placed { IsPlaced (B.given bank.old) members.old }
    requires unlost { AreUnlost members.old }
    requires shape { IsInForce members.old.newest shape.now }
    requires from { IsWhole from.now }
    requires short { first + length from.now / 512 < 2 ^ 63 }
    requires below { (row : ℕ) → Contains rows.now row → row < members.old.newest.size }
    requires once { AreDistinct rows.now }
    requires few { length rows.now ≤ 128 }
    requires start { start ≤ length rows.now }
    requires buffer { 1048576 ≤ length buffer.old.items }
    requires standing { B.tells → (i : ℕ) → start ≤ i → i < length rows.now → AreStanding (reading_of members.old)
        (present (B.given bank.old) (B.tape bank.old)) shape.now (slice_index rows.now i) (buffered buffer.old.items i) }
    ensures keeps { Keeps B.tells B.given B.tape B.faults_of bank.old bank.new members.old members.new 0 }
    ensures refused { MatchOption result.refusal ⊤ (LacksTooMany shape.now members.new) }
    ensures written { B.tells → AreRowsWritten shape.now first from.now rows.now start result.next members.new
        (present (B.given bank.old) (B.tape bank.old)) (present (B.given bank.old) (B.tape bank.new)) buffer.old.items buffer.new.items }
    ensures reached { start ≤ result.next }
    ensures within { result.next ≤ length rows.now }
    ensures further { result.refusal ≡ None → start < length rows.now → start < result.next }
    ensures clean { is_clean members.new.newest ≡ is_clean members.old.newest }
    ensures kept { AreWhole members.new → members.new ≡ members.old }
    ensures safe { B.tells → (world : World) → (told : Ledger) → is_clean members.old.newest ≡ false → IsOfRegion members.old shape.now (Contains rows.now) → (list list' : ℕ → Sector) → IsWritten list list' first from.now
        → (B.tells → AreDataFrom start shape.now list rows.now buffer.old.items) → AreWritesAllowed members.old told.values list'
        → (OpensFit world → IsTailZero members.old.newest list') → IsSafeOver world (B.given bank.old) told members.old (B.tape bank.old)
        → KeepsSafe world (B.given bank.old) told members.new (B.tape bank.old) (B.tape bank.new) }
    ensures size { length buffer.new.items ≡ length buffer.old.items }
{
    let written = write_touched(members, bank, shape, first, from, rows, start, buffer);
    let next = written.next_row;
    let refusal = refused_by(written.answer, members, shape);
    Part { next, refusal }
}

// Writes rows from one on, up to the first in which a member is lost, and names those that are missing.
fn put_stretch<B: Bank>(
    members: &mut Members,
    bank: &mut B,
    shape: &Shape,
    first: u64,
    from: &[u8],
    rows: &[u64],
    start: usize,
    buffer: &mut Vec<u8>,
) -> Stretch
    requires stands { Stands (B.given bank.old) members.old }
    requires shape { IsInForce members.old.newest shape.now }
    requires from { IsWhole from.now }
    requires short { first + length from.now / 512 < 2 ^ 63 }
    requires below { (row : ℕ) → Contains rows.now row → row < members.old.newest.size }
    requires once { AreDistinct rows.now }
    requires few { length rows.now ≤ 128 }
    requires start { start ≤ length rows.now }
    requires buffer { 1048576 ≤ length buffer.old.items }
    requires standing { B.tells → (i : ℕ) → start ≤ i → i < length rows.now → AreStanding (reading_of members.old)
        (present (B.given bank.old) (B.tape bank.old)) shape.now (slice_index rows.now i) (buffered buffer.old.items i) }
    ensures keeps { Keeps B.tells B.given B.tape B.faults_of bank.old bank.new members.old members.new result.spares }
    ensures refused { MatchOption result.refusal ⊤ (LacksTooMany shape.now members.new) }
    ensures written { B.tells → AreRowsWritten shape.now first from.now rows.now start result.next members.new
        (present (B.given bank.old) (B.tape bank.old)) (present (B.given bank.old) (B.tape bank.new)) buffer.old.items buffer.new.items }
    ensures reached { start ≤ result.next }
    ensures within { result.next ≤ length rows.now }
    ensures further { result.refusal ≡ None → start < length rows.now → start < result.next }
    ensures clean { is_clean members.new.newest ≡ is_clean members.old.newest }
    ensures kept { AreWhole members.new → members.new ≡ members.old }
    ensures safe { B.tells → (world : World) → (told : Ledger) → HasRoomLeft members.old (B.tape bank.old) (B.tape bank.new)
        → AreGoneTold told members.new → told.unclean ≡ true → is_clean members.old.newest ≡ false → IsOfRegion members.old shape.now (Contains rows.now) → (list list' : ℕ → Sector) → IsWritten list list' first from.now
        → (B.tells → AreDataFrom start shape.now list rows.now buffer.old.items) → AreWritesAllowed members.old told.values list'
        → (OpensFit world → IsTailZero members.old.newest list') → IsSafeOver world (B.given bank.old) told members.old (B.tape bank.old)
        → KeepsSafe world (B.given bank.old) told members.new (B.tape bank.old) (B.tape bank.new) }
    ensures size { length buffer.new.items ≡ length buffer.old.items }
{
    let Part { next, refusal } = write_stretch(
        members, bank, shape, first, from, rows, start, buffer,
    );
    if refusal.is_some() {
        return Stretch {
            next,
            spares: 0,
            refusal,
        };
    }
    let spares = record_missing(members, bank);
    Stretch {
        next,
        spares,
        refusal: None,
    }
}

/// Writes rows that were read, up to 128, each whole from its part of the buffer with the sectors of `from` put in, which stand in the
/// list from `first` on; and names the members that are lost before the next row is written. It ends where more roles of the shape
/// are missing than it tolerates.
pub fn write_list_rows<B: Bank>(
    members: &mut Members,
    bank: &mut B,
    shape: &Shape,
    first: u64,
    from: &[u8],
    rows: &[u64],
    buffer: &mut Vec<u8>,
) -> Stretch
    requires stands { Stands (B.given bank.old) members.old }
    requires shape { IsInForce members.old.newest shape.now }
    requires from { IsWhole from.now }
    requires short { first + length from.now / 512 < 2 ^ 63 }
    requires below { (row : ℕ) → Contains rows.now row → row < members.old.newest.size }
    requires once { AreDistinct rows.now }
    requires few { length rows.now ≤ 128 }
    requires buffer { 1048576 ≤ length buffer.old.items }
    requires standing { B.tells → (i : ℕ) → i < length rows.now → AreStanding (reading_of members.old)
        (present (B.given bank.old) (B.tape bank.old)) shape.now (slice_index rows.now i) (buffered buffer.old.items i) }
    ensures keeps { Keeps B.tells B.given B.tape B.faults_of bank.old bank.new members.old members.new result.spares }
    ensures refused { MatchOption result.refusal ⊤ (LacksTooMany shape.now members.new) }
    ensures written { B.tells → AreRowsWritten shape.now first from.now rows.now 0 result.next members.new
        (present (B.given bank.old) (B.tape bank.old)) (present (B.given bank.old) (B.tape bank.new)) buffer.old.items buffer.new.items }
    ensures within { result.next ≤ length rows.now }
    ensures done { result.refusal ≡ None → result.next ≡ length rows.now }
    ensures clean { is_clean members.new.newest ≡ is_clean members.old.newest }
    ensures kept { AreWhole members.new → members.new ≡ members.old }
    ensures safe { B.tells → (world : World) → (told : Ledger) → HasRoomLeft members.old (B.tape bank.old) (B.tape bank.new)
        → AreGoneTold told members.new → told.unclean ≡ true → is_clean members.old.newest ≡ false → IsOfRegion members.old shape.now (Contains rows.now) → (list list' : ℕ → Sector) → IsWritten list list' first from.now
        → (B.tells → AreDataFrom 0 shape.now list rows.now buffer.old.items) → AreWritesAllowed members.old told.values list'
        → (OpensFit world → IsTailZero members.old.newest list') → IsSafeOver world (B.given bank.old) told members.old (B.tape bank.old)
        → KeepsSafe world (B.given bank.old) told members.new (B.tape bank.old) (B.tape bank.new) }
    ensures size { length buffer.new.items ≡ length buffer.old.items }
{
    let mut next = 0;
    let mut spares = 0;
    while next < rows.len() {
        let one = put_stretch(members, bank, shape, first, from, rows, next, buffer);
        next = one.next;
        spares |= one.spares;
        if one.refusal.is_some() {
            return Stretch {
                next,
                spares,
                refusal: one.refusal,
            };
        }
    }
    Stretch {
        next,
        spares,
        refusal: None,
    }
}

// Reads the rows that so many sectors from `first` on touch, marks the array dirty where it is clean, and names those that
// are missing.
fn prepare<B: Bank>(
    members: &mut Members,
    bank: &mut B,
    shape: &Shape,
    first: u64,
    count: u64,
    rows: &mut Vec<u64>,
    buffer: &mut Vec<u8>,
    synced: bool,
) -> Prepared
    requires stands { Stands (B.given bank.old) members.old }
    requires shape { IsInForce members.old.newest shape.now }
    requires few { count ≤ 128 }
    requires within { first + count ≤ data_disks shape.now * members.old.newest.size }
    requires short { first + count < 2 ^ 53 }
    requires rows { 128 ≤ vec_capacity rows.old }
    requires buffer { 1048576 ≤ length buffer.old.items }
    ensures keeps { Keeps B.tells B.given B.tape B.faults_of bank.old bank.new members.old members.new result.spares }
    ensures refused { MatchOption result.refusal ⊤ (IsUnwritten shape.now synced members.new) }
    ensures first { MatchOption result.refusal ⊤ (λ refusal. write_refusal shape.now synced members.new ≡ Some refusal) }
    ensures others { B.tells → AreOthersPresent (present (B.given bank.old) (B.tape bank.old)) (present (B.given bank.old) (B.tape bank.new)) }
    ensures read { result.refusal ≡ None → B.tells → AreRowsRead shape.now synced members.old members.new (present (B.given bank.old) (B.tape bank.old)) rows.new.items buffer.new.items }
    ensures dirty { result.refusal ≡ None → is_clean members.new.newest ≡ false }
    ensures stays { is_clean members.old.newest ≡ false → is_clean members.new.newest ≡ false }
    ensures touched { AreTouched shape.now first count rows.new.items }
    ensures below { (row : ℕ) → Contains rows.new.items row → row < members.new.newest.size }
    ensures few { length rows.new.items ≤ count }
    ensures safe { B.tells → (world : World) → (told : Ledger) → HasRoomLeft members.old (B.tape bank.old) (B.tape bank.new)
        → AreGoneTold told members.new → told.unclean ≡ true → IsSafeOver world (B.given bank.old) told members.old (B.tape bank.old)
        → KeepsSafe world (B.given bank.old) told members.new (B.tape bank.old) (B.tape bank.new) }
    ensures rows { vec_capacity rows.old ≤ vec_capacity rows.new }
    ensures buffer { length buffer.new.items ≡ length buffer.old.items }
{
    let read = read_touched(members, bank, shape, first, count, rows, buffer, synced);
    if read.answer.is_err() {
        return Prepared {
            spares: 0,
            refusal: first_write_refusal(members, shape, synced),
        };
    }
    let spares = mark_dirty(members, bank);
    Prepared {
        spares,
        refusal: too_many_of(members, shape),
    }
}

/// What a write came to: whether rows had begun to be written, the spares that were lost, and why it wasn't done.
#[derive(Clone, Copy)]
pub struct Outcome {
    pub begun: bool,
    pub spares: u32,
    pub refusal: Option<Refusal>,
}

/// Puts the sectors of `from` into the list from `first` on, where so many sectors, which are placed by this shape, have their
/// places in the rows that are written: these rows are read, the array is marked dirty where it is clean, those that are
/// missing are named, and the rows are written with their parity. It ends where more roles of the shape are missing than it
/// tolerates, or, where the parity of the rows isn't to be relied on, one that has data.
pub fn write_listed<B: Bank>(
    members: &mut Members,
    bank: &mut B,
    shape: &Shape,
    first: u64,
    count: u64,
    from: &[u8],
    rows: &mut Vec<u64>,
    buffer: &mut Vec<u8>,
    synced: bool,
) -> Outcome
    requires stands { Stands (B.given bank.old) members.old }
    requires shape { IsInForce members.old.newest shape.now }
    requires from { IsWhole from.now }
    requires few { count ≤ 128 }
    requires from_few { length from.now / 512 ≤ count }
    requires within { first + count ≤ data_disks shape.now * members.old.newest.size }
    requires short { first + count < 2 ^ 53 }
    requires rows { 128 ≤ vec_capacity rows.old }
    requires buffer { 1048576 ≤ length buffer.old.items }
    ensures keeps { Keeps B.tells B.given B.tape B.faults_of bank.old bank.new members.old members.new result.spares }
    ensures refused { MatchOption result.refusal ⊤ (IsUnwritten shape.now synced members.new) }
    ensures first { MatchOption result.refusal ⊤ (λ refusal. write_refusal shape.now synced members.new ≡ Some refusal) }
    ensures torn { result.begun ≡ true → MatchOption result.refusal ⊤ (LacksTooMany shape.now members.new) }
    ensures put { result.refusal ≡ None → B.tells → (list list' : ℕ → Sector) → IsWritten list list' first from.now
        → DataStandsAmong shape.now (IsTouched shape.now first count) members.old (present (B.given bank.old) (B.tape bank.old)) list → DataStandsAmong shape.now (IsTouched shape.now first count) members.new (present (B.given bank.old) (B.tape bank.new)) list' }
    ensures others { B.tells → AreOtherRowsKept (IsTouched shape.now first count) (reading_of members.new) (present (B.given bank.old) (B.tape bank.old)) (present (B.given bank.old) (B.tape bank.new)) }
    ensures good { result.refusal ≡ None → B.tells → (list list' : ℕ → Sector) → IsWritten list list' first from.now → AreBytes from.now
        → DataStandsAmong shape.now (IsTouched shape.now first count) members.old (present (B.given bank.old) (B.tape bank.old)) list
        → (synced ≡ true → AreWhole members.new ⊎ RowsStandAmong shape.now (IsTouched shape.now first count) members.old (present (B.given bank.old) (B.tape bank.old)) list)
        → (row : ℕ) → IsTouched shape.now first count row → row < members.old.newest.size → AreWholeIn shape.now list row
        → RowStands (reading_of members.new) (present (B.given bank.old) (B.tape bank.new)) shape.now list' row }
    ensures rebuilt { result.refusal ≡ None → B.tells → (list list' : ℕ → Sector) → IsWritten list list' first from.now
        → DataStandsAmong shape.now (IsTouched shape.now first count) members.old (present (B.given bank.old) (B.tape bank.old)) list
        → (synced ≡ true → AreWhole members.new ⊎ RowsStandAmong shape.now (IsTouched shape.now first count) members.old (present (B.given bank.old) (B.tape bank.old)) list)
        → (role slot row : ℕ) → role < shape.now.disks → role_state (reading_of members.new) role ≡ IsRecovering slot → IsTouched shape.now first count row → row < members.old.newest.size
        → HasFull (reading_of members.old) (present (B.given bank.old) (B.tape bank.old)) shape.now list row role slot
        → HasFull (reading_of members.new) (present (B.given bank.old) (B.tape bank.new)) shape.now list' row role slot }
    ensures dirty { result.refusal ≡ None → is_clean members.new.newest ≡ false }
    ensures stays { is_clean members.old.newest ≡ false → is_clean members.new.newest ≡ false }
    ensures untouched { result.begun ≡ false → B.tells → AreOthersPresent (present (B.given bank.old) (B.tape bank.old)) (present (B.given bank.old) (B.tape bank.new)) }
    ensures safe { B.tells → (world : World) → (told : Ledger) → HasRoomLeft members.old (B.tape bank.old) (B.tape bank.new)
        → AreGoneTold told members.new → told.unclean ≡ true → (list list' : ℕ → Sector) → IsWritten list list' first from.now
        → DataStandsAmong shape.now (IsTouched shape.now first count) members.old (present (B.given bank.old) (B.tape bank.old)) list → (synced ≡ true → AreWhole members.new ⊎ RowsStandAmong shape.now (IsTouched shape.now first count) members.old (present (B.given bank.old) (B.tape bank.old)) list)
        → IsOfRegion members.old shape.now (IsTouched shape.now first count) → (result.begun ≡ true → AreWritesAllowed members.old told.values list')
        → (OpensFit world → IsTailZero members.old.newest list') → IsSafeOver world (B.given bank.old) told members.old (B.tape bank.old)
        → KeepsSafe world (B.given bank.old) told members.new (B.tape bank.old) (B.tape bank.new) }
    ensures rows { vec_capacity rows.old ≤ vec_capacity rows.new }
    ensures buffer { length buffer.new.items ≡ length buffer.old.items }
{
    let begun = prepare(members, bank, shape, first, count, rows, buffer, synced);
    if begun.refusal.is_some() {
        return Outcome {
            begun: false,
            spares: begun.spares,
            refusal: begun.refusal,
        };
    }
    let done = write_list_rows(members, bank, shape, first, from, rows.as_slice(), buffer);
    Outcome {
        begun: true,
        spares: begun.spares | done.spares,
        refusal: done.refusal,
    }
}
