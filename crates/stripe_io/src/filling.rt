//! A stripe of a role is rebuilt on the slot that recovers it.

ghost use Rattle.std.specs.Prelude.{◌≡◌, ◌⊎◌, ◌+◌, ◌*◌, ◌^◌, ◌<◌, ◌≤◌, ℕ, true, false, length, slice_index, vec_capacity, Contains, None, MatchOption, IfSome, IfNone, IsTrue, ⊤};
ghost use Rattle.sb_safe_updates.specs.bank_Given.{IsFaulted};
ghost use Rattle.sb_safe_updates.specs.bank_Tape.{EachMark, disk};
ghost use Rattle.sb_safe_updates.specs.raid_types_Sectors.{Sector};
ghost use Rattle.sb_safe_updates.specs.raid_types_Shapes.{is_valid_shape, data_disks};
ghost use Rattle.sb_safe_updates.specs.raid_types_the_Role_TheVariants.{Recovering as IsRecovering};
ghost use Rattle.sb_safe_updates.specs.raid_parity_Rows.{IsRowOf, sector_of};
ghost use Rattle.sb_safe_updates.specs.sb_specs_Reading.{is_reshaping, shape_of, is_clean, role_state, rows_held, data_offset_of};
ghost use Rattle.sb_safe_updates.specs.stripe_row_Rows.{reading_of, present};
ghost use Rattle.sb_safe_updates.specs.stripe_list_Full.{full_sector};
ghost use Rattle.sb_safe_updates.specs.stripe_list_Buffers.{AreDistinct, IsTouched};
ghost use Rattle.sb_safe_updates.specs.stripe_list_Writing.{AreDataOf, AreDataFrom, AreSuperblocksKept, HasFull};
ghost use Rattle.sb_safe_updates.specs.history_World.{World};
ghost use Rattle.sb_safe_updates.specs.array_members_Placed.{IsPlaced};
ghost use Rattle.sb_safe_updates.specs.crash_safety_laws_Steady.{IsSafeOver, KeepsSafe, AreGoneTold, IsUncleanTold};
ghost use Rattle.sb_safe_updates.specs.crash_safety_laws_Safety.{HasLiveSlot, HasRoomLeft};
ghost use Rattle.sb_safe_updates.specs.array_members_Status.{stripes_of};
ghost use Rattle.sb_safe_updates.specs.array_members_Lacking.{LacksTooMany, DataStandsAmong, RowsStandAmong, IsOfStripe};
ghost use Rattle.sb_safe_updates.specs.array_members_Rebuilding.{IsFilling, IsFilledAmong};
ghost use Rattle.sb_safe_updates.specs.Named.{AreNamedMissing};
ghost use Rattle.stripe_io.specs.Filled.{IsNamedFirst};
ghost use Rattle.sb_safe_updates.specs.crash_views_Views.{Ledger};
ghost use Rattle.sb_safe_updates.specs.Frame.{Stands, KeepsMembers, GoesOn};

use sb_safe_updates::naming::record_missing;
use sb_safe_updates::refusing::{refused_by, too_many_of};
use sb_safe_updates::roles::list_length;
use sb_safe_updates::{
    Bank, Members, ROW_BYTES, Refusal, Role, Shape, lose_slot, read_touched, row_of, syndromes,
    write_sector,
};

/// The rows that are read and filled in at a time.
const ROWS: u64 = 128;

/// The spares that were lost while a stripe was rebuilt, and why it wasn't.
#[derive(Clone, Copy)]
pub struct Filled {
    pub spares: u32,
    pub refusal: Option<Refusal>,
}

// Where a role's rows lie on the slot that recovers it: the sector of the first, and how many it holds already.
#[derive(Clone, Copy)]
struct Target {
    slot: u32,
    role: u32,
    offset: u64,
    held: u64,
}

// Makes a role's sector of a row as it belongs to the data, where it is one of parity.
fn make_sector(shape: &Shape, row: u64, role: u32, bytes: &mut [u8])
    requires shape { IsTrue (is_valid_shape shape.now) }
    requires row { row < 2 ^ 53 }
    requires role { role < shape.now.disks }
    requires size { IsRowOf shape.now.disks bytes.old }
    ensures full { (list : ℕ → Sector) → AreDataOf shape.now list row (sector_of bytes.old) → sector_of bytes.new role ≡ full_sector shape.now list row role }
{
    let roles = row_of(shape, row);
    if roles.p == role || roles.q == Some(role) {
        syndromes(bytes, &roles);
    }
}

// Makes the role's sector of a row, and writes it, unless its slot holds the row already. Whether the slot did.
fn fill_row<B: Bank>(
    members: &Members,
    bank: &mut B,
    shape: &Shape,
    target: &Target,
    row: u64,
    bytes: &mut [u8],
) -> bool
    requires placed { IsPlaced (B.given bank.old) members.now }
    requires shape { shape.now ≡ shape_of members.now.newest }
    requires role { target.now.role < shape.now.disks }
    requires recovering { role_state (reading_of members.now) target.now.role ≡ IsRecovering target.now.slot }
    requires offset { target.now.offset ≡ data_offset_of (reading_of members.now) target.now.slot }
    requires held { target.now.held ≡ rows_held (reading_of members.now) (IsRecovering target.now.slot) }
    requires below { row < members.now.newest.size }
    requires size { IsRowOf shape.now.disks bytes.old }
    ensures each_mark { let start = (B.given bank.old).start in EachMark B.tells start (B.tape bank.old) (B.tape bank.new)
        (IsFilling members.now target.now.role target.now.slot (disk start (B.tape bank.old))) }
    ensures written { result ≡ true → B.tells → (list : ℕ → Sector) → AreDataOf shape.now list row (sector_of bytes.old) → target.now.held ≤ row
        → HasFull (reading_of members.now) (present (B.given bank.old) (B.tape bank.new)) shape.now list row target.now.role target.now.slot }
    ensures others { B.tells → IsFilledAmong members.now target.now.role target.now.slot (λ other. other ≡ row) (present (B.given bank.old) (B.tape bank.old)) (present (B.given bank.old) (B.tape bank.new)) }
    ensures failed { result ≡ false → IsFaulted target.now.slot (B.faults_of bank.old) (B.faults_of bank.new) }
    ensures bank { GoesOn B.tells B.given B.tape B.faults_of bank.old bank.new }
{
    make_sector(shape, row, target.role, bytes);
    if row < target.held {
        return true;
    }
    let start = 512 * target.role as usize;
    write_sector(
        bank,
        target.slot,
        target.offset + row,
        &bytes[start..start + 512],
    )
    .is_ok()
}

// Writes the role's sectors of these rows that its slot doesn't hold yet. Whether the slot did.
fn write_filled<B: Bank>(
    members: &Members,
    bank: &mut B,
    shape: &Shape,
    target: &Target,
    rows: &[u64],
    buffer: &mut [u8],
) -> bool
    requires placed { IsPlaced (B.given bank.old) members.now }
    requires shape { shape.now ≡ shape_of members.now.newest }
    requires role { target.now.role < shape.now.disks }
    requires recovering { role_state (reading_of members.now) target.now.role ≡ IsRecovering target.now.slot }
    requires offset { target.now.offset ≡ data_offset_of (reading_of members.now) target.now.slot }
    requires held { target.now.held ≡ rows_held (reading_of members.now) (IsRecovering target.now.slot) }
    requires below { (row : ℕ) → Contains rows.now row → row < members.now.newest.size }
    requires once { AreDistinct rows.now }
    requires buffer { 8192 * length rows.now ≤ length buffer.old }
    ensures each_mark { let start = (B.given bank.old).start in EachMark B.tells start (B.tape bank.old) (B.tape bank.new)
        (IsFilling members.now target.now.role target.now.slot (disk start (B.tape bank.old))) }
    ensures written { result ≡ true → B.tells → (list : ℕ → Sector) → AreDataFrom 0 shape.now list rows.now buffer.old → (i : ℕ) → i < length rows.now
        → target.now.held ≤ slice_index rows.now i
        → HasFull (reading_of members.now) (present (B.given bank.old) (B.tape bank.new)) shape.now list (slice_index rows.now i) target.now.role target.now.slot }
    ensures others { B.tells → IsFilledAmong members.now target.now.role target.now.slot (Contains rows.now) (present (B.given bank.old) (B.tape bank.old)) (present (B.given bank.old) (B.tape bank.new)) }
    ensures failed { result ≡ false → IsFaulted target.now.slot (B.faults_of bank.old) (B.faults_of bank.new) }
    ensures bank { GoesOn B.tells B.given B.tape B.faults_of bank.old bank.new }
    ensures size { length buffer.new ≡ length buffer.old }
{
    let len = 512 * shape.disks as usize;
    for i in 0..rows.len() {
        let part = &mut buffer[ROW_BYTES * i..ROW_BYTES * i + len];
        if !fill_row(members, bank, shape, target, rows[i], part) {
            return false;
        }
    }
    true
}

// Writes what belongs to the role, of these rows of the buffer, to the slot that recovers it, if one does; each role that no
// slot holds is named by then. A slot that fails is lost, and named. The spares that were lost in this.
fn fill_rows<B: Bank>(
    members: &mut Members,
    bank: &mut B,
    shape: &Shape,
    target: &Target,
    rows: &[u64],
    buffer: &mut [u8],
) -> u32
    requires stands { Stands (B.given bank.old) members.old }
    requires named { role_state (reading_of members.old) target.now.role ≡ IsRecovering target.now.slot → AreNamedMissing members.old }
    requires shape { shape.now ≡ shape_of members.old.newest }
    requires role { target.now.role < shape.now.disks }
    requires recovering { (slot : ℕ) → role_state (reading_of members.old) target.now.role ≡ IsRecovering slot → slot ≡ target.now.slot }
    requires offset { target.now.offset ≡ data_offset_of (reading_of members.old) target.now.slot }
    requires held { role_state (reading_of members.old) target.now.role ≡ IsRecovering target.now.slot → target.now.held ≡ rows_held (reading_of members.old) (IsRecovering target.now.slot) }
    requires below { (row : ℕ) → Contains rows.now row → row < members.old.newest.size }
    requires once { AreDistinct rows.now }
    requires buffer { 8192 * length rows.now ≤ length buffer.old }
    ensures keeps { KeepsMembers B.tells B.given B.tape B.faults_of bank.old bank.new members.old members.new result }
    ensures clean { is_clean members.new.newest ≡ is_clean members.old.newest }
    ensures missing { AreNamedMissing members.old → HasLiveSlot members.new → AreNamedMissing members.new }
    ensures kept { role_state (reading_of members.new) target.now.role ≡ IsRecovering target.now.slot → let start = (B.given bank.old).start in EachMark B.tells start (B.tape bank.old) (B.tape bank.new)
        (AreSuperblocksKept (disk start (B.tape bank.old))) }
    ensures written { role_state (reading_of members.new) target.now.role ≡ IsRecovering target.now.slot → B.tells → (list : ℕ → Sector) → AreDataFrom 0 shape.now list rows.now buffer.old
        → (i : ℕ) → i < length rows.now → target.now.held ≤ slice_index rows.now i
        → HasFull (reading_of members.new) (present (B.given bank.old) (B.tape bank.new)) shape.now list (slice_index rows.now i) target.now.role target.now.slot }
    ensures others { B.tells → (B.tape bank.new ≡ B.tape bank.old) ⊎ ((role_state (reading_of members.old) target.now.role ≡ IsRecovering target.now.slot)
        × IsFilledAmong members.old target.now.role target.now.slot (Contains rows.now) (present (B.given bank.old) (B.tape bank.old)) (present (B.given bank.old) (B.tape bank.new))) }
    ensures safe { B.tells → (world : World) → (told : Ledger) → HasRoomLeft members.old (B.tape bank.old) (B.tape bank.new)
        → AreGoneTold told members.new → IsUncleanTold told members.old → IsSafeOver world (B.given bank.old) told members.old (B.tape bank.old)
        → KeepsSafe world (B.given bank.old) told members.new (B.tape bank.old) (B.tape bank.new) }
    ensures size { length buffer.new ≡ length buffer.old }
{
    if recovering_slot(members, target.role).is_none() {
        return 0;
    }
    if write_filled(members, bank, shape, target, rows, buffer) {
        return 0;
    }
    let _ = lose_slot(members, target.slot);
    record_missing(members, bank)
}

// Reads rows, as many as so many sectors of the list from `first` on have their places in; names the roles that no slot
// holds; and then writes what belongs to the role to the slot that recovers it. It ends before it writes where more are missing
// than the array can do without.
fn fill_part<B: Bank>(
    members: &mut Members,
    bank: &mut B,
    shape: &Shape,
    target: &Target,
    first: u64,
    count: u64,
    rows: &mut Vec<u64>,
    buffer: &mut Vec<u8>,
) -> Filled
    requires stands { Stands (B.given bank.old) members.old }
    requires shape { shape.now ≡ shape_of members.old.newest }
    requires role { target.now.role < shape.now.disks }
    requires recovering { role_state (reading_of members.old) target.now.role ≡ IsRecovering target.now.slot }
    requires offset { target.now.offset ≡ data_offset_of (reading_of members.old) target.now.slot }
    requires held { target.now.held ≡ rows_held (reading_of members.old) (IsRecovering target.now.slot) }
    requires few { count ≤ 128 }
    requires within { first + count ≤ data_disks shape.now * members.old.newest.size }
    requires short { first + count < 2 ^ 53 }
    requires rows { 128 ≤ vec_capacity rows.old }
    requires buffer { 1048576 ≤ length buffer.old.items }
    ensures keeps { KeepsMembers B.tells B.given B.tape B.faults_of bank.old bank.new members.old members.new result.spares }
    ensures refused { MatchOption result.refusal ⊤ (LacksTooMany shape.now members.new) }
    ensures clean { is_clean members.new.newest ≡ is_clean members.old.newest }
    ensures missing { result.refusal ≡ None → HasLiveSlot members.new → AreNamedMissing members.new }
    ensures named { role_state (reading_of members.new) target.now.role ≡ IsRecovering target.now.slot → let start = (B.given bank.old).start in EachMark B.tells start (B.tape bank.old) (B.tape bank.new)
        (IsNamedFirst (disk start (B.tape bank.old)) (disk start (B.tape bank.new))) }
    ensures filled { result.refusal ≡ None → role_state (reading_of members.new) target.now.role ≡ IsRecovering target.now.slot → B.tells → (list : ℕ → Sector)
        → DataStandsAmong shape.now (IsTouched shape.now first count) members.old (present (B.given bank.old) (B.tape bank.old)) list → RowsStandAmong shape.now (IsTouched shape.now first count) members.old (present (B.given bank.old) (B.tape bank.old)) list
        → (row : ℕ) → IsTouched shape.now first count row → target.now.held ≤ row
        → HasFull (reading_of members.new) (present (B.given bank.old) (B.tape bank.new)) shape.now list row target.now.role target.now.slot }
    ensures others { B.tells → IsFilledAmong members.old target.now.role target.now.slot (IsTouched shape.now first count) (present (B.given bank.old) (B.tape bank.old)) (present (B.given bank.old) (B.tape bank.new)) }
    ensures safe { B.tells → (world : World) → (told : Ledger) → HasRoomLeft members.old (B.tape bank.old) (B.tape bank.new)
        → AreGoneTold told members.new → IsUncleanTold told members.old → IsSafeOver world (B.given bank.old) told members.old (B.tape bank.old)
        → KeepsSafe world (B.given bank.old) told members.new (B.tape bank.old) (B.tape bank.new) }
    ensures rows { vec_capacity rows.old ≤ vec_capacity rows.new }
    ensures buffer { length buffer.new.items ≡ length buffer.old.items }
{
    let read = read_touched(members, bank, shape, first, count, rows, buffer, true);
    let refusal = refused_by(read.answer, members, shape);
    if refusal.is_some() {
        return Filled { spares: 0, refusal };
    }
    let named = record_missing(members, bank);
    let refusal = too_many_of(members, shape);
    if refusal.is_some() {
        return Filled {
            spares: named,
            refusal,
        };
    }
    let bytes = buffer.as_mut_slice();
    let lost = fill_rows(members, bank, shape, target, rows.as_slice(), bytes);
    Filled {
        spares: named | lost,
        refusal: None,
    }
}

/// The slot that recovers the role, if one does.
pub fn recovering_slot(members: &Members, role: u32) -> Option<u32>
    requires { role < length members.now.roles }
    ensures some { IfSome result (λ slot. role_state (reading_of members.now) role ≡ IsRecovering slot) }
    ensures none { IfNone result ((slot : ℕ) → role_state (reading_of members.now) role ≡ IsRecovering slot → ⊥) }
{
    match members.roles.get(role) {
        Role::Recovering(slot) => Some(slot),
        Role::Whole(_) | Role::Missing => None,
    }
}

// Where the role's rows lie on the slot that recovers it.
fn target_of(members: &Members, role: u32, slot: u32) -> Target
    requires few { slot < 32 }
    requires still { is_reshaping members.now.newest ≡ false }
    ensures slot { result.slot ≡ slot }
    ensures role { result.role ≡ role }
    ensures offset { result.offset ≡ data_offset_of (reading_of members.now) slot }
    ensures held { result.held ≡ rows_held (reading_of members.now) (IsRecovering slot) }
{
    match members.own.get(slot) {
        Some(sb) => Target {
            slot,
            role,
            offset: sb.data_offset,
            held: sb.recovery_offset,
        },
        None => Target {
            slot,
            role,
            offset: 0,
            held: 0,
        },
    }
}

/// Rebuilds a stripe of a role on the slot that recovers it: reads its rows, a part of them at a time, and writes what
/// belongs to the role, where the slot doesn't hold it yet; what is lost in reading is named before the rows that were read are
/// written. It ends where more are missing than the array can do without, or that slot is lost.
pub fn fill<B: Bank>(
    members: &mut Members,
    bank: &mut B,
    shape: &Shape,
    role: u32,
    slot: u32,
    stripe: u64,
    rows: &mut Vec<u64>,
    buffer: &mut Vec<u8>,
) -> Filled
    requires stands { Stands (B.given bank.old) members.old }
    requires still { is_reshaping members.old.newest ≡ false }
    requires shape { shape.now ≡ shape_of members.old.newest }
    requires role { role < shape.now.disks }
    requires recovering { role_state (reading_of members.old) role ≡ IsRecovering slot }
    requires stripe { stripe < stripes_of members.old }
    requires rows { 128 ≤ vec_capacity rows.old }
    requires buffer { 1048576 ≤ length buffer.old.items }
    ensures keeps { KeepsMembers B.tells B.given B.tape B.faults_of bank.old bank.new members.old members.new result.spares }
    ensures refused { MatchOption result.refusal ⊤ (LacksTooMany shape.now members.new) }
    ensures clean { is_clean members.new.newest ≡ is_clean members.old.newest }
    ensures filled { result.refusal ≡ None → role_state (reading_of members.new) role ≡ IsRecovering slot → B.tells → (list : ℕ → Sector)
        → DataStandsAmong shape.now (IsOfStripe shape.now stripe) members.old (present (B.given bank.old) (B.tape bank.old)) list → RowsStandAmong shape.now (IsOfStripe shape.now stripe) members.old (present (B.given bank.old) (B.tape bank.old)) list
        → (row : ℕ) → IsOfStripe shape.now stripe row → rows_held (reading_of members.old) (IsRecovering slot) ≤ row
        → HasFull (reading_of members.new) (present (B.given bank.old) (B.tape bank.new)) shape.now list row role slot }
    ensures others { B.tells → IsFilledAmong members.old role slot (IsOfStripe shape.now stripe) (present (B.given bank.old) (B.tape bank.old)) (present (B.given bank.old) (B.tape bank.new)) }
    ensures safe { B.tells → (world : World) → (told : Ledger) → HasRoomLeft members.old (B.tape bank.old) (B.tape bank.new)
        → AreGoneTold told members.new → IsUncleanTold told members.old → IsSafeOver world (B.given bank.old) told members.old (B.tape bank.old)
        → KeepsSafe world (B.given bank.old) told members.new (B.tape bank.old) (B.tape bank.new) }
    ensures rows { vec_capacity rows.old ≤ vec_capacity rows.new }
    ensures buffer { length buffer.new.items ≡ length buffer.old.items }
{
    let target = target_of(members, role, slot);
    let chunk = shape.chunk as u64;
    let first = stripe * list_length(shape, chunk);
    let mut done = 0;
    let mut spares = 0;
    while done < chunk && recovering_slot(members, role).is_some() {
        let count = ROWS.min(chunk - done);
        let part = fill_part(
            members,
            bank,
            shape,
            &target,
            first + done,
            count,
            rows,
            buffer,
        );
        spares |= part.spares;
        if part.refusal.is_some() {
            return Filled {
                spares,
                refusal: part.refusal,
            };
        }
        done += count;
    }
    Filled {
        spares,
        refusal: None,
    }
}
