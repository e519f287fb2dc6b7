//! An array in a reshape is taken over from its superblocks.

ghost use Rattle.std.specs.Prelude.{◌≡◌, ◌⊎◌, ◌*◌, ◌^◌, ◌<◌, ◌≤◌, ℕ, [], false, true, length, vec_capacity, replicate, Some, None, IfOk, IfErr};
ghost use Rattle.array_create_assemble.specs.raid_types_Shapes.{has_slot};
ghost use Rattle.array_create_assemble.specs.bank_Given.{NeverFalls};
ghost use Rattle.array_create_assemble.specs.sb_specs_Reading.{is_reshaping, role_count, holder, role_state};
ghost use Rattle.array_steps.specs.stripe_row_Rows.{reading_of};
ghost use Rattle.array_create_assemble.specs.history_Stands.{reach_of};
ghost use Rattle.array_steps.specs.crash_views_Regions.{AreShapesFit};
ghost use Rattle.array_create_assemble.specs.array_members_Flushing.{OnlyItsSlotsFail};
ghost use Rattle.array_steps.specs.array_reshaping_state_Due.{unsure_in};
ghost use Rattle.array_steps.specs.array_reshaping_laws_Ready.{bytes_in};
ghost use Rattle.array_reshaping_open_laws.specs.Opening.{AreOpenedMoving, IsOpenedMoving};
ghost use Rattle.array_open.specs.Adopted.{moving_work, IsMovingAdopted, IsNotAdopted};

use array_create_assemble::{Bank, Epoch, Fault, Members, Refusal, Work, is_clean, unit};
use array_reshaping_open_laws::{PhasesLeft, Window, find_window, lose_recovering};
use array_steps::{
    Array, Course, Pieces, Room, append_absent, final_in, found_numbers, list_sectors, room_for,
    shape_in, zeros,
};
use std::alloc::Global;

// The sectors that a window of the reshape has at most.
fn longest_window(members: &Members) -> u64
    requires fit { AreShapesFit members.now.newest }
    ensures reach { result ≡ reach_of members.now.newest }
    ensures short { result ≤ 2 ^ 53 }
{
    let unit = unit(&shape_in(members), &final_in(members));
    list_sectors(members).min(unit)
}

// What is under way beside the reshape: a resync where the array is dirty. No role is rebuilt.
fn moving_work(members: &Members) -> Work
    ensures work { result ≡ moving_work members.now }
    ensures slots { length members.now.own ≡ 32 }
{
    let resync = if is_clean(&members.newest) {
        None
    } else {
        Some(0)
    };
    Work {
        resync,
        rebuilt: [0; 16],
        carried: found_numbers(members),
    }
}

// The array begins at this mark, by its superblocks and its window, whose section's sectors are the first ones of the buffer.
fn begin_moving<B: Bank>(
    alloc: Global,
    bank: B,
    first: u64,
    backup: u32,
    members: Members,
    given: u32,
    near: Room,
    far: Room,
    found: Window,
    window: Vec<u8>,
) -> Array<B>
    requires opened { IsOpenedMoving B.tells (B.given bank) (B.tape bank) given backup members found (bytes_in found window.items) }
    requires sure { unsure_in found ≡ None }
    requires first { B.tells → first ≡ length (B.tape bank) }
    requires failed { (slot : ℕ) → slot < (B.given bank).slots → has_slot given slot ≡ false → 0 < B.faults_of bank slot }
    requires empty { near.entries.items ≡ [] }
    requires room { 17 ≤ near.entries.room }
    requires rows { 128 ≤ vec_capacity near.rows }
    requires buffer { length near.buffer.items ≡ 1048576 }
    requires far_rows { 128 ≤ vec_capacity far.rows }
    requires far_buffer { length far.buffer.items ≡ 1048576 }
    requires wide { 512 * reach_of members.newest ≤ length window.items }
    ensures adopted { IsMovingAdopted B.tells (B.given bank) (B.tape bank) given backup members result }
    ensures bank { result.parts.bank ≡ bank }
    ensures active { is_reshaping result.parts.members.newest ≡ true }
{
    let mut members = members;
    let _ = lose_recovering(&mut members);
    let mut epoch = Epoch {
        uuid: members.newest.set_uuid,
        given,
        first,
        last: first,
        entries: near.entries,
    };
    let count = members.roles.len() as u32;
    append_absent(&mut epoch, &members, first, count);
    let work = moving_work(&members);
    let ahead = PhasesLeft {
        next: None,
        last: None,
    };
    let pieces = Pieces {
        alloc,
        bank,
        epoch,
        backup: Some(backup),
        members,
        work,
        ahead,
        limit: None,
        steps: 0,
        rows: near.rows,
        buffer: near.buffer,
        far_rows: far.rows,
        far_buffer: far.buffer,
    };
    let course = Course {
        window: found,
        zeroed: 0,
    };
    Array::of_reshaping(pieces, backup, course, window)
}

/// Takes an array over whose superblocks, found in the slots of the bank, tell an active reshape with its backup in the slot `backup`.
/// The slots that recover a role count as absent, and its first entries tell the roles that aren't whole. Its window is the one that the
/// backup names, of which nothing is copied; a resync is pending where the array is dirty; and it has no plan behind the reshape. It writes
/// nothing.
///
/// Refused, the bank is handed back: `NoMemory` before any device call, and `BackupAbsent` where a read of the backup failed, which then
/// counts as absent.
pub fn adopt_reshaping<B: Bank>(
    alloc: Global,
    bank: B,
    backup: u32,
    members: Members,
    given: u32,
) -> Result<Array<B>, (B, Fault)>
    requires opened { AreOpenedMoving B.tells (B.given bank) (B.tape bank) given backup members }
    requires slot { backup < (B.given bank).slots }
    requires failed { (slot : ℕ) → slot < (B.given bank).slots → has_slot given slot ≡ false → 0 < B.faults_of bank slot }
    ensures adopted { IfOk result (λ made. IsMovingAdopted B.tells (B.given bank) (B.tape bank) given backup members made) }
    ensures active { IfOk result (λ made. is_reshaping made.parts.members.newest ≡ true) }
    ensures refused { IfErr result (λ e. IsNotAdopted backup bank e.0 (B.faults_of bank) (B.faults_of e.0) e.1) }
    ensures tape { IfOk result (λ made. B.tells → B.tape made.parts.bank ≡ B.tape bank) }
    ensures left_tape { IfErr result (λ e. B.tells → B.tape e.0 ≡ B.tape bank) }
    ensures given { IfOk result (λ made. B.given made.parts.bank ≡ B.given bank) }
    ensures left_given { IfErr result (λ e. B.given e.0 ≡ B.given bank) }
    ensures counts { IfOk result (λ made. OnlyItsSlotsFail (B.given bank) (B.faults_of bank) (B.faults_of made.parts.bank)) }
    ensures left_counts { IfErr result (λ e. OnlyItsSlotsFail (B.given bank) (B.faults_of bank) (B.faults_of e.0)) }
{
    let mut bank = bank;
    let near = match room_for(alloc) {
        Ok(near) => near,
        Err(_) => return Err((bank, Fault::NoMemory)),
    };
    let far = match room_for(alloc) {
        Ok(far) => far,
        Err(_) => return Err((bank, Fault::NoMemory)),
    };
    let long = 512 * longest_window(&members) as usize;
    let mut window = match zeros(alloc, long) {
        Ok(window) => window,
        Err(fault) => return Err((bank, fault)),
    };
    let found = match find_window(&members, &mut bank, backup, &mut window) {
        Ok(found) => found,
        Err(_) => return Err((bank, Fault::Refused(Refusal::BackupAbsent))),
    };
    let first = bank.ops();
    let array = begin_moving(
        alloc, bank, first, backup, members, given, near, far, found, window,
    );
    Ok(array)
}
