//! An array that is found in a bank's slots, and runs.

ghost use Rattle.std.specs.Prelude.{◌≡◌, ◌<◌, ◌≤◌, ℕ, [], false, length, Some, None, IfOk, IfErr, IfSome};
ghost use Rattle.array_create_assemble.specs.raid_types_the_Fault_TheVariants.{NoMemory as WantsMemory};
ghost use Rattle.array_create_assemble.specs.raid_types_Shapes.{has_slot};
ghost use Rattle.array_create_assemble.specs.bank_Tape.{contents};
ghost use Rattle.array_create_assemble.specs.sb_specs_Reads.{has_spare};
ghost use Rattle.array_steps.specs.stripe_row_Rows.{present};
ghost use Rattle.array_create_assemble.specs.array_members_Flushing.{OnlyFlushesAdded, OnlyItsSlotsFail};
ghost use Rattle.array_create_assemble.specs.array_members_Rebuilding.{Held};
ghost use Rattle.array_steps.specs.array_call_specs_Kept.{scope_in};
ghost use Rattle.array_steps.specs.array_call_specs_Adopting.{IsAdoptable, IsAdopted};
ghost use Rattle.array_reshaping_open_laws.specs.reshape_request_Left.{phases_of};
ghost use Rattle.array_create_assemble.specs.Opening.{HasFoundNone};
ghost use Rattle.array_reshaping_open_laws.specs.Opening.{AreOpenedMoving};
ghost use Rattle.array_open.specs.Adopted.{IsMovingAdopted, IsNotAdopted};
ghost use Rattle.array_open.specs.Found.{IsRunningFound};

use crate::adopting::adopt_reshaping;
use array_create_assemble::{Bank, Fault, Opened, find, is_reshaping};
use array_steps::{Opened as OpenedAtRest, Running, adopt};
use std::alloc::Global;

// The array runs that has no active reshape, and whose backup holds no role and is no spare.
pub(crate) fn run_still<B: Bank>(
    alloc: Global,
    bank: B,
    backup: Option<u32>,
    found: Opened,
) -> Result<Running<B>, (B, Fault)>
    requires adoptable { IsAdoptable B.tells (B.given bank) (B.tape bank) (scope_in (B.given bank) found.members.newest.set_uuid found.given backup) found.members }
    requires failed { (slot : ℕ) → slot < (B.given bank).slots → has_slot found.given slot ≡ false → 0 < B.faults_of bank slot }
    requires aside { (slot : ℕ) → backup ≡ Some slot → (has_spare found.members.spares slot ≡ false) × ((role : ℕ) → Held found.members role slot → ⊥) }
    ensures run { IfOk result (λ run. IsAdopted B.tells bank (B.tape bank) found.given backup found.members run.parts) }
    ensures planless { IfOk result (λ run. phases_of run.ahead ≡ []) }
    ensures unlimited { IfOk result (λ run. run.limit ≡ None) }
    ensures handed_back { IfErr result (λ e. e.0 ≡ bank) }
    ensures short { IfErr result (λ e. e.1 ≡ WantsMemory) }
{
    let Opened { members, given } = found;
    let opened = OpenedAtRest {
        backup,
        members,
        given,
    };
    match adopt(alloc, bank, opened) {
        Ok(array) => Ok(Running::at_rest(alloc, array)),
        Err((bank, _)) => Err((bank, Fault::NoMemory)),
    }
}

// The array runs in which a reshape is active.
fn run_moving<B: Bank>(
    alloc: Global,
    bank: B,
    backup: u32,
    found: Opened,
) -> Result<Running<B>, (B, Fault)>
    requires opened { AreOpenedMoving B.tells (B.given bank) (B.tape bank) found.given backup found.members }
    requires slot { backup < (B.given bank).slots }
    requires failed { (slot : ℕ) → slot < (B.given bank).slots → has_slot found.given slot ≡ false → 0 < B.faults_of bank slot }
    ensures run { IfOk result (λ run. IsMovingAdopted B.tells (B.given bank) (B.tape bank) found.given backup found.members run) }
    ensures refused { IfErr result (λ e. IsNotAdopted backup bank e.0 (B.faults_of bank) (B.faults_of e.0) e.1) }
    ensures tape { IfOk result (λ run. B.tells → B.tape run.parts.bank ≡ B.tape bank) }
    ensures left_tape { IfErr result (λ e. B.tells → B.tape e.0 ≡ B.tape bank) }
    ensures given { IfOk result (λ run. B.given run.parts.bank ≡ B.given bank) }
    ensures left_given { IfErr result (λ e. B.given e.0 ≡ B.given bank) }
    ensures counts { IfOk result (λ run. OnlyItsSlotsFail (B.given bank) (B.faults_of bank) (B.faults_of run.parts.bank)) }
    ensures left_counts { IfErr result (λ e. OnlyItsSlotsFail (B.given bank) (B.faults_of bank) (B.faults_of e.0)) }
{
    let Opened { members, given } = found;
    match adopt_reshaping(alloc, bank, backup, members, given) {
        Ok(array) => Ok(Running::in_reshape(alloc, array)),
        Err(refused) => Err(refused),
    }
}

/// Opens the array with this uuid, or without one that of the first superblock in a member slot, which are all slots but
/// the backup, and runs it, in a reshape or not as its superblocks tell; its first entries tell the roles that aren't whole,
/// and it has neither a plan nor a limit of its visible size. The superblocks are read, and all slots are flushed, so that a stop leaves what they hold; where a
/// reshape is active, the section in the backup is read too. A slot that fails counts as absent. It writes nothing. It is
/// refused for the first cause that what the slots hold gives, with the bank handed back.
pub fn open_running<B: Bank>(
    alloc: Global,
    bank: B,
    backup: Option<u32>,
    uuid: Option<[u8; 16]>,
) -> Result<Running<B>, (B, Fault)>
    requires few { (B.given bank).slots ≤ 32 }
    requires backup { IfSome backup (λ slot. slot < (B.given bank).slots) }
    ensures found { IfOk result (λ found. IsRunningFound B.tells (B.given bank) (B.tape found.parts.bank) backup uuid (B.faults_of bank) (B.faults_of found.parts.bank) found) }
    ensures refused { IfErr result (λ e. HasFoundNone B.tells (B.given bank) (present (B.given bank) (B.tape bank)) backup uuid (B.faults_of bank) (B.faults_of e.0) e.1) }
    ensures tape { IfOk result (λ found. B.tells → OnlyFlushesAdded (B.tape bank) (B.tape found.parts.bank)) }
    ensures left_tape { IfErr result (λ e. B.tells → OnlyFlushesAdded (B.tape bank) (B.tape e.0)) }
    ensures contents { IfOk result (λ found. B.tells → let start = (B.given bank).start in
        contents start (B.tape found.parts.bank) (length (B.tape found.parts.bank)) ≡ contents start (B.tape bank) (length (B.tape bank))) }
    ensures left_contents { IfErr result (λ e. B.tells → let start = (B.given bank).start in
        contents start (B.tape e.0) (length (B.tape e.0)) ≡ contents start (B.tape bank) (length (B.tape bank))) }
    ensures given { IfOk result (λ found. B.given found.parts.bank ≡ B.given bank) }
    ensures left_given { IfErr result (λ e. B.given e.0 ≡ B.given bank) }
    ensures counts { IfOk result (λ found. OnlyItsSlotsFail (B.given bank) (B.faults_of bank) (B.faults_of found.parts.bank)) }
    ensures left_counts { IfErr result (λ e. OnlyItsSlotsFail (B.given bank) (B.faults_of bank) (B.faults_of e.0)) }
{
    let mut bank = bank;
    let found = match find(alloc, &mut bank, backup, uuid) {
        Err(fault) => return Err((bank, fault)),
        Ok(found) => found,
    };
    if is_reshaping(&found.members.newest) {
        let Some(slot) = backup else { unreachable!() };
        run_moving(alloc, bank, slot, found)
    } else {
        run_still(alloc, bank, backup, found)
    }
}
