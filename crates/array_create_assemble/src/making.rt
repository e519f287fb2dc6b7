//! An array is made in the first slots of a bank.

ghost use Rattle.std.specs.Prelude.{◌≡◌, ◌≢◌, ◌+◌, ◌<◌, ◌≤◌, ◌^◌, [], ℕ, length, nat_lt, replicate, Some, None, Ok, Err, IfOk, OnOk, IfErr};
ghost use Rattle.array_found_laws.specs.raid_types_Shapes.{has_slot};
ghost use Rattle.array_found_laws.specs.raid_types_Search.{tabulate};
ghost use Rattle.bank.specs.raid_types_the_Fault_TheVariants.{Refused as IsRefused, NoMemory as WantsMemory};
ghost use Rattle.array_found_laws.specs.raid_types_the_Refusal_TheVariants.{UuidInUse as IsInUse};
ghost use Rattle.array_found_laws.specs.raid_types_the_Role_TheVariants.{Whole};
ghost use Rattle.array_found_laws.specs.raid_types_the_Refusal.{Refusal as AnyRefusal};
ghost use Rattle.bank.specs.Given.{IsFaulted};
ghost use Rattle.bank.specs.Tape.{contents};
ghost use Rattle.array_found_laws.specs.sb_specs_Writing.{AreWritable};
ghost use Rattle.array_found_laws.specs.sb_specs_Found.{AreInSectors};
ghost use Rattle.sb_add_spare.specs.array_members_Flushing.{OnlyFlushesAdded, OnlyItsSlotsFail};
ghost use Rattle.sb_add_spare.specs.stripe_row_Rows.{present};
ghost use Rattle.array_create_assemble.specs.Opening.{scope_of, AreGiven, AreFlushed, IsOpened};
ghost use Rattle.array_create_assemble.specs.Creating.{IsLastSlot, HasRoom, create_refusal};
ghost use Rattle.array_create_assemble.specs.Filling.{OnlyBelow, AreFilled, AreStored, AreZeros, AreSlotsDone, OnlyFirstFail};
ghost use Rattle.array_create_assemble.specs.Made.{used_slot, IsNew, HasLateCause, HasCreateCause};

use crate::creating::refusal_of_create;
use crate::lists::{Lists, new_lists};
use crate::opening::Opened;
use crate::slots::look;
use crate::spec::CreateSpec;
use crate::storing::store_members;
use crate::used::{first_slot, used_slot};
use crate::zeros::zero_members;
use array_found_laws::Refusal;
use bank::{Bank, Fault};
use sb_election::Members;
use std::alloc::Global;

// The lists, and a bit for each slot of the bank.
#[derive(Drop)]
struct Ready {
    lists: Lists,
    given: u32,
}

// Reads the superblocks of all member slots and flushes all slots, refuses a slot that holds the array already, takes the
// memory for the members, and refuses a slot that has failed.
fn begin<B: Bank>(
    alloc: Global,
    bank: &mut B,
    backup: Option<u32>,
    spec: &CreateSpec,
) -> Result<Ready, Fault>
    requires slots { (B.given bank.old).slots ≤ 32 }
    requires disks { spec.now.shape.disks ≤ 16 }
    ensures own { IfOk result (λ ready. ready.lists.own ≡ replicate 32 None) }
    ensures roles { IfOk result (λ ready. ready.lists.roles ≡ tabulate spec.now.shape.disks (λ role. Whole role)) }
    ensures spares { IfOk result (λ ready. ready.lists.spares ≡ []) }
    ensures all { IfOk result (λ ready. (s : ℕ) → has_slot ready.given s ≡ nat_lt s (B.given bank.old).slots) }
    ensures sound { IfOk result (λ ready. AreGiven (B.given bank.old) ready.given (B.faults_of bank.old) (B.faults_of bank.new)) }
    ensures free { IfOk result (λ ready. B.tells → used_slot (scope_of (B.given bank.old) backup ready.given spec.now.uuid)
        (present (B.given bank.old) (B.tape bank.old)) spec.now.shape.disks ≡ None) }
    ensures flushed { IfOk result (λ ready. B.tells → AreFlushed (B.given bank.old).start (B.tape bank.new) ready.given) }
    ensures cause { IfErr result (HasLateCause B.tells (B.given bank.old) (present (B.given bank.old) (B.tape bank.old)) backup spec.now
        (B.faults_of bank.old) (B.faults_of bank.new)) }
    ensures tape { B.tells → OnlyFlushesAdded (B.tape bank.old) (B.tape bank.new) }
    ensures given { B.given bank.new ≡ B.given bank.old }
    ensures counts { OnlyItsSlotsFail (B.given bank.old) (B.faults_of bank.old) (B.faults_of bank.new) }
{
    let found = match look(alloc, bank, backup) {
        Err(_) => return Err(Fault::NoMemory),
        Ok(found) => found,
    };
    let disks = spec.shape.disks;
    let uuid = spec.uuid;
    match used_slot(&found.seen, &uuid, disks, bank.slots()) {
        Some(slot) => return Err(Fault::Refused(Refusal::UuidInUse(slot))),
        None => {}
    }
    let lists = match new_lists(alloc, disks) {
        Err(_) => return Err(Fault::NoMemory),
        Ok(lists) => lists,
    };
    match first_slot(found.lost) {
        Some(slot) => Err(Fault::Refused(Refusal::SlotFault(slot))),
        None => Ok(Ready {
            lists,
            given: found.given,
        }),
    }
}

// Writes the members. An Err is the slot that failed.
fn fill<B: Bank>(bank: &mut B, spec: &CreateSpec, lists: Lists) -> Result<Members, u32>
    requires disks { spec.now.shape.disks ≤ 16 }
    requires some { 1 ≤ spec.now.shape.disks }
    requires known { spec.now.shape.disks ≤ (B.given bank.old).slots }
    requires within { (slot : ℕ) → slot < spec.now.shape.disks → spec.now.offset + spec.now.size ≤ (B.given bank.old).sectors slot }
    requires behind { 16 ≤ spec.now.offset }
    requires short { spec.now.offset + spec.now.size < 2 ^ 63 }
    requires own { lists.own ≡ replicate 32 None }
    requires roles { lists.roles ≡ tabulate spec.now.shape.disks (λ role. Whole role) }
    requires spares { lists.spares ≡ [] }
    ensures members { IfOk result (AreFilled (B.given bank.old) spec.now) }
    ensures stored { IfOk result (λ members. B.tells →
        AreStored (B.given bank.old) spec.now.shape.disks members.own (present (B.given bank.old) (B.tape bank.new))) }
    ensures zeros { OnOk result (B.tells → AreZeros spec.now.shape.disks spec.now (present (B.given bank.old) (B.tape bank.new))) }
    ensures done { OnOk result (B.tells → AreSlotsDone (B.given bank.old).start spec.now.shape.disks (B.tape bank.old) (B.tape bank.new)) }
    ensures tape { B.tells → OnlyBelow spec.now.shape.disks (B.tape bank.old) (B.tape bank.new) }
    ensures given { B.given bank.new ≡ B.given bank.old }
    ensures counts { OnlyFirstFail spec.now.shape.disks (B.faults_of bank.old) (B.faults_of bank.new) }
    ensures cause { IfErr result (λ slot. (slot < spec.now.shape.disks) × IsFaulted slot (B.faults_of bank.old) (B.faults_of bank.new)) }
{
    match zero_members(bank, spec) {
        Err(slot) => return Err(slot),
        Ok(()) => {}
    }
    let Lists {
        mut own,
        roles,
        spares,
    } = lists;
    match store_members(bank, spec, &mut own) {
        Err(slot) => Err(slot),
        Ok(newest) => Ok(Members {
            newest,
            own,
            roles,
            spares,
            lost: 0,
        }),
    }
}

/// Makes an array in the first slots of a bank: zeros in the rows of each member, flushed, and then its superblock,
/// flushed. It is refused for the first cause that needs no device call (`refusal_of_create`); else `UuidInUse` with the
/// lowest slot that it wouldn't write and that holds the array already; else `SlotFault` with a slot that failed.
/// `NoMemory` comes before anything is written. First it reads the superblocks of all slots but the backup and flushes all
/// slots, so that a stop leaves no older superblock of the array. The backup, if there is one, is the last slot. No slot
/// behind the members is written.
pub fn make<B: Bank>(
    alloc: Global,
    bank: &mut B,
    backup: Option<u32>,
    spec: &CreateSpec,
) -> Result<Opened, Fault>
    requires slots { (B.given bank.old).slots ≤ 32 }
    requires backup { IsLastSlot (B.given bank.old).slots backup }
    ensures opened { let slots = B.given bank.old in let tape = B.tape bank.new in
        IfOk result (λ opened. IsOpened B.tells slots (contents slots.start tape (length tape)) backup (Some spec.now.uuid) opened) }
    ensures new { IfOk result (IsNew (B.given bank.old) spec.now) }
    ensures unrefused { IfOk result (λ opened. create_refusal (B.given bank.old) backup spec.now ≡ None) }
    ensures zeros { OnOk result (B.tells → AreZeros spec.now.shape.disks spec.now (present (B.given bank.old) (B.tape bank.new))) }
    ensures given { IfOk result (λ opened. AreGiven (B.given bank.old) opened.given (B.faults_of bank.old) (B.faults_of bank.new)) }
    ensures writable { IfOk result (λ opened. AreWritable (B.given bank.old) opened.members.own) }
    ensures sectors { IfOk result (λ opened. B.tells → AreInSectors (present (B.given bank.old) (B.tape bank.new)) opened.members.own) }
    ensures flushed { IfOk result (λ opened. B.tells → AreFlushed (B.given bank.old).start (B.tape bank.new) opened.given) }
    ensures free { IfOk result (λ opened. B.tells → used_slot (scope_of (B.given bank.old) backup opened.given spec.now.uuid)
        (present (B.given bank.old) (B.tape bank.old)) spec.now.shape.disks ≡ None) }
    ensures refused { IfErr result (HasCreateCause B.tells (B.given bank.old) (present (B.given bank.old) (B.tape bank.old)) backup spec.now
        (B.faults_of bank.old) (B.faults_of bank.new)) }
    ensures untouched { (refusal : AnyRefusal) → create_refusal (B.given bank.old) backup spec.now ≡ Some refusal → bank.new ≡ bank.old }
    ensures unwritten { (slot : ℕ) → result ≡ Err (IsRefused (IsInUse slot)) → B.tells → OnlyFlushesAdded (B.tape bank.old) (B.tape bank.new) }
    ensures short { result ≡ Err WantsMemory → B.tells → OnlyFlushesAdded (B.tape bank.old) (B.tape bank.new) }
    ensures tape { B.tells → OnlyBelow spec.now.shape.disks (B.tape bank.old) (B.tape bank.new) }
    ensures slots { B.given bank.new ≡ B.given bank.old }
    ensures counts { OnlyItsSlotsFail (B.given bank.old) (B.faults_of bank.old) (B.faults_of bank.new) }
{
    match refusal_of_create(bank, backup, spec) {
        Some(refusal) => return Err(Fault::Refused(refusal)),
        None => {}
    }
    let ready = match begin(alloc, bank, backup, spec) {
        Err(fault) => return Err(fault),
        Ok(ready) => ready,
    };
    let given = ready.given;
    match fill(bank, spec, ready.lists) {
        Err(slot) => Err(Fault::Refused(Refusal::SlotFault(slot))),
        Ok(members) => Ok(Opened { members, given }),
    }
}
