//! Writes that touch an unsure window.

ghost use Rattle.std.specs.Prelude.{◌≡◌, ◌≢◌, ◌+◌, ◌<◌, ◌≤◌, ◌^◌, ◌/◌, length, Err, IfSome, IsErr, true};
ghost use Rattle.array_reshaping_steps.specs.raid_types_Sectors.{sectors_of};
ghost use Rattle.array_reshaping_steps.specs.raid_types_the_Fault_TheVariants.{Refused as IsRefusedWith};
ghost use Rattle.array_reshaping_steps.specs.raid_types_the_Refusal_TheVariants.{BackupFault};
ghost use Rattle.array_reshaping_steps.specs.bank_Given.{IsFaulted};
ghost use Rattle.array_reshaping_steps.specs.sb_specs_Reading.{list_length, is_reshaping};
ghost use Rattle.array_reshaping_steps.specs.history_Flat.{next_number};
ghost use Rattle.array_reshaping_steps.specs.array_members_Lacking.{HaveRolesFailed};
ghost use Rattle.array_reshaping_steps.specs.array_call_specs_Calls.{IsCausedBy, OnNoMemory};
ghost use Rattle.array_reshaping_steps.specs.history_invariant_Recorded.{IsCallGoing};
ghost use Rattle.array_reshaping_steps.specs.stripe_region_resync_Resyncs.{relied_sector};
ghost use Rattle.array_reshaping_steps.specs.array_specs_Calls.{IsCalled};
ghost use Rattle.array_reshaping_steps.specs.array_specs_Parts.{visible_in, left_in};
ghost use Rattle.array_reshaping_steps.specs.array_reshaping_laws_Refusing.{first_refusal, IsFirstFor};
ghost use Rattle.array_reshaping_steps.specs.array_reshaping_laws_Writing.{TouchesUnsure, IsWriteBarred, IsRefusedAlone, IsWriteEntered, IsWriteReplied};

use crate::writing::unwritten_here;
use array_reshaping_steps::{
    Array, Bank, Event, Fault, Who, append_entry, check_going, clear, open_span, relied_sector,
};

// Refuses a write of so many sectors, of which some lie in an unsure window: for what speaks against a write beside it, or for the backup.
fn refuse_write<B: Bank>(moving: &mut Array<B>, who: Who, at: u64, count: u64) -> Result<(), Fault>
    requires open { IsCallGoing moving.old.parts.entries who }
    requires caller { who.caller ≢ 254 }
    requires room { 1 ≤ moving.old.parts.steps }
    requires some { 0 < count }
    requires short { at + count < 2 ^ 63 }
    requires touches { TouchesUnsure moving.old.course.window at (at + count) }
    requires active { is_reshaping moving.old.parts.members.newest ≡ true }
    ensures alone { IsRefusedAlone who moving.old.parts.entries moving.new.parts.entries result }
    ensures called { IsCalled B.tells (B.given moving.old.parts.bank) (B.tape moving.old.parts.bank) (B.tape moving.new.parts.bank) (B.faults_of moving.old.parts.bank) (B.faults_of moving.new.parts.bank) moving.old moving.new }
    ensures caused { IsCausedBy (visible_in moving.old) (at + count)
        (IsWriteBarred moving.old.course.window (relied_sector moving.old.parts.members.newest moving.old.parts.work.resync) at (at + count)) moving.old.parts.members moving.new.parts.members result }
    ensures first { IsFirstFor (first_refusal moving.old at count) result }
    ensures members { moving.new.parts.members ≡ moving.old.parts.members }
    ensures backup { result ≡ Err (IsRefusedWith BackupFault) → IfSome moving.old.parts.backup (λ slot. IsFaulted slot (B.faults_of moving.old.parts.bank) (B.faults_of moving.new.parts.bank)) }
    ensures course { moving.new.course ≡ moving.old.course }
    ensures active { is_reshaping moving.new.parts.members.newest ≡ true }
    ensures given { B.given moving.new.parts.bank ≡ B.given moving.old.parts.bank }
{
    let window = open_span(&moving.course);
    let relied = relied_sector(&moving.members, moving.work.resync);
    if let Some(refusal) = unwritten_here(
        &moving.members,
        window,
        moving.limit,
        relied,
        at,
        count,
    ) {
        moving.steps -= 1;
        check_going(&moving.epoch.entries, who);
        let end = moving.bank.ops();
        append_entry(&mut moving.epoch, who, end, Event::Refused { refusal });
        return Err(Fault::Refused(refusal));
    }
    clear(moving, who)
}

// Refuses a write of whose sectors some lie in an unsure window, once there is room for its entry.
pub(crate) fn bar_write<B: Bank>(
    moving: &mut Array<B>,
    who: Who,
    at: u64,
    from: &[u8],
) -> Result<(), Fault>
    requires next { who.number ≡ next_number who.caller moving.old.parts.entries }
    requires caller { who.caller ≢ 254 }
    requires some { 0 < length from.now / 512 }
    requires short { at + length from.now / 512 < 2 ^ 63 }
    requires touches { TouchesUnsure moving.old.course.window at (at + length from.now / 512) }
    requires active { is_reshaping moving.old.parts.members.newest ≡ true }
    ensures refused { IsErr result }
    ensures replied { IsWriteReplied (list_length moving.old.parts.members.newest) at (sectors_of from.now) who moving.old.parts.entries moving.new.parts.entries result }
    ensures entered { IsWriteEntered moving.old.course.window at (at + length from.now / 512) (sectors_of from.now) who moving.old.parts.entries moving.new.parts.entries (left_in moving.new.parts.work moving.new.parts.members moving.new.course moving.new.ahead) result }
    ensures unchanged { OnNoMemory result (moving.new ≡ moving.old) }
    ensures called { IsCalled B.tells (B.given moving.old.parts.bank) (B.tape moving.old.parts.bank) (B.tape moving.new.parts.bank) (B.faults_of moving.old.parts.bank) (B.faults_of moving.new.parts.bank) moving.old moving.new }
    ensures caused { IsCausedBy (visible_in moving.old) (at + length from.now / 512)
        (IsWriteBarred moving.old.course.window (relied_sector moving.old.parts.members.newest moving.old.parts.work.resync) at (at + length from.now / 512)) moving.old.parts.members moving.new.parts.members result }
    ensures first { IsFirstFor (first_refusal moving.old at (length from.now / 512)) result }
    ensures failed { HaveRolesFailed moving.old.parts.members moving.new.parts.members (B.faults_of moving.old.parts.bank) (B.faults_of moving.new.parts.bank) }
    ensures backup { result ≡ Err (IsRefusedWith BackupFault) → IfSome moving.old.parts.backup (λ slot. IsFaulted slot (B.faults_of moving.old.parts.bank) (B.faults_of moving.new.parts.bank)) }
    ensures course { moving.new.course ≡ moving.old.course }
    ensures active { is_reshaping moving.new.parts.members.newest ≡ true }
    ensures given { B.given moving.new.parts.bank ≡ B.given moving.old.parts.bank }
{
    match moving.epoch.entries.make_room(101) {
        Ok(()) => {}
        Err(_) => return Err(Fault::NoMemory),
    }
    moving.steps = 2;
    refuse_write(moving, who, at, (from.len() / 512) as u64)
}
