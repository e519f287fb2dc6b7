//! An unsure window: the header of its section is tried again.

ghost use Rattle.array_type.specs.sb_specs_Reading.{is_reshaping};
ghost use Rattle.std.specs.Prelude.{◌≡◌, ◌≢◌, ◌+◌, ◌<◌, ◌≤◌, Err, IfSome, true};
ghost use Rattle.array_type.specs.raid_types_the_Fault_TheVariants.{Refused as IsRefusedWith};
ghost use Rattle.array_type.specs.raid_types_the_Refusal_TheVariants.{BackupFault};
ghost use Rattle.array_type.specs.raid_types_the_Span.{Span};
ghost use Rattle.array_type.specs.bank_Given.{IsFaulted};
ghost use Rattle.array_type.specs.reshape_request_the_Window_TheVariants.{Unsure as IsUnsureWindow};
ghost use Rattle.array_type.specs.history_invariant_Recorded.{IsCallGoing};
ghost use Rattle.array_type.specs.array_specs_Calls.{IsCalled};
ghost use Rattle.array_type.specs.array_reshaping_laws_Writing.{IsRefusedAlone};

use array_type::{
    Array, Bank, Event, Fault, Refusal, Who, append_entry, check_going, clear_window,
};

/// Tries to make the header of an unsure window plain. It is refused `BackupFault`, and nothing is written: the backup failed when the
/// header was written, and a slot that failed once fails again.
pub fn clear<B: Bank>(moving: &mut Array<B>, who: Who) -> Result<(), Fault>
    requires open { IsCallGoing moving.old.parts.entries who }
    requires caller { who.caller ≢ 254 }
    requires room { 1 ≤ moving.old.parts.steps }
    requires unsure { (span : Span) × (moving.old.course.window ≡ IsUnsureWindow span) }
    requires active { is_reshaping moving.old.parts.members.newest ≡ true }
    ensures refused { result ≡ Err (IsRefusedWith BackupFault) }
    ensures alone { IsRefusedAlone who moving.old.parts.entries moving.new.parts.entries result }
    ensures called { IsCalled B.tells (B.given moving.old.parts.bank) (B.tape moving.old.parts.bank) (B.tape moving.new.parts.bank) (B.faults_of moving.old.parts.bank) (B.faults_of moving.new.parts.bank) moving.old moving.new }
    ensures members { moving.new.parts.members ≡ moving.old.parts.members }
    ensures backup { IfSome moving.old.parts.backup (λ slot. IsFaulted slot (B.faults_of moving.old.parts.bank) (B.faults_of moving.new.parts.bank)) }
    ensures course { moving.new.course ≡ moving.old.course }
    ensures room { moving.new.parts.steps + 1 ≡ moving.old.parts.steps }
    ensures active { is_reshaping moving.new.parts.members.newest ≡ true }
    ensures given { B.given moving.new.parts.bank ≡ B.given moving.old.parts.bank }
{
    let backup = moving.backup_slot();
    moving.steps -= 1;
    check_going(&moving.epoch.entries, who);
    let Err(_) = clear_window(&mut moving.bank, backup, &moving.epoch.uuid) else {
        unreachable!()
    };
    let refusal = Refusal::BackupFault;
    let end = moving.bank.ops();
    append_entry(&mut moving.epoch, who, end, Event::Refused { refusal });
    Err(Fault::Refused(refusal))
}
