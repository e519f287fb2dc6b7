//! A slot's superblock is looked at, while an array runs or none does.

ghost use Rattle.std.specs.Prelude.{◌≡◌, true, false};
ghost use Rattle.run_requests.specs.bank_Given.{NeverFalls};
ghost use Rattle.run_requests.specs.array_members_Moving.{Grows};
ghost use Rattle.run_requests.specs.raid_types_the_Refusal_TheVariants.{NoSuchSlot};
ghost use Rattle.run_requests.specs.script_the_Line_TheVariants.{Examine as AsksExamine};
ghost use Rattle.run_requests.specs.run_specs_Ended.{IsRunKept};
ghost use Rattle.run_requests.specs.run_specs_Examining.{told_of};
ghost use Rattle.run_requests.specs.run_specs_Making.{setting_of};
ghost use Rattle.run_requests.specs.run_specs_States.{histories_in, bank_in, RunsOwn, IsTurnOrNone};
ghost use Rattle.run_requests.specs.run_specs_Written.{IsWrittenBy};
ghost use Rattle.run_requests.specs.run_specs_the_Answered_TheVariants.{Outside as AnsweredOutside};
ghost use Rattle.run_requests.specs.run_specs_the_Outside_TheVariants.{Refused as IsRefused};
ghost use Rattle.run_requests.specs.run_specs_the_State_TheVariants.{Idle as IsIdle, Running as IsRunning};

use run_requests::{
    Answered, Bank, BankFault, Epoch, NoMemory, Outside, Refusal, Running, Sb, State,
    read_superblock,
};

// What is answered where the slot was looked at.
fn told(slot: u32, found: Result<Option<Sb>, BankFault>) -> Answered
    ensures { result ≡ told_of slot found }
{
    let outside = match found {
        Ok(found) => Outside::Examined { slot, found },
        Err(_) => Outside::Refused {
            refusal: Refusal::SlotFault(slot),
        },
    };
    Answered::Outside(outside)
}

// What is answered where the bank has no such slot.
fn absent(slot: u32) -> Answered
    ensures { result ≡ AnsweredOutside (IsRefused (NoSuchSlot slot)) }
{
    Answered::Outside(Outside::Refused {
        refusal: Refusal::NoSuchSlot(slot),
    })
}

/// Looks at a slot's superblock where no array runs.
pub fn examine_idle<B: Bank>(
    mut bank: B,
    epochs: Vec<Epoch>,
    backup: Option<u32>,
    slot: u32,
) -> (State<B>, Result<Answered, NoMemory>)
    requires own { RunsOwn (IsIdle bank epochs) }
    requires former { IsRunKept B.tells (B.given bank) (B.tape bank) backup (IsIdle bank epochs) }
    ensures answered { IsTurnOrNone (setting_of B.tells (B.given bank) (B.tape bank) (B.tape (bank_in result.0)) backup (B.faults_of bank) (B.faults_of (bank_in result.0))) (IsIdle bank epochs) result.0 (AsksExamine slot) result.1 }
    ensures written { B.tells → IsWrittenBy (setting_of B.tells (B.given bank) (B.tape bank) (B.tape (bank_in result.0)) backup (B.faults_of bank) (B.faults_of (bank_in result.0))) false (histories_in (IsIdle bank epochs)) (histories_in result.0) (AsksExamine slot) result.1 }
    ensures former { IsRunKept B.tells (B.given bank) (B.tape (bank_in result.0)) backup result.0 }
    ensures never_falls { NeverFalls (B.faults_of bank) (B.faults_of (bank_in result.0)) }
    ensures grows { Grows B.tells (B.tape bank) (B.tape (bank_in result.0)) }
    ensures given { B.given (bank_in result.0) ≡ B.given bank }
{
    let _ = backup;
    if slot >= bank.slots() {
        return (State::Idle(bank, epochs), Ok(absent(slot)));
    }
    let found = read_superblock(&mut bank, slot);
    (State::Idle(bank, epochs), Ok(told(slot, found)))
}

/// Looks at a slot's superblock while an array runs.
pub fn examine_running<B: Bank>(
    mut array: Running<B>,
    epochs: Vec<Epoch>,
    backup: Option<u32>,
    slot: u32,
) -> (State<B>, Result<Answered, NoMemory>)
    requires own { RunsOwn (IsRunning array epochs) }
    requires former { IsRunKept B.tells (B.given array.parts.bank) (B.tape array.parts.bank) backup (IsRunning array epochs) }
    ensures answered { IsTurnOrNone (setting_of B.tells (B.given array.parts.bank) (B.tape array.parts.bank) (B.tape (bank_in result.0)) backup (B.faults_of array.parts.bank) (B.faults_of (bank_in result.0))) (IsRunning array epochs) result.0 (AsksExamine slot) result.1 }
    ensures written { B.tells → IsWrittenBy (setting_of B.tells (B.given array.parts.bank) (B.tape array.parts.bank) (B.tape (bank_in result.0)) backup (B.faults_of array.parts.bank) (B.faults_of (bank_in result.0))) true (histories_in (IsRunning array epochs)) (histories_in result.0) (AsksExamine slot) result.1 }
    ensures former { IsRunKept B.tells (B.given array.parts.bank) (B.tape (bank_in result.0)) backup result.0 }
    ensures never_falls { NeverFalls (B.faults_of array.parts.bank) (B.faults_of (bank_in result.0)) }
    ensures grows { Grows B.tells (B.tape array.parts.bank) (B.tape (bank_in result.0)) }
    ensures given { B.given (bank_in result.0) ≡ B.given array.parts.bank }
{
    let _ = backup;
    if slot >= array.slots() {
        return (State::Running(array, epochs), Ok(absent(slot)));
    }
    let found = run_requests::examine(&mut array, slot);
    (State::Running(array, epochs), Ok(told(slot, found)))
}
