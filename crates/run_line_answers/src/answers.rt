//! The answer to a line, by whether an array runs.

ghost use Rattle.std.specs.Prelude.{◌≡◌, ◌<◌, ◌≤◌, ◌^◌, ℕ, true, false, List, length, vec_capacity, Some, Ok, IfOk, IsTrue, IsSome};
ghost use Rattle.run_requests.specs.bank_Given.{NeverFalls};
ghost use Rattle.run_requests.specs.array_members_Moving.{Grows};
ghost use Rattle.run_requests.specs.script_Script.{is_within_limits};
ghost use Rattle.run_requests.specs.script_the_Line_TheVariants.{Create as AsksCreate, Stop as AsksStop, Halt as AsksHalt, Alerts as AsksAlerts, Assemble as AsksAssemble};
ghost use Rattle.run_requests.specs.run_specs_Caused.{record_of};
ghost use Rattle.run_requests.specs.run_specs_Ended.{IsRunKept};
ghost use Rattle.run_requests.specs.run_specs_Histories.{entry_at};
ghost use Rattle.run_requests.specs.run_specs_Making.{setting_of};
ghost use Rattle.run_requests.specs.run_specs_Records.{IsLeftTold};
ghost use Rattle.run_requests.specs.run_specs_States.{answer_at, histories_in, bank_in, course_in, RunsOwn, IsFitBank, IsTurnOrNone, IsNamed};
ghost use Rattle.run_requests.specs.run_specs_Written.{IsWrittenBy};
ghost use Rattle.run_requests.specs.run_specs_the_Answered_TheVariants.{Inside as AnsweredInside, Outside as AnsweredOutside};
ghost use Rattle.run_requests.specs.run_specs_the_Outside_TheVariants.{Alerts as ToldAlerts, Refused as IsRefused};
ghost use Rattle.run_requests.specs.run_specs_the_State_TheVariants.{Idle as IsIdle, Running as IsRunning};

use crate::examines::{examine_idle, examine_running};
use run_requests::{
    AlertList, Answered, Bank, CreateLine, CreateSpec, Entry, Epoch, Fault, Line, NoMemory,
    Outside, Refusal, Running, State, ask_add, ask_fail, ask_flush, ask_grow, ask_read, ask_show,
    ask_steps, ask_visible, ask_wait, ask_write, create_array as create_running, last_place,
    open_running, script_call,
};
use std::alloc::Global;

// A refusal that no history holds.
fn refused(refusal: Refusal) -> Answered
    ensures { result ≡ AnsweredOutside (IsRefused refusal) }
{
    Answered::Outside(Outside::Refused { refusal })
}

// The number of the epoch behind these.
fn next_epoch(epochs: &Vec<Epoch>) -> u32
    requires few { length epochs.now.items < 2 ^ 32 }
    ensures { result ≡ length epochs.now.items }
{
    epochs.len() as u32
}

// The answer by an entry of the array that runs behind these epochs.
fn inside(epochs: &Vec<Epoch>, at: u64) -> Answered
    requires few { length epochs.now.items < 2 ^ 32 }
    ensures { result ≡ AnsweredInside (length epochs.now.items) at }
{
    let epoch = next_epoch(epochs);
    Answered::Inside { epoch, at }
}

// The answer of an array that goes on.
fn goes_on<B: Bank>(
    place: Result<u64, NoMemory>,
    array: Running<B>,
    epochs: Vec<Epoch>,
) -> (State<B>, Result<Answered, NoMemory>)
    requires few { length epochs.items < 2 ^ 32 }
    ensures state { result.0 ≡ IsRunning array epochs }
    ensures answer { result.1 ≡ answer_at (length epochs.items) place }
    ensures told { IsLeftTold (record_of array) }
{
    // (as many steps are left as the history tells)
    let _ = array.left();
    match place {
        Ok(at) => {
            let what = inside(&epochs, at);
            (State::Running(array, epochs), Ok(what))
        }
        Err(fault) => (State::Running(array, epochs), Err(fault)),
    }
}

// Stops the array that runs.
fn stop_array<B: Bank>(
    array: Running<B>,
    mut epochs: Vec<Epoch>,
    backup: Option<u32>,
) -> (State<B>, Result<Answered, NoMemory>)
    requires own { RunsOwn (IsRunning array epochs) }
    requires former { IsRunKept B.tells (B.given array.parts.bank) (B.tape array.parts.bank) backup (IsRunning array epochs) }
    ensures answered { IsTurnOrNone (setting_of B.tells (B.given array.parts.bank) (B.tape array.parts.bank) (B.tape (bank_in result.0)) backup (B.faults_of array.parts.bank) (B.faults_of (bank_in result.0))) (IsRunning array epochs) result.0 AsksStop result.1 }
    ensures written { B.tells → IsWrittenBy (setting_of B.tells (B.given array.parts.bank) (B.tape array.parts.bank) (B.tape (bank_in result.0)) backup (B.faults_of array.parts.bank) (B.faults_of (bank_in result.0))) true (histories_in (IsRunning array epochs)) (histories_in result.0) AsksStop result.1 }
    ensures former { IsRunKept B.tells (B.given array.parts.bank) (B.tape (bank_in result.0)) backup result.0 }
    ensures never_falls { NeverFalls (B.faults_of array.parts.bank) (B.faults_of (bank_in result.0)) }
    ensures grows { Grows B.tells (B.tape array.parts.bank) (B.tape (bank_in result.0)) }
    ensures given { B.given (bank_in result.0) ≡ B.given array.parts.bank }
{
    let _ = backup;
    let who = script_call(&array);
    let left = match run_requests::stop(array, who) {
        Ok(ended) => {
            let (bank, epoch) = ended;
            let what = inside(&epochs, epoch.entries.len() as u64 - 1);
            epochs.push_reserved(epoch);
            return (State::Idle(bank, epochs), Ok(what));
        }
        Err(left) => left,
    };
    let (array, fault) = left;
    // (as many steps are left as the history tells)
    let _ = array.left();
    match fault {
        Fault::NoMemory => (State::Running(array, epochs), Err(NoMemory {})),
        Fault::Refused(_) => {
            let what = inside(&epochs, last_place(&array));
            (State::Running(array, epochs), Ok(what))
        }
    }
}

// Halts the array that runs.
fn halt_array<B: Bank>(
    array: Running<B>,
    mut epochs: Vec<Epoch>,
    backup: Option<u32>,
) -> (State<B>, Result<Answered, NoMemory>)
    requires own { RunsOwn (IsRunning array epochs) }
    requires former { IsRunKept B.tells (B.given array.parts.bank) (B.tape array.parts.bank) backup (IsRunning array epochs) }
    ensures answered { IsTurnOrNone (setting_of B.tells (B.given array.parts.bank) (B.tape array.parts.bank) (B.tape (bank_in result.0)) backup (B.faults_of array.parts.bank) (B.faults_of (bank_in result.0))) (IsRunning array epochs) result.0 AsksHalt result.1 }
    ensures written { B.tells → IsWrittenBy (setting_of B.tells (B.given array.parts.bank) (B.tape array.parts.bank) (B.tape (bank_in result.0)) backup (B.faults_of array.parts.bank) (B.faults_of (bank_in result.0))) true (histories_in (IsRunning array epochs)) (histories_in result.0) AsksHalt result.1 }
    ensures former { IsRunKept B.tells (B.given array.parts.bank) (B.tape (bank_in result.0)) backup result.0 }
    ensures bank { bank_in result.0 ≡ array.parts.bank }
{
    let _ = backup;
    let who = script_call(&array);
    let (bank, epoch) = run_requests::halt(array, who);
    let what = inside(&epochs, epoch.entries.len() as u64 - 1);
    epochs.push_reserved(epoch);
    (State::Idle(bank, epochs), Ok(what))
}

// The answer of the array that runs. These are the alerts to tell.
fn answer_running<B: Bank>(
    alloc: Global,
    array: Running<B>,
    epochs: Vec<Epoch>,
    backup: Option<u32>,
    line: Line,
    alerts: AlertList,
) -> (State<B>, Result<Answered, NoMemory>)
    requires limits { IsTrue (is_within_limits line) }
    requires own { RunsOwn (IsRunning array epochs) }
    requires former { IsRunKept B.tells (B.given array.parts.bank) (B.tape array.parts.bank) backup (IsRunning array epochs) }
    ensures answered { IsTurnOrNone (setting_of B.tells (B.given array.parts.bank) (B.tape array.parts.bank) (B.tape (bank_in result.0)) backup (B.faults_of array.parts.bank) (B.faults_of (bank_in result.0))) (IsRunning array epochs) result.0 line result.1 }
    ensures alerts { line ≡ AsksAlerts → result.1 ≡ Ok (AnsweredOutside (ToldAlerts alerts)) }
    ensures written { B.tells → IsWrittenBy (setting_of B.tells (B.given array.parts.bank) (B.tape array.parts.bank) (B.tape (bank_in result.0)) backup (B.faults_of array.parts.bank) (B.faults_of (bank_in result.0))) true (histories_in (IsRunning array epochs)) (histories_in result.0) line result.1 }
    ensures former { IsRunKept B.tells (B.given array.parts.bank) (B.tape (bank_in result.0)) backup result.0 }
    ensures never_falls { NeverFalls (B.faults_of array.parts.bank) (B.faults_of (bank_in result.0)) }
    ensures grows { Grows B.tells (B.tape array.parts.bank) (B.tape (bank_in result.0)) }
    ensures given { B.given (bank_in result.0) ≡ B.given array.parts.bank }
{
    let mut array = array;
    match line {
        Line::Read { at, count } => goes_on(ask_read(alloc, &mut array, at, count), array, epochs),
        Line::Write { at, count, seed } => goes_on(
            ask_write(alloc, &mut array, at, count, seed),
            array,
            epochs,
        ),
        Line::Flush => goes_on(ask_flush(&mut array), array, epochs),
        Line::Fail { role } => goes_on(ask_fail(&mut array, role), array, epochs),
        Line::Add { slot } => goes_on(ask_add(&mut array, slot), array, epochs),
        Line::ArraySize { limit } => goes_on(ask_visible(&mut array, limit), array, epochs),
        Line::Grow(wish) => goes_on(ask_grow(&mut array, wish), array, epochs),
        Line::Step { most } => goes_on(ask_steps(&mut array, most), array, epochs),
        Line::Wait => goes_on(ask_wait(&mut array), array, epochs),
        Line::Stop => stop_array(array, epochs, backup),
        Line::Halt => halt_array(array, epochs, backup),
        Line::Detail => goes_on(ask_show(&mut array), array, epochs),
        Line::Mdstat => goes_on(ask_show(&mut array), array, epochs),
        Line::Alerts => (
            State::Running(array, epochs),
            Ok(Answered::Outside(Outside::Alerts { list: alerts })),
        ),
        Line::Examine { slot } => examine_running(array, epochs, backup, slot),
        Line::Create(_) => (State::Running(array, epochs), Ok(refused(Refusal::Running))),
        Line::Assemble { .. } => (State::Running(array, epochs), Ok(refused(Refusal::Running))),
    }
}

// Whether there is room for the epoch of one array more.
fn has_room(epochs: &mut Vec<Epoch>) -> bool
    ensures same { epochs.new.items ≡ epochs.old.items }
    ensures room { IsTrue result → length epochs.new.items < vec_capacity epochs.new }
    ensures few { IsTrue result → length epochs.new.items < 2 ^ 32 }
{
    if epochs.len() >= u32::MAX as usize {
        return false;
    }
    epochs.reserve(1).is_ok()
}

// Makes the array that a line asks for.
fn create_array<B: Bank>(
    alloc: Global,
    bank: B,
    mut epochs: Vec<Epoch>,
    backup: Option<u32>,
    line: CreateLine,
) -> (State<B>, Result<Answered, NoMemory>)
    requires bank { IsFitBank (B.given bank) backup }
    requires own { RunsOwn (IsIdle bank epochs) }
    requires former { IsRunKept B.tells (B.given bank) (B.tape bank) backup (IsIdle bank epochs) }
    ensures answered { IsTurnOrNone (setting_of B.tells (B.given bank) (B.tape bank) (B.tape (bank_in result.0)) backup (B.faults_of bank) (B.faults_of (bank_in result.0))) (IsIdle bank epochs) result.0 (AsksCreate line) result.1 }
    ensures written { B.tells → IsWrittenBy (setting_of B.tells (B.given bank) (B.tape bank) (B.tape (bank_in result.0)) backup (B.faults_of bank) (B.faults_of (bank_in result.0))) false (histories_in (IsIdle bank epochs)) (histories_in result.0) (AsksCreate line) result.1 }
    ensures former { IsRunKept B.tells (B.given bank) (B.tape (bank_in result.0)) backup result.0 }
    ensures never_falls { NeverFalls (B.faults_of bank) (B.faults_of (bank_in result.0)) }
    ensures grows { Grows B.tells (B.tape bank) (B.tape (bank_in result.0)) }
    ensures given { B.given (bank_in result.0) ≡ B.given bank }
{
    if !has_room(&mut epochs) {
        return (State::Idle(bank, epochs), Err(NoMemory {}));
    }
    let uuid = line.uuid;
    let spec = CreateSpec {
        uuid,
        shape: line.shape,
        size: line.size,
        offset: line.offset,
    };
    let left = match create_running(alloc, bank, backup, spec) {
        Ok(array) => {
            return (
                State::Running(array, epochs),
                Ok(Answered::Outside(Outside::Created)),
            );
        }
        Err(left) => left,
    };
    let (bank, fault) = left;
    match fault {
        Fault::Refused(refusal) => (State::Idle(bank, epochs), Ok(refused(refusal))),
        Fault::NoMemory => (State::Idle(bank, epochs), Err(NoMemory {})),
    }
}

// Opens the array that a line asks for. Where memory is short for its status it is given up again, which makes no device call.
fn assemble_array<B: Bank>(
    alloc: Global,
    bank: B,
    mut epochs: Vec<Epoch>,
    backup: Option<u32>,
    uuid: Option<[u8; 16]>,
) -> (State<B>, Result<Answered, NoMemory>)
    requires bank { IsFitBank (B.given bank) backup }
    requires own { RunsOwn (IsIdle bank epochs) }
    requires former { IsRunKept B.tells (B.given bank) (B.tape bank) backup (IsIdle bank epochs) }
    ensures answered { IsTurnOrNone (setting_of B.tells (B.given bank) (B.tape bank) (B.tape (bank_in result.0)) backup (B.faults_of bank) (B.faults_of (bank_in result.0))) (IsIdle bank epochs) result.0 (AsksAssemble uuid) result.1 }
    ensures written { B.tells → IsWrittenBy (setting_of B.tells (B.given bank) (B.tape bank) (B.tape (bank_in result.0)) backup (B.faults_of bank) (B.faults_of (bank_in result.0))) false (histories_in (IsIdle bank epochs)) (histories_in result.0) (AsksAssemble uuid) result.1 }
    ensures former { IsRunKept B.tells (B.given bank) (B.tape (bank_in result.0)) backup result.0 }
    ensures never_falls { NeverFalls (B.faults_of bank) (B.faults_of (bank_in result.0)) }
    ensures grows { Grows B.tells (B.tape bank) (B.tape (bank_in result.0)) }
    ensures given { B.given (bank_in result.0) ≡ B.given bank }
{
    if !has_room(&mut epochs) {
        return (State::Idle(bank, epochs), Err(NoMemory {}));
    }
    let left = match open_running(alloc, bank, backup, uuid) {
        Ok(array) => {
            let mut array = array;
            let epoch = next_epoch(&epochs);
            let who = script_call(&array);
            return match run_requests::status(&mut array, who) {
                Ok(status) => (
                    State::Running(array, epochs),
                    Ok(Answered::Outside(Outside::Assembled { epoch, status })),
                ),
                Err(fault) => {
                    let (bank, _) = run_requests::halt(array, who);
                    (State::Idle(bank, epochs), Err(fault))
                }
            };
        }
        Err(left) => left,
    };
    let (bank, fault) = left;
    match fault {
        Fault::Refused(refusal) => (State::Idle(bank, epochs), Ok(refused(refusal))),
        Fault::NoMemory => (State::Idle(bank, epochs), Err(NoMemory {})),
    }
}

// The answer where no array runs.
fn answer_idle<B: Bank>(
    alloc: Global,
    bank: B,
    epochs: Vec<Epoch>,
    backup: Option<u32>,
    line: Line,
) -> (State<B>, Result<Answered, NoMemory>)
    requires bank { IsFitBank (B.given bank) backup }
    requires own { RunsOwn (IsIdle bank epochs) }
    requires former { IsRunKept B.tells (B.given bank) (B.tape bank) backup (IsIdle bank epochs) }
    ensures answered { IsTurnOrNone (setting_of B.tells (B.given bank) (B.tape bank) (B.tape (bank_in result.0)) backup (B.faults_of bank) (B.faults_of (bank_in result.0))) (IsIdle bank epochs) result.0 line result.1 }
    ensures written { B.tells → IsWrittenBy (setting_of B.tells (B.given bank) (B.tape bank) (B.tape (bank_in result.0)) backup (B.faults_of bank) (B.faults_of (bank_in result.0))) false (histories_in (IsIdle bank epochs)) (histories_in result.0) line result.1 }
    ensures former { IsRunKept B.tells (B.given bank) (B.tape (bank_in result.0)) backup result.0 }
    ensures never_falls { NeverFalls (B.faults_of bank) (B.faults_of (bank_in result.0)) }
    ensures grows { Grows B.tells (B.tape bank) (B.tape (bank_in result.0)) }
    ensures given { B.given (bank_in result.0) ≡ B.given bank }
{
    match line {
        Line::Create(line) => create_array(alloc, bank, epochs, backup, line),
        Line::Assemble { uuid } => assemble_array(alloc, bank, epochs, backup, uuid),
        Line::Read { .. } => (State::Idle(bank, epochs), Ok(refused(Refusal::NotRunning))),
        Line::Write { .. } => (State::Idle(bank, epochs), Ok(refused(Refusal::NotRunning))),
        Line::Flush => (State::Idle(bank, epochs), Ok(refused(Refusal::NotRunning))),
        Line::Fail { .. } => (State::Idle(bank, epochs), Ok(refused(Refusal::NotRunning))),
        Line::Add { .. } => (State::Idle(bank, epochs), Ok(refused(Refusal::NotRunning))),
        Line::ArraySize { .. } => (State::Idle(bank, epochs), Ok(refused(Refusal::NotRunning))),
        Line::Grow(_) => (State::Idle(bank, epochs), Ok(refused(Refusal::NotRunning))),
        Line::Step { .. } => (State::Idle(bank, epochs), Ok(refused(Refusal::NotRunning))),
        Line::Wait => (State::Idle(bank, epochs), Ok(refused(Refusal::NotRunning))),
        Line::Stop => (State::Idle(bank, epochs), Ok(refused(Refusal::NotRunning))),
        Line::Halt => (State::Idle(bank, epochs), Ok(refused(Refusal::NotRunning))),
        Line::Detail => (State::Idle(bank, epochs), Ok(refused(Refusal::NotRunning))),
        Line::Mdstat => (State::Idle(bank, epochs), Ok(refused(Refusal::NotRunning))),
        Line::Alerts => (State::Idle(bank, epochs), Ok(refused(Refusal::NotRunning))),
        Line::Examine { slot } => examine_idle(bank, epochs, backup, slot),
    }
}

/// The answer to one line. Where memory is short, nothing was entered and no array opened, but a wait may have made some calls. The
/// line `alerts` tells these alerts, if an array runs.
pub fn answer<B: Bank>(
    alloc: Global,
    state: State<B>,
    backup: Option<u32>,
    line: Line,
    alerts: AlertList,
) -> (State<B>, Result<Answered, NoMemory>)
    requires limits { IsTrue (is_within_limits line) }
    requires bank { IsFitBank (B.given (bank_in state)) backup }
    requires own { RunsOwn state }
    requires former { IsRunKept B.tells (B.given (bank_in state)) (B.tape (bank_in state)) backup state }
    ensures answered { IsTurnOrNone (setting_of B.tells (B.given (bank_in state)) (B.tape (bank_in state)) (B.tape (bank_in result.0)) backup (B.faults_of (bank_in state)) (B.faults_of (bank_in result.0))) state result.0 line result.1 }
    ensures alerts { line ≡ AsksAlerts → IsTrue (course_in state).running → result.1 ≡ Ok (AnsweredOutside (ToldAlerts alerts)) }
    ensures written { B.tells → IsWrittenBy (setting_of B.tells (B.given (bank_in state)) (B.tape (bank_in state)) (B.tape (bank_in result.0)) backup (B.faults_of (bank_in state)) (B.faults_of (bank_in result.0))) (course_in state).running (histories_in state) (histories_in result.0) line result.1 }
    ensures former { IsRunKept B.tells (B.given (bank_in state)) (B.tape (bank_in result.0)) backup result.0 }
    ensures never_falls { NeverFalls (B.faults_of (bank_in state)) (B.faults_of (bank_in result.0)) }
    ensures grows { Grows B.tells (B.tape (bank_in state)) (B.tape (bank_in result.0)) }
    ensures given { B.given (bank_in result.0) ≡ B.given (bank_in state) }
{
    match state {
        State::Idle(bank, epochs) => answer_idle(alloc, bank, epochs, backup, line),
        State::Running(array, epochs) => {
            answer_running(alloc, array, epochs, backup, line, alerts)
        }
    }
}

/// The entry that an answer names.
pub fn entry_of<B: Bank>(state: &State<B>, epoch: u32, at: u64) -> &Entry
    requires { IsSome (entry_at (histories_in state.now) epoch at) }
    ensures { entry_at (histories_in state.now) epoch at ≡ Some result.now }
{
    match state {
        State::Idle(_, epochs) => epochs[epoch as usize].entries.get(at as usize),
        State::Running(array, epochs) => {
            if (epoch as usize) < epochs.len() {
                epochs[epoch as usize].entries.get(at as usize)
            } else {
                array.epoch().entries.get(at as usize)
            }
        }
    }
}
