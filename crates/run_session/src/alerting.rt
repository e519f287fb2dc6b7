//! The alerts of the array that runs, told each once.

ghost use Rattle.std.specs.Prelude.{◌≡◌, ◌+◌, ◌*◌, ◌≤◌, length, vec_capacity, IfOk, OnOk, IsTrue};
ghost use Rattle.run_blocks.specs.array_members_Moving.{Grows};
ghost use Rattle.run_blocks.specs.bank_Given.{NeverFalls};
ghost use Rattle.run_blocks.specs.Shown.{longest_reply, more_room};
ghost use Rattle.run_blocks.specs.history_monitor_Alerts.{past_of, alerts_since};
ghost use Rattle.run_blocks.specs.history_monitor_Hooks.{wanted_by};
ghost use Rattle.run_blocks.specs.history_monitor_Told.{AreTold, HasScanned};
ghost use Rattle.run_blocks.specs.history_monitor_Urgent.{WantsUrgent};
ghost use Rattle.run_blocks.specs.run_specs_Ended.{IsRunKept};
ghost use Rattle.run_blocks.specs.run_specs_Making.{setting_of};
ghost use Rattle.run_blocks.specs.run_specs_States.{histories_in, bank_in, course_in, RunsOwn, IsFitBank, IsTurnOrNone};
ghost use Rattle.run_blocks.specs.run_specs_Written.{IsWrittenBy};
ghost use Rattle.run_blocks.specs.script_Script.{is_within_limits};
ghost use Rattle.run_session.specs.Alerting.{entries_in, asks_alerts, AreToldBy, AreToldNow, IsScanned, watched_by};

use crate::sessions::LONGEST_REPLY;
use run_blocks::{
    AlertKind, AlertList, Answered, Bank, Hook, Line, Monitor, NoMemory, Running, State, answer,
};
use std::alloc::Global;

// The bytes that the text of an alert takes at most.
const LONGEST_ALERT: usize = 40;

// Takes the room for a reply of so many alerts.
fn make_room(text: &mut Vec<u8>, alerts: usize) -> Result<(), NoMemory>
    ensures room { OnOk result (longest_reply + 40 * alerts ≤ vec_capacity text.new) }
    ensures wider { vec_capacity text.old ≤ vec_capacity text.new }
{
    let Some(more) = alerts.checked_mul(LONGEST_ALERT) else {
        return Err(NoMemory {});
    };
    let Some(room) = more.checked_add(LONGEST_REPLY) else {
        return Err(NoMemory {});
    };
    text.clear();
    if text.reserve(room).is_err() {
        return Err(NoMemory {});
    }
    Ok(())
}

// The wanted alerts of this array that are new. There is room for their text then.
fn scan<B: Bank, G: Fn(AlertKind, u32) -> bool>(
    alloc: Global,
    array: &Running<B>,
    monitor: &mut Monitor,
    hook: &Hook<G>,
    text: &mut Vec<u8>,
) -> Result<AlertList, NoMemory>
    requires begins { HasScanned monitor.old array.now.parts.entries }
    requires callable { G.IsAlwaysCallable (wanted_by hook.now) }
    requires urgent { WantsUrgent (G.post (wanted_by hook.now)) }
    ensures told { IfOk result (AreTold (G.post (wanted_by hook.now)) (alerts_since monitor.old.scanned array.now.parts.entries)) }
    ensures scanned { OnOk result (monitor.new ≡ past_of array.now.parts.entries) }
    ensures room { IfOk result (λ list. longest_reply + 40 * length list ≤ vec_capacity text.new) }
    ensures wider { vec_capacity text.old ≤ vec_capacity text.new }
{
    let list = monitor.scan(alloc, &array.epoch().entries, hook)?;
    make_room(text, list.len())?;
    Ok(list)
}

fn asks_alerts(line: Line) -> bool
    ensures { result ≡ asks_alerts line }
{
    matches!(line, Line::Alerts)
}

// The alerts that a line tells of this array: the wanted ones since the former line `alerts`; other lines tell none. There is room for
// their text then.
fn alerts_of<B: Bank, G: Fn(AlertKind, u32) -> bool>(
    alloc: Global,
    array: &Running<B>,
    line: Line,
    monitor: &mut Monitor,
    hook: &Hook<G>,
    text: &mut Vec<u8>,
) -> Result<AlertList, NoMemory>
    requires begins { HasScanned monitor.old array.now.parts.entries }
    requires callable { G.IsAlwaysCallable (wanted_by hook.now) }
    requires urgent { WantsUrgent (G.post (wanted_by hook.now)) }
    requires room { longest_reply ≤ vec_capacity text.old }
    ensures told { IfOk result (λ list. AreToldBy (G.post (wanted_by hook.now)) array.now.parts.entries monitor.old monitor.new (asks_alerts line) list) }
    ensures room { IfOk result (λ list. longest_reply + 40 * length list ≤ vec_capacity text.new) }
    ensures wider { vec_capacity text.old ≤ vec_capacity text.new }
{
    if asks_alerts(line) {
        scan(alloc, array, monitor, hook, text)
    } else {
        Ok(AlertList::new(alloc))
    }
}

// So it is of the array that runs, if one does; without one no line tells any.
fn alerts_for<B: Bank, G: Fn(AlertKind, u32) -> bool>(
    alloc: Global,
    state: &State<B>,
    line: Line,
    monitor: &mut Monitor,
    hook: &Hook<G>,
    text: &mut Vec<u8>,
) -> Result<AlertList, NoMemory>
    requires begins { HasScanned monitor.old (entries_in state.now) }
    requires callable { G.IsAlwaysCallable (wanted_by hook.now) }
    requires urgent { WantsUrgent (G.post (wanted_by hook.now)) }
    requires room { longest_reply ≤ vec_capacity text.old }
    ensures told { IfOk result (λ list. AreToldNow (G.post (wanted_by hook.now)) state.now monitor.old monitor.new line list) }
    ensures room { IfOk result (λ list. longest_reply + 40 * length list ≤ vec_capacity text.new) }
    ensures wider { vec_capacity text.old ≤ vec_capacity text.new }
{
    match state {
        State::Idle(_, _) => Ok(AlertList::new(alloc)),
        State::Running(array, _) => alerts_of(alloc, array, line, monitor, hook, text),
    }
}

/// The answer to one line, for whose text there is room then. The line `alerts` tells what the monitor scans.
pub fn answer_line<B: Bank, G: Fn(AlertKind, u32) -> bool>(
    alloc: Global,
    state: State<B>,
    monitor: &mut Monitor,
    backup: Option<u32>,
    line: Line,
    hook: &Hook<G>,
    text: &mut Vec<u8>,
) -> (State<B>, Result<Answered, NoMemory>)
    requires limits { IsTrue (is_within_limits line) }
    requires bank { IsFitBank (B.given (bank_in state)) backup }
    requires own { RunsOwn state }
    requires former { IsRunKept B.tells (B.given (bank_in state)) (B.tape (bank_in state)) backup state }
    requires room { longest_reply ≤ vec_capacity text.old }
    requires begins { HasScanned monitor.old (entries_in state) }
    requires wants { G.IsAlwaysCallable (wanted_by hook.now) }
    requires urgent { WantsUrgent (G.post (wanted_by hook.now)) }
    ensures answered { IsTurnOrNone (setting_of B.tells (B.given (bank_in state)) (B.tape (bank_in state)) (B.tape (bank_in result.0)) backup (B.faults_of (bank_in state)) (B.faults_of (bank_in result.0))) state result.0 line result.1 }
    ensures alerts { IfOk result.1 (λ what. IsScanned (G.post (wanted_by hook.now)) (entries_in state) monitor.old monitor.new what) }
    ensures room { IfOk result.1 (λ what. longest_reply + more_room what ≤ vec_capacity text.new) }
    ensures wider { vec_capacity text.old ≤ vec_capacity text.new }
    ensures written { B.tells → IsWrittenBy (setting_of B.tells (B.given (bank_in state)) (B.tape (bank_in state)) (B.tape (bank_in result.0)) backup (B.faults_of (bank_in state)) (B.faults_of (bank_in result.0))) (course_in state).running (histories_in state) (histories_in result.0) line result.1 }
    ensures former { IsRunKept B.tells (B.given (bank_in state)) (B.tape (bank_in result.0)) backup result.0 }
    ensures never_falls { NeverFalls (B.faults_of (bank_in state)) (B.faults_of (bank_in result.0)) }
    ensures grows { Grows B.tells (B.tape (bank_in state)) (B.tape (bank_in result.0)) }
    ensures given { B.given (bank_in result.0) ≡ B.given (bank_in state) }
{
    match alerts_for(alloc, &state, line, monitor, hook, text) {
        Ok(alerts) => answer(alloc, state, backup, line, alerts),
        Err(fault) => (state, Err(fault)),
    }
}

/// A monitor of this array goes on; where none runs it begins anew.
pub fn watch<B: Bank>(monitor: &mut Monitor, state: &State<B>)
    ensures { monitor.new ≡ watched_by state.now monitor.old }
{
    if let State::Idle(_, _) = state {
        *monitor = Monitor::new();
    }
}
