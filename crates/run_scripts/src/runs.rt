//! A run of a script, from its text to the replies' text.

ghost use Rattle.std.specs.Prelude.{◌≡◌, ◌≢◌, ◌⊎◌, ◌<◌, ◌≤◌, ◌+◌, ◌-◌, [], length, Option, Some, None, Ok, IfSome, IsTrue};
ghost use Rattle.std.specs.List.{AllPass};
ghost use Rattle.history_reopen_laws.specs.bank_Given.{NeverFalls};
ghost use Rattle.run_session.specs.array_members_Moving.{Grows};
ghost use Rattle.run_session.specs.script_io_Causes.{HasRisen};
ghost use Rattle.script_demo.specs.Demo.{IsDemoSize};
ghost use Rattle.script_demo.specs.script_Script.{is_within_limits, may_ask, are_in_turn};
ghost use Rattle.script_demo.specs.script_the_Lane_TheVariants.{Script as InScript};
ghost use Rattle.run_session.specs.history_monitor_Hooks.{wanted_by};
ghost use Rattle.run_session.specs.history_monitor_Urgent.{WantsUrgent};
ghost use Rattle.run_session.specs.Alerting.{AreAlertsTold};
ghost use Rattle.run_session.specs.run_specs_Replies.{at_rest};
ghost use Rattle.run_session.specs.lane_shared_Pace.{AnswersSteps, asked_by};
ghost use Rattle.run_session.specs.run_specs_Ended.{IsRunKept, AreLegal, AreRight, AreRising, AreFormer};
ghost use Rattle.run_session.specs.run_specs_Histories.{history_of, histories_of};
ghost use Rattle.run_scripts.specs.Kept.{AreKept};
ghost use Rattle.run_session.specs.run_specs_Making.{setting_of};
ghost use Rattle.run_scripts.specs.Runs.{mark_behind, status_for, stop_of, IsAfterLines, IsBeforeLines, IsNothing, sunk_of, AreLinesPerformed, IsScriptPerformed, IsScriptBad, AreLossesFailed, AreEndedAt, IsEnded};
ghost use Rattle.run_session.specs.Sessions.{counted, taken_whole, IsTaken};
ghost use Rattle.run_session.specs.run_blocks_Shown.{report_text, has_refusal};
ghost use Rattle.run_session.specs.run_specs_States.{histories_in, bank_in, RunsOwn, IsFitBank};
ghost use Rattle.run_session.specs.run_specs_Written.{IsWritten};

use crate::report::Report;
use crate::text::{TextFault, script_text};
use history_reopen_laws::{Bank, Epoch};
use run_session::{
    AlertKind, Hook, Pace, Session, Sink, Source, State, Stop, perform, script_call,
};
use script_demo::{Numbered, ScriptFault, read_script_with_blocks};
use std::alloc::Global;
use std::sync::Wait;
use std::thread::Threads;

const DONE: u8 = 0;

const REFUSED: u8 = 1;

const BAD_LINE: u8 = 3;

const READ_FAULT: u8 = 4;

const WRITE_FAULT: u8 = 5;

const NO_MEMORY: u8 = 6;

// The status of a run that performed lines.
fn status_of(stopped: Option<Stop>, refused: bool) -> u8
    ensures { result ≡ status_for stopped refused }
{
    match stopped {
        Some(Stop::WriteFault) => WRITE_FAULT,
        Some(Stop::NoMemory) => NO_MEMORY,
        None => { if refused { REFUSED } else { DONE } }
    }
}

// Halts the array, if one runs. It takes no memory.
fn halt<B: Bank>(state: State<B>, backup: Option<u32>) -> (B, Vec<Epoch>)
    requires own { RunsOwn state }
    requires former { IsRunKept B.tells (B.given (bank_in state)) (B.tape (bank_in state)) backup state }
    ensures ended { IsEnded (setting_of B.tells (B.given (bank_in state)) (B.tape result.0) (B.tape result.0) backup (B.faults_of result.0) (B.faults_of result.0)) state result.0 result.1.items }
    ensures former { B.tells → AreFormer (B.given (bank_in state)) (B.tape result.0) backup (length (B.tape result.0)) result.1.items }
    ensures written { B.tells → IsWritten (setting_of B.tells (B.given (bank_in state)) (B.tape result.0) (B.tape result.0) backup (B.faults_of result.0) (B.faults_of result.0)) (histories_in state) (histories_of result.1.items) (λ slot. ⊥) }
{
    let _ = backup;
    match state {
        State::Idle(bank, epochs) => (bank, epochs),
        State::Running(array, mut epochs) => {
            let who = script_call(&array);
            let (bank, epoch) = run_session::halt(array, who);
            epochs.push_reserved(epoch);
            (bank, epochs)
        }
    }
}

// Sets the last mark of an epoch.
fn set_last(epoch: &mut Epoch, mark: u64)
    ensures same { history_of epoch.new ≡ history_of epoch.old }
    ensures last { epoch.new.last ≡ mark }
{
    epoch.last = mark;
}

// The first mark of the epoch behind this one, or this one where it is the last.
fn mark_behind(epochs: &[Epoch], at: usize, ops: u64) -> u64
    requires within { at < length epochs.now }
    ensures { result ≡ mark_behind ops (histories_of epochs.now) at }
{
    match epochs.get(at + 1) {
        Some(next) => next.first,
        None => ops,
    }
}

// Lets each epoch reach to the first mark of the next one, and the last to this one.
fn end_epochs(epochs: &mut Vec<Epoch>, ops: u64)
    ensures same { histories_of epochs.new.items ≡ histories_of epochs.old.items }
    ensures ended { AreEndedAt ops epochs.new.items }
{
    for i in 0..epochs.len() {
        let mark = mark_behind(epochs.as_slice(), i, ops);
        set_last(&mut epochs[i], mark);
    }
}

// Ends a run: the array is halted, if one runs, and each epoch reaches to the next one's first mark.
fn end_run<B: Bank>(state: State<B>, backup: Option<u32>) -> (B, Vec<Epoch>)
    requires own { RunsOwn state }
    requires former { IsRunKept B.tells (B.given (bank_in state)) (B.tape (bank_in state)) backup state }
    ensures ended { IsEnded (setting_of B.tells (B.given (bank_in state)) (B.tape result.0) (B.tape result.0) backup (B.faults_of result.0) (B.faults_of result.0)) state result.0 result.1.items }
    ensures legal { B.tells → AreLegal (B.given (bank_in state)) (B.tape result.0) backup result.1.items }
    ensures right { B.tells → AreRight (B.given (bank_in state)) (B.tape result.0) backup result.1.items }
    ensures kept { B.tells → AreKept (B.given (bank_in state)) (B.tape result.0) backup result.1.items }
    ensures marks { B.tells → AreEndedAt (length (B.tape result.0)) result.1.items }
    ensures written { B.tells → IsWritten (setting_of B.tells (B.given (bank_in state)) (B.tape result.0) (B.tape result.0) backup (B.faults_of result.0) (B.faults_of result.0)) (histories_in state) (histories_of result.1.items) (λ slot. ⊥) }
    ensures rising { B.tells → AreRising (length (B.tape result.0)) (histories_of result.1.items) }
{
    let (bank, mut epochs) = halt(state, backup);
    let ops = bank.ops();
    end_epochs(&mut epochs, ops);
    (bank, epochs)
}

/// A run that performed no line.
pub fn nothing_done<B: Bank>(alloc: Global, bank: B, status: u8, bad_line: u64) -> Report<B>
    ensures status { result.status ≡ status }
    ensures bad_line { result.bad_line ≡ bad_line }
    ensures bank { result.bank ≡ bank }
    ensures epochs { result.epochs.items ≡ [] }
    ensures lines { result.lines.items ≡ [] }
    ensures shown { result.shown ≡ 0 }
{
    Report {
        status,
        bad_line,
        bank,
        epochs: Vec::new(alloc),
        lines: Vec::new(alloc),
        shown: 0,
    }
}

// Performs the lines and halts the array, if one runs.
fn run_lines<
    B: Bank + Drop + Send,
    K: Sink,
    F: Fn(u64, u64) -> u64 + Sync,
    G: Fn(AlertKind, u32) -> bool,
    R: Threads + Wait + Sync,
>(
    rt: &R,
    alloc: Global,
    bank: B,
    backup: Option<u32>,
    lines: &[Numbered],
    pace: &Pace<F>,
    hook: &Hook<G>,
    out: &mut K,
) -> Report<B>
    requires limits { AllPass (λ numbered. is_within_limits numbered.line) lines.now }
    requires lanes { AllPass (λ numbered. may_ask numbered.lane numbered.line) lines.now }
    requires turns { IsTrue (are_in_turn InScript lines.now) }
    requires callable { F.IsAlwaysCallable (asked_by pace.now) }
    requires answers { AnswersSteps (F.post (asked_by pace.now)) }
    requires wants { G.IsAlwaysCallable (wanted_by hook.now) }
    requires urgent { WantsUrgent (G.post (wanted_by hook.now)) }
    requires bank { IsFitBank (B.given bank) backup }
    ensures status { result.status ≡ status_for (stop_of result.status) (has_refusal (histories_of result.epochs.items) lines.now result.lines.items) }
    ensures performed { AreLinesPerformed (setting_of B.tells (B.given bank) (B.tape bank) (B.tape result.bank) backup (B.faults_of bank) (B.faults_of result.bank)) lines.now (stop_of result.status) result.epochs.items result.lines.items }
    ensures alerts { AreAlertsTold (G.post (wanted_by hook.now)) (histories_of result.epochs.items) (at_rest 0) [] lines.now result.lines.items }
    ensures taken { K.tells → IsTaken (stop_of result.status) (K.taken out.old) (K.taken out.new) (length (report_text (histories_of result.epochs.items) lines.now (taken_whole (stop_of result.status) result.lines.items))) (report_text (histories_of result.epochs.items) lines.now result.lines.items) }
    ensures shown { result.shown ≡ counted (length (report_text (histories_of result.epochs.items) lines.now (taken_whole (stop_of result.status) result.lines.items))) }
    ensures write_fault { result.status ≡ 5 → HasRisen (K.faults_of out.old) (K.faults_of out.new) }
    ensures sink_never_falls { K.faults_of out.old ≤ K.faults_of out.new }
    ensures legal { B.tells → AreLegal (B.given bank) (B.tape result.bank) backup result.epochs.items }
    ensures right { B.tells → AreRight (B.given bank) (B.tape result.bank) backup result.epochs.items }
    ensures kept { B.tells → AreKept (B.given bank) (B.tape result.bank) backup result.epochs.items }
    ensures ended { B.tells → AreEndedAt (length (B.tape result.bank)) result.epochs.items }
    ensures losses { AreLossesFailed (setting_of B.tells (B.given bank) (B.tape bank) (B.tape result.bank) backup (B.faults_of bank) (B.faults_of result.bank)) result.epochs.items }
    ensures never_falls { NeverFalls (B.faults_of bank) (B.faults_of result.bank) }
    ensures grows { Grows B.tells (B.tape bank) (B.tape result.bank) }
    ensures given { B.given result.bank ≡ B.given bank }
{
    let Session {
        state,
        replies,
        buffer: _,
        shown,
        refused,
        stopped,
    } = perform(rt, alloc, bank, backup, lines, pace, hook, out);
    let (bank, epochs) = end_run(state, backup);
    Report {
        status: status_of(stopped, refused),
        bad_line: 0,
        bank,
        epochs,
        lines: replies,
        shown,
    }
}

/// A run of the script of a demo of this size, or else of the one that the source gives.
pub fn run_script<
    B: Bank + Drop + Send,
    S: Source,
    K: Sink,
    F: Fn(u64, u64) -> u64 + Sync,
    G: Fn(AlertKind, u32) -> bool,
    R: Threads + Wait + Sync,
>(
    rt: &R,
    alloc: Global,
    demo: Option<u64>,
    script: &mut S,
    out: &mut K,
    bank: B,
    backup: Option<u32>,
    pace: &Pace<F>,
    hook: &Hook<G>,
) -> Report<B>
    requires few { IfSome demo IsDemoSize }
    requires bank { IsFitBank (B.given bank) backup }
    requires callable { F.IsAlwaysCallable (asked_by pace.now) }
    requires answers { AnswersSteps (F.post (asked_by pace.now)) }
    requires wants { G.IsAlwaysCallable (wanted_by hook.now) }
    requires urgent { WantsUrgent (G.post (wanted_by hook.now)) }
    ensures status { result.status ≤ 6 }
    ensures good_words { result.status ≢ 2 }
    ensures bad_line { result.status ≡ 3 → IsScriptBad demo S.tells (S.left script.old) (S.left script.new) result.bad_line }
    ensures unread { IfSome demo (λ size. script.new ≡ script.old) }
    ensures read_fault { result.status ≡ 4 → HasRisen (S.faults_of script.old) (S.faults_of script.new) }
    ensures write_fault { result.status ≡ 5 → HasRisen (K.faults_of out.old) (K.faults_of out.new) }
    ensures performed { IsAfterLines result.status → IsScriptPerformed (G.post (wanted_by hook.now)) demo S.tells (S.left script.old) (S.left script.new) (setting_of B.tells (B.given bank) (B.tape bank) (B.tape result.bank) backup (B.faults_of bank) (B.faults_of result.bank)) (sunk_of K.tells (K.taken out.old) (K.taken out.new) result.shown) result.status result.epochs.items result.lines.items }
    ensures short { result.status ≡ 6 → IsScriptPerformed (G.post (wanted_by hook.now)) demo S.tells (S.left script.old) (S.left script.new) (setting_of B.tells (B.given bank) (B.tape bank) (B.tape result.bank) backup (B.faults_of bank) (B.faults_of result.bank)) (sunk_of K.tells (K.taken out.old) (K.taken out.new) result.shown) result.status result.epochs.items result.lines.items
        ⊎ (IsNothing (sunk_of K.tells (K.taken out.old) (K.taken out.new) result.shown) result.epochs.items result.lines.items × (result.bank ≡ bank)) }
    ensures nothing { IsBeforeLines result.status → IsNothing (sunk_of K.tells (K.taken out.old) (K.taken out.new) result.shown) result.epochs.items result.lines.items }
    ensures untouched { IsBeforeLines result.status → result.bank ≡ bank }
    ensures legal { B.tells → AreLegal (B.given bank) (B.tape result.bank) backup result.epochs.items }
    ensures right { B.tells → AreRight (B.given bank) (B.tape result.bank) backup result.epochs.items }
    ensures kept { B.tells → AreKept (B.given bank) (B.tape result.bank) backup result.epochs.items }
    ensures ended { B.tells → AreEndedAt (length (B.tape result.bank)) result.epochs.items }
    ensures losses { AreLossesFailed (setting_of B.tells (B.given bank) (B.tape bank) (B.tape result.bank) backup (B.faults_of bank) (B.faults_of result.bank)) result.epochs.items }
    ensures never_falls { NeverFalls (B.faults_of bank) (B.faults_of result.bank) }
    ensures grows { Grows B.tells (B.tape bank) (B.tape result.bank) }
    ensures source_never_falls { S.faults_of script.old ≤ S.faults_of script.new }
    ensures sink_never_falls { K.faults_of out.old ≤ K.faults_of out.new }
    ensures given { B.given result.bank ≡ B.given bank }
{
    let text = match script_text(alloc, demo, script) {
        Ok(text) => text,
        Err(TextFault::Failed) => return nothing_done(alloc, bank, READ_FAULT, 0),
        Err(TextFault::NoMemory) => return nothing_done(alloc, bank, NO_MEMORY, 0),
    };
    match read_script_with_blocks(alloc, text.as_slice()) {
        Ok(lines) => run_lines(rt, alloc, bank, backup, lines.as_slice(), pace, hook, out),
        Err(ScriptFault::BadLine(line)) => nothing_done(alloc, bank, BAD_LINE, line),
        Err(ScriptFault::NoMemory) => nothing_done(alloc, bank, NO_MEMORY, 0),
    }
}
