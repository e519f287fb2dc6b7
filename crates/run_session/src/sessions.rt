//! The lines of a script performed one after another, each reply shown before the next line.

ghost use Rattle.std.specs.Prelude.{◌≡◌, ◌≤◌, [], length, take, drop, vec_capacity, None, IfOk, IfSome, IsTrue};
ghost use Rattle.std.specs.List.{AllPass};
ghost use Rattle.run_blocks.specs.bank_Given.{NeverFalls};
ghost use Rattle.run_blocks.specs.array_members_Moving.{Grows};
ghost use Rattle.run_blocks.specs.script_Script.{is_within_limits, may_ask, are_in_turn};
ghost use Rattle.run_blocks.specs.lane_shared_Pace.{AnswersSteps, asked_by};
ghost use Rattle.run_blocks.specs.Shown.{longest_reply};
ghost use Rattle.run_blocks.specs.run_specs_Records.{IsRecordStored};
ghost use Rattle.run_blocks.specs.run_specs_States.{histories_in, bank_in, record_in, RunsOwn, IsFitBank, IsNamed};
ghost use Rattle.run_blocks.specs.history_monitor_Hooks.{wanted_by};
ghost use Rattle.run_blocks.specs.history_monitor_Told.{HasScanned};
ghost use Rattle.run_blocks.specs.history_monitor_Urgent.{WantsUrgent};
ghost use Rattle.run_session.specs.Alerting.{entries_in, AreAlertsTold, IsScanned, IsFirstScanned, IsTurnScanned};
ghost use Rattle.run_session.specs.Sessions.{IsEndNow, IsRepliedOrNot, IsStep, IsTurnStep, IsStopCause, IsPerformed, IsShownTo};
ghost use Rattle.run_blocks.specs.run_specs_Ended.{IsRunKept};
ghost use Rattle.run_blocks.specs.run_specs_Making.{setting_of};
ghost use Rattle.run_blocks.specs.run_specs_Replies.{IsEnd, at_rest};
ghost use Rattle.run_blocks.specs.script_the_Lane_TheVariants.{Script as InScript};

use crate::alerting::{answer_line, watch};
use crate::blocks::{block_length, perform_block};
use run_blocks::{
    AlertKind, Answered, Bank, Hook, Lane, LineReply, Monitor, NoMemory, Numbered, Pace, State,
    entry_of, is_answer_refused, put_text,
};
use script_io::Sink;
use std::alloc::Global;
use std::sync::Wait;
use std::thread::Threads;

/// The bytes that the text of a reply takes at most, but for one that tells alerts: 128 sectors, each shown by its bytes.
pub const LONGEST_REPLY: usize = 143_000;

/// Why no later line was performed.
#[derive(Clone, Copy, Debug, PartialEq, Eq)]
pub enum Stop {
    WriteFault,
    NoMemory,
}

/// A reply, and whether it is a refusal.
#[derive(Drop)]
pub struct Made {
    pub reply: LineReply,
    pub refused: bool,
}

/// A run between two lines: the array or the bank, the replies so far, the bytes of them that the sink took whole, whether
/// one is a refusal, and why it stopped. The buffer holds the text of one reply.
#[derive(Drop)]
pub struct Session<B: Bank> {
    pub state: State<B>,
    pub replies: Vec<LineReply>,
    pub buffer: Vec<u8>,
    pub shown: u64,
    pub refused: bool,
    pub stopped: Option<Stop>,
}

/// The reply of this answer to a line of the script.
pub fn reply_of<B: Bank>(state: &State<B>, line: u64, lane: Lane, what: Answered) -> LineReply
    requires named { IsNamed (histories_in state.now) what }
    ensures line { result.line ≡ line }
    ensures lane { result.lane ≡ lane }
    ensures what { result.what ≡ what }
    ensures end { IsEnd (histories_in state.now) result what }
    ensures at_end { IsEndNow B.tells (length (B.tape (bank_in state.now))) result what }
{
    let end = match (&what, state) {
        (Answered::Inside { epoch, at }, _) => entry_of(state, *epoch, *at).end,
        (Answered::Outside(_), State::Running(array, _)) => array.ops(),
        (Answered::Outside(_), State::Idle(bank, _)) => bank.ops(),
    };
    LineReply {
        line,
        lane,
        end,
        what,
    }
}

// Performs one line, and puts the text of its reply into the buffer, which takes no memory unless it tells alerts.
fn reply_to<B: Bank, G: Fn(AlertKind, u32) -> bool>(
    alloc: Global,
    state: State<B>,
    monitor: &mut Monitor,
    backup: Option<u32>,
    numbered: Numbered,
    hook: &Hook<G>,
    text: &mut Vec<u8>,
) -> (State<B>, Result<Made, NoMemory>)
    requires limits { IsTrue (is_within_limits numbered.line) }
    requires bank { IsFitBank (B.given (bank_in state)) backup }
    requires own { RunsOwn state }
    requires former { IsRunKept B.tells (B.given (bank_in state)) (B.tape (bank_in state)) backup state }
    requires room { longest_reply ≤ vec_capacity text.old }
    requires begins { HasScanned monitor.old (entries_in state) }
    requires wants { G.IsAlwaysCallable (wanted_by hook.now) }
    requires urgent { WantsUrgent (G.post (wanted_by hook.now)) }
    ensures room { longest_reply ≤ vec_capacity text.new }
    ensures former { IsRunKept B.tells (B.given (bank_in state)) (B.tape (bank_in result.0)) backup result.0 }
    ensures replied { IsRepliedOrNot (setting_of B.tells (B.given (bank_in state)) (B.tape (bank_in state)) (B.tape (bank_in result.0)) backup (B.faults_of (bank_in state)) (B.faults_of (bank_in result.0))) state result.0 numbered text.new.items result.1 }
    ensures alerts { IfOk result.1 (λ made. IsScanned (G.post (wanted_by hook.now)) (entries_in state) monitor.old monitor.new made.reply.what) }
    ensures never_falls { NeverFalls (B.faults_of (bank_in state)) (B.faults_of (bank_in result.0)) }
    ensures grows { Grows B.tells (B.tape (bank_in state)) (B.tape (bank_in result.0)) }
    ensures given { B.given (bank_in result.0) ≡ B.given (bank_in state) }
{
    let (state, what) = answer_line(alloc, state, monitor, backup, numbered.line, hook, text);
    let what = match what {
        Ok(what) => what,
        Err(fault) => return (state, Err(fault)),
    };
    let refused = is_answer_refused(&state, numbered.line, &what);
    let reply = reply_of(&state, numbered.number, numbered.lane, what);
    put_text(text, &state, numbered.line, &reply);
    (state, Ok(Made { reply, refused }))
}

// Performs one line and shows its reply. The room for the reply is taken first.
fn perform_line<B: Bank, K: Sink, G: Fn(AlertKind, u32) -> bool>(
    alloc: Global,
    mut session: Session<B>,
    monitor: &mut Monitor,
    backup: Option<u32>,
    numbered: Numbered,
    hook: &Hook<G>,
    out: &mut K,
) -> Session<B>
    requires limits { IsTrue (is_within_limits numbered.line) }
    requires bank { IsFitBank (B.given (bank_in session.state)) backup }
    requires own { RunsOwn session.state }
    requires former { IsRunKept B.tells (B.given (bank_in session.state)) (B.tape (bank_in session.state)) backup session.state }
    requires room { longest_reply ≤ vec_capacity session.buffer }
    requires begins { HasScanned monitor.old (entries_in session.state) }
    requires wants { G.IsAlwaysCallable (wanted_by hook.now) }
    requires urgent { WantsUrgent (G.post (wanted_by hook.now)) }
    ensures room { longest_reply ≤ vec_capacity result.buffer }
    ensures former { IsRunKept B.tells (B.given (bank_in session.state)) (B.tape (bank_in result.state)) backup result.state }
    ensures alerts { IsFirstScanned (G.post (wanted_by hook.now)) (entries_in session.state) monitor.old monitor.new (drop (length session.replies.items) result.replies.items) }
    ensures step { IsStep K.tells (setting_of B.tells (B.given (bank_in session.state)) (B.tape (bank_in session.state)) (B.tape (bank_in result.state)) backup (B.faults_of (bank_in session.state)) (B.faults_of (bank_in result.state))) session result numbered (K.taken out.old) (K.taken out.new) result.stopped }
    ensures cause { IsStopCause result.stopped (K.faults_of out.old) (K.faults_of out.new) }
    ensures sink_never_falls { K.faults_of out.old ≤ K.faults_of out.new }
    ensures never_falls { NeverFalls (B.faults_of (bank_in session.state)) (B.faults_of (bank_in result.state)) }
    ensures grows { Grows B.tells (B.tape (bank_in session.state)) (B.tape (bank_in result.state)) }
    ensures given { B.given (bank_in result.state) ≡ B.given (bank_in session.state) }
{
    if session.replies.reserve(1).is_err() {
        session.stopped = Some(Stop::NoMemory);
        return session;
    }
    let (state, made) = reply_to(
        alloc,
        session.state,
        monitor,
        backup,
        numbered,
        hook,
        &mut session.buffer,
    );
    session.state = state;
    let Ok(made) = made else {
        session.stopped = Some(Stop::NoMemory);
        return session;
    };
    session.replies.push_reserved(made.reply);
    session.refused |= made.refused;
    let text = session.buffer.as_slice();
    let len = text.len() as u64;
    match out.push(text) {
        Ok(()) => {
            session.shown = session.shown.saturating_add(len);
            session.stopped = None;
            session
        }
        Err(_) => {
            session.stopped = Some(Stop::WriteFault);
            session
        }
    }
}

// It does nothing: its contract says what the stored superblocks say of the array that runs, if one does.
fn check_stored<B: Bank>(state: &State<B>)
    ensures stored { IfSome (record_in state.now) (IsRecordStored B.tells (B.given (bank_in state.now)) (B.tape (bank_in state.now))) }
{
    match state {
        State::Running(array, _) => array.check_stored(),
        State::Idle(_, _) => (),
    }
}

// Performs the first of these lines, or, where they begin with a block, the whole block, and shows its replies. It tells how many lines these were.
fn perform_turn<
    B: Bank + Drop + Send,
    K: Sink,
    F: Fn(u64, u64) -> u64 + Sync,
    G: Fn(AlertKind, u32) -> bool,
    R: Threads + Wait + Sync,
>(
    rt: &R,
    alloc: Global,
    session: Session<B>,
    monitor: &mut Monitor,
    backup: Option<u32>,
    lines: &[Numbered],
    pace: &Pace<F>,
    hook: &Hook<G>,
    out: &mut K,
) -> (Session<B>, usize)
    requires some { 1 ≤ length lines.now }
    requires limits { AllPass (λ numbered. is_within_limits numbered.line) lines.now }
    requires lanes { AllPass (λ numbered. may_ask numbered.lane numbered.line) lines.now }
    requires turns { IsTrue (are_in_turn InScript lines.now) }
    requires callable { F.IsAlwaysCallable (asked_by pace.now) }
    requires answers { AnswersSteps (F.post (asked_by pace.now)) }
    requires bank { IsFitBank (B.given (bank_in session.state)) backup }
    requires own { RunsOwn session.state }
    requires former { IsRunKept B.tells (B.given (bank_in session.state)) (B.tape (bank_in session.state)) backup session.state }
    requires room { longest_reply ≤ vec_capacity session.buffer }
    requires begins { HasScanned monitor.old (entries_in session.state) }
    requires wants { G.IsAlwaysCallable (wanted_by hook.now) }
    requires urgent { WantsUrgent (G.post (wanted_by hook.now)) }
    ensures some { 1 ≤ result.1 }
    ensures within { result.1 ≤ length lines.now }
    ensures turns { IsTrue (are_in_turn InScript (drop result.1 lines.now)) }
    ensures room { longest_reply ≤ vec_capacity result.0.buffer }
    ensures former { IsRunKept B.tells (B.given (bank_in session.state)) (B.tape (bank_in result.0.state)) backup result.0.state }
    ensures alerts { IsTurnScanned (G.post (wanted_by hook.now)) (entries_in session.state) monitor.old monitor.new (drop (length session.replies.items) result.0.replies.items) (take result.1 lines.now) }
    ensures step { IsTurnStep K.tells (setting_of B.tells (B.given (bank_in session.state)) (B.tape (bank_in session.state)) (B.tape (bank_in result.0.state)) backup (B.faults_of (bank_in session.state)) (B.faults_of (bank_in result.0.state))) session result.0 (take result.1 lines.now) (K.taken out.old) (K.taken out.new) }
    ensures cause { IsStopCause result.0.stopped (K.faults_of out.old) (K.faults_of out.new) }
    ensures sink_never_falls { K.faults_of out.old ≤ K.faults_of out.new }
    ensures never_falls { NeverFalls (B.faults_of (bank_in session.state)) (B.faults_of (bank_in result.0.state)) }
    ensures grows { Grows B.tells (B.tape (bank_in session.state)) (B.tape (bank_in result.0.state)) }
    ensures given { B.given (bank_in result.0.state) ≡ B.given (bank_in session.state) }
{
    let first = lines[0];
    match first.lane {
        Lane::Script => (
            perform_line(alloc, session, monitor, backup, first, hook, out),
            1,
        ),
        _ => {
            let count = block_length(lines);
            let block = &lines[..count];
            (
                perform_block(rt, alloc, session, backup, block, pace, out),
                count,
            )
        }
    }
}

/// Performs the lines on a bank, those of a block at once, in threads, the replies being shown one by one, up to the first that can't be
/// shown or for which memory is short. The room for a reply is taken before its line is performed. The lines are in the order of their
/// replies; the worker asks for steps as many at a time as the pace answers. Of the alerts of an array each `alerts` line tells those that
/// are new since the former one, as far as the hook wants them. It may wait.
pub fn perform<
    B: Bank + Drop + Send,
    K: Sink,
    F: Fn(u64, u64) -> u64 + Sync,
    G: Fn(AlertKind, u32) -> bool,
    R: Threads + Wait + Sync,
>(
    rt: &R,
    alloc: Global,
    bank: B,
    backup: Option<u32>,
    lines: &[Numbered],
    pace: &Pace<F>,
    hook: &Hook<G>,
    out: &mut K,
) -> Session<B>
    requires limits { AllPass (λ numbered. is_within_limits numbered.line) lines.now }
    requires lanes { AllPass (λ numbered. may_ask numbered.lane numbered.line) lines.now }
    requires turns { IsTrue (are_in_turn InScript lines.now) }
    requires callable { F.IsAlwaysCallable (asked_by pace.now) }
    requires answers { AnswersSteps (F.post (asked_by pace.now)) }
    requires wants { G.IsAlwaysCallable (wanted_by hook.now) }
    requires urgent { WantsUrgent (G.post (wanted_by hook.now)) }
    requires bank { IsFitBank (B.given bank) backup }
    ensures former { IsRunKept B.tells (B.given bank) (B.tape (bank_in result.state)) backup result.state }
    ensures performed { IsPerformed (setting_of B.tells (B.given bank) (B.tape bank) (B.tape (bank_in result.state)) backup (B.faults_of bank) (B.faults_of (bank_in result.state))) lines.now result }
    ensures alerts { AreAlertsTold (G.post (wanted_by hook.now)) (histories_in result.state) (at_rest 0) [] lines.now result.replies.items }
    ensures all { result.stopped ≡ None → length result.replies.items ≡ length lines.now }
    ensures shown { IsShownTo K.tells lines.now result (K.taken out.old) (K.taken out.new) (K.faults_of out.old) (K.faults_of out.new) }
    ensures never_falls { NeverFalls (B.faults_of bank) (B.faults_of (bank_in result.state)) }
    ensures grows { Grows B.tells (B.tape bank) (B.tape (bank_in result.state)) }
    ensures given { B.given (bank_in result.state) ≡ B.given bank }
{
    let Ok(buffer) = Vec::with_capacity(alloc, LONGEST_REPLY) else {
        return Session {
            state: State::Idle(bank, Vec::new(alloc)),
            replies: Vec::new(alloc),
            buffer: Vec::new(alloc),
            shown: 0,
            refused: false,
            stopped: Some(Stop::NoMemory),
        };
    };
    let mut session = Session {
        state: State::Idle(bank, Vec::new(alloc)),
        replies: Vec::new(alloc),
        buffer,
        shown: 0,
        refused: false,
        stopped: None,
    };
    let mut monitor = Monitor::new();
    let mut next = 0;
    while next < lines.len() {
        let (after, count) = perform_turn(
            rt,
            alloc,
            session,
            &mut monitor,
            backup,
            &lines[next..],
            pace,
            hook,
            out,
        );
        check_stored(&after.state);
        watch(&mut monitor, &after.state);
        session = after;
        if session.stopped.is_some() {
            return session;
        }
        next += count;
    }
    session
}
