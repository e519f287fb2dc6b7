//! A block of lines, two lanes beside the worker, and the replies that are shown behind it.

ghost use Rattle.std.specs.Prelude.{◌≡◌, ◌+◌, ◌<◌, ◌≤◌, length, vec_capacity};
ghost use Rattle.std.specs.List.{All, AllPass};
ghost use Rattle.run_blocks.specs.bank_Given.{NeverFalls};
ghost use Rattle.run_blocks.specs.array_members_Moving.{Grows};
ghost use Rattle.run_blocks.specs.script_Script.{is_within_limits, may_ask};
ghost use Rattle.run_blocks.specs.lane_shared_Pace.{AnswersSteps, asked_by};
ghost use Rattle.run_blocks.specs.run_specs_Ended.{IsRunKept};
ghost use Rattle.run_blocks.specs.run_specs_Making.{setting_of};
ghost use Rattle.run_blocks.specs.run_specs_States.{histories_in, bank_in, RunsOwn, IsNamed};
ghost use Rattle.run_blocks.specs.Shown.{longest_reply, IsAnswerShort};
ghost use Rattle.run_session.specs.Sessions.{block_length, front_length, IsBlock, IsOneShown, AreAllShown, IsBlockStep, IsStopCause};

use crate::sessions::{Session, Stop, reply_of};
use run_blocks::{Answered, Bank, Lane, Numbered, Pace, answer_block, is_answer_refused, put_text};
use script_io::Sink;
use std::alloc::Global;
use std::sync::Wait;
use std::thread::Threads;

// How many lines of lane a stand at the front.
fn front_length(lines: &[Numbered]) -> usize
    ensures count { result ≡ front_length lines.now }
    ensures within { result ≤ length lines.now }
{
    for i in 0..lines.len() {
        match lines[i].lane {
            Lane::A => {}
            _ => return i,
        }
    }
    lines.len()
}

/// How many lines the block at the front has: the worker's is its last.
pub fn block_length(lines: &[Numbered]) -> usize
    ensures count { result ≡ block_length lines.now }
    ensures within { result ≤ length lines.now }
{
    for i in 0..lines.len() {
        match lines[i].lane {
            Lane::Worker => return i + 1,
            _ => {}
        }
    }
    lines.len()
}

// Shows the reply of this answer to a line. The room for it is there.
fn show<B: Bank, K: Sink>(
    mut session: Session<B>,
    numbered: Numbered,
    what: Answered,
    out: &mut K,
) -> Session<B>
    requires named { IsNamed (histories_in session.state) what }
    requires short { IsAnswerShort 0 (histories_in session.state) what }
    requires room { longest_reply ≤ vec_capacity session.buffer }
    requires spare { length session.replies.items < vec_capacity session.replies }
    ensures state { result.state ≡ session.state }
    ensures room { longest_reply ≤ vec_capacity result.buffer }
    ensures spare { vec_capacity session.replies ≤ vec_capacity result.replies }
    ensures shown { IsOneShown K.tells B.tells (length (B.tape (bank_in session.state))) session result numbered what (K.taken out.old) (K.taken out.new) }
    ensures cause { IsStopCause result.stopped (K.faults_of out.old) (K.faults_of out.new) }
    ensures sink_never_falls { K.faults_of out.old ≤ K.faults_of out.new }
{
    session.refused |= is_answer_refused(&session.state, numbered.line, &what);
    let reply = reply_of(&session.state, numbered.number, numbered.lane, what);
    put_text(&mut session.buffer, &session.state, numbered.line, &reply);
    session.replies.push_reserved(reply);
    let text = session.buffer.as_slice();
    let len = text.len() as u64;
    match out.push(text) {
        Ok(()) => {
            session.shown = session.shown.saturating_add(len);
            session.stopped = None;
            session
        }
        Err(_) => {
            session.stopped = Some(Stop::WriteFault);
            session
        }
    }
}

// Shows the replies of these answers to the lines of a block, of which the last may lack, where memory was short.
fn show_answers<B: Bank, K: Sink>(
    mut session: Session<B>,
    lines: &[Numbered],
    whats: Vec<Answered>,
    out: &mut K,
) -> Session<B>
    requires named { All (λ what. IsNamed (histories_in session.state) what) whats.items }
    requires short { All (λ what. IsAnswerShort 0 (histories_in session.state) what) whats.items }
    requires few { length whats.items ≤ length lines.now }
    requires room { longest_reply ≤ vec_capacity session.buffer }
    requires spare { length session.replies.items + length lines.now ≤ vec_capacity session.replies }
    ensures state { result.state ≡ session.state }
    ensures room { longest_reply ≤ vec_capacity result.buffer }
    ensures shown { AreAllShown K.tells B.tells (length (B.tape (bank_in session.state))) (histories_in session.state) session result lines.now whats.items (K.taken out.old) (K.taken out.new) }
    ensures cause { IsStopCause result.stopped (K.faults_of out.old) (K.faults_of out.new) }
    ensures sink_never_falls { K.faults_of out.old ≤ K.faults_of out.new }
{
    let mut i = 0;
    for what in whats {
        session = show(session, lines[i], what, out);
        if session.stopped.is_some() {
            return session;
        }
        i += 1;
    }
    if i < lines.len() {
        session.stopped = Some(Stop::NoMemory);
        return session;
    }
    session.stopped = None;
    session
}

/// Performs a block of lines, all of them at once, in threads, and then shows their replies: those of lane a, those of lane b, and the
/// worker's, up to one for which memory was short. The room for the replies is taken first.
pub fn perform_block<
    B: Bank + Drop + Send,
    K: Sink,
    F: Fn(u64, u64) -> u64 + Sync,
    R: Threads + Wait + Sync,
>(
    rt: &R,
    alloc: Global,
    mut session: Session<B>,
    backup: Option<u32>,
    lines: &[Numbered],
    pace: &Pace<F>,
    out: &mut K,
) -> Session<B>
    requires block { IsBlock lines.now }
    requires limits { AllPass (λ numbered. is_within_limits numbered.line) lines.now }
    requires lanes { AllPass (λ numbered. may_ask numbered.lane numbered.line) lines.now }
    requires callable { F.IsAlwaysCallable (asked_by pace.now) }
    requires answers { AnswersSteps (F.post (asked_by pace.now)) }
    requires own { RunsOwn session.state }
    requires former { IsRunKept B.tells (B.given (bank_in session.state)) (B.tape (bank_in session.state)) backup session.state }
    requires room { longest_reply ≤ vec_capacity session.buffer }
    ensures room { longest_reply ≤ vec_capacity result.buffer }
    ensures former { IsRunKept B.tells (B.given (bank_in session.state)) (B.tape (bank_in result.state)) backup result.state }
    ensures step { IsBlockStep K.tells (setting_of B.tells (B.given (bank_in session.state)) (B.tape (bank_in session.state)) (B.tape (bank_in result.state)) backup (B.faults_of (bank_in session.state)) (B.faults_of (bank_in result.state))) session result lines.now (K.taken out.old) (K.taken out.new) }
    ensures cause { IsStopCause result.stopped (K.faults_of out.old) (K.faults_of out.new) }
    ensures sink_never_falls { K.faults_of out.old ≤ K.faults_of out.new }
    ensures never_falls { NeverFalls (B.faults_of (bank_in session.state)) (B.faults_of (bank_in result.state)) }
    ensures grows { Grows B.tells (B.tape (bank_in session.state)) (B.tape (bank_in result.state)) }
    ensures given { B.given (bank_in result.state) ≡ B.given (bank_in session.state) }
{
    if session.replies.reserve(lines.len()).is_err() {
        session.stopped = Some(Stop::NoMemory);
        return session;
    }
    let last = lines.len() - 1;
    let one = front_length(&lines[..last]);
    let (state, whats) = answer_block(
        rt,
        alloc,
        session.state,
        backup,
        &lines[..one],
        &lines[one..last],
        lines[last],
        pace,
    );
    session.state = state;
    show_answers(session, lines, whats, out)
}
