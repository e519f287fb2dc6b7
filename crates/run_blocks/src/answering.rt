//! The answers to the lines of a block, by whether an array runs.

ghost use Rattle.std.specs.Prelude.{◌≡◌, ◌+◌, ◌<◌, ◌≤◌, ◌^◌, [], ◌∷◌, ◌++◌, length, map, vec_capacity};
ghost use Rattle.std.specs.List.{All, AllPass};
ghost use Rattle.lane_shared.specs.bank_Given.{NeverFalls};
ghost use Rattle.lane_shared.specs.array_members_Moving.{Grows};
ghost use Rattle.script_status.specs.script_the_Lane_TheVariants.{A as InA, B as InB, Worker as InWorker};
ghost use Rattle.run_line_answers.specs.run_specs_Blocks.{is_allowed, is_in_lane, places_told};
ghost use Rattle.run_line_answers.specs.run_specs_Ended.{IsRunKept};
ghost use Rattle.run_line_answers.specs.run_specs_Making.{setting_of};
ghost use Rattle.run_line_answers.specs.run_specs_States.{histories_in, bank_in, RunsOwn, IsBlockAnswered};
ghost use Rattle.run_line_answers.specs.run_specs_Written.{IsWritten};
ghost use Rattle.run_line_answers.specs.run_specs_the_State_TheVariants.{Running as IsRunning};
ghost use Rattle.lane_shared.specs.Pace.{AnswersSteps, asked_by};
ghost use Rattle.run_blocks.specs.Answers.{insides, block_places, refusals};

use crate::together::{Together, ask_together};
use lane_shared::{Bank, Pace, Refusal, Reply};
use run_line_answers::{Answered, Outside, Running, State};
use script_status::{Epoch, Numbered};
use std::alloc::Global;
use std::sync::Wait;
use std::thread::Threads;

// The number of the epoch behind these.
fn number_behind(epochs: &Vec<Epoch>) -> u32
    requires few { length epochs.now.items < 2 ^ 32 }
    ensures { result ≡ length epochs.now.items }
{
    epochs.len() as u32
}

// Appends the answers by a caller's replies, up to one for which memory was short. The room for them is there.
fn push_places(whats: &mut Vec<Answered>, epoch: u32, replies: &[Reply])
    requires room { length whats.old.items + length replies.now ≤ vec_capacity whats.old }
    ensures answers { whats.new.items ≡ whats.old.items ++ insides epoch (places_told replies.now) }
    ensures room { vec_capacity whats.old ≤ vec_capacity whats.new }
{
    for i in 0..replies.len() {
        match &replies[i] {
            Reply::Done { at, .. } => whats.push_reserved(Answered::Inside { epoch, at: *at }),
            Reply::NoMemory => return,
        }
    }
}

// The answers to a block of so many lines in either lane. The room for them is there.
fn answers_of(
    mut whats: Vec<Answered>,
    epoch: u32,
    one: usize,
    two: usize,
    together: &Together,
) -> Vec<Answered>
    requires empty { whats.items ≡ [] }
    requires few { (length together.now.first.items ≤ one) × (length together.now.second.items ≤ two) }
    requires room { one + two + 1 ≤ vec_capacity whats }
    ensures { result.items ≡ insides epoch (block_places one two together.now.first.items together.now.second.items together.now.worked.last) }
{
    push_places(&mut whats, epoch, together.first.as_slice());
    if whats.len() < one {
        return whats;
    }
    let so_far = whats.len();
    push_places(&mut whats, epoch, together.second.as_slice());
    if whats.len() - so_far < two {
        return whats;
    }
    if let Reply::Done { at, .. } = &together.worked.last {
        whats.push_reserved(Answered::Inside { epoch, at: *at });
    }
    whats
}

// Refuses as many lines as there are. The room for the refusals is there.
fn refuse_lines(mut whats: Vec<Answered>, lines: &[Numbered]) -> Vec<Answered>
    requires room { length whats.items + length lines.now ≤ vec_capacity whats }
    ensures answers { result.items ≡ whats.items ++ refusals lines.now }
    ensures room { vec_capacity whats ≤ vec_capacity result }
{
    for i in 0..lines.len() {
        let _ = lines[i];
        whats.push_reserved(Answered::Outside(Outside::Refused {
            refusal: Refusal::NotRunning,
        }));
    }
    whats
}

// The answers of the array that runs behind these epochs.
fn answer_running<B: Bank + Drop + Send, F: Fn(u64, u64) -> u64 + Sync, R: Threads + Wait + Sync>(
    rt: &R,
    alloc: Global,
    array: Running<B>,
    epochs: Vec<Epoch>,
    backup: Option<u32>,
    first: &[Numbered],
    second: &[Numbered],
    worker: Numbered,
    pace: &Pace<F>,
    whats: Vec<Answered>,
) -> (State<B>, Vec<Answered>)
    requires limits { AllPass is_allowed first.now × AllPass is_allowed second.now }
    requires lanes { AllPass is_in_lane first.now × AllPass is_in_lane second.now }
    requires order { All (λ line. line.lane ≡ InA) first.now × All (λ line. line.lane ≡ InB) second.now × (worker.lane ≡ InWorker) }
    requires callable { F.IsAlwaysCallable (asked_by pace.now) }
    requires answers { AnswersSteps (F.post (asked_by pace.now)) }
    requires empty { whats.items ≡ [] }
    requires room { length first.now + length second.now + 1 ≤ vec_capacity whats }
    requires own { RunsOwn (IsRunning array epochs) }
    requires former { IsRunKept B.tells (B.given array.parts.bank) (B.tape array.parts.bank) backup (IsRunning array epochs) }
    ensures answered { IsBlockAnswered (setting_of B.tells (B.given array.parts.bank) (B.tape array.parts.bank) (B.tape (bank_in result.0)) backup (B.faults_of array.parts.bank) (B.faults_of (bank_in result.0))) (IsRunning array epochs) result.0 (first.now ++ (second.now ++ worker ∷ [])) result.1.items }
    ensures written { B.tells → IsWritten (setting_of B.tells (B.given array.parts.bank) (B.tape array.parts.bank) (B.tape (bank_in result.0)) backup (B.faults_of array.parts.bank) (B.faults_of (bank_in result.0))) (histories_in (IsRunning array epochs)) (histories_in result.0) (λ slot. ⊥) }
    ensures former { IsRunKept B.tells (B.given array.parts.bank) (B.tape (bank_in result.0)) backup result.0 }
    ensures never_falls { NeverFalls (B.faults_of array.parts.bank) (B.faults_of (bank_in result.0)) }
    ensures grows { Grows B.tells (B.tape array.parts.bank) (B.tape (bank_in result.0)) }
    ensures given { B.given (bank_in result.0) ≡ B.given array.parts.bank }
{
    let _ = backup;
    let _ = worker;
    let epoch = number_behind(&epochs);
    let (array, answer) = ask_together(rt, alloc, array, first, second, pace);
    // (as many steps are left as the history tells, and the limit is the one that it tells)
    let _ = array.left();
    let _ = array.visible();
    match answer {
        Ok(together) => {
            let whats = answers_of(whats, epoch, first.len(), second.len(), &together);
            (State::Running(array, epochs), whats)
        }
        Err(_) => (State::Running(array, epochs), whats),
    }
}

/// Answers a block: the lines of lane a, those of lane b, and the line of the worker, which asks for steps as many at a time as the pace
/// answers. The lanes and the worker run at once, in threads, where an array runs, and it may wait. The answers are those to the first
/// lines; where there are fewer, memory was short for the next one.
pub fn answer_block<B: Bank + Drop + Send, F: Fn(u64, u64) -> u64 + Sync, R: Threads + Wait + Sync>(
    rt: &R,
    alloc: Global,
    state: State<B>,
    backup: Option<u32>,
    first: &[Numbered],
    second: &[Numbered],
    worker: Numbered,
    pace: &Pace<F>,
) -> (State<B>, Vec<Answered>)
    requires limits { AllPass is_allowed first.now × AllPass is_allowed second.now }
    requires lanes { AllPass is_in_lane first.now × AllPass is_in_lane second.now }
    requires order { All (λ line. line.lane ≡ InA) first.now × All (λ line. line.lane ≡ InB) second.now × (worker.lane ≡ InWorker) }
    requires callable { F.IsAlwaysCallable (asked_by pace.now) }
    requires answers { AnswersSteps (F.post (asked_by pace.now)) }
    requires own { RunsOwn state }
    requires former { IsRunKept B.tells (B.given (bank_in state)) (B.tape (bank_in state)) backup state }
    ensures answered { IsBlockAnswered (setting_of B.tells (B.given (bank_in state)) (B.tape (bank_in state)) (B.tape (bank_in result.0)) backup (B.faults_of (bank_in state)) (B.faults_of (bank_in result.0))) state result.0 (first.now ++ (second.now ++ worker ∷ [])) result.1.items }
    ensures written { B.tells → IsWritten (setting_of B.tells (B.given (bank_in state)) (B.tape (bank_in state)) (B.tape (bank_in result.0)) backup (B.faults_of (bank_in state)) (B.faults_of (bank_in result.0))) (histories_in state) (histories_in result.0) (λ slot. ⊥) }
    ensures former { IsRunKept B.tells (B.given (bank_in state)) (B.tape (bank_in result.0)) backup result.0 }
    ensures never_falls { NeverFalls (B.faults_of (bank_in state)) (B.faults_of (bank_in result.0)) }
    ensures grows { Grows B.tells (B.tape (bank_in state)) (B.tape (bank_in result.0)) }
    ensures given { B.given (bank_in result.0) ≡ B.given (bank_in state) }
{
    let Ok(whats) = Vec::with_capacity(alloc, first.len() + second.len() + 1) else {
        return (state, Vec::new(alloc));
    };
    match state {
        State::Running(array, epochs) => answer_running(
            rt, alloc, array, epochs, backup, first, second, worker, pace, whats,
        ),
        State::Idle(bank, epochs) => {
            let whats = refuse_lines(refuse_lines(whats, first), second);
            let whats = refuse_lines(whats, &[worker]);
            (State::Idle(bank, epochs), whats)
        }
    }
}
