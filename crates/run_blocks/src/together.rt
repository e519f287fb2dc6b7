//! A block of two lanes beside the worker, asked of a running array.

ghost use Rattle.std.specs.Prelude.{◌≡◌, ◌⊎◌, ◌<◌, ◌^◌, length, drop, IfOk, IfErr, IsTrue};
ghost use Rattle.std.specs.List.{AllPass};
ghost use Rattle.run_line_answers.specs.sb_specs_Reading.{is_reshaping, list_length};
ghost use Rattle.run_line_answers.specs.reshape_request_Left.{phases_of};
ghost use Rattle.script_status.specs.script_Grammar.{is_for_lanes};
ghost use Rattle.script_status.specs.script_Script.{is_within_limits};
ghost use Rattle.run_line_answers.specs.array_call_specs_Calls.{IsEndOf};
ghost use Rattle.run_line_answers.specs.array_Calls.{running_left};
ghost use Rattle.run_line_answers.specs.run_specs_Blocks.{is_allowed, is_in_lane, request_of, requests_in, HasRunLane, IsBlockEntered};
ghost use Rattle.run_line_answers.specs.Turning.{IsTurningTold};
ghost use Rattle.lane_shared.specs.Blocks.{HasWorkedBy};
ghost use Rattle.lane_shared.specs.Pace.{AnswersSteps, Paces, asked_by};
ghost use Rattle.lane_shared.specs.array_requests_Going.{HasGoneOn};
ghost use Rattle.lane_shared.specs.history_caller_laws_Callers.{RepliesFrom};

use lane_shared::{Bank, Joined, NoMemory, Pace, Reply, Worked, run_block};
use run_line_answers::Running;
use script_status::{Line, Numbered, Request, seed_sectors};
use std::alloc::{AllocError, Global};
use std::sync::Wait;
use std::thread::Threads;

/// What a block was answered: the replies to the lines of lane a and of lane b, each up to one for which memory was short, and what the
/// worker tells.
#[derive(Drop)]
pub struct Together {
    pub first: Vec<Reply>,
    pub second: Vec<Reply>,
    pub worked: Worked,
}

// What a line of a lane asks.
fn request_of(alloc: Global, line: Line) -> Result<Request, AllocError>
    requires limits { IsTrue (is_within_limits line) }
    requires lane { IsTrue (is_for_lanes line) }
    ensures { IfOk result (λ request. request ≡ request_of line) }
{
    match line {
        Line::Read { at, count } => Ok(Request::Read { at, count }),
        Line::Write { at, count, seed } => {
            let body = seed_sectors(alloc, at, count, seed)?;
            Ok(Request::Write { at, body })
        }
        Line::Fail { role } => Ok(Request::Fail { role }),
        _ => Ok(Request::Flush),
    }
}

// What the lines of a lane ask.
fn requests_of(alloc: Global, lines: &[Numbered]) -> Result<Vec<Request>, AllocError>
    requires limits { AllPass is_allowed lines.now }
    requires lanes { AllPass is_in_lane lines.now }
    ensures { IfOk result (λ requests. requests.items ≡ requests_in lines.now) }
{
    let mut requests = Vec::with_capacity(alloc, lines.len())?;
    for i in 0..lines.len() {
        requests.push(request_of(alloc, lines[i].line)?)?;
    }
    Ok(requests)
}

/// Asks a block of an array: the lines of lane a, as caller 1, those of lane b, as caller 2, and a worker, as caller 255, which asks for
/// steps as many at a time as the pace answers. All three run at once, in threads; it may wait. A lane stops behind a line for which memory
/// was short. `NoMemory`: memory was short for all of the replies.
pub fn ask_together<B: Bank + Drop + Send, F: Fn(u64, u64) -> u64 + Sync, R: Threads + Wait + Sync>(
    rt: &R,
    alloc: Global,
    array: Running<B>,
    first: &[Numbered],
    second: &[Numbered],
    pace: &Pace<F>,
) -> (Running<B>, Result<Together, NoMemory>)
    requires ended { IsEndOf B.tells array.parts.first array.parts.entries (B.tape array.parts.bank) }
    requires turning { IsTurningTold (is_reshaping array.parts.members.newest) (phases_of array.ahead) array.parts.entries }
    requires limits { AllPass is_allowed first.now × AllPass is_allowed second.now }
    requires lanes { AllPass is_in_lane first.now × AllPass is_in_lane second.now }
    requires callable { F.IsAlwaysCallable (asked_by pace.now) }
    requires answers { AnswersSteps (F.post (asked_by pace.now)) }
    ensures first { IfOk result.1 (λ t. HasRunLane (list_length array.parts.members.newest) array.parts.entries result.0.parts.entries 1 (requests_in first.now) t.first.items) }
    ensures second { IfOk result.1 (λ t. HasRunLane (list_length array.parts.members.newest) array.parts.entries result.0.parts.entries 2 (requests_in second.now) t.second.items) }
    ensures worked { IfOk result.1 (λ t. HasWorkedBy (HasRunLane (list_length array.parts.members.newest) array.parts.entries result.0.parts.entries 255) (Paces (F.post (asked_by pace.now))) (running_left array) t.worked) }
    ensures back { IfErr result.1 (λ none. (result.0 ≡ array) ⊎ (2 ^ 61 < length result.0.parts.entries)) }
    ensures entered { IsBlockEntered array.parts.entries result.0.parts.entries }
    ensures later { B.tells → RepliesFrom (length (B.tape array.parts.bank)) (drop (length array.parts.entries) result.0.parts.entries) }
    ensures turning { IsTurningTold (is_reshaping result.0.parts.members.newest) (phases_of result.0.ahead) result.0.parts.entries }
    ensures ended { IsEndOf B.tells result.0.parts.first result.0.parts.entries (B.tape result.0.parts.bank) }
    ensures went { HasGoneOn B.tells B.given B.tape B.faults_of array result.0 }
{
    let Ok(one) = requests_of(alloc, first) else {
        return (array, Err(NoMemory {}));
    };
    let Ok(two) = requests_of(alloc, second) else {
        return (array, Err(NoMemory {}));
    };
    let Joined {
        array,
        first,
        second,
        worked,
    } = match run_block(rt, alloc, array, one, two, pace) {
        Ok(joined) => joined,
        Err(array) => return (array, Err(NoMemory {})),
    };
    // (no memory holds so many entries)
    if array.epoch().entries.len() as u64 > 1 << 61 {
        return (array, Err(NoMemory {}));
    }
    (
        array,
        Ok(Together {
            first,
            second,
            worked,
        }),
    )
}
