//! A block of lanes, from the start of the sharing to its end.
ghost use Rattle.std.specs.Prelude.{◌≡◌, ◌≢◌, ℕ, [], IfOk, IfErr};
ghost use Rattle.std.specs.List.{All};
ghost use Rattle.lane_shared.specs.array_call_specs_Calls.{IsEndOf};
ghost use Rattle.lane_shared.specs.array_requests_Entered.{HasEntered};
ghost use Rattle.lane_shared.specs.array_requests_Going.{HasGoneOn};
ghost use Rattle.lane_shared.specs.array_requests_Replies.{IsAskable};
ghost use Rattle.lane_shared.specs.array_Calls.{running_left};
ghost use Rattle.lane_shared.specs.Pace.{AnswersSteps, Paces, asked_by};
ghost use Rattle.lane_shared.specs.Serving.{IsEarlier, HasMade};
ghost use Rattle.lane_shared.specs.Blocks.{HasRun, HasWorkedBy};

use crate::starting::{begun, closed, ran, rooms};
use crate::{Pace, Reply, Running, Worked};
use array_requests::Bank;
use history_caller_laws::Request;
use std::alloc::Global;
use std::sync::Wait;
use std::thread::Threads;

/// An array behind a block of lanes, and what the first lane, the second and the worker were answered.
#[derive(Drop)]
pub struct Joined<B: Bank> {
    pub array: Running<B>,
    pub first: Vec<Reply>,
    pub second: Vec<Reply>,
    pub worked: Worked,
}

/// Runs a block of lanes: the requests of the first lane, as caller 1, those of the second, as caller 2, and a worker, as caller 255,
/// which asks for background steps as many at a time as the pace answers. All three run at once, in threads; it may wait. A lane stops
/// behind a request for which memory was short. Each reply tells the place of its event in the array's history. `Err` gives the array
/// back as it was, where memory was short before the lanes began.
pub fn run_block<B: Bank + Drop + Send, F: Fn(u64, u64) -> u64 + Sync, R: Threads + Wait + Sync>(
    rt: &R,
    alloc: Global,
    array: Running<B>,
    first: Vec<Request>,
    second: Vec<Request>,
    pace: &Pace<F>,
) -> Result<Joined<B>, Running<B>>
    requires ended { IsEndOf B.tells array.parts.first array.parts.entries (B.tape array.parts.bank) }
    requires askable { All IsAskable first.items × All IsAskable second.items }
    requires callable { F.IsAlwaysCallable (asked_by pace.now) }
    requires answers { AnswersSteps (F.post (asked_by pace.now)) }
    ensures back { IfErr result (λ a. a ≡ array) }
    ensures later { IfOk result (λ t. IsEarlier B.tells B.given B.tape array t.array) }
    ensures went { IfOk result (λ t. HasGoneOn B.tells B.given B.tape B.faults_of array t.array) }
    ensures entered { IfOk result (λ t. HasEntered array t.array) }
    ensures ended { IfOk result (λ t. IsEndOf B.tells t.array.parts.first t.array.parts.entries (B.tape t.array.parts.bank)) }
    ensures first { IfOk result (λ t. HasRun array t.array 1 first.items t.first.items) }
    ensures second { IfOk result (λ t. HasRun array t.array 2 second.items t.second.items) }
    ensures worked { IfOk result (λ t. HasWorkedBy (HasRun array t.array 255) (Paces (F.post (asked_by pace.now))) (running_left array) t.worked) }
    ensures others { IfOk result (λ t. (caller : ℕ) → caller ≢ 1 → caller ≢ 2 → caller ≢ 255 → HasMade B.tells B.given B.tape B.faults_of array t.array caller []) }
{
    let Some((one, two)) = rooms(alloc, &first, &second) else {
        return Err(array);
    };
    let left = array.left();
    let (shared, passes, row) = begun(alloc, array)?;
    let (passes, (first, second, worked)) = ran(
        rt,
        &shared,
        passes,
        (first, one),
        (second, two),
        pace,
        left,
    );
    Ok(Joined {
        array: closed(shared, row, passes),
        first,
        second,
        worked,
    })
}
