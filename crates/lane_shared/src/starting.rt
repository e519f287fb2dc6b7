//! The start of a block, its callers' threads, and its end.
ghost use Rattle.std.specs.Prelude.{◌≡◌, ◌≢◌, ◌≤◌, [], ◌∷◌, IfOk, IfErr, IfSome, vec_len, vec_capacity};
ghost use Rattle.std.specs.List.{All};
ghost use Rattle.lane_shared.specs.array_call_specs_Calls.{IsEndOf};
ghost use Rattle.lane_shared.specs.array_requests_Replies.{IsAskable};
ghost use Rattle.lane_lock.specs.Passes.{AreNew, Ended};
ghost use Rattle.lane_shared.specs.Pace.{AnswersSteps, Paces, asked_by};
ghost use Rattle.lane_shared.specs.Serving.{array_ways};
ghost use Rattle.lane_shared.specs.Lanes.{carried_by};
ghost use Rattle.lane_shared.specs.Threads.{HasPassed, HasWorkedBy};

use crate::rows::{put_back, taken};
use crate::{Pace, Pass, Reply, Running, Shared, Worked, at_once};
use array_requests::Bank;
use history_caller_laws::Request;
use std::alloc::Global;
use std::sync::Wait;
use std::thread::Threads;

// An empty row for each lane's replies; none where memory is short.
pub(crate) fn rooms(
    alloc: Global,
    first: &Vec<Request>,
    second: &Vec<Request>,
) -> Option<(Vec<Reply>, Vec<Reply>)>
    ensures empty { IfSome result (λ rows. (rows.0.items ≡ []) × (rows.1.items ≡ [])) }
    ensures room { IfSome result (λ rows. (vec_len first.now ≤ vec_capacity rows.0) × (vec_len second.now ≤ vec_capacity rows.1)) }
{
    let Ok(one) = Vec::with_capacity(alloc, first.len()) else {
        return None;
    };
    let Ok(two) = Vec::with_capacity(alloc, second.len()) else {
        return None;
    };
    Some((one, two))
}

// The array, shared by the callers 1, 2 and 255, their passes, and the empty row in which these came.
pub(crate) fn begun<B: Bank + Drop>(
    alloc: Global,
    array: Running<B>,
) -> Result<(Shared<B>, (Pass<B>, Pass<B>, Pass<B>), Vec<Pass<B>>), Running<B>>
    requires ended { IsEndOf B.tells array.parts.first array.parts.entries (B.tape array.parts.bank) }
    ensures lock { IfOk result (λ t. t.0.lock.table.shared.key.value ≡ array) }
    ensures callers { IfOk result (λ t. t.0.lock.table.shared.key.callers.items ≡ 1 ∷ 2 ∷ 255 ∷ []) }
    ensures passes { IfOk result (λ t. AreNew t.0.lock.table.shared.table_id array (1 ∷ 2 ∷ 255 ∷ []) (t.1.0 ∷ t.1.1 ∷ t.1.2 ∷ [])) }
    ensures empty { IfOk result (λ t. t.2.items ≡ []) }
    ensures room { IfOk result (λ t. 3 ≤ vec_capacity t.2) }
    ensures back { IfErr result (λ a. a ≡ array) }
{
    let (shared, passes) = Shared::start(alloc, array, &[1, 2, 255])?;
    let (passes, row) = taken(passes);
    Ok((shared, passes, row))
}

// Both lanes and the worker, at once.
pub(crate) fn ran<B: Bank + Drop + Send, F: Fn(u64, u64) -> u64 + Sync, R: Threads + Wait + Sync>(
    rt: &R,
    shared: &Shared<B>,
    passes: (Pass<B>, Pass<B>, Pass<B>),
    first: (Vec<Request>, Vec<Reply>),
    second: (Vec<Request>, Vec<Reply>),
    pace: &Pace<F>,
    left: u64,
) -> (
    (Pass<B>, Pass<B>, Pass<B>),
    (Vec<Reply>, Vec<Reply>, Worked),
)
    requires locks { (passes.0.seat.table_id ≡ shared.now.lock.table.shared.table_id) × (passes.1.seat.table_id ≡ shared.now.lock.table.shared.table_id) × (passes.2.seat.table_id ≡ shared.now.lock.table.shared.table_id) }
    requires callers { (passes.0.caller ≢ 254) × (passes.1.caller ≢ 254) × (passes.2.caller ≢ 254) }
    requires askable { All IsAskable first.0.items × All IsAskable second.0.items }
    requires empty { (first.1.items ≡ []) × (second.1.items ≡ []) }
    requires room { (vec_len first.0 ≤ vec_capacity first.1) × (vec_len second.0 ≤ vec_capacity second.1) }
    requires callable { F.IsAlwaysCallable (asked_by pace.now) }
    requires answers { AnswersSteps (F.post (asked_by pace.now)) }
    ensures locks { (result.0.0.seat.table_id ≡ passes.0.seat.table_id) × (result.0.1.seat.table_id ≡ passes.1.seat.table_id) × (result.0.2.seat.table_id ≡ passes.2.seat.table_id) }
    ensures first { HasPassed B.tells (carried_by B.given B.tape passes.0) (carried_by B.given B.tape result.0.0) first.0.items result.1.0.items }
    ensures second { HasPassed B.tells (carried_by B.given B.tape passes.1) (carried_by B.given B.tape result.0.1) second.0.items result.1.1.items }
    ensures worked { HasWorkedBy (HasPassed B.tells (carried_by B.given B.tape passes.2) (carried_by B.given B.tape result.0.2)) (Paces (F.post (asked_by pace.now))) left result.1.2 }
{
    at_once(rt, shared, passes, first, second, pace, left)
}

// The array, once the passes of the three callers are back.
pub(crate) fn closed<B: Bank + Drop>(
    shared: Shared<B>,
    row: Vec<Pass<B>>,
    passes: (Pass<B>, Pass<B>, Pass<B>),
) -> Running<B>
    requires three { shared.lock.table.shared.key.callers.items ≡ 1 ∷ 2 ∷ 255 ∷ [] }
    requires locks { (passes.0.seat.table_id ≡ shared.lock.table.shared.table_id) × (passes.1.seat.table_id ≡ shared.lock.table.shared.table_id) × (passes.2.seat.table_id ≡ shared.lock.table.shared.table_id) }
    requires empty { row.items ≡ [] }
    requires room { 3 ≤ vec_capacity row }
    ensures { Ended (array_ways B.tells B.given B.tape B.faults_of) shared.lock.table.shared.key.value (passes.0 ∷ passes.1 ∷ passes.2 ∷ []) result }
{
    shared.close(put_back(row, passes))
}
