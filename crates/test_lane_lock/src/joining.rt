//! Two lanes at once, from the start of their lock to its end.
ghost use Rattle.std.specs.Prelude.{◌≡◌, ◌≢◌, ℕ, [], length, drop, IfOk, IfErr, vec_capacity, ◌≤◌, ◌++◌};
ghost use Rattle.std.specs.Thread.{IsSync};
ghost use Rattle.lane_lock.specs.Turns.{mine_of};
ghost use Rattle.test_lane_lock.specs.Tallies.{IsBefore, entered};
ghost use Rattle.test_lane_lock.specs.Lanes.{calls_made, AreDone};

use crate::entry::{Reply, Request};
use crate::lanes::{Shared, Ticket, run_lane};
use crate::tally::Tally;
use lane_lock::Lock;
use std::alloc::Global;
use std::sync::Wait;
use std::thread::{Threads, join};

/// A tally, and what its lanes were answered.
#[derive(Drop)]
pub struct Joined {
    pub tally: Tally,
    pub first: Vec<Reply>,
    pub second: Vec<Reply>,
}

/// Two lanes make their requests at once, as the callers 1 and 2. Behind the tally's history stand just the requests that
/// they were answered, each once and at the place that it was told, and each lane's in its order.
pub fn together<R: Threads + Wait + Sync>(
    rt: &R,
    alloc: Global,
    tally: Tally,
    first: &[Request],
    second: &[Request],
) -> Result<Joined, Tally>
    ensures begins { IfOk result (λ t. IsBefore tally t.tally) }
    ensures first { IfOk result (λ t. entered 1 tally t.tally (calls_made first.now t.first.items)) }
    ensures second { IfOk result (λ t. entered 2 tally t.tally (calls_made second.now t.second.items)) }
    ensures others { IfOk result (λ t. (caller : ℕ) → caller ≢ 1 → caller ≢ 2 → entered caller tally t.tally []) }
    ensures all { IfOk result (λ t. (AreDone t.first.items → length t.first.items ≡ length first.now) × (AreDone t.second.items → length t.second.items ≡ length second.now)) }
    ensures back { IfErr result (λ v. v ≡ tally) }
{
    let Ok(one) = Vec::with_capacity(alloc, first.len()) else {
        return Err(tally);
    };
    let Ok(two) = Vec::with_capacity(alloc, second.len()) else {
        return Err(tally);
    };
    let (shared, mut passes) = Lock::start(alloc, tally, &[1, 2])?;
    let Some(pass_two) = passes.pop() else {
        unreachable!()
    };
    let Some(pass_one) = passes.pop() else {
        unreachable!()
    };
    let lock = &shared;
    let ((a, one), (b, two)) = join(
        rt,
        move || run_lane(rt, lock, pass_one, first, one),
        move || run_lane(rt, lock, pass_two, second, two),
    );
    let _ = passes.push(a);
    let _ = passes.push(b);
    Ok(Joined {
        tally: shared.close(passes),
        first: one,
        second: two,
    })
}
