//! Two lanes and a worker at once, each to its end.
ghost use Rattle.std.specs.Prelude.{◌≡◌, ◌≢◌, ◌≤◌, [], vec_len, vec_capacity};
ghost use Rattle.std.specs.List.{All};
ghost use Rattle.lane_shared.specs.array_requests_Replies.{IsAskable};
ghost use Rattle.lane_shared.specs.Pace.{AnswersSteps, Paces, asked_by};
ghost use Rattle.lane_shared.specs.Threads.{HasPassed, HasWorkedBy};

use crate::{Pace, Reply, Service, Worked, run_lane, run_worker};
use history_caller_laws::Request;
use std::sync::Wait;
use std::thread::{Threads, join};

// One lane.
fn lane<R: Wait, S: Service>(
    rt: &R,
    service: &S,
    pass: S::Pass,
    requests: Vec<Request>,
    replies: Vec<Reply>,
) -> (S::Pass, Vec<Reply>)
    requires lock { S.lock_of pass ≡ S.lock service.now }
    requires caller { (S.carried pass).caller ≢ 254 }
    requires askable { All IsAskable requests.items }
    requires empty { replies.items ≡ [] }
    requires room { vec_len requests ≤ vec_capacity replies }
    ensures lock { S.lock_of result.0 ≡ S.lock_of pass }
    ensures ran { HasPassed S.tells (S.carried pass) (S.carried result.0) requests.items result.1.items }
{
    let mut replies = replies;
    let pass = run_lane(rt, service, pass, requests, &mut replies);
    (pass, replies)
}

// The worker.
fn work<R: Wait, S: Service, F: Fn(u64, u64) -> u64>(
    rt: &R,
    service: &S,
    pass: S::Pass,
    pace: &Pace<F>,
    left: u64,
) -> (S::Pass, Worked)
    requires lock { S.lock_of pass ≡ S.lock service.now }
    requires caller { (S.carried pass).caller ≢ 254 }
    requires callable { F.IsAlwaysCallable (asked_by pace.now) }
    requires answers { AnswersSteps (F.post (asked_by pace.now)) }
    ensures lock { S.lock_of result.0 ≡ S.lock_of pass }
    ensures worked { HasWorkedBy (HasPassed S.tells (S.carried pass) (S.carried result.0)) (Paces (F.post (asked_by pace.now))) left result.1 }
{
    run_worker(rt, service, pass, pace, left)
}

// Three closures at once, and what each returned.
fn join_three<
    R: Threads + Sync,
    F: FnOnce() -> A + Send,
    G: FnOnce() -> B + Send + Drop,
    H: FnOnce() -> C + Drop,
    A: Send,
    B: Send,
    C,
>(rt: &R, first: F, second: G, third: H) -> (A, (B, C))
    requires first { F.pre first }
    requires second { G.pre second }
    requires third { H.pre third }
    ensures first { F.post first result.0 }
    ensures second { G.post second result.1.0 }
    ensures third { H.post third result.1.1 }
{
    join(
        rt,
        first,
        move || -> (B, C)
            requires second { G.pre second }
            requires third { H.pre third }
            ensures second { G.post second result.0 }
            ensures third { H.post third result.1 }
        { join(rt, second, third) },
    )
}

/// Runs two lanes and a worker at once, in threads, each with its pass; it may wait. A lane's replies go into the empty row that stands
/// beside its requests. The worker asks for background steps, as many at a time as the pace answers, of which `left` are left at first.
pub fn at_once<R, S, F>(
    rt: &R,
    service: &S,
    passes: (S::Pass, S::Pass, S::Pass),
    first: (Vec<Request>, Vec<Reply>),
    second: (Vec<Request>, Vec<Reply>),
    pace: &Pace<F>,
    left: u64,
) -> (
    (S::Pass, S::Pass, S::Pass),
    (Vec<Reply>, Vec<Reply>, Worked),
)
where
    R: Threads + Wait + Sync,
    S: Service + Sync,
    S::Pass: Send + Drop,
    F: Fn(u64, u64) -> u64 + Sync,
    requires locks { (S.lock_of passes.0 ≡ S.lock service.now) × (S.lock_of passes.1 ≡ S.lock service.now) × (S.lock_of passes.2 ≡ S.lock service.now) }
    requires callers { ((S.carried passes.0).caller ≢ 254) × ((S.carried passes.1).caller ≢ 254) × ((S.carried passes.2).caller ≢ 254) }
    requires askable { All IsAskable first.0.items × All IsAskable second.0.items }
    requires empty { (first.1.items ≡ []) × (second.1.items ≡ []) }
    requires room { (vec_len first.0 ≤ vec_capacity first.1) × (vec_len second.0 ≤ vec_capacity second.1) }
    requires callable { F.IsAlwaysCallable (asked_by pace.now) }
    requires answers { AnswersSteps (F.post (asked_by pace.now)) }
    ensures locks { (S.lock_of result.0.0 ≡ S.lock_of passes.0) × (S.lock_of result.0.1 ≡ S.lock_of passes.1) × (S.lock_of result.0.2 ≡ S.lock_of passes.2) }
    ensures first { HasPassed S.tells (S.carried passes.0) (S.carried result.0.0) first.0.items result.1.0.items }
    ensures second { HasPassed S.tells (S.carried passes.1) (S.carried result.0.1) second.0.items result.1.1.items }
    ensures worked { HasWorkedBy (HasPassed S.tells (S.carried passes.2) (S.carried result.0.2)) (Paces (F.post (asked_by pace.now))) left result.1.2 }
{
    let (pass, other_pass, worker_pass) = passes;
    let (requests, replies) = first;
    let (others, other_replies) = second;
    let ((a, first), ((b, second), (c, worked))) = join_three(
        rt,
        move || -> (S::Pass, Vec<Reply>)
            requires lock { S.lock_of pass ≡ S.lock service.now }
            requires caller { (S.carried pass).caller ≢ 254 }
            requires askable { All IsAskable requests.items }
            requires empty { replies.items ≡ [] }
            requires room { vec_len requests ≤ vec_capacity replies }
            ensures lock { S.lock_of result.0 ≡ S.lock_of pass }
            ensures ran { HasPassed S.tells (S.carried pass) (S.carried result.0) requests.items result.1.items }
        { lane(rt, service, pass, requests, replies) },
        move || -> (S::Pass, Vec<Reply>)
            requires lock { S.lock_of other_pass ≡ S.lock service.now }
            requires caller { (S.carried other_pass).caller ≢ 254 }
            requires askable { All IsAskable others.items }
            requires empty { other_replies.items ≡ [] }
            requires room { vec_len others ≤ vec_capacity other_replies }
            ensures lock { S.lock_of result.0 ≡ S.lock_of other_pass }
            ensures ran { HasPassed S.tells (S.carried other_pass) (S.carried result.0) others.items result.1.items }
        { lane(rt, service, other_pass, others, other_replies) },
        move || -> (S::Pass, Worked)
            requires lock { S.lock_of worker_pass ≡ S.lock service.now }
            requires caller { (S.carried worker_pass).caller ≢ 254 }
            requires callable { F.IsAlwaysCallable (asked_by pace.now) }
            requires answers { AnswersSteps (F.post (asked_by pace.now)) }
            ensures lock { S.lock_of result.0 ≡ S.lock_of worker_pass }
            ensures worked { HasWorkedBy (HasPassed S.tells (S.carried worker_pass) (S.carried result.0)) (Paces (F.post (asked_by pace.entry.now))) left result.1 }
        { work(rt, service, worker_pass, pace, left) },
    );
    ((a, b, c), (first, second, worked))
}
