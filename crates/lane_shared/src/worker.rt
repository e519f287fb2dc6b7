//! A worker: turn after turn, it asks for background steps.
ghost use Rattle.std.specs.Prelude.{◌≡◌, ◌≢◌, ◌⊎◌, ◌+◌, ◌*◌, ◌<◌, ◌≤◌, ◌^◌, ℕ, IsNone, IfSome};
ghost use Rattle.history_caller_laws.specs.history_the_Request_TheVariants.{Steps as AsksSteps};
ghost use Rattle.lane_shared.specs.Pace.{AnswersSteps, Paces, asked_by};
ghost use Rattle.lane_shared.specs.Carried.{GoesOn, IsOwn, IsAnswered};
ghost use Rattle.lane_shared.specs.Worker.{done_in, left_after, HasWorked};

use crate::pace::Pace;
use crate::service::Service;
use array_requests::Reply;
use history_caller_laws::{Event, Request};
use std::sync::Wait;

/// What a worker did: its turns, the steps that were done in them, and the last reply.
#[derive(Drop)]
pub struct Worked {
    pub turns: u64,
    pub done: u64,
    pub last: Reply,
}

// How many steps the reply tells.
fn steps_done(reply: &Reply) -> u64
    ensures { result ≡ done_in reply.now }
{
    match reply {
        Reply::Done {
            event: Event::Stepped { done, .. },
            ..
        } => *done,
        _ => 0,
    }
}

// How many steps are left, where the worker goes on behind this reply.
fn steps_left(reply: &Reply) -> Option<u64>
    ensures { result ≡ left_after reply.now }
{
    match reply {
        Reply::Done {
            event: Event::Stepped {
                left,
                ended: None,
                ..
            },
            ..
        } => if *left == 0 { None } else { Some(*left) },
        _ => None,
    }
}

// One turn: as many steps as the pace answers.
fn take_turn<R: Wait, S: Service, F: Fn(u64, u64) -> u64>(
    rt: &R,
    service: &S,
    pass: S::Pass,
    pace: &Pace<F>,
    turn: u64,
    left: u64,
) -> (S::Pass, Reply)
    requires lock { S.lock_of pass ≡ S.lock service.now }
    requires caller { (S.carried pass).caller ≢ 254 }
    requires callable { F.IsAlwaysCallable (asked_by pace.now) }
    requires answers { AnswersSteps (F.post (asked_by pace.now)) }
    ensures lock { S.lock_of result.0 ≡ S.lock_of pass }
    ensures later { GoesOn S.tells (S.carried pass) (S.carried result.0) }
    ensures own { IsOwn (S.carried result.0) }
    ensures asked { (most : ℕ) × Paces (F.post (asked_by pace.now)) turn left most × S.answered pass (AsksSteps most) result.1 result.0 × IsAnswered S.tells (S.carried pass) (AsksSteps most) result.1 (S.carried result.0) }
    ensures most { done_in result.1 ≤ 64 }
    ensures some { IfSome (left_after result.1) (λ more. 1 ≤ done_in result.1) }
{
    let most = pace.ask(turn, left);
    service.call(rt, pass, Request::Steps { most })
}

/// Asks for background steps, turn after turn, as many at a time as the pace answers to the turn's number, from 0, and to how many are
/// left. It ends behind a reply that tells that none is left, that one was refused or that memory was short, or after 2^40 turns.
pub fn run_worker<R: Wait, S: Service, F: Fn(u64, u64) -> u64>(
    rt: &R,
    service: &S,
    pass: S::Pass,
    pace: &Pace<F>,
    left: u64,
) -> (S::Pass, Worked)
    requires lock { S.lock_of pass ≡ S.lock service.now }
    requires caller { (S.carried pass).caller ≢ 254 }
    requires callable { F.IsAlwaysCallable (asked_by pace.now) }
    requires answers { AnswersSteps (F.post (asked_by pace.now)) }
    ensures lock { S.lock_of result.0 ≡ S.lock_of pass }
    ensures later { GoesOn S.tells (S.carried pass) (S.carried result.0) }
    ensures own { IsOwn (S.carried result.0) }
    ensures worked { HasWorked S.answered S.carried (Paces (F.post (asked_by pace.now))) left pass result.0 result.1 }
    ensures ended { IsNone (left_after result.1.last) ⊎ (result.1.turns ≡ 2 ^ 40) }
    ensures at_most { result.1.turns ≤ 2 ^ 40 }
    ensures few { result.1.turns ≤ result.1.done + 1 }
{
    let (mut pass, mut last) = take_turn(rt, service, pass, pace, 0, left);
    let mut turns = 1;
    let mut done = steps_done(&last);
    while turns < 1 << 40 {
        let Some(left) = steps_left(&last) else {
            break;
        };
        let (next, reply) = take_turn(rt, service, pass, pace, turns, left);
        pass = next;
        turns += 1;
        done += steps_done(&reply);
        last = reply;
    }
    (pass, Worked { turns, done, last })
}
