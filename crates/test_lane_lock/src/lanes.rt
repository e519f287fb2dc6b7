//! Lanes over one tally.
ghost use Rattle.std.specs.Prelude.{◌≡◌, ◌≤◌, ◌++◌, [], length, vec_capacity};
ghost use Rattle.lane_lock.specs.Turns.{mine_of};
ghost use Rattle.test_lane_lock.specs.Lanes.{calls_made, AreDone};

use crate::entry::{Reply, Request};
use crate::tally::Tally;
use lane_lock::{Lock, Pass};
use std::sync::Wait;

pub type Shared = Lock<Tally, Request, Reply>;

pub type Ticket = Pass<Tally, Request>;

/// Makes the requests in order, and appends a reply for each. It stops where there was no room.
pub fn run_lane<R: Wait>(
    rt: &R,
    shared: &Shared,
    pass: Ticket,
    requests: &[Request],
    replies: Vec<Reply>,
) -> (Ticket, Vec<Reply>)
    requires lock { pass.seat.table_id ≡ shared.now.table.shared.table_id }
    requires new { replies.items ≡ [] }
    requires room { length requests.now ≤ vec_capacity replies }
    ensures same { (result.0.seat.table_id ≡ pass.seat.table_id) × (result.0.caller ≡ pass.caller) }
    ensures mine { mine_of result.0.seat.me.0.hands ≡ mine_of pass.seat.me.0.hands ++ calls_made requests.now result.1.items }
    ensures all { AreDone result.1.items → length result.1.items ≡ length requests.now }
{
    let mut pass = pass;
    let mut replies = replies;
    let mut done = 0;
    while done < requests.len() {
        let (next, reply) = shared.call(rt, pass, requests[done]);
        pass = next;
        let _ = replies.push(reply);
        match reply {
            Reply::Done { at: _, sum: _ } => done += 1,
            Reply::NoRoom => break,
        }
    }
    (pass, replies)
}
