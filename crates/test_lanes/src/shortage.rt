//! A lane and a worker for which memory is always short.

use crate::full::{Full, Ticket};
use crate::joining::{four, requests_at};
use crate::telling::{is_short, told_of};
use lane_shared::{Pace, Reply, Worked, run_lane, run_worker};
use std::alloc::Global;
use std::sync::Wait;
use std::test::Fail;

// The replies of a lane of three requests.
fn short_lane(rt: &impl Wait, alloc: Global) -> Result<Vec<Reply>, Fail> {
    let requests = requests_at(alloc, 0, 1)?;
    let mut replies = Vec::with_capacity(alloc, requests.len())?;
    let _ = run_lane(rt, &Full {}, Ticket { caller: 1 }, requests, &mut replies);
    Ok(replies)
}

fn short_worker(rt: &impl Wait) -> Worked {
    let pace = Pace::new(|turn, left| four(turn, left));
    let (_, worked) = run_worker(rt, &Full {}, Ticket { caller: 1 }, &pace, 5);
    worked
}

// The lane ends behind its first request, and the worker behind its first turn.
#[test]
fn where_memory_is_short(rt: HostRuntime) -> Result<(), Fail> {
    let replies = short_lane(&rt, rt.alloc())?;
    assert!(rt; replies.len() == 1 && is_short(&replies[0]));
    let worked = short_worker(&rt);
    assert!(rt; told_of(&worked) == (1, 0, None, None) && is_short(&worked.last));
    Ok(())
}
