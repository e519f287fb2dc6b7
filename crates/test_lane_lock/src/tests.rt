//! Threads that share a value by the lock. What they are answered is compared with the history that comes back.

use crate::{Gate, Joined, Reply, Request, Tally, in_turns, meet_within_a_turn, together};
use std::alloc::Global;
use std::sync::Arc;
use std::sync::atomic::AtomicU64;
use std::test::Fail;

// Whether the next of these replies has this place and sum.
fn is_next(replies: &[Reply], next: usize, place: u64, total: u64) -> bool {
    match replies.get(next) {
        Some(Reply::Done { at, sum }) => *at == place && *sum == total,
        _ => false,
    }
}

// Whether each entry stands where its lane was told, with the sum before it and the lane's next amount; so many of each lane.
fn joint(joined: &Joined) -> Option<(usize, usize)> {
    let mut first = 0usize;
    let mut second = 0usize;
    let mut total = 0u64;
    for (place, entry) in joined.tally.entries().iter().enumerate() {
        let (replies, next) = match entry.caller {
            1 => (joined.first.as_slice(), first),
            _ => (joined.second.as_slice(), second),
        };
        if entry.amount != next as u64 || !is_next(replies, next, place as u64, total) {
            return None;
        }
        total = total.checked_add(entry.amount)?;
        match entry.caller {
            1 => first = first.checked_add(1)?,
            2 => second = second.checked_add(1)?,
            _ => return None,
        }
    }
    if total != joined.tally.total() {
        return None;
    }
    Some((first, second))
}

// Requests that add 0, 1, 2 and so on.
fn counting(alloc: Global, many: u32) -> Option<Vec<Request>> {
    let mut requests = Vec::new(alloc);
    for amount in 0..many {
        requests.push(Request::Add(amount)).ok()?;
    }
    Some(requests)
}

fn ends_without_room(replies: &[Reply]) -> bool {
    matches!(replies.last(), Some(Reply::NoRoom))
}

#[test]
fn lanes_share_a_tally(rt: HostRuntime) -> Result<(), Fail> {
    // the room of the tally, and how many entries there are in the end
    for (room, made) in [(100_000, 40_000), (25_000, 25_000)] {
        let tally = Tally::new(rt.alloc(), room);
        let first = counting(rt.alloc(), 20_000).ok_or("no memory")?;
        let second = counting(rt.alloc(), 20_000).ok_or("no memory")?;
        let Ok(joined) = together(&rt, rt.alloc(), tally, &first, &second) else {
            return Err(Fail::from("no memory"));
        };
        let (of_first, of_second) = joint(&joined).ok_or("the history is not that of the lanes")?;
        assert_eq!(rt; joined.tally.entries().len(), made);
        let stopped = ends_without_room(&joined.first) || ends_without_room(&joined.second);
        assert_eq!(rt; stopped, made < 40_000);
        assert!(rt; of_first == 20_000 || ends_without_room(&joined.first));
        assert!(rt; of_second == 20_000 || ends_without_room(&joined.second));
    }
    Ok(())
}

#[test]
fn the_history_has_the_order_of_the_calls(rt: HostRuntime) -> Result<(), Fail> {
    let tally = Tally::new(rt.alloc(), 1000);
    let Ok((tally, in_time)) = in_turns(&rt, rt.alloc(), tally, 300) else {
        return Err(Fail::from("no memory"));
    };
    assert!(rt; in_time);
    assert_eq!(rt; tally.entries().len(), 600);
    for (place, entry) in tally.entries().iter().enumerate() {
        assert_eq!(rt; entry.caller as usize, place % 2 + 1);
        assert_eq!(rt; entry.amount, place as u64 / 2);
    }
    Ok(())
}

#[test]
fn passes_meet_while_a_turn_is_held(rt: HostRuntime) -> Result<(), Fail> {
    let inside = Arc::new(rt.alloc(), AtomicU64::new(0))?;
    let open = Arc::new(rt.alloc(), AtomicU64::new(0))?;
    let gate = Gate::new(Arc::try_clone(&inside)?, Arc::try_clone(&open)?);
    let Ok((gate, in_time)) = meet_within_a_turn(&rt, rt.alloc(), gate, &inside, &open) else {
        return Err(Fail::from("no memory"));
    };
    assert!(rt; in_time);
    assert_eq!(rt; gate.turns(), 1);
    Ok(())
}
