//! Calls whose order the threads settle by words of their own.
ghost use Rattle.std.specs.Prelude.{◌≡◌};

use crate::entry::Request;
use crate::gate::{Gate, Turn, wait_for};
use crate::lanes::{Shared, Ticket};
use crate::tally::Tally;
use lane_lock::{Lock, Pass};
use std::alloc::Global;
use std::sync::Wait;
use std::sync::atomic::{AtomicU64, Ordering};
use std::thread::{self, Threads, join};

// How often a thread looks at a word.
const LOOKS: u64 = 20_000_000;

// Waits until the word has this parity, and answers whether it had before the thread had looked long enough.
fn wait_for_parity(word: &AtomicU64, parity: u64) -> bool {
    for _ in 0..LOOKS {
        if word.load(Ordering::SeqCst) % 2 == parity {
            return true;
        }
        thread::yield_now();
    }
    false
}

// Adds 0, 1, 2 and so on, each once the word has this parity, and counts the word up behind it. Answers whether it had each time.
fn alternate<R: Wait>(
    rt: &R,
    shared: &Shared,
    pass: Ticket,
    word: &AtomicU64,
    parity: u64,
    rounds: u32,
) -> (Ticket, bool)
    requires { pass.seat.table_id ≡ shared.now.table.shared.table_id }
    ensures { result.0.seat.table_id ≡ pass.seat.table_id }
{
    let mut pass = pass;
    let mut in_time = true;
    for round in 0..rounds {
        in_time = in_time && wait_for_parity(word, parity);
        let (next, _) = shared.call(rt, pass, Request::Add(round));
        pass = next;
        word.fetch_add(1, Ordering::SeqCst);
    }
    (pass, in_time)
}

/// Two callers make one call after the other, and a word of their own tells whose it is. Whether it came each time.
pub fn in_turns<R: Threads + Wait + Sync>(
    rt: &R,
    alloc: Global,
    tally: Tally,
    rounds: u32,
) -> Result<(Tally, bool), Tally> {
    let (shared, mut passes) = Lock::start(alloc, tally, &[1, 2])?;
    let Some(two) = passes.pop() else {
        unreachable!()
    };
    let Some(one) = passes.pop() else {
        unreachable!()
    };
    let lock = &shared;
    let word = AtomicU64::new(0);
    let counter = &word;
    let ((one, first), (two, second)) = join(
        rt,
        move || alternate(rt, lock, one, counter, 0, rounds),
        move || alternate(rt, lock, two, counter, 1, rounds),
    );
    let _ = passes.push(one);
    let _ = passes.push(two);
    Ok((shared.close(passes), first && second))
}

pub type Doors = Lock<Gate, (), Turn>;

pub type Key = Pass<Gate, ()>;

// The passes meet once a turn has begun, which is then let go. Whether it had begun in time.
fn meet_inside(
    shared: &Doors,
    two: Key,
    three: Key,
    inside: &AtomicU64,
    open: &AtomicU64,
) -> (Key, Key, bool)
    requires two { two.seat.table_id ≡ shared.now.table.shared.table_id }
    requires three { three.seat.table_id ≡ shared.now.table.shared.table_id }
    ensures two { result.0.seat.table_id ≡ two.seat.table_id }
    ensures three { result.1.seat.table_id ≡ three.seat.table_id }
{
    let begun = wait_for(inside);
    let (two, three) = shared.meet(two, three);
    open.store(1, Ordering::SeqCst);
    (two, three, begun)
}

/// Two passes meet within a third caller's turn, which lasts until they have met. Whether each waited for the other in time.
pub fn meet_within_a_turn<R: Threads + Wait + Sync>(
    rt: &R,
    alloc: Global,
    gate: Gate,
    inside: &AtomicU64,
    open: &AtomicU64,
) -> Result<(Gate, bool), Gate> {
    let (shared, mut passes) = Lock::start(alloc, gate, &[1, 2, 3])?;
    let Some(three) = passes.pop() else {
        unreachable!()
    };
    let Some(two) = passes.pop() else {
        unreachable!()
    };
    let Some(one) = passes.pop() else {
        unreachable!()
    };
    let lock = &shared;
    let ((one, turn), (two, three, begun)) = join(
        rt,
        move || lock.call(rt, one, ()),
        move || meet_inside(lock, two, three, inside, open),
    );
    let _ = passes.push(one);
    let _ = passes.push(two);
    let _ = passes.push(three);
    let let_go = match turn {
        Turn::Counted { let_go } => let_go,
        Turn::Full => false,
    };
    Ok((shared.close(passes), begun && let_go))
}
