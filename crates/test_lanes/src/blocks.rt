//! Two lanes beside a worker, and a worker beside lanes that ask nothing.
ghost use Rattle.std.specs.Prelude.{◌≡◌, IfOk};
ghost use Rattle.std.specs.List.{All};
ghost use Rattle.lane_shared.specs.array_requests_Replies.{IsAskable};

use crate::joining::{four, requests_at, together};
use crate::samples::{SPEC, bank_of, clean, created_alone, dirty, lacking, planned, unsynced};
use crate::telling::{Told, told_by, told_of};
use bank::MemoryBank;
use history::Request;
use lane_shared::{Pace, Running};
use raid_types::Refusal;
use std::alloc::Global;
use std::sync::Wait;
use std::test::Fail;
use std::thread::Threads;
use test_gate_bank::Words;

type Lanes = (Vec<Request>, Vec<Request>);

// What two lanes ask, of which the first writes this byte.
fn lanes_with(alloc: Global, byte: u8) -> Result<Lanes, Fail>
    ensures { IfOk result (λ lanes. All IsAskable lanes.0.items × All IsAskable lanes.1.items) }
{
    let first = requests_at(alloc, 3, byte)?;
    let second = requests_at(alloc, 40, 8)?;
    Ok((first, second))
}

// What a worker that asks for four steps at a time tells beside these lanes, where they were answered as they should be.
fn beside(
    rt: &(impl Threads + Wait + Sync),
    alloc: Global,
    lanes: Lanes,
    array: Running<MemoryBank>,
) -> Result<Option<Told>, Fail>
    requires { All IsAskable lanes.0.items × All IsAskable lanes.1.items }
{
    let pace = Pace::new(|turn, left| four(turn, left));
    let (first, second) = lanes;
    let ran = together(rt, alloc, array, first, second, &pace)?;
    Ok(told_by(&ran, (6, 8)))
}

// What it tells beside lanes that ask nothing.
fn alone(
    rt: &(impl Threads + Wait + Sync),
    alloc: Global,
    array: Running<MemoryBank>,
) -> Result<Told, Fail> {
    let pace = Pace::new(|turn, left| four(turn, left));
    let ran = together(rt, alloc, array, Vec::new(alloc), Vec::new(alloc), &pace)?;
    Ok(told_of(&ran.worked))
}

// How many steps are left, and what refused one.
fn end_of(told: Option<Told>) -> (Option<u64>, Option<Refusal>) {
    match told {
        Some((_, _, left, ended)) => (left, ended),
        None => (None, None),
    }
}

// A resync of five stripes, and its end; a rebuild of as many, with the step that gives the spare its role; and a reshape: both lanes write
// into its first window, which a write finishes where it is open, so the worker may do fewer steps.
#[test]
fn lanes_beside_a_worker(rt: HostRuntime) -> Result<(), Fail> {
    let alloc = rt.alloc();
    let resync = beside(&rt, alloc, lanes_with(alloc, 6)?, dirty(alloc)?)?;
    assert!(rt; resync == Some((2, 6, Some(0), None)));
    let rebuild = beside(&rt, alloc, lanes_with(alloc, 6)?, lacking(alloc)?)?;
    assert!(rt; rebuild == Some((2, 7, Some(0), None)));
    let reshape = beside(&rt, alloc, lanes_with(alloc, 6)?, planned(alloc)?)?;
    assert!(rt; end_of(reshape) == (Some(0), None));
    Ok(())
}

// With nothing left, behind a resync and behind a reshape; at once where nothing was left; and with the refusal of a step.
#[test]
fn the_end_of_a_worker(rt: HostRuntime) -> Result<(), Fail> {
    let alloc = rt.alloc();
    assert!(rt; alone(&rt, alloc, dirty(alloc)?)? == (2, 6, Some(0), None));
    assert!(rt; alone(&rt, alloc, planned(alloc)?)? == (7, 26, Some(0), None));
    let none = alone(&rt, alloc, clean(alloc)?)?;
    assert!(rt; none == (1, 0, None, Some(Refusal::Nothing)));
    let refused = alone(&rt, alloc, unsynced(alloc)?)?;
    assert!(rt; refused == (1, 0, Some(4), Some(Refusal::NotResynced(1))));
    Ok(())
}

// Two lanes beside a worker, over an array of three members. A write of the first waits at the bank until the pace is asked, and the pace
// until the write waits. Whether the lanes were answered as they should be.
fn passes_doors(
    rt: &(impl Threads + Wait + Sync),
    alloc: Global,
    words: &Words,
) -> Result<bool, Fail> {
    let pace = Pace::new(
        |_, _| -> u64
            ensures { result ≡ 1 }
        {
            words.open();
            1
        },
    );
    let (first, second) = lanes_with(alloc, 77)?;
    let bank = words.bank(bank_of(alloc, &[64; 3], 800)?, [77; 4])?;
    let array = created_alone(alloc, bank, SPEC)?;
    let ran = together(rt, alloc, array, first, second, &pace)?;
    Ok(told_by(&ran, (77, 8)).is_some())
}

// Who runs the worker behind the lanes, or them behind it, waits in vain.
#[test]
fn a_worker_beside_lanes(rt: HostRuntime) -> Result<(), Fail> {
    let words = Words::new(rt.alloc())?;
    assert!(rt; passes_doors(&rt, rt.alloc(), &words)?);
    assert!(rt; !words.was_late());
    Ok(())
}
