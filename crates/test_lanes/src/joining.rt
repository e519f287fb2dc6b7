//! Blocks of lanes, from a status of the array to its halt.
ghost use Rattle.std.specs.Prelude.{◌≡◌, IfOk};
ghost use Rattle.std.specs.List.{All};
ghost use Rattle.lane_shared.specs.array_call_specs_Calls.{IsEndOf};
ghost use Rattle.lane_shared.specs.array_requests_Replies.{IsAskable};
ghost use Rattle.lane_shared.specs.Pace.{AnswersSteps, asked_by};

use crate::samples::{halted, write_of};
use array_requests::status;
use bank::Bank;
use history::{Epoch, Request};
use lane_shared::{Joined, Pace, Reply, Running, Worked, run_block};
use raid_types::Who;
use std::alloc::Global;
use std::sync::Wait;
use std::test::Fail;
use std::thread::Threads;

/// What became of an array, and what the lanes and the worker were answered.
#[derive(Drop)]
pub(crate) struct Ran {
    pub(crate) epoch: Epoch,
    pub(crate) first: Vec<Reply>,
    pub(crate) second: Vec<Reply>,
    pub(crate) worked: Worked,
}

/// A pace that always asks for four steps.
pub(crate) fn four(_turn: u64, _left: u64) -> u64
    ensures { result ≡ 4 }
{
    4
}

/// A sector of one byte is written at a place and read again, and the array flushed.
pub(crate) fn requests_at(alloc: Global, at: u32, byte: u8) -> Result<Vec<Request>, Fail>
    ensures { IfOk result (λ requests. All IsAskable requests.items) }
{
    let write = write_of(alloc, at, byte)?;
    let read = Request::Read {
        at: at as u64,
        count: 1,
    };
    Ok(Vec::from_array(alloc, [write, read, Request::Flush])?)
}

// The array, which has told of itself. Where memory was short it is as it was.
fn shown<B: Bank>(array: Running<B>) -> Running<B>
    ensures { IsEndOf B.tells result.parts.first result.parts.entries (B.tape result.parts.bank) }
{
    let mut array = array;
    let number = array.next_number(0);
    let _ = status(&mut array, Who { caller: 0, number });
    array
}

// The end of the array behind a block.
fn ended<B: Bank + Drop>(joined: Joined<B>) -> Ran {
    let Joined {
        array,
        first,
        second,
        worked,
    } = joined;
    let (_, epoch) = halted(array);
    Ran {
        epoch,
        first,
        second,
        worked,
    }
}

/// A block of two lanes and a worker.
pub(crate) fn together<
    B: Bank + Drop + Send,
    F: Fn(u64, u64) -> u64 + Sync,
    R: Threads + Wait + Sync,
>(
    rt: &R,
    alloc: Global,
    array: Running<B>,
    first: Vec<Request>,
    second: Vec<Request>,
    pace: &Pace<F>,
) -> Result<Ran, Fail>
    requires askable { All IsAskable first.items × All IsAskable second.items }
    requires callable { F.IsAlwaysCallable (asked_by pace.now) }
    requires answers { AnswersSteps (F.post (asked_by pace.now)) }
{
    match run_block(rt, alloc, shown(array), first, second, pace) {
        Ok(joined) => Ok(ended(joined)),
        Err(array) => {
            let _ = halted(array);
            Err(Fail::from("no memory"))
        }
    }
}
