//! A running array that answers the requests of numbered callers.
ghost use Rattle.std.specs.Prelude.{◌≡◌};

use crate::{Reply, Running, perform, tells_sizes};
use array_requests::{Bank, Who};
use history_caller_laws::Request;
use lane_lock::Served;
use std::alloc::Global;
use std::marker::Model;

/// An array that answers callers; contracts see it as the array.
#[derive(Drop)]
pub struct Answering<B: Bank> {
    array: Running<B>,
}

impl<B: Bank> Model for Answering<B> {
    ghost use Rattle.lane_shared.specs.array_specs_Parts.{RunningParts};

    ghost Value = { RunningParts B };

    ghost view = { λ a. a.array };
}

impl<B: Bank> Answering<B> {
    pub(crate) fn new(array: Running<B>) -> Answering<B>
        ensures { result ≡ array }
    {
        Answering { array }
    }

    pub(crate) fn into_array(self) -> Running<B>
        ensures { result ≡ self }
    {
        let Answering { array } = self;
        array
    }
}

impl<B: Bank> Served<Request, Reply> for Answering<B> {
    ghost use Rattle.lane_shared.specs.Serving.{array_ways};
    ghost use Rattle.lane_shared.specs.ServingLaws.{array_lawful};

    ghost ways = { array_ways B.tells B.given B.tape B.faults_of };

    fn size(&self) -> u64 {
        (self.array.epoch().entries.len() as u64).min(1 << 61)
    }

    fn serve(&mut self, alloc: Global, caller: u32, request: Request) -> Reply {
        if self.array.epoch().entries.len() as u64 >= 1 << 61 {
            return Reply::NoMemory;
        }
        tells_sizes(&self.array);
        let number = self.array.next_number(caller);
        perform(alloc, &mut self.array, Who { caller, number }, request)
    }

    ghost lawful = { array_lawful B.tells B.given B.tape B.faults_of };
}
