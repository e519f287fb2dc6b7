//! The lock round a running array, and the passes by which callers use it.
ghost use Rattle.std.specs.Prelude.{◌≡◌, ◌<◌, length, IfOk, IfErr};
ghost use Rattle.lane_shared.specs.array_call_specs_Calls.{IsEndOf};
ghost use Rattle.lane_lock.specs.Turns.{AreDistinct, Met};
ghost use Rattle.lane_lock.specs.Passes.{AreNew, EachPass, Ended};
ghost use Rattle.lane_shared.specs.Serving.{array_ways};
ghost use Rattle.lane_shared.specs.Lanes.{own_requests};

use crate::serving::Answering;
use crate::{Reply, Running, Service};
use array_requests::Bank;
use history_caller_laws::Request;
use lane_lock::Lock;
use std::alloc::Global;
use std::sync::Wait;

/// An array that several callers share.
#[derive(Drop)]
pub struct Shared<B: Bank> {
    lock: Lock<Answering<B>, Request, Reply>,
}

/// What a caller carries: all that it has seen of the array, and its own requests.
pub type Pass<B> = lane_lock::Pass<Answering<B>, Request>;

impl<B: Bank + Drop> Shared<B> {
    /// Shares an array, and makes a pass for each caller, in their order. Each has seen the array as it is, and has asked nothing.
    /// Where memory is short the array comes back as it was.
    pub fn start(
        alloc: Global,
        array: Running<B>,
        callers: &[u32],
    ) -> Result<(Shared<B>, Vec<Pass<B>>), Running<B>>
        requires ended { IsEndOf B.tells array.parts.first array.parts.entries (B.tape array.parts.bank) }
        requires some { 0 < length callers.now }
        requires distinct { AreDistinct callers.now }
        ensures lock { IfOk result (λ t. (t.0.lock.table.shared.key.value ≡ array) × (t.0.lock.table.shared.key.callers.items ≡ callers.now)) }
        ensures passes { IfOk result (λ t. AreNew t.0.lock.table.shared.table_id array callers.now t.1.items) }
        ensures back { IfErr result (λ a. a ≡ array) }
    {
        match Lock::start(alloc, Answering::new(array), callers) {
            Ok((lock, passes)) => Ok((Shared { lock }, passes)),
            Err(answering) => Err(answering.into_array()),
        }
    }

    /// Both passes have then seen what either had seen, and stay what they were else. It never waits and takes no memory.
    pub fn meet(&self, first: Pass<B>, second: Pass<B>) -> (Pass<B>, Pass<B>)
        requires locks { (first.seat.table_id ≡ self.now.lock.table.shared.table_id) × (second.seat.table_id ≡ self.now.lock.table.shared.table_id) }
        ensures first { (result.0.seat.table_id ≡ first.seat.table_id) × (result.0.caller ≡ first.caller) × (own_requests result.0 ≡ own_requests first) }
        ensures second { (result.1.seat.table_id ≡ second.seat.table_id) × (result.1.caller ≡ second.caller) × (own_requests result.1 ≡ own_requests second) }
        ensures met { Met (array_ways B.tells B.given B.tape B.faults_of) first.seat.me.0 second.seat.me.0 result.0.seat.me.0 result.1.seat.me.0 }
    {
        self.lock.meet(first, second)
    }

    /// The array, once all passes are back. Its history begins with all that each pass has seen, and since the start it has just the
    /// calls that the passes tell: each caller's own, once and in its order, and none of anybody else.
    pub fn close(self, passes: Vec<Pass<B>>) -> Running<B>
        requires lock { EachPass (λ p. p.seat.table_id ≡ self.lock.table.shared.table_id) passes.items }
        requires all { length passes.items ≡ length self.lock.table.shared.key.callers.items }
        ensures ended { Ended (array_ways B.tells B.given B.tape B.faults_of) self.lock.table.shared.key.value passes.items result }
    {
        let Shared { lock } = self;
        lock.close(passes).into_array()
    }
}

impl<B: Bank + Drop> Service for Shared<B> {
    ghost use Rattle.lane_lock.specs.Passes.{LockId};
    ghost use Rattle.lane_shared.specs.Lanes.{carried_by, IsAnswered};

    type Pass = Pass<B>;

    ghost tells = { B.tells };

    ghost LockName = { LockId };

    ghost lock = { λ shared. shared.lock.table.shared.table_id };

    ghost lock_of = { λ pass. pass.seat.table_id };

    ghost carried = { carried_by B.given B.tape };

    ghost answered = { IsAnswered B.tells B.given B.tape B.faults_of };

    /// Takes the array, has it do the request, and lets it go. It may wait.
    fn call<R: Wait>(&self, rt: &R, pass: Pass<B>, request: Request) -> (Pass<B>, Reply) {
        self.lock.call(rt, pass, request)
    }
}
