//! A reshape ends.

ghost use Rattle.std.specs.Prelude.{◌≡◌, ◌≢◌, ◌+◌, ◌≤◌, true, IfOk, IfErr};
ghost use Rattle.array_takeover.specs.sb_specs_Reading.{is_reshaping};
ghost use Rattle.array_takeover.specs.history_the_Event_TheVariants.{Refused};
ghost use Rattle.array_grow.specs.array_members_Lacking.{AreTooMany};
ghost use Rattle.array_grow.specs.array_call_specs_Calls.{IsBehind};
ghost use Rattle.array_grow.specs.history_invariant_Recorded.{IsCallGoing};
ghost use Rattle.array_grow.specs.array_reshaping_state_Due.{due_of};
ghost use Rattle.array_grow.specs.array_reshaping_state_the_Due_TheVariants.{Finish};
ghost use Rattle.array_grow.specs.array_specs_Calls.{IsCalled};
ghost use Rattle.array_grow.specs.array_fixed_laws_Steps.{IsClosable};
ghost use Rattle.array_grow.specs.array_transition_Ended.{IsReshapeEnded};
ghost use Rattle.array.specs.Calls.{MayEndSteps};

use crate::state::{Running, check_array};
use array_grow::{Bank, Refusal, Who, finish_reshape};

impl<B: Bank> Running<B> {
    /// The active reshape, which has gone through the list, ends: each slot that holds a role is flushed, and the superblocks record the
    /// new shape alone, by which slots whose roles it hasn't become spares. With more data disks the list gets longer then, by zeros. It
    /// takes no memory. Refused `TooManyMissing` the reshape goes on as it was, but for what the flush lost.
    pub fn finish(self, who: Who) -> Result<Running<B>, (Running<B>, Refusal)>
        requires open { IsCallGoing self.parts.entries who }
        requires caller { who.caller ≢ 254 }
        requires room { 2 ≤ self.parts.steps }
        requires active { is_reshaping self.parts.members.newest ≡ true }
        requires due { due_of self.parts.members.newest self.course self.parts.work.resync ≡ Finish }
        ensures ended { IfOk result (λ r. IsReshapeEnded B.tells (B.given self.parts.bank) (B.tape self.parts.bank) (B.tape r.parts.bank) (B.faults_of self.parts.bank) (B.faults_of r.parts.bank) who self r) }
        ensures closable { IfOk result (λ r. IsClosable r) }
        ensures given { IfOk result (λ r. B.given r.parts.bank ≡ B.given self.parts.bank) }
        ensures refused { IfErr result (λ e. IsBehind who self.parts.entries e.0.parts.entries (Refused e.1)) }
        ensures ends { IfErr result (λ e. MayEndSteps e.0 e.1) }
        ensures caused { IfErr result (λ e. AreTooMany e.0.parts.members e.1) }
        ensures called { IfErr result (λ e. IsCalled B.tells (B.given self.parts.bank) (B.tape self.parts.bank) (B.tape e.0.parts.bank) (B.faults_of self.parts.bank) (B.faults_of e.0.parts.bank) self e.0) }
        ensures course { IfErr result (λ e. e.0.course ≡ self.course) }
        ensures steps { IfErr result (λ e. e.0.parts.steps + 2 ≡ self.parts.steps) }
        ensures left_active { IfErr result (λ e. is_reshaping e.0.parts.members.newest ≡ true) }
        ensures left_given { IfErr result (λ e. B.given e.0.parts.bank ≡ B.given self.parts.bank) }
    {
        let Running {
            alloc,
            array,
            window,
        } = self;
        check_array(&array);
        match finish_reshape(array, who) {
            Ok(array) => {
                check_array(&array);
                Ok(Running {
                    alloc,
                    array,
                    window,
                })
            }
            Err((array, refusal)) => {
                check_array(&array);
                let running = Running {
                    alloc,
                    array,
                    window,
                };
                Err((running, refusal))
            }
        }
    }
}
