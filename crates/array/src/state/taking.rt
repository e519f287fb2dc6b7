//! The level of an array is taken over.

ghost use Rattle.std.specs.Prelude.{◌≡◌, ◌≢◌, ◌≤◌, List, false, IfOk, IfErr};
ghost use Rattle.array_grow.specs.raid_types_the_Phase.{Phase};
ghost use Rattle.array_takeover.specs.sb_specs_Reading.{is_reshaping};
ghost use Rattle.array_grow.specs.array_members_Status.{left_of};
ghost use Rattle.array_takeover.specs.reshape_request_the_PhasesLeft.{PhasesLeft};
ghost use Rattle.array_takeover.specs.reshape_request_Left.{phases_of};
ghost use Rattle.array_grow.specs.history_invariant_Recorded.{IsCallGoing};
ghost use Rattle.array_grow.specs.array_fixed_laws_Steps.{IsClosable};
ghost use Rattle.array_takeover.specs.TakenOver.{IsTakeoverNext, IsUntaken, IsUntouched, IsLevelTaken};
ghost use Rattle.array.specs.Calls.{MayEndSteps};

use crate::state::choosing::phases_behind;
use crate::state::{Running, check_array};
use array_grow::{Bank, Refusal, Shape, Who};
use array_takeover::take_over as take_level;

impl<B: Bank> Running<B> {
    /// The level is taken over to this shape, the first phase ahead, where nothing else is left to do: the superblocks record it. To level 6
    /// the lowest spare gets the last role, Q, and the steps behind it rebuild that; to level 5 the slot of the last role becomes a spare.
    /// The phases behind it are ahead then. It takes no memory. Refused, the array goes on as it was, with nothing done: `Degraded` where a
    /// role is missing, and `NeedSpares` where there is no spare for Q.
    pub fn take_over(self, who: Who, to: Shape) -> Result<Running<B>, (Running<B>, Refusal)>
        requires open { IsCallGoing self.parts.entries who }
        requires caller { who.caller ≢ 254 }
        requires room { 1 ≤ self.parts.steps }
        requires still { is_reshaping self.parts.members.newest ≡ false }
        requires done { left_of self.parts.work self.parts.members ≡ 0 }
        requires next { (behind : List Phase) × IsTakeoverNext (phases_of self.ahead) to behind }
        ensures taken { IfOk result (λ r. (behind : PhasesLeft) × IsTakeoverNext (phases_of self.ahead) to (phases_of behind)
            × IsLevelTaken B.tells (B.given self.parts.bank) (B.tape self.parts.bank) (B.tape r.parts.bank) (B.faults_of self.parts.bank) (B.faults_of r.parts.bank) who to behind self r) }
        ensures closable { IfOk result (λ r. IsClosable r) }
        ensures given { IfOk result (λ r. B.given r.parts.bank ≡ B.given self.parts.bank) }
        ensures refused { IfErr result (λ e. IsUntouched B.tells (B.tape self.parts.bank) who e.1 self e.0) }
        ensures caused { IfErr result (λ e. IsUntaken self.parts.members to e.1) }
        ensures ends { IfErr result (λ e. MayEndSteps e.0 e.1) }
        ensures left_still { IfErr result (λ e. is_reshaping e.0.parts.members.newest ≡ false) }
    {
        let Running {
            alloc,
            array,
            window,
        } = self;
        let behind = phases_behind(&array);
        match take_level(array, who, to, behind) {
            Ok(array) => {
                check_array(&array);
                Ok(Running {
                    alloc,
                    array,
                    window,
                })
            }
            Err((array, refusal)) => {
                check_array(&array);
                let running = Running {
                    alloc,
                    array,
                    window,
                };
                Err((running, refusal))
            }
        }
    }
}
