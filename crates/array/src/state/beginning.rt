//! A reshape that is ahead begins.

ghost use Rattle.std.specs.Prelude.{◌≡◌, ◌≢◌, ◌≤◌, ◌∷◌, List, false, IfOk, IfErr, IsSome};
ghost use Rattle.array_grow.specs.raid_types_the_Phase.{Phase};
ghost use Rattle.array_grow.specs.raid_types_the_Phase_TheVariants.{Reshape};
ghost use Rattle.array_grow.specs.bank_Given.{NeverFalls};
ghost use Rattle.array_takeover.specs.sb_specs_Reading.{is_reshaping};
ghost use Rattle.array_grow.specs.array_members_Moving.{Grows};
ghost use Rattle.array_grow.specs.array_members_Status.{left_of};
ghost use Rattle.array_takeover.specs.reshape_request_the_PhasesLeft.{PhasesLeft};
ghost use Rattle.array_takeover.specs.reshape_request_Left.{phases_of};
ghost use Rattle.array_grow.specs.array_transition_Begun.{HasKeptLength, IsReshapeBegun, IsGivenBack, IsBeginRefused};
ghost use Rattle.array.specs.Calls.{MayEndSteps};

use crate::state::choosing::phases_behind;
use crate::state::{Running, check_array};
use array_grow::{Bank, Refusal, Shape, Who, begin_reshape};

impl<B: Bank> Running<B> {
    /// The reshape to this shape, the first phase ahead, begins, where nothing else is left to do: the backup's header is cleared, and the
    /// superblocks record the reshape, by which the lowest spares get the new roles. To fewer data disks the list gets shorter then. The
    /// phases behind it are ahead then. It takes no memory. Refused, the array goes on as it was: `Degraded` where a role is missing, and `NeedSpares` where there
    /// are fewer spares than new roles, with nothing done; and `BackupFault` where the backup failed.
    pub fn begin(self, who: Who, to: Shape) -> Result<Running<B>, (Running<B>, Refusal)>
        requires open { HasKeptLength self.parts.entries who }
        requires caller { who.caller ≢ 254 }
        requires room { 1 ≤ self.parts.steps }
        requires still { is_reshaping self.parts.members.newest ≡ false }
        requires done { left_of self.parts.work self.parts.members ≡ 0 }
        requires next { (behind : List Phase) × (phases_of self.ahead ≡ Reshape to ∷ behind) }
        ensures begun { IfOk result (λ r. (behind : PhasesLeft) × (phases_of self.ahead ≡ Reshape to ∷ phases_of behind)
            × IsReshapeBegun B.tells (B.given self.parts.bank) (B.tape self.parts.bank) (B.tape r.parts.bank) (B.faults_of self.parts.bank) (B.faults_of r.parts.bank) who to behind self r) }
        ensures given { IfOk result (λ r. B.given r.parts.bank ≡ B.given self.parts.bank) }
        ensures refused { IfErr result (λ e. IsGivenBack B.tells (B.given self.parts.bank) (B.tape self.parts.bank) (B.tape e.0.parts.bank) who e.1 self e.0) }
        ensures ends { IfErr result (λ e. MayEndSteps e.0 e.1) }
        ensures caused { IfErr result (λ e. IsBeginRefused (B.faults_of self.parts.bank) (B.faults_of e.0.parts.bank) to e.1 self e.0) }
        ensures grows { IfErr result (λ e. Grows B.tells (B.tape self.parts.bank) (B.tape e.0.parts.bank)) }
        ensures never_falls { IfErr result (λ e. NeverFalls (B.faults_of self.parts.bank) (B.faults_of e.0.parts.bank)) }
        ensures left_still { IfErr result (λ e. is_reshaping e.0.parts.members.newest ≡ false) }
        ensures backed { IfErr result (λ e. IsSome self.parts.backup) }
        ensures left_given { IfErr result (λ e. B.given e.0.parts.bank ≡ B.given self.parts.bank) }
    {
        let Running {
            alloc,
            array,
            window,
        } = self;
        let behind = phases_behind(&array);
        match begin_reshape(array, who, to, behind, window) {
            Ok(array) => {
                check_array(&array);
                let window = Vec::new(alloc);
                Ok(Running {
                    alloc,
                    array,
                    window,
                })
            }
            Err((array, window, refusal)) => {
                check_array(&array);
                let running = Running {
                    alloc,
                    array,
                    window,
                };
                Err((running, refusal))
            }
        }
    }
}
