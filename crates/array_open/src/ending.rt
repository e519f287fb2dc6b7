//! The end of an epoch.

ghost use Rattle.std.specs.Prelude.{◌≡◌, ◌≢◌, [], ◌∷◌, false, length, IfOk, IfErr};
ghost use Rattle.std.specs.List.{list_any};
ghost use Rattle.array_create_assemble.specs.raid_types_the_Refusal.{Refusal};
ghost use Rattle.array_create_assemble.specs.bank_Given.{NeverFalls};
ghost use Rattle.array_create_assemble.specs.sb_specs_Reading.{is_reshaping, list_length};
ghost use Rattle.array_steps.specs.stripe_row_Rows.{present};
ghost use Rattle.array_create_assemble.specs.history_Epochs.{world_of};
ghost use Rattle.array_create_assemble.specs.history_Flat.{next_number, now};
ghost use Rattle.array_create_assemble.specs.history_Growing.{EndBy};
ghost use Rattle.array_create_assemble.specs.history_Sound.{OpensFit};
ghost use Rattle.array_create_assemble.specs.history_World.{opening_list};
ghost use Rattle.array_create_assemble.specs.history_the_Event_TheVariants.{Halted, Stopped};
ghost use Rattle.array_steps.specs.crash_views_Regions.{DoWithout};
ghost use Rattle.array_steps.specs.array_members_Moving.{Grows};
ghost use Rattle.array_steps.specs.array_members_Lacking.{AreTooMany, HaveRolesFailed};
ghost use Rattle.array_steps.specs.array_call_specs_Calls.{IsEntered, IsBehind, IsUnsettled, IsFaultFor, AreLossesOf, IsEndOf};
ghost use Rattle.array_steps.specs.history_invariant_Safe.{IsFilledRight};
ghost use Rattle.array_steps.specs.history_invariant_laws_Reliable.{IsReliable};
ghost use Rattle.array_steps.specs.array_fixed_invariant_Still.{HasListStood};
ghost use Rattle.array_steps.specs.array_specs_Calls.{moving_world, IsCalled, IsEpochKept};
ghost use Rattle.array_steps.specs.array_specs_Plans.{turns_shape, KeepsShape};
ghost use Rattle.array_steps.specs.array_specs_Still.{AreLeftSettled};
ghost use Rattle.array_steps.specs.array_fixed_laws_Plain.{AreToldPlainly, IsPlainEpoch};

use array_create_assemble::{Bank, Epoch, Fault, Who};
use array_steps::{Running, check_array};

/// Ends the epoch, and gives the bank back with what happened. It takes no memory and makes no device call.
pub fn halt<B: Bank>(array: Running<B>, who: Who) -> (B, Epoch)
    requires next { who.number ≡ next_number who.caller array.parts.entries }
    requires caller { who.caller ≢ 254 }
    ensures bank { result.0 ≡ array.parts.bank }
    ensures entered { IsEntered B.tells (B.tape array.parts.bank) who array.parts.entries result.1.entries.items (Halted ∷ []) }
    ensures losses { AreLossesOf array.parts.members (B.faults_of array.parts.bank) (B.faults_of array.parts.bank) array.parts.entries result.1.entries.items }
    ensures listed { is_reshaping array.parts.members.newest ≡ false → B.tells → DoWithout array.parts.members → IsFilledRight (moving_world (B.given array.parts.bank) (B.tape array.parts.bank) array) array.parts.entries
        → HasListStood (OpensFit (moving_world (B.given array.parts.bank) (B.tape array.parts.bank) array)) array.parts.work array.parts.members (present (B.given array.parts.bank) (B.tape array.parts.bank))
        (now (opening_list (moving_world (B.given array.parts.bank) (B.tape array.parts.bank) array)) array.parts.entries) }
    ensures ends { B.tells → EndBy (length (B.tape array.parts.bank)) result.1.entries.items }
    ensures right { B.tells → IsReliable (world_of (B.given result.0) (B.tape result.0) array.parts.backup result.1) result.1.entries.items
        → IsEpochKept (B.given result.0) (B.tape result.0) array.parts.backup result.1 }
    ensures plain { B.tells → KeepsShape (world_of (B.given result.0) (B.tape result.0) array.parts.backup result.1) result.1.entries.items
        → IsPlainEpoch (B.given result.0) (B.tape result.0) array.parts.backup result.1 }
    ensures plainly { is_reshaping array.parts.members.newest ≡ false → list_any (λ e. turns_shape e.event) result.1.entries.items ≡ false → AreToldPlainly result.1.entries.items }
    ensures uuid { result.1.uuid ≡ array.parts.uuid }
    ensures given { result.1.given ≡ array.parts.given }
    ensures first { result.1.first ≡ array.parts.first }
    ensures last { B.tells → result.1.last ≡ length (B.tape array.parts.bank) }
{
    let Running {
        alloc: _,
        array,
        window: _,
    } = array;
    array_steps::halt(array, who)
}

/// Flushes the members, marks the array clean, unless a resync is pending, and ends the epoch, whose bank it gives back with what
/// happened; the open window of a reshape stays as it is stored. Where it is refused with `TooManyMissing`, or memory is short, the
/// array goes on.
pub fn stop<B: Bank>(array: Running<B>, who: Who) -> Result<(B, Epoch), (Running<B>, Fault)>
    requires next { who.number ≡ next_number who.caller array.parts.entries }
    requires caller { who.caller ≢ 254 }
    ensures stopped { IfOk result (λ r. IsBehind who array.parts.entries r.1.entries.items Stopped) }
    ensures ready { IfOk result (λ r. (refusal : Refusal) → AreTooMany array.parts.members refusal → ⊥) }
    ensures flushed { IfOk result (λ r. is_reshaping array.parts.members.newest ≡ false → B.tells → AreLeftSettled array.parts.members array.parts.entries r.1.entries.items (B.given array.parts.bank) (B.tape r.0)) }
    ensures grows { IfOk result (λ r. Grows B.tells (B.tape array.parts.bank) (B.tape r.0)) }
    ensures losses { IfOk result (λ r. AreLossesOf array.parts.members (B.faults_of array.parts.bank) (B.faults_of r.0) array.parts.entries r.1.entries.items) }
    ensures ends { IfOk result (λ r. B.tells → EndBy (length (B.tape r.0)) r.1.entries.items) }
    ensures ended { IfOk result (λ r. IsEndOf B.tells r.1.first r.1.entries.items (B.tape r.0)) }
    ensures right { IfOk result (λ r. B.tells → IsReliable (world_of (B.given r.0) (B.tape r.0) array.parts.backup r.1) r.1.entries.items → IsEpochKept (B.given r.0) (B.tape r.0) array.parts.backup r.1) }
    ensures plain { IfOk result (λ r. B.tells → KeepsShape (world_of (B.given r.0) (B.tape r.0) array.parts.backup r.1) r.1.entries.items → IsPlainEpoch (B.given r.0) (B.tape r.0) array.parts.backup r.1) }
    ensures plainly { IfOk result (λ r. is_reshaping array.parts.members.newest ≡ false → list_any (λ e. turns_shape e.event) r.1.entries.items ≡ false → AreToldPlainly r.1.entries.items) }
    ensures uuid { IfOk result (λ r. r.1.uuid ≡ array.parts.uuid) }
    ensures slots { IfOk result (λ r. r.1.given ≡ array.parts.given) }
    ensures first { IfOk result (λ r. r.1.first ≡ array.parts.first) }
    ensures last { IfOk result (λ r. B.tells → r.1.last ≡ length (B.tape r.0)) }
    ensures given { IfOk result (λ r. B.given r.0 ≡ B.given array.parts.bank) }
    ensures never_falls { IfOk result (λ r. NeverFalls (B.faults_of array.parts.bank) (B.faults_of r.0)) }
    ensures refused { IfErr result (λ e. IsUnsettled who array.parts.entries e.0.parts.entries e.1) }
    ensures caused { IfErr result (λ e. IsFaultFor (list_length array.parts.members.newest) 0 AreTooMany array.parts.members e.0.parts.members e.1) }
    ensures called { IfErr result (λ e. IsCalled B.tells (B.given array.parts.bank) (B.tape array.parts.bank) (B.tape e.0.parts.bank) (B.faults_of array.parts.bank) (B.faults_of e.0.parts.bank) array e.0) }
    ensures left_failed { IfErr result (λ e. HaveRolesFailed array.parts.members e.0.parts.members (B.faults_of array.parts.bank) (B.faults_of e.0.parts.bank)) }
    ensures left_active { IfErr result (λ e. is_reshaping e.0.parts.members.newest ≡ is_reshaping array.parts.members.newest) }
    ensures left_given { IfErr result (λ e. B.given e.0.parts.bank ≡ B.given array.parts.bank) }
    ensures course { IfErr result (λ e. e.0.course ≡ array.course) }
{
    let Running {
        alloc,
        array,
        window,
    } = array;
    match array_steps::stop(array, who) {
        Ok(ended) => Ok(ended),
        Err((array, fault)) => {
            check_array(&array);
            let running = Running {
                alloc,
                array,
                window,
            };
            Err((running, fault))
        }
    }
}
