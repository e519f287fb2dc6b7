//! An array that is made in a bank's slots, and runs.

ghost use Rattle.std.specs.Prelude.{◌≡◌, ◌≤◌, ℕ, [], Some, None, IfOk, IfErr};
ghost use Rattle.array_create_assemble.specs.raid_types_the_Fault_TheVariants.{Refused as IsRefused};
ghost use Rattle.array_create_assemble.specs.raid_types_the_Refusal.{Refusal as AnyRefusal};
ghost use Rattle.array_create_assemble.specs.raid_types_the_Refusal_TheVariants.{UuidInUse as IsInUse};
ghost use Rattle.array_steps.specs.stripe_row_Rows.{present};
ghost use Rattle.array_create_assemble.specs.array_members_Flushing.{OnlyFlushesAdded, OnlyItsSlotsFail};
ghost use Rattle.array_reshaping_open_laws.specs.reshape_request_Left.{phases_of};
ghost use Rattle.array_create_assemble.specs.Opening.{scope_of};
ghost use Rattle.array_create_assemble.specs.Creating.{IsLastSlot, create_refusal};
ghost use Rattle.array_create_assemble.specs.Filling.{OnlyBelow};
ghost use Rattle.array_create_assemble.specs.Made.{used_slot, HasCreateCause};
ghost use Rattle.array_create_assemble.specs.Running.{IsCreated};

use crate::finding::run_still;
use array_create_assemble::{Bank, CreateSpec, Fault, make};
use array_steps::Running;
use std::alloc::Global;

/// Makes an array as `make` of `array_create_assemble` does, with every role whole and its list zero, and runs it; it has neither a plan nor a limit. A refusal hands
/// the bank back, as `make` leaves it; short of memory once it was made, what was made stays in the slots.
pub fn create_array<B: Bank>(
    alloc: Global,
    bank: B,
    backup: Option<u32>,
    spec: CreateSpec,
) -> Result<Running<B>, (B, Fault)>
    requires few { (B.given bank).slots ≤ 32 }
    requires last { IsLastSlot (B.given bank).slots backup }
    ensures created { IfOk result (λ made. IsCreated B.tells (B.given bank) (B.tape made.parts.bank) backup spec made.parts) }
    ensures planless { IfOk result (λ made. phases_of made.ahead ≡ []) }
    ensures unlimited { IfOk result (λ made. made.limit ≡ None) }
    ensures unrefused { IfOk result (λ made. create_refusal (B.given bank) backup spec ≡ None) }
    ensures free { IfOk result (λ made. B.tells → used_slot (scope_of (B.given bank) backup made.parts.given spec.uuid)
        (present (B.given bank) (B.tape bank)) spec.shape.disks ≡ None) }
    ensures refused { IfErr result (λ e. HasCreateCause B.tells (B.given bank) (present (B.given bank) (B.tape bank)) backup spec
        (B.faults_of bank) (B.faults_of e.0) e.1) }
    ensures untouched { IfErr result (λ e. (refusal : AnyRefusal) → create_refusal (B.given bank) backup spec ≡ Some refusal → e.0 ≡ bank) }
    ensures unwritten { IfErr result (λ e. (slot : ℕ) → e.1 ≡ IsRefused (IsInUse slot) → B.tells → OnlyFlushesAdded (B.tape bank) (B.tape e.0)) }
    ensures tape { IfOk result (λ made. B.tells → OnlyBelow spec.shape.disks (B.tape bank) (B.tape made.parts.bank)) }
    ensures left_tape { IfErr result (λ e. B.tells → OnlyBelow spec.shape.disks (B.tape bank) (B.tape e.0)) }
    ensures given { IfOk result (λ made. B.given made.parts.bank ≡ B.given bank) }
    ensures left_given { IfErr result (λ e. B.given e.0 ≡ B.given bank) }
    ensures counts { IfOk result (λ made. OnlyItsSlotsFail (B.given bank) (B.faults_of bank) (B.faults_of made.parts.bank)) }
    ensures left_counts { IfErr result (λ e. OnlyItsSlotsFail (B.given bank) (B.faults_of bank) (B.faults_of e.0)) }
{
    let mut bank = bank;
    let opened = match make(alloc, &mut bank, backup, &spec) {
        Err(fault) => return Err((bank, fault)),
        Ok(opened) => opened,
    };
    run_still(alloc, bank, backup, opened)
}
