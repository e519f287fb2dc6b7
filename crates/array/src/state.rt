//! A running array, with a reshape active in it or without one.

ghost use Rattle.std.specs.Prelude.{◌≡◌, ◌<◌, true, false, [], IsSome};
ghost use Rattle.array_takeover.specs.sb_specs_Reading.{is_reshaping};
ghost use Rattle.array_takeover.specs.history_Reshaped.{open_plans};
ghost use Rattle.array_grow.specs.array_members_Placed.{IsPlaced};
ghost use Rattle.array_takeover.specs.reshape_request_Left.{phases_of};
ghost use Rattle.array_grow.specs.array_specs_Parts.{left_in};
ghost use Rattle.array_grow.specs.array_specs_Calls.{moving_world};
ghost use Rattle.array_grow.specs.array_specs_Plans.{KeepsShape};
ghost use Rattle.array.specs.State.{IsStillNow, IsWithin, IsBackupAside};

mod answering;
mod asking;
mod beginning;
mod choosing;
mod finishing;
mod mending;
mod rooms;
mod stepping;
mod taking;

use array_grow::{Array, Bank};
pub use choosing::Next;
use std::alloc::Global;
use std::marker::Model;

/// An array that runs, and what its plan has besides: `window` is the buffer for the windows of the next phase that is a reshape and
/// hasn't begun, and `alloc` makes the next one.
#[derive(Drop)]
pub struct Running<B: Bank> {
    pub alloc: Global,
    pub array: Array<B>,
    pub window: Vec<u8>,
}

impl<B: Bank> Model for Running<B> {
    ghost use Rattle.std.specs.Prelude.{length};
    ghost use Rattle.array_grow.specs.array_specs_Parts.{RunningParts};

    ghost Value = { RunningParts B };

    ghost use Rattle.array.specs.State.{IsAsTold};

    ghost view = { λ a. a.array };

    ghost invariant = { λ a. IsAsTold B.tells B.given B.tape (length a.window.items) a.array };
}

/// It does nothing: its contract says what an array keeps, without an active reshape and in one.
pub fn check_array<B: Bank>(array: &Array<B>)
    ensures within { IsWithin B.tells (B.given array.now.parts.bank) (B.tape array.now.parts.bank) array.now }
    ensures placed { IsPlaced (B.given array.now.parts.bank) array.now.parts.members }
    ensures rest { is_reshaping array.now.parts.members.newest ≡ false → IsStillNow array.now }
    ensures backed { is_reshaping array.now.parts.members.newest ≡ true → IsSome array.now.parts.backup }
    ensures some { is_reshaping array.now.parts.members.newest ≡ true → 0 < left_in array.now.parts.work array.now.parts.members array.now.course array.now.ahead }
    ensures aside { is_reshaping array.now.parts.members.newest ≡ true → IsBackupAside array.now }
{
    let _steps = array.steps;
}

impl<B: Bank> Running<B> {
    /// An array without an active reshape, which has no plan; its backup holds no role and is no spare.
    pub fn at_rest(alloc: Global, array: Array<B>) -> Running<B>
        requires still { is_reshaping array.parts.members.newest ≡ false }
        requires planless { phases_of array.ahead ≡ [] }
        requires unplanned { open_plans array.parts.entries ≡ [] }
        requires aside { IsBackupAside array }
        ensures { result ≡ array }
    {
        check_array(&array);
        Running {
            alloc,
            array,
            window: Vec::new(alloc),
        }
    }

    /// An array in a reshape that its opening found, which has no plan: no phase is ahead behind it.
    pub fn in_reshape(alloc: Global, array: Array<B>) -> Running<B>
        requires active { is_reshaping array.parts.members.newest ≡ true }
        requires last { phases_of array.ahead ≡ [] }
        requires unplanned { open_plans array.parts.entries ≡ [] }
        requires turned { B.tells → KeepsShape (moving_world (B.given array.parts.bank) (B.tape array.parts.bank) array) array.parts.entries → ⊥ }
        ensures { result ≡ array }
    {
        check_array(&array);
        Running {
            alloc,
            array,
            window: Vec::new(alloc),
        }
    }
}
