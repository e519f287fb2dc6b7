//! What a running array tells of itself, entered in its history.

ghost use Rattle.std.specs.Prelude.{◌≡◌, ◌≢◌, ◌≤◌, [], ◌∷◌, length, IfOk, IfErr};
ghost use Rattle.history_append.specs.history_Flat.{next_number};
ghost use Rattle.history_append.specs.history_the_Event_TheVariants.{Shown};
ghost use Rattle.array_open.specs.array_call_specs_Calls.{IsEntered, IsEndOf};
ghost use Rattle.array_open.specs.array_specs_Calls.{moving_world, IsSameReshape};
ghost use Rattle.array_open.specs.array_Calls.{IsShownAs};

use array_call_specs::{NoMemory, Status, Who};
use array_open::{Running, check_array};
use bank::Bank;

/// What the array tells of itself, entered in its history. It makes no device call.
pub fn status<B: Bank>(array: &mut Running<B>, who: Who) -> Result<Status, NoMemory>
    requires next { who.number ≡ next_number who.caller array.old.parts.entries }
    requires caller { who.caller ≢ 254 }
    ensures entered { IfOk result (λ status. IsEntered B.tells (B.tape array.old.parts.bank) who array.old.parts.entries array.new.parts.entries (Shown status ∷ [])) }
    ensures told { IfOk result (λ status. IsShownAs array.old status) }
    ensures few { IfOk result (λ status. (length status.roles ≤ 16) × (length status.spares ≤ 32)) }
    ensures unchanged { IfErr result (λ none. array.new ≡ array.old) }
    ensures bank { array.new.parts.bank ≡ array.old.parts.bank }
    ensures members { array.new.parts.members ≡ array.old.parts.members }
    ensures work { array.new.parts.work ≡ array.old.parts.work }
    ensures course { array.new.course ≡ array.old.course }
    ensures ended { IsEndOf B.tells array.new.parts.first array.new.parts.entries (B.tape array.new.parts.bank) }
    ensures same { IsSameReshape B.tells array.old array.new (moving_world (B.given array.old.parts.bank) (B.tape array.old.parts.bank) array.old) (moving_world (B.given array.new.parts.bank) (B.tape array.new.parts.bank) array.new) }
{
    let status = array_open::status(&mut array.array, who);
    check_array(&array.array);
    status
}
