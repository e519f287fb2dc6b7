//! What an array tells of itself.

ghost use Rattle.array_type.specs.One.{IsShownAs};
ghost use Rattle.array_type.specs.array_call_specs_Calls.{IsEntered, IsEndOf};
ghost use Rattle.array_type.specs.array_specs_Calls.{moving_world, IsSameReshape};
ghost use Rattle.array_type.specs.history_Flat.{next_number};
ghost use Rattle.array_type.specs.history_the_Event_TheVariants.{Shown};
ghost use Rattle.array_type.specs.sb_specs_Reading.{is_reshaping};
ghost use Rattle.std.specs.Prelude.{◌≡◌, ◌≢◌, ◌<◌, ◌≤◌, [], ◌∷◌, length, IfOk, IfErr, if◌then◌else◌};

use array_type::{
    Array, Bank, Event, Members, NoMemory, Status, Who, append_entry, check_number, copy_roles,
    copy_slots, is_clean, is_reshaping, shape_in, target_of,
};

// How far the position of an active reshape has come; 0 without one.
fn position_of(members: &Members) -> u64
    ensures { result ≡ (if is_reshaping members.now.newest then members.now.newest.reshape_position else 0) }
{
    if is_reshaping(&members.newest) {
        return members.newest.reshape_position;
    }
    0
}

// What the array tells of itself, in memory of its own.
fn told<B: Bank>(array: &Array<B>) -> Result<Status, NoMemory>
    ensures { IfOk result (λ status. IsShownAs array.now status) }
{
    let roles = match copy_roles(array.alloc, &array.members.roles) {
        Ok(roles) => roles,
        Err(none) => return Err(none),
    };
    let spares = match copy_slots(array.alloc, &array.members.spares) {
        Ok(spares) => spares,
        Err(none) => return Err(none),
    };
    Ok(Status {
        shape: shape_in(&array.members),
        target: target_of(&array.members.newest),
        position: position_of(&array.members),
        size: array.members.newest.size,
        length: array.length(),
        visible: array.visible(),
        clean: is_clean(&array.members.newest),
        events: array.members.newest.events,
        left: array.left(),
        roles,
        spares,
    })
}

/// What the array tells of itself, entered in its history. It makes no device call.
pub fn status<B: Bank>(array: &mut Array<B>, who: Who) -> Result<Status, NoMemory>
    requires next { who.number ≡ next_number who.caller array.old.parts.entries }
    requires caller { who.caller ≢ 254 }
    ensures entered { IfOk result (λ status. IsEntered B.tells (B.tape array.old.parts.bank) who array.old.parts.entries array.new.parts.entries (Shown status ∷ [])) }
    ensures told { IfOk result (λ status. IsShownAs array.old status) }
    ensures few { IfOk result (λ status. (length status.roles ≤ 16) × (length status.spares ≤ 32)) }
    ensures unchanged { IfErr result (λ none. array.new ≡ array.old) }
    ensures bank { array.new.parts.bank ≡ array.old.parts.bank }
    ensures members { array.new.parts.members ≡ array.old.parts.members }
    ensures work { array.new.parts.work ≡ array.old.parts.work }
    ensures ended { IsEndOf B.tells array.new.parts.first array.new.parts.entries (B.tape array.new.parts.bank) }
    ensures same { IsSameReshape B.tells array.old array.new (moving_world (B.given array.old.parts.bank) (B.tape array.old.parts.bank) array.old) (moving_world (B.given array.new.parts.bank) (B.tape array.new.parts.bank) array.new) }
    ensures active { is_reshaping array.new.parts.members.newest ≡ is_reshaping array.old.parts.members.newest }
    ensures course { array.new.course ≡ array.old.course }
{
    let shown = match told(array) {
        Ok(shown) => shown,
        Err(none) => return Err(none),
    };
    let status = match told(array) {
        Ok(status) => status,
        Err(none) => return Err(none),
    };
    match array.epoch.entries.make_room(2) {
        Ok(()) => {}
        Err(none) => return Err(none),
    }
    array.steps = 0;
    check_number(&array.epoch.entries, who);
    let end = array.bank.ops();
    append_entry(&mut array.epoch, who, end, Event::Shown { status: shown });
    Ok(status)
}
