//! The stripes behind the list, once a reshape has gone through it.

ghost use Rattle.std.specs.Prelude.{◌≡◌, ◌≢◌, ◌+◌, ◌≤◌, None, OnOk, OnErr, true};
ghost use Rattle.array_type.specs.history_the_StepKind_TheVariants.{Zeroed as ZeroesStripe};
ghost use Rattle.array_type.specs.sb_specs_Reading.{is_clean, list_length, is_reshaping};
ghost use Rattle.array_type.specs.array_members_Lacking.{AreTooMany};
ghost use Rattle.array_type.specs.array_call_specs_Calls.{IsCausedBy};
ghost use Rattle.array_type.specs.history_invariant_Recorded.{IsCallGoing};
ghost use Rattle.array_type.specs.array_fixed_invariant_reshape_progress_Laws.{closed};
ghost use Rattle.array_type.specs.array_specs_Parts.{left_in};
ghost use Rattle.array_type.specs.array_specs_Calls.{IsCalled, IsStepTaken, IsZeroDue};

use array_type::{
    Array, Bank, Event, Fault, StepKind, Who, append_after_losses, append_entry, check_going,
    final_in, left_in_reshape, newly_unassigned, stripe_to_zero, too_many, unassigned_roles, zero,
};

/// A step of the reshape, which has gone through the list, where no resync is pending: the next stripe behind it is zeroed. Refusals: `TooManyMissing`. It
/// takes no memory.
pub fn zero_stripe<B: Bank>(moving: &mut Array<B>, who: Who) -> Result<(), Fault>
    requires open { IsCallGoing moving.old.parts.entries who }
    requires caller { who.caller ≢ 254 }
    requires room { 1 ≤ moving.old.parts.steps }
    requires synced { moving.old.parts.work.resync ≡ None }
    requires due { IsZeroDue moving.old }
    requires active { is_reshaping moving.old.parts.members.newest ≡ true }
    ensures entered { IsStepTaken who moving.old.parts.entries moving.new.parts.entries ZeroesStripe (left_in moving.new.parts.work moving.new.parts.members moving.new.course moving.new.ahead) result }
    ensures called { IsCalled B.tells (B.given moving.old.parts.bank) (B.tape moving.old.parts.bank) (B.tape moving.new.parts.bank) (B.faults_of moving.old.parts.bank) (B.faults_of moving.new.parts.bank) moving.old moving.new }
    ensures clean { is_clean moving.new.parts.members.newest ≡ is_clean moving.old.parts.members.newest }
    ensures caused { IsCausedBy (list_length moving.old.parts.members.newest) 0 AreTooMany moving.old.parts.members moving.new.parts.members result }
    ensures left { OnOk result (left_in moving.new.parts.work moving.new.parts.members moving.new.course moving.new.ahead + 1 ≡ left_in moving.old.parts.work moving.old.parts.members moving.old.course moving.old.ahead) }
    ensures zeroed { OnOk result (moving.new.course ≡ closed (moving.old.course.zeroed + 1)) }
    ensures course { OnErr result (moving.new.course ≡ moving.old.course) }
    ensures room { moving.new.parts.steps + 1 ≡ moving.old.parts.steps }
    ensures active { is_reshaping moving.new.parts.members.newest ≡ true }
    ensures given { B.given moving.new.parts.bank ≡ B.given moving.old.parts.bank }
{
    moving.steps -= 1;
    check_going(&moving.epoch.entries, who);
    if let Some(refusal) = too_many(&moving.members) {
        let end = moving.bank.ops();
        append_entry(&mut moving.epoch, who, end, Event::Refused { refusal });
        return Err(Fault::Refused(refusal));
    }
    let count = moving.members.roles.len() as u32;
    let before = unassigned_roles(&moving.members, count);
    let shape = final_in(&moving.members);
    let zeroed = moving.course.zeroed;
    let stripe = stripe_to_zero(&moving.members, zeroed);
    let done = zero(
        &mut moving.members,
        &mut moving.bank,
        &shape,
        stripe,
        moving.buffer.as_mut_slice(),
    );
    let roles = newly_unassigned(&moving.members, count, before);
    let end = moving.bank.ops();
    if let Some(refusal) = done.refusal {
        let event = Event::Refused { refusal };
        append_after_losses(&mut moving.epoch, who, end, roles, done.spares, event);
        return Err(Fault::Refused(refusal));
    }
    moving.course.zeroed = zeroed + 1;
    let kind = StepKind::Zeroed;
    let left = left_in_reshape(&moving.members, &moving.work, &moving.course, &moving.ahead);
    let event = Event::Step { kind, left };
    append_after_losses(&mut moving.epoch, who, end, roles, done.spares, event);
    Ok(())
}
