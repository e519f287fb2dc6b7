//! A step that is refused before anything was done.

ghost use Rattle.array_fixed_io.specs.sb_specs_Reading.{is_reshaping};
ghost use Rattle.std.specs.Prelude.{◌≡◌, ◌≢◌, ◌+◌, ◌≤◌, None, false};
ghost use Rattle.array_fixed_io.specs.history_the_Event_TheVariants.{Refused};
ghost use Rattle.array_fixed_io.specs.array_members_Placed.{AreStillHeld};
ghost use Rattle.array_fixed_io.specs.array_members_Rebuilding.{Held};
ghost use Rattle.array_fixed_io.specs.array_members_Lacking.{AreTooMany};
ghost use Rattle.array_fixed_io.specs.array_call_specs_Calls.{IsBehind, IsUnmendable, AreSparesFewer, AreStepsKept};
ghost use Rattle.array_fixed_io.specs.history_invariant_Recorded.{IsCallGoing};
ghost use Rattle.array_fixed_io.specs.array_specs_Parts.{still_left};
ghost use Rattle.array_fixed_io.specs.array_fixed_laws_Steps.{IsStepped};

use array_fixed_io::{Array, Bank, Event, Refusal, Who, append_entry, check_going};

// Enters that a step is refused, before anything was done.
pub(crate) fn refuse_step<B: Bank>(still: &mut Array<B>, who: Who, refusal: Refusal)
    requires open { IsCallGoing still.old.parts.entries who }
    requires caller { who.caller ≢ 254 }
    requires room { 1 ≤ still.old.parts.steps }
    requires why { IsUnmendable still.old.parts.members refusal }
    requires synced { still.old.parts.work.resync ≡ None → AreTooMany still.old.parts.members refusal }
    requires still { is_reshaping still.old.parts.members.newest ≡ false }
    ensures entered { IsBehind who still.old.parts.entries still.new.parts.entries (Refused refusal) }
    ensures stepped { IsStepped B.tells (B.given still.old.parts.bank) (B.tape still.old.parts.bank) (B.tape still.new.parts.bank) (Held still.old.parts.members) (B.faults_of still.old.parts.bank) (B.faults_of still.new.parts.bank) still.old still.new }
    ensures held { AreStillHeld still.old.parts.members still.new.parts.members }
    ensures spares { AreSparesFewer still.old.parts.members still.new.parts.members }
    ensures stays { AreStepsKept still.old.parts.entries still.new.parts.entries (still_left still.old.parts.work still.old.parts.members still.old.ahead) (still_left still.new.parts.work still.new.parts.members still.new.ahead) }
    ensures open { IsCallGoing still.new.parts.entries who }
    ensures room { still.new.parts.steps + 1 ≡ still.old.parts.steps }
    ensures bank { still.new.parts.bank ≡ still.old.parts.bank }
    ensures members { still.new.parts.members ≡ still.old.parts.members }
    ensures work { still.new.parts.work ≡ still.old.parts.work }
    ensures ahead { still.new.ahead ≡ still.old.ahead }
    ensures still { is_reshaping still.new.parts.members.newest ≡ false }
{
    still.steps -= 1;
    check_going(&still.epoch.entries, who);
    let end = still.bank.ops();
    append_entry(&mut still.epoch, who, end, Event::Refused { refusal });
}
