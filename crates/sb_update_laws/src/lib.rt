//! Laws of a whole update of the stored superblocks, whichever slots are lost in it.
#![tactic(auto)]

ghost use Rattle.sb_update_laws.specs.Turning.{UpdateTurningReads, UpdateTurningEnds, UpdateTurningMayFollow};
ghost use Rattle.sb_update_laws.specs.MakingWhole.{UpdateMakingWholeReads, UpdateMakingWholeEnds, UpdateMakingWholeMayFollow, MembersMadeWholeStaySaid};
ghost use Rattle.sb_read_laws.specs.sb_specs_Adding.{AddingIsReady, UpdateAddingReads, UpdateAddingEnds};
ghost use Rattle.sb_read_laws.specs.sb_specs_Losing.{RoundLosingReads, RoundAfterLosingReads, RoundAfterLosingEnds};
ghost use Rattle.sb_read_laws.specs.Following.{AddingMayFollow};

/// At each mark of an update an image reads as before it, or as planned by one of its rounds, each of which names the slots
/// that were lost before it, also where the slot that gets a recovery offset is lost in its own write.
pub fn update_transition_reads()
    ensures { UpdateTurningReads }
{}

/// At the end of an update the slots are held as planned, where one is left.
pub fn update_transition_ends()
    ensures { UpdateTurningEnds }
{}

/// Then the slots that are left hold what the members have for them, so that the next update may start.
pub fn update_transition_may_follow()
    ensures { UpdateTurningMayFollow }
{}

/// At each mark of an update that makes a recovering slot whole, an image reads as before it, or as planned, or as planned
/// with the slot still recovering.
pub fn update_making_whole_reads()
    ensures { UpdateMakingWholeReads }
{}

/// At the end of such an update the slots are held as planned, where one is left and the lost ones are named.
pub fn update_making_whole_ends()
    ensures { UpdateMakingWholeEnds }
{}

/// Then the slots that are left hold what the members have for them, so that the next update may start.
pub fn update_making_whole_may_follow()
    ensures { UpdateMakingWholeMayFollow }
{}

/// The members then say what the stored superblocks do: as planned, without the slots that the last round named.
pub fn members_made_whole_stay_said()
    ensures { MembersMadeWholeStaySaid }
{}

/// An update that makes a slot a spare may start, where that slot has no part in the array.
pub fn adding_is_ready()
    ensures { AddingIsReady }
{}

/// At each mark of an update that makes a slot a spare an image reads as before it, or as planned, perhaps without that
/// spare.
pub fn update_adding_reads()
    ensures { UpdateAddingReads }
{}

/// At its end the slots are held as planned, where one is left.
pub fn update_adding_ends()
    ensures { UpdateAddingEnds }
{}

/// The same of an update that makes a slot a spare.
pub fn adding_may_follow()
    ensures { AddingMayFollow }
{}

/// At each mark of a round in which the slot that gets a recovery offset is lost in its own write, an image reads as before
/// it, or as planned, the slot recovering, or as planned with it named faulty.
pub fn slots_in_a_round_losing_read()
    ensures { RoundLosingReads }
{}

/// At each mark of the round that follows, an image reads as planned, the slot recovering, or named faulty, or as planned by
/// that round.
pub fn slots_in_a_round_after_losing_read()
    ensures { RoundAfterLosingReads }
{}

/// After that round the slots are held as planned.
pub fn slots_after_a_round_after_losing_are_held()
    ensures { RoundAfterLosingEnds }
{}
