//! Laws of what images of the superblocks read as: between updates, and at each mark of one.
#![tactic(auto)]

ghost use Rattle.sb_specs.specs.Same.{ReadingIsOfSuperblocks};
ghost use Rattle.sb_specs.specs.Crash.{HeldReads, CatchingUpReads, RoundReads, RoundEndIsHeld, WholeReads, WholeEndReads, UpdateInRoundsReads, UpdateInRoundsEnds};
ghost use Rattle.sb_specs.specs.Plans.{FitChangeMakesFitPlan};
ghost use Rattle.sb_read_laws.specs.Said.{MembersStaySaid, MembersStaySaidInRounds};
ghost use Rattle.sb_specs.specs.Losing.{RecoveriesRead};
ghost use Rattle.sb_read_laws.specs.Following.{UpdateMayFollow};

pub use sb_specs::Sb;
pub use sb_specs::says::{entry_of, is_clean};
pub use sb_specs::sets::contains;

/// What is written elsewhere doesn't change the reading.
pub fn reading_is_of_superblocks()
    ensures { ReadingIsOfSuperblocks }
{}

/// Between updates each image reads as the superblocks that are known say.
pub fn held_slots_read()
    ensures { HeldReads }
{}

/// While an update brings slots to the newest event count, each image reads as before it.
pub fn slots_catching_up_read()
    ensures { CatchingUpReads }
{}

/// At each mark of a round that writes what is planned, slots that fail in it among them, an image reads as before it or
/// as planned.
pub fn slots_in_a_round_read()
    ensures { RoundReads }
{}

/// After a round the slots are held as planned.
pub fn slots_after_a_round_are_held()
    ensures { RoundEndIsHeld }
{}

/// At each mark of an update in which no slot is lost an image reads as before it or as planned.
pub fn updated_slots_read()
    ensures { WholeReads }
{}

/// At the end of such an update each image reads as planned, and the next one may start.
pub fn slots_after_an_update_read()
    ensures { WholeEndReads }
{}

/// A change that fits the array makes a plan that fits what is held.
pub fn fit_change_makes_fit_plan()
    ensures { FitChangeMakesFitPlan }
{}

/// At each mark of an update an image reads as before it, or as planned by one of its rounds, each of which names the slots
/// that were lost before it.
pub fn update_in_rounds_reads()
    ensures { UpdateInRoundsReads }
{}

/// At the end of an update the slots are held as planned, where one is left.
pub fn update_in_rounds_ends()
    ensures { UpdateInRoundsEnds }
{}

/// After an update in which no slot is lost, the stored superblocks say the roles and the spares that it plans.
pub fn members_stay_said()
    ensures { MembersStaySaid }
{}

/// After an update in which slots are lost, they say the same without the slots that its last round named.
pub fn members_stay_said_in_rounds()
    ensures { MembersStaySaidInRounds }
{}

/// At the end of an update the slots that are left hold what the members have for them, so that the next one may start.
pub fn update_may_follow()
    ensures { UpdateMayFollow }
{}

/// While the slots that get a recovery offset are written, an image reads as before or as planned, also where one of them is
/// lost then.
pub fn slots_read_while_recoveries_are_written()
    ensures { RecoveriesRead }
{}
