//! Laws of updates of the superblocks of an array of one shape or of two.
//! Each function's contract is the law.
#![tactic(auto)]

ghost use Rattle.std.specs.Prelude.{⊤};
ghost use Rattle.crash_safety_laws.specs.Updates.{PlannedIsRead, LessStaysRight, UpdatesAreSeenRight, AlikeStands, EndsPlaceAll, PlansLoseRoles};
ghost use Rattle.crash_safety_laws.specs.Changing.{ChangeStaysSafe, SpentStaysSpent, SafeChangeStaysSafe};
ghost use Rattle.crash_safety_laws.specs.Called.{UpdateIsChange};
ghost use Rattle.crash_safety_laws.specs.Kinds.{KeptStaysSafe, MarkStaysSafe, RecordStaysSafe, TakingIsFit, DroppingIsFit, FitUpdateIsFitChange};
ghost use Rattle.crash_safety_laws.specs.Giving.{PlacedLessIsRight};
ghost use Rattle.crash_safety_laws.specs.Held.{HeldStays};
ghost use Rattle.crash_safety_laws.specs.Steady.{HeldIsRead, SafeIsSeen, LosingStaysSafe, FlushesStaySafe, WritesStaySafe, FillingStaysSafe};

pub use crash_views::{
    Outcome, ROW_BYTES, SectionFault, Unavailable, are_too_many, clear_section, data_offset,
    is_missing, lose_slot, lose_slots, missing_count, read_list, read_touched, syndromes,
    tolerance, write_section, write_touched,
};

/// What is read as an update plans is read of the members that it plans.
pub fn planned_is_read()
    ensures { PlannedIsRead }
{}

/// A view that loses roles stays right, if they are told.
pub fn less_stays_right()
    ensures { LessStaysRight ⊤ }
{}

/// Each image in an update is seen right, by what is told before it or by what is told with it.
pub fn updates_are_seen_right()
    ensures { UpdatesAreSeenRight ⊤ }
{}

/// A list stands on where each sector is placed as before.
pub fn alike_lists_stand()
    ensures { AlikeStands }
{}

/// At its first position a reshape places all by the old shape, and at its last by the new one.
pub fn ends_place_all()
    ensures { EndsPlaceAll }
{}

/// A plan in which more slots are named lost has no more.
pub fn plans_lose_roles()
    ensures { PlansLoseRoles }
{}

/// Any update of the superblocks keeps an array safe, whichever slots are lost in it, if its change is fit and the view that it plans is
/// right. The premise of what is said of parity is only carried along; here it is one that always holds.
pub fn a_change_stays_safe()
    ensures held { ChangeStaysSafe ⊤ }
    ensures spent { SpentStaysSpent ⊤ }
    ensures any { SafeChangeStaysSafe ⊤ }
{}

/// An update in which each slot stays what it is keeps an array safe.
pub fn a_preserved_change_stays_safe()
    ensures { KeptStaysSafe ⊤ }
{}

/// So does the clean or dirty mark.
pub fn a_point_stays_safe()
    ensures { MarkStaysSafe ⊤ }
{}

/// And the record of a position.
pub fn a_record_stays_safe()
    ensures { RecordStaysSafe ⊤ }
{}

/// A change by which spares get vacant roles is fit.
pub fn taking_is_fit()
    ensures { TakingIsFit }
{}

/// And one by which holders become spares.
pub fn dropping_is_fit()
    ensures { DroppingIsFit }
{}

/// A view that places the list where another does is as right.
pub fn a_view_placed_alike_is_right()
    ensures { PlacedLessIsRight ⊤ }
{}

/// The clauses of a call that updates the superblocks are what these laws start from.
pub fn an_update_is_a_change()
    ensures { UpdateIsChange ⊤ }
{}

/// What is fit so makes a change that fits the superblocks that are held.
pub fn a_fit_update_is_a_fit_change()
    ensures { FitUpdateIsFitChange }
{}

/// Between two updates of the superblocks each image is read as the members say.
pub fn held_is_read()
    ensures { HeldIsRead }
{}

/// What is written elsewhere than in the superblocks leaves them held.
pub fn held_stays()
    ensures { HeldStays }
{}

/// An array that is safe stays so while slots are lost, over flushes, over rows that are written while it is dirty, and over rows
/// that are rebuilt; each image is read as a view that is right.
pub fn safety_is_preserved()
    ensures seen { SafeIsSeen ⊤ }
    ensures losing { LosingStaysSafe ⊤ }
    ensures flushes { FlushesStaySafe ⊤ }
    ensures writes { WritesStaySafe ⊤ }
    ensures filling { FillingStaysSafe ⊤ }
{}
