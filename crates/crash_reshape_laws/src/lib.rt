//! Laws of how a reshape goes: whole windows, its begin and its end, and takeovers of a level.
//! Each function's contract is the law.
#![tactic(auto)]

ghost use Rattle.std.specs.Prelude.{⊤};
ghost use Rattle.crash_safety_laws.specs.Updates.{PastWindowsArePlain, ZeroingStaysRight};
ghost use Rattle.crash_reshape_laws.specs.Flushed.{BeginStaysSafe, FlushedChangeStaysSafe};
ghost use Rattle.crash_reshape_laws.specs.Runs.{WindowsStayRight, RecordsAreSeenRight};
ghost use Rattle.crash_reshape_laws.specs.LeftSound.{ViewsLeaveSound};
ghost use Rattle.crash_reshape_laws.specs.Copies.{FitHeadersArePlain, CopiesStayFit, MovedIsRightAndFit, CopiesAreSeenRight, UpdatedIsRightAndFit};
ghost use Rattle.crash_reshape_laws.specs.Ends.{PlacesAlikeStand, ResizedTells, AlikePlansAreRight, ClearedIsPlain, BegunIsPlacedAlike, BeginsAreRight, BeginsAreSeenRight, EndsAreRight, EndsAreSeenRight};
ghost use Rattle.crash_reshape_laws.specs.Grown.{GrownStands, GrownDoesWithout, ResizedIsTold};
ghost use Rattle.crash_reshape_laws.specs.Takeovers.{TakenUpIsPlacedAlike, TakeoversPlaceAlike, TakeoversAreRight, TakeoversAreSeenRight};
ghost use Rattle.crash_reshape_laws.specs.Plans.{PlansKeepRoles, PlannedIsBegun, PlannedIsEnded, PlannedIsTakenUp, PlannedIsTakenDown, LessIsPlaced, PlannedIsSeen, FlushedIsZeroed, PlannedIsPlaced};

pub use crash_safety_laws::{SectionFault, clear_section, write_section};

/// A view stays right through each stretch of a critical window.
pub fn windows_stay_right()
    ensures { WindowsStayRight ⊤ }
{}

/// Each image in the update that records the window is seen right.
pub fn records_are_seen_right()
    ensures { RecordsAreSeenRight ⊤ }
{}

/// Where each image is read as a view that is right, the mark leaves only sound ones.
pub fn views_leave_sound()
    ensures { ViewsLeaveSound }
{}

/// A list stands on where each sector has its place as before, whatever the shape that gives it.
pub fn alike_places_stand()
    ensures { PlacesAlikeStand }
{}

/// A change of the length leaves the values of each sector that stays.
pub fn a_changed_length_is_recorded()
    ensures { ResizedTells }
{}

/// A plan that places all alike is right where the members before it were.
pub fn alike_plans_are_right()
    ensures { AlikePlansAreRight ⊤ }
{}

/// A cleared header has no active section, and fits.
pub fn a_cleared_header_is_plain()
    ensures { ClearedIsPlain }
{}

/// Where a reshape begins each sector has its place as before.
pub fn a_begun_reshape_places_alike()
    ensures { BegunIsPlacedAlike }
{}

/// The planned view of a reshape that begins is right.
pub fn begins_are_right()
    ensures { BeginsAreRight ⊤ }
{}

/// Each image in the update that begins a reshape is seen right.
pub fn begins_are_seen_right()
    ensures { BeginsAreSeenRight ⊤ }
{}

/// The planned view of a reshape that ends is right, with zeros behind the former end.
pub fn ends_are_right()
    ensures { EndsAreRight ⊤ }
{}

/// Each image in the update that ends a reshape is seen right.
pub fn ends_are_seen_right()
    ensures { EndsAreSeenRight ⊤ }
{}

/// Level 6 over level 5 places each sector alike, and has the same P.
pub fn taken_shapes_place_alike()
    ensures { TakenUpIsPlacedAlike }
{}

/// A takeover places each sector of the list alike.
pub fn takeovers_place_alike()
    ensures { TakeoversPlaceAlike }
{}

/// The planned view of a takeover is right.
pub fn takeovers_are_right()
    ensures { TakeoversAreRight ⊤ }
{}

/// Each image in the update of a takeover is seen right.
pub fn takeovers_are_seen_right()
    ensures { TakeoversAreSeenRight ⊤ }
{}

/// Behind a window no header that fitted has an active section.
pub fn fit_headers_are_plain_after()
    ensures { FitHeadersArePlain }
{}

/// A view stays right, and its headers fit, while a window is copied and flushed, critical or not.
pub fn copies_stay_fit()
    ensures { CopiesStayFit ⊤ }
{}

/// So do the members with the position behind it.
pub fn moved_members_are_right_and_fit()
    ensures { MovedIsRightAndFit ⊤ }
{}

/// Each image in the update that records such a window is seen right.
pub fn copies_are_seen_right()
    ensures { CopiesAreSeenRight ⊤ }
{}

/// The roles that a plan doesn't give are what they were.
pub fn plans_keep_roles()
    ensures { PlansKeepRoles }
{}

/// A change that begins a reshape.
pub fn a_planned_begin_is_one()
    ensures { PlannedIsBegun }
{}

/// A change that ends a reshape.
pub fn a_planned_end_is_one()
    ensures { PlannedIsEnded }
{}

/// A change that takes level 5 over to level 6.
pub fn a_planned_takeover_up_is_one()
    ensures { PlannedIsTakenUp }
{}

/// A change that takes level 6 over to level 5.
pub fn a_planned_takeover_down_is_one()
    ensures { PlannedIsTakenDown }
{}

/// A view that has no more than one that is placed is placed.
pub fn less_is_placed()
    ensures { LessIsPlaced }
{}

/// What reads as planned by a round of an update is read so in it.
pub fn planned_is_seen()
    ensures { PlannedIsSeen }
{}

/// Rows past the list that stand as zeros, flushed, are zeroed.
pub fn flushed_rows_are_zeroed()
    ensures { FlushedIsZeroed }
{}

/// The list stands on as the longer one, with zeros behind it.
pub fn a_grown_list_holds()
    ensures { GrownStands }
{}

/// Forward the old shape misses no more than the new one.
pub fn a_grown_array_does_without()
    ensures { GrownDoesWithout }
{}

/// What is told with a change of the length, and without it.
pub fn a_change_of_length_is_recorded()
    ensures { ResizedIsTold }
{}

/// The planned members are placed where what the change gives fits.
pub fn planned_members_are_placed()
    ensures { PlannedIsPlaced }
{}

/// An update leaves a view right, with headers that fit, and no section active.
pub fn updated_members_are_right_and_fit()
    ensures { UpdatedIsRightAndFit ⊤ }
{}

/// Behind a window its section isn't active.
pub fn past_windows_are_plain()
    ensures { PastWindowsArePlain }
{}

/// Rows past the end of the list may be written, once the reshape has gone through.
pub fn written_rows_past_the_end_stay_right()
    ensures { ZeroingStaysRight ⊤ }
{}

/// A reshape begins, by the ledger before it or by one of a shorter list.
pub fn beginning_stays_safe()
    ensures { BeginStaysSafe ⊤ }
{}

/// Behind a flush a reshape ends, a level is taken over, or a recovery offset moves on.
pub fn a_flushed_change_stays_safe()
    ensures { FlushedChangeStaysSafe ⊤ }
{}
