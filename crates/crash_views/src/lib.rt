//! Laws of what a stop may leave of an array of one shape or of two: the view of an image, and what keeps it right.
//! Each function's contract is the law.
#![tactic(auto)]

ghost use Rattle.std.specs.Prelude.{⊤};
ghost use Rattle.crash_views.specs.Regions.{RefusedForMissing};
ghost use Rattle.crash_views.specs.Views.{ViewsAreSafe};
ghost use Rattle.crash_views.specs.Sound.{RightViewsAreSound};
ghost use Rattle.crash_views.specs.Windows.{FewerStayRight, StoringStaysRight, NamingStaysRight, CopyingStaysRight, UpdatingStaysRight, PuttingStaysRight, RegionRowsAreOne, StillStands, MovedStands, MovedRowsStand, MovedIsPlaced, MovedTailsStand, NextHeadersFit, FlushedIsRight};
ghost use Rattle.crash_views.specs.Backups.{SectionsStayRight, ClearingStaysRight, NamedSectionsAreOpen, ClearedHeadersAreShut, StoredIsClosed, NamingIsUnsure, NamedIsOpen, ClearedIsClosed, FoundIsOpen};

pub use history::{SectionFault, clear_section, syndromes, write_section};
pub use stripe_list::{
    Outcome, ROW_BYTES, Unavailable, are_too_many, data_offset, is_missing, lose_slot, lose_slots,
    missing_count, read_list, read_touched, tolerance, write_touched,
};

/// An image that is read as members say is refused where a shape in force misses more roles than are tolerated, or where a missing role holds
/// data while the array is dirty, and for nothing else.
pub fn refused_for_missing()
    ensures { RefusedForMissing }
{}

/// Where each image is read as a view that is right, the mark is safe.
pub fn views_are_safe()
    ensures { ViewsAreSafe }
{}

/// And an image that assembles is sound.
pub fn right_views_are_sound()
    ensures { RightViewsAreSound ⊤ }
{}

/// A flush leaves a view right.
pub fn fewer_values_stay_right()
    ensures { FewerStayRight ⊤ }
{}

/// So does a section that is stored.
pub fn a_stored_section_stays_right()
    ensures { StoringStaysRight ⊤ }
{}

/// And one that is named.
pub fn a_named_section_stays_right()
    ensures { NamingStaysRight ⊤ }
{}

/// And a window that is copied.
pub fn a_copied_window_stays_right()
    ensures { CopyingStaysRight ⊤ }
{}

/// And superblocks that are written.
pub fn written_superblocks_stay_right()
    ensures { UpdatingStaysRight ⊤ }
{}

/// And rows of one region that are written in a dirty array.
pub fn written_rows_stay_right()
    ensures { PuttingStaysRight ⊤ }
{}

/// No row has sectors of both regions.
pub fn region_rows_are_one()
    ensures { RegionRowsAreOne }
{}

/// Without a reshape the list stands as in an array of one shape.
pub fn an_idle_list_holds()
    ensures { StillStands }
{}

/// Once the position has moved past a copied window, the list stands.
pub fn a_moved_list_holds()
    ensures { MovedStands }
{}

/// And its rows.
pub fn moved_rows_stand()
    ensures { MovedRowsStand }
{}

/// And its tail.
pub fn moved_tails_stand()
    ensures { MovedTailsStand }
{}

/// A header that names the next window fits before it and behind it.
pub fn next_headers_fit()
    ensures { NextHeadersFit }
{}

/// The members are placed there.
pub fn moved_members_are_placed()
    ensures { MovedIsPlaced }
{}

/// Flushed members on which the list stands are a view that is right.
pub fn flushed_members_are_right()
    ensures { FlushedIsRight ⊤ }
{}

/// A section that is stored and named by the backup's call leaves a view right, at each of its marks.
pub fn stored_and_named_sections_stay_right()
    ensures { SectionsStayRight ⊤ }
{}

/// And so does a header that is cleared.
pub fn cleared_headers_stay_right()
    ensures { ClearingStaysRight ⊤ }
{}

/// The header that the call writes makes the section active.
pub fn named_sections_are_open()
    ensures { NamedSectionsAreOpen }
{}

/// A cleared header makes none active.
pub fn cleared_headers_are_shut()
    ensures { ClearedHeadersAreShut }
{}

/// Where the header's write wasn't attempted no section is active.
pub fn stored_is_closed()
    ensures { StoredIsClosed }
{}

/// Where it was and failed, the window is unsure.
pub fn naming_is_uncertain()
    ensures { NamingIsUnsure }
{}

/// Where it is stored, the window's section is active.
pub fn named_is_open()
    ensures { NamedIsOpen }
{}

/// And none is, where a header was cleared.
pub fn cleared_is_closed()
    ensures { ClearedIsClosed }
{}

/// What is found of the next window is the active section.
pub fn found_is_open()
    ensures { FoundIsOpen }
{}
