//! Laws of the course of a reshape. Each function's contract is the law.

ghost use Rattle.std.specs.Prelude.{⊤};
ghost use Rattle.reshape_progress.specs.Laws.{ByShapes, CoursesStandWhole, BeginsStand, EntersStand, CoursesMove, CopiesGoOn, CoursesAreCopied, WindowsAreCopied, RecordsClose, RestsGoOn, FinishesClose, ZeroesGoOn, ZeroesAreAll, CoursesStandUnder, StoredMove, OpenHeadersFit, WritesGoOn, TornWritesGoOn, SparesLeaveCourses, SparesLeaveStored};

/// Members that do without what they miss stand in it by any shape.
pub fn progress_holds_whole()
    ensures { CoursesStandWhole ⊤ }
{}

/// A reshape begins.
pub fn a_begun_reshape_holds()
    ensures { ByShapes (BeginsStand ⊤) }
{}

/// A window is entered.
pub fn an_entered_window_holds()
    ensures { ByShapes (EntersStand ⊤) }
{}

/// Members that lost slots stand in the same course.
pub fn progress_moves()
    ensures { ByShapes (CoursesMove ⊤) }
{}

/// Members that differ in spares stand in the same course.
pub fn spares_leave_progress()
    ensures { ByShapes (SparesLeaveCourses ⊤) }
{}

/// A stripe of the window is copied.
pub fn a_copy_goes_on()
    ensures { ByShapes (CopiesGoOn ⊤) }
{}

/// What a copy writes is the list that stands.
pub fn progress_is_copied()
    ensures { ByShapes (CoursesAreCopied ⊤) }
{}

/// All stripes of a window are copied.
pub fn a_window_is_copied()
    ensures { WindowsAreCopied ⊤ }
{}

/// The window is recorded.
pub fn a_record_closes()
    ensures { RecordsClose ⊤ }
{}

/// The stripes that are left of a window are copied.
pub fn a_rest_goes_on()
    ensures { ByShapes (RestsGoOn ⊤) }
{}

/// They are copied, and the window is recorded.
pub fn a_finish_closes()
    ensures { FinishesClose ⊤ }
{}

/// A stripe behind the list is zeroed.
pub fn a_zeroing_goes_on()
    ensures { ByShapes (ZeroesGoOn ⊤) }
{}

/// All stripes behind the list are zeroed.
pub fn all_is_zeroed()
    ensures { ZeroesAreAll ⊤ }
{}

/// Sectors are written beside the window.
pub fn a_write_goes_on()
    ensures { ByShapes (WritesGoOn ⊤) }
{}

/// A write beside the window is cut.
pub fn a_torn_write_goes_on()
    ensures { ByShapes (TornWritesGoOn ⊤) }
{}

/// The list stands whichever header a stop leaves.
pub fn progress_holds_under_each_header()
    ensures { CoursesStandUnder ⊤ }
{}

/// The headers that a stop leaves stay as they are.
pub fn a_stored_window_moves()
    ensures { StoredMove }
{}

/// They have the same stored.
pub fn spares_leave_what_is_stored()
    ensures { SparesLeaveStored }
{}

/// Headers of an active section fit.
pub fn open_headers_fit()
    ensures { OpenHeadersFit }
{}
