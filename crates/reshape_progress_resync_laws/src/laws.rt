//! What stands in the course of a reshape while a resync is pending. Each function's contract is the law.

ghost use Rattle.std.specs.Prelude.{⊤};
ghost use Rattle.reshape_progress.specs.Laws.{ByShapes};
ghost use Rattle.reshape_progress_resync_laws.specs.Mended.{NoneIsPending, FewerShapesStand, ResyncsBegin, TailsAreEnds, SyncedCoursesMove, SparesLeaveSynced, ResyncsGoOn, ResyncsEnd, SyncedCopiesGoOn, SyncedRestsGoOn, SyncedRecordsClose, SyncedFinishesClose, SyncedWritesGoOn, SyncedTornWritesGoOn};

/// Without a resync the rows of the whole list stand.
pub fn none_is_pending()
    ensures { ByShapes (NoneIsPending ⊤) }
{}

/// What stands by some shapes stands by fewer.
pub fn fewer_shapes_stand()
    ensures { FewerShapesStand ⊤ }
{}

/// A resync begins.
pub fn resyncs_begin()
    ensures { ByShapes (ResyncsBegin ⊤) }
{}

/// The tail is what stands behind the list's end.
pub fn tails_are_ends()
    ensures { TailsAreEnds }
{}

/// Members that lost slots stand in the same course.
pub fn synced_progress_moves()
    ensures { ByShapes (SyncedCoursesMove ⊤) }
{}

/// Members that differ in spares do.
pub fn spares_leave_synced()
    ensures { ByShapes (SparesLeaveSynced ⊤) }
{}

/// A stripe is mended, or it isn't.
pub fn resyncs_go_on()
    ensures { ByShapes (ResyncsGoOn ⊤) }
{}

/// All stripes are mended.
pub fn resyncs_end()
    ensures { ByShapes (ResyncsEnd ⊤) }
{}

/// A stripe of a window is copied before any is mended.
pub fn a_copy_goes_on()
    ensures { ByShapes (SyncedCopiesGoOn ⊤) }
{}

/// The stripes that are left of it are.
pub fn a_rest_goes_on()
    ensures { ByShapes (SyncedRestsGoOn ⊤) }
{}

/// It is recorded.
pub fn a_record_closes()
    ensures { SyncedRecordsClose ⊤ }
{}

/// Both in one call.
pub fn a_finish_closes()
    ensures { SyncedFinishesClose ⊤ }
{}

/// Sectors of the list are written.
pub fn a_write_goes_on()
    ensures { ByShapes (SyncedWritesGoOn ⊤) }
{}

/// A write is cut.
pub fn a_torn_write_goes_on()
    ensures { ByShapes (SyncedTornWritesGoOn ⊤) }
{}
