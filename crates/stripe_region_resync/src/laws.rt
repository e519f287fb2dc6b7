//! How a resync goes through the list. Each function's contract is the law.

ghost use Rattle.stripe_region_resync.specs.Left.{ResyncsAreCounted, ResyncLeftStays, RecordsLeaveResync, ResyncingTakesOne, ResyncEndsLast};
ghost use Rattle.stripe_region_resync.specs.Laws.{ResyncsGoOn, ReliedGrows, ReliedReaches, ReliedIsWhole, ResyncsAreListed, StillResyncs};

/// The next stripe begins where parity is relied on so far, and with it that is so to its end.
pub fn resyncs_go_on()
    ensures { ResyncsGoOn }
{}

/// Parity is never relied on in less of the list with more stripes mended.
pub fn relied_grows()
    ensures { ReliedGrows }
{}

/// It is relied on nowhere at first, and everywhere in the end.
pub fn relied_reaches()
    ensures { ReliedReaches }
{}

/// It is relied on in the rows of exactly the sectors below.
pub fn relied_is_whole()
    ensures { ReliedIsWhole }
{}

/// Behind a forward reshape's last window no row behind the list's last stripe is mended.
pub fn resyncs_are_listed()
    ensures { ResyncsAreListed }
{}

/// Without a reshape the stripes are those of the array.
pub fn still_resyncs()
    ensures { StillResyncs }
{}

/// In a reshape they are counted by its two shapes and the position.
pub fn resyncs_are_counted()
    ensures { ResyncsAreCounted }
{}

/// Members that lost slots have as many steps left.
pub fn resync_left_stays()
    ensures { ResyncLeftStays }
{}

/// A window that is recorded leaves as many.
pub fn records_leave_resync()
    ensures { RecordsLeaveResync }
{}

/// A stripe that is mended takes one.
pub fn resyncing_takes_one()
    ensures { ResyncingTakesOne }
{}

/// The end is the last.
pub fn resync_ends_last()
    ensures { ResyncEndsLast }
{}
