//! Rows of a list that are kept in memory before they are written to its members, and what is stored meanwhile. Definitions and laws alone: each
//! function's contract is the law.
#![tactic(auto)]

ghost use Rattle.stripe_delayed_rows.specs.Laws.{ReadsAreTheList, UndelayedIsStored, EmptyIsDelayed, UsedIsDelayed, KeptIsDelayed, EvictedIsDelayed, WrittenThroughIsDelayed, TakenIsDelayed, RowsAreOfTheList, LeavingIsHeld, TakenIsHeld, StoringRowsIsAllowed, MoreIsAllowed, FlushedIsAllowed, FewStayFew, RowsStayOfSides, MovedIsDelayed, RenamedIsDelayed, NoneOfTheWindow};

pub use stripe_cache::{Cache, Cached, Delayed, Kept};

/// A read of the members with the cache's rows over it gives the list.
pub fn reads_are_the_list()
    ensures { ReadsAreTheList }
{}

/// Where no row is delayed the list itself is stored.
pub fn undelayed_is_stored()
    ensures stored { UndelayedIsStored }
    ensures empty { EmptyIsDelayed }
{}

/// A use of a row changes nothing.
pub fn used_is_delayed()
    ensures { UsedIsDelayed }
{}

/// A write of a row that is kept is in the list, and nothing is stored.
pub fn kept_is_delayed()
    ensures { KeptIsDelayed }
{}

/// Where a delayed row has to leave for it, that is stored by then.
pub fn evicted_is_delayed()
    ensures { EvictedIsDelayed }
{}

/// A row for which there is no memory is stored at once.
pub fn written_through_is_delayed()
    ensures { WrittenThroughIsDelayed }
{}

/// A row that is taken out and stored leaves the list.
pub fn taken_is_delayed()
    ensures { TakenIsDelayed }
{}

/// What a row that is held has is the list's, and what of it isn't changed is stored already.
pub fn rows_are_of_the_list()
    ensures list { RowsAreOfTheList }
    ensures leaving { LeavingIsHeld }
    ensures taken { TakenIsHeld }
{}

/// What is stored stays among what a crash may leave.
pub fn stored_rows_are_allowed()
    ensures rows { StoringRowsIsAllowed }
    ensures more { MoreIsAllowed }
    ensures flushed { FlushedIsAllowed }
{}

/// The rows of a cache stay apart and few, and of their sides.
pub fn rows_stay()
    ensures few { FewStayFew }
    ensures sides { RowsStayOfSides }
{}

/// The position of a reshape moves over sectors of which no row is delayed.
pub fn moved_is_delayed()
    ensures moved { MovedIsDelayed }
    ensures none { NoneOfTheWindow }
{}

/// The reshape is over, and its new side is the only one.
pub fn renamed_is_delayed()
    ensures { RenamedIsDelayed }
{}
