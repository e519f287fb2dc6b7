//! Laws of a list that stands on the roles of an array.

ghost use Rattle.stripe_list.specs.Laws.{KeptRowsStand, LosingKeeps, PlacesAreFull, StandingIsFull};

/// The full sector at a place is the list's sector.
pub fn places_are_full()
    ensures { PlacesAreFull }
{}

/// Where a row stands as the list, each role has its full sector, also one that no slot holds.
pub fn standing_is_full()
    ensures { StandingIsFull }
{}

/// And it stands so whatever slots are lost.
pub fn losing_preserves()
    ensures { LosingKeeps }
{}

/// So does a row that is kept, by any list that has the same sectors there.
pub fn preserved_rows_hold()
    ensures { KeptRowsStand }
{}
