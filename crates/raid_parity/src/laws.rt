//! Laws of the fill.

ghost use Rattle.raid_parity.specs.Fills.{FillsAreOwn, FillsAreUnique, GoodRowsStayGood};

/// Where no more roles of a good row lack than it tolerates, each is filled with what stood there.
pub fn fills_are_own()
    ensures { FillsAreOwn }
{}

/// And nothing else makes a good row with the sectors that are there.
pub fn fills_are_unique()
    ensures { FillsAreUnique }
{}

/// A good row is good without its lacking sectors, too.
pub fn good_rows_stay_good()
    ensures { GoodRowsStayGood }
{}
