//! Laws of the two regions of a reshape. Each function's contract is the law.
#![tactic(auto)]

ghost use Rattle.stripe_region_laws.specs.Regions.{RegionsAreApart, WindowsWriteTheirRows};

/// No new sector stands in a row in which an old one does.
pub fn regions_are_apart()
    ensures { RegionsAreApart }
{}

/// A window writes no row of a sector that it leaves, and all that its rows are to hold is its own.
pub fn windows_write_their_rows()
    ensures { WindowsWriteTheirRows }
{}
