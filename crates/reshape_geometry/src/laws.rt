//! Laws of the windows. Each function's contract is the law.

ghost use Rattle.reshape_geometry.specs.Geometry.{WindowsTile, WindowsGoOn, StepsFall, WindowsKeepTheUnit, RowsHoldTheirSectors, WritesAreApart, CriticalIsShared};

/// The windows that are left tile the way from the position, on the unit or off it, to where the reshape ends.
pub fn windows_tile()
    ensures { WindowsTile }
{}

/// Behind the next window the same windows are left but for that one.
pub fn windows_go_on()
    ensures { WindowsGoOn }
{}

/// Each window takes its own steps of those that are left.
pub fn steps_fall()
    ensures { StepsFall }
{}

/// A window from a position on the unit leads to one on the unit, or to the end of the list.
pub fn windows_keep_the_unit()
    ensures { WindowsKeepTheUnit }
{}

/// Each sector of a span stands in one of the span's rows.
pub fn rows_hold_their_sectors()
    ensures { RowsHoldTheirSectors }
{}

/// A window that isn't critical is written to no row on which an old sector still lives.
pub fn writes_are_apart()
    ensures { WritesAreApart }
{}

/// A window is critical exactly where it writes a row of a stripe with old sectors that still live.
pub fn critical_is_shared()
    ensures { CriticalIsShared }
{}
