//! Laws of a reshape into free room before the data. Each function's contract is the law.
#![tactic(auto)]

ghost use Rattle.reshape_shift_laws.specs.Shifts.{ShiftedWindowsOverwriteNothing, ShiftedRegionsAreApart, SmallerShiftsOverwrite, WindowsReachNoOtherRow};

/// No sector that a window writes is one of the old region, whatever the position, and all that its rows are to hold is its own.
pub fn shifted_windows_overwrite_nothing()
    ensures { ShiftedWindowsOverwriteNothing }
{}

/// With any shift, none among them, a window reaches no row of an old sector beyond it.
pub fn windows_reach_no_other_row()
    ensures { WindowsReachNoOtherRow }
{}

/// No sector of the new region is one of the old region.
pub fn shifted_regions_are_apart()
    ensures { ShiftedRegionsAreApart }
{}

/// A shift below the end of the first window's rows lets that window overwrite the first row.
pub fn smaller_shifts_overwrite()
    ensures { SmallerShiftsOverwrite }
{}
