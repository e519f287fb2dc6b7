//! Laws of the list of an array whose data move into free room. Each function's contract is the law.
#![tactic(auto)]

ghost use Rattle.crash_shift_views.specs.Steps.{PlainImagesReadAlike, CopiedWindowsReadAlike, CopiedImagesStandAlike, CopiesStayRight, RecordedWindowsStand, BeginsReadAlike, EndsReadAlike, EndingSlotsKeepTheirPlace, RegionsReadLowered};

/// Where no superblock has a new offset, the list reads as in an assembly.
pub fn plain_images_read_alike()
    ensures { PlainImagesReadAlike }
{}

/// Whatever the copy of a window leaves on the members, each sector reads as before.
pub fn copied_windows_read_alike()
    ensures { CopiedWindowsReadAlike }
{}

/// And so do the superblocks and the whole list.
pub fn copied_images_stand_alike()
    ensures { CopiedImagesStandAlike }
{}

/// Where each image of a crash before the copy reads right, so does each of a crash in it.
pub fn copies_stay_right()
    ensures { CopiesStayRight }
{}

/// Where a window's sectors stand by the new shape, the list stands once the position has moved.
pub fn recorded_windows_stand()
    ensures { RecordedWindowsStand }
{}

/// The update that begins the reshape leaves each sector where it was.
pub fn begins_read_alike()
    ensures { BeginsReadAlike }
{}

/// And so does the one that ends it.
pub fn ends_read_alike()
    ensures { EndsReadAlike }
{}

/// In that one a slot reads alike with its former superblock and with its new one.
pub fn ending_slots_keep_their_place()
    ensures { EndingSlotsKeepTheirPlace }
{}

/// Each sector reads as an assembly would read it from its region's reading.
pub fn regions_read_lowered()
    ensures { RegionsReadLowered }
{}
