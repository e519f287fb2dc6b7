//! The laws of a next opening.

ghost use Rattle.history_reopen_laws.specs.Later.{SettledListsAreFoundLater, SoundArraysAreFoundLater};

/// What was opened fit, and stays safe and sound, is found sound by the next epoch of the same array that opens accepted,
/// in the same slots or in fewer.
pub fn sound_arrays_are_found_later()
    ensures { SoundArraysAreFoundLater }
{}

/// What was flushed or stopped is found again by the next epoch of the same array that opens accepted, sector by sector, also where
/// the length changed; or without the last change, where each role was gone behind it.
pub fn settled_lists_are_found_later()
    ensures { SettledListsAreFoundLater }
{}
