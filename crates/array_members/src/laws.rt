//! Laws of an array's superblocks, and of what a stop leaves of it.

ghost use Rattle.array_members.specs.Still.{HeldIsPlaced, FlushedIsSettled, ViewsAreSound, CallsLeaveSound, ChangesLeaveSound};

/// Members whose superblocks are held are placed, where the backup that a reshape needs is there.
pub fn held_members_are_placed()
    ensures { HeldIsPlaced }
{}

/// Where the holders of roles are flushed and the rows stand as a list of allowed values, they are settled.
pub fn flushed_rows_are_settled()
    ensures { FlushedIsSettled }
{}

/// Where each view of what a stop may leave is right, and the epoch opened sound in whole sectors, each image that
/// assembles is sound, in a reshape too: in a clean one no more is missing than is tolerated, and with that filled in the parity of each row fits.
pub fn views_are_sound()
    ensures { ViewsAreSound }
{}

/// So a call that keeps an array safe leaves sound images at each of its marks, and so does one that changes what is told, as where a
/// reshape begins or ends.
pub fn calls_leave_sound()
    ensures kept { CallsLeaveSound }
    ensures changed { ChangesLeaveSound }
{}
