//! What became of a call.

ghost use Rattle.std.specs.Prelude.{◌≡◌, ◌<◌, ◌≤◌, true, false, length};
ghost use Rattle.raid_layout.specs.raid_types_Shapes.{tolerance};
ghost use Rattle.stripe_row.specs.Rows.{reading_of, missing_count, IsTolerated};

use raid_layout::Shape;
use stripe_row::{Members, missing_count};

/// Why sectors of the list can't be had: more roles are missing than the shape tolerates, or this one is, in an array
/// whose parity can't be relied on.
#[derive(Clone, Copy, Debug, PartialEq, Eq)]
pub enum Unavailable {
    TooManyMissing,
    NotResynced(u32),
}

/// The set of the slots that were lost in a call, and what it answers.
#[derive(Drop)]
pub struct Outcome {
    pub lost: u32,
    pub answer: Result<(), Unavailable>,
}

/// How many missing roles the shape can do without.
pub fn tolerance(shape: &Shape) -> u32
    ensures { result ≡ tolerance shape.now }
{
    if shape.level == 6 { 2 } else { 1 }
}

/// Whether more roles are missing than the shape tolerates.
pub fn are_too_many(members: &Members, shape: &Shape) -> bool
    requires { shape.now.disks ≤ length members.now.roles }
    ensures many { result ≡ true → tolerance shape.now < missing_count (reading_of members.now) shape.now }
    ensures few { result ≡ false → IsTolerated (reading_of members.now) shape.now }
{
    tolerance(shape) < missing_count(members, shape.disks)
}
