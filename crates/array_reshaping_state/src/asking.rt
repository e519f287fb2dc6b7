//! What an array in a reshape tells of itself.

ghost use Rattle.std.specs.Prelude.{◌≡◌, ◌^◌, ◌<◌, ◌≤◌, true, length};
ghost use Rattle.reshape_progress.specs.sb_specs_Reading.{is_reshaping, role_count, list_length};
ghost use Rattle.reshape_progress.specs.crash_views_Regions.{AreShapesFit};
ghost use Rattle.reshape_progress.specs.Course.{IsCourseOf};
ghost use Rattle.array_reshaping_state.specs.Left.{visible_by, left_of};

use crate::reshape::list_sectors;
use reshape_progress::{Course, Members, reshape_left};

/// How many roles there are: those of the shape with more disks.
pub fn role_count(members: &Members) -> u32
    requires fit { AreShapesFit members.now.newest }
    requires roles { length members.now.roles ≡ role_count members.now.newest }
    ensures { result ≡ role_count members.now.newest }
{
    members.roles.len() as u32
}

/// How many of so many sectors can be read and written: those below the limit, if there is one.
pub fn visible_of(length: u64, limit: Option<u64>) -> u64
    ensures value { result ≡ visible_by length limit }
    ensures within { result ≤ length }
{
    match limit {
        None => length,
        Some(limit) => limit.min(length),
    }
}

/// How many sectors of the list can be read and written while the reshape is active.
pub fn visible(members: &Members, limit: Option<u64>) -> u64
    requires fit { AreShapesFit members.now.newest }
    ensures value { result ≡ visible_by (list_length members.now.newest) limit }
    ensures within { result ≤ list_length members.now.newest }
{
    visible_of(list_sectors(members), limit)
}

/// The steps that are left: of the entered window, of the reshape behind it, its end among them, and `planned` of the phases behind the reshape.
pub fn steps_left(members: &Members, course: &Course, planned: u64) -> u64
    requires fit { AreShapesFit members.now.newest }
    requires active { is_reshaping members.now.newest ≡ true }
    requires course { IsCourseOf members.now.newest course.now }
    requires planned { planned ≤ 2 ^ 60 }
    ensures value { result ≡ left_of members.now.newest course.now planned }
    ensures some { planned < result }
    ensures few { result ≤ 2 ^ 61 }
{
    reshape_left(members, &course.window, course.zeroed) + planned
}
