//! How many background steps are left.

ghost use Rattle.std.specs.Prelude.{◌≡◌, ◌^◌, ◌≤◌, length, IfSome, IsTrue};
ghost use Rattle.array_state.specs.raid_types_Shapes.{is_valid_shape};
ghost use Rattle.array_parts.specs.reshape_plan_Plans.{AreSound};
ghost use Rattle.sb_election.specs.sb_specs_Reading.{shape_of, final_shape};
ghost use Rattle.array_reshaping_laws.specs.crash_views_Regions.{AreShapesFit};
ghost use Rattle.array_parts.specs.array_members_Status.{stripes_of};
ghost use Rattle.array_parts.specs.reshape_request_Left.{phases_of, zeroed_by, IsReshapeUnderWay, IsWindowRight};
ghost use Rattle.array_reshaping_laws.specs.array_specs_Parts.{still_left, left_in};

use array_parts::{PhasesLeft, Work, planned_left, reshape_left};
use array_reshaping_laws::{Course, final_in, resync_left, shape_in};
use array_state::asking::steps_left;
use sb_election::Members;

/// The steps that are left where no reshape is active: of a pending resync, of the roles that are to be rebuilt, and of the phases ahead.
pub fn left_at_rest(members: &Members, work: &Work, ahead: &PhasesLeft) -> u64
    requires shape { IsTrue (is_valid_shape (shape_of members.now.newest)) }
    requires size { members.now.newest.size ≤ 2 ^ 48 }
    requires roles { (shape_of members.now.newest).disks ≤ length members.now.roles }
    requires progress { IfSome work.now.resync (λ mended. mended ≤ stripes_of members.now) }
    requires sound { AreSound (shape_of members.now.newest) members.now.newest.size (phases_of ahead.now) }
    ensures { result ≡ still_left work.now members.now ahead.now }
{
    let left = steps_left(members, work);
    left + planned_left(&shape_in(members), members.newest.size, ahead)
}

/// The steps that are left in a reshape: its own, those of a pending resync, and of the phases ahead.
pub fn left_in_reshape(members: &Members, work: &Work, course: &Course, ahead: &PhasesLeft) -> u64
    requires fit { AreShapesFit members.now.newest }
    requires reshape { IsReshapeUnderWay members.now.newest }
    requires open { IsWindowRight members.now.newest course.now.window }
    requires zeroed { course.now.zeroed ≤ zeroed_by members.now.newest }
    requires sound { AreSound (final_shape members.now.newest) members.now.newest.size (phases_of ahead.now) }
    ensures { result ≡ left_in work.now members.now course.now ahead.now }
{
    let moved = reshape_left(members, &course.window, course.zeroed);
    let planned = planned_left(&final_in(members), members.newest.size, ahead);
    moved + planned + resync_left(members, &course.window, work.resync)
}
