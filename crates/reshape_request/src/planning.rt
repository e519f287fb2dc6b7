//! What a wish makes of an array.

ghost use Rattle.std.specs.Prelude.{◌≡◌, ◌∷◌, IsTrue};
ghost use Rattle.std.specs.Option.{option_to_list};
ghost use Rattle.history.specs.raid_types_the_Phase.{Phase};
ghost use Rattle.history.specs.raid_types_Shapes.{is_valid_shape};
ghost use Rattle.stripe_row.specs.sb_specs_Reading.{shape_of};
ghost use Rattle.history.specs.reshape_geometry_Geometry.{is_size};
ghost use Rattle.history.specs.reshape_plan_Plans.{phases, plan_refusal, largest_window, phases_steps, AreSound};
ghost use Rattle.reshape_request.specs.Left.{phases_of};

use crate::shapes::shape_in;
use crate::window::PhasesLeft;
use history::{Phase, Wish, plan, plan_steps};
use stripe_row::Members;

/// One phase or two, the largest window of them in sectors, and their steps.
#[derive(Clone, Copy, Debug, PartialEq, Eq)]
pub struct GrowPlan {
    pub first: Phase,
    pub second: Option<Phase>,
    pub window: u64,
    pub steps: u64,
}

/// The plan of a wish that can be planned.
pub fn plan_of(members: &Members, wish: &Wish) -> GrowPlan
    requires shape { IsTrue (is_valid_shape (shape_of members.now.newest)) }
    requires size { IsTrue (is_size members.now.newest.size (shape_of members.now.newest).chunk) }
    requires taken { plan_refusal (shape_of members.now.newest) members.now.newest.size wish.now ≡ None }
    ensures phases { result.first ∷ option_to_list result.second ≡ phases (shape_of members.now.newest) wish.now }
    ensures window { result.window ≡ largest_window (shape_of members.now.newest) members.now.newest.size (phases (shape_of members.now.newest) wish.now) }
    ensures steps { result.steps ≡ phases_steps (shape_of members.now.newest) members.now.newest.size (phases (shape_of members.now.newest) wish.now) }
    ensures sound { AreSound (shape_of members.now.newest) members.now.newest.size (phases (shape_of members.now.newest) wish.now) }
{
    let shape = shape_in(&members.newest);
    let size = members.newest.size;
    match plan(&shape, size, wish) {
        Ok(plan) => GrowPlan {
            first: plan.first,
            second: plan.second,
            window: plan.span,
            steps: plan_steps(&shape, size, &plan),
        },
        Err(_) => unreachable!(),
    }
}

/// The phases of a plan, none of which has begun.
pub fn all_left(plan: &GrowPlan) -> PhasesLeft
    ensures { phases_of result ≡ plan.now.first ∷ option_to_list plan.now.second }
{
    PhasesLeft {
        next: Some(plan.first),
        last: plan.second,
    }
}

/// The phases that are left once the next one has begun.
pub fn left_after(ahead: &PhasesLeft) -> PhasesLeft
    ensures { (phase : Phase) → ahead.now.next ≡ Some phase → phases_of ahead.now ≡ phase ∷ phases_of result }
{
    PhasesLeft {
        next: ahead.last,
        last: None,
    }
}
