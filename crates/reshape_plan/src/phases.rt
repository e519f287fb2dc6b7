//! The phases of a plan, one after another.

ghost use Rattle.std.specs.Prelude.{◌≡◌, ◌≤◌, ◌^◌, ◌*◌, ◌∷◌};
ghost use Rattle.std.specs.Option.{option_to_list};
ghost use Rattle.reshape_geometry.specs.Geometry.{AreInForce};
ghost use Rattle.reshape_plan.specs.Plans.{phase_shape, phase_window, phase_steps, phases_steps, plan_phases, AreSound, most_disks, largest_window, least_data};

use reshape_geometry::steps::reshape_steps;
use reshape_geometry::{Phase, Plan, Shape, list_end, unit};

/// The shape that a phase leads to.
pub fn phase_shape(phase: &Phase) -> Shape
    ensures { result ≡ phase_shape phase.now }
{
    match *phase {
        Phase::Reshape(to) | Phase::UpTo6(to) | Phase::DownTo5(to) => to,
    }
}

/// The largest window of a phase, in sectors; a takeover has none.
pub fn phase_window(now: &Shape, size: u64, phase: &Phase) -> u64
    requires { AreInForce now.now (phase_shape phase.now) size }
    ensures { result ≡ phase_window now.now size phase.now }
{
    match *phase {
        Phase::Reshape(to) => unit(now, &to).min(list_end(now, &to, size)),
        Phase::UpTo6(_) | Phase::DownTo5(_) => 0,
    }
}

/// The largest disk count of a shape and one or two phases from it.
pub fn most_disks(now: &Shape, first: &Phase, second: Option<Phase>) -> u32
    ensures { result ≡ most_disks now.now (first.now ∷ option_to_list second) }
{
    let disks = now.disks.max(phase_shape(first).disks);
    match second {
        None => disks,
        Some(phase) => disks.max(phase_shape(&phase).disks),
    }
}

/// The smallest length of the list on the way through one or two phases.
pub fn least_length(now: &Shape, size: u64, first: &Phase, second: Option<Phase>) -> u64
    requires { AreSound now.now size (first.now ∷ option_to_list second) }
    ensures { result ≡ least_data now.now (first.now ∷ option_to_list second) * size }
{
    let middle = phase_shape(first);
    let length = list_end(now, &middle, size);
    match second {
        None => length,
        Some(phase) => length.min(list_end(&middle, &phase_shape(&phase), size)),
    }
}

/// The largest window of one or two phases.
pub fn largest_window(now: &Shape, size: u64, first: &Phase, second: Option<Phase>) -> u64
    requires { AreSound now.now size (first.now ∷ option_to_list second) }
    ensures { result ≡ largest_window now.now size (first.now ∷ option_to_list second) }
{
    let window = phase_window(now, size, first);
    match second {
        None => window,
        Some(phase) => window.max(phase_window(&phase_shape(first), size, &phase)),
    }
}

/// The background steps of a phase; a takeover to level 6 is followed by the rebuild of its Q.
pub fn phase_steps(now: &Shape, size: u64, phase: &Phase) -> u64
    requires { AreInForce now.now (phase_shape phase.now) size }
    ensures value { result ≡ phase_steps now.now size phase.now }
    ensures short { result ≤ 2 ^ 58 }
{
    match *phase {
        Phase::Reshape(to) => reshape_steps(now, &to, size),
        Phase::UpTo6(to) => 1 + (size / u64::from(to.chunk) + 1),
        Phase::DownTo5(_) => 1,
    }
}

/// The background steps of a whole plan from a shape.
pub fn plan_steps(now: &Shape, size: u64, plan: &Plan) -> u64
    requires { AreSound now.now size (plan_phases plan.now) }
    ensures { result ≡ phases_steps now.now size (plan_phases plan.now) }
{
    let first = phase_steps(now, size, &plan.first);
    match plan.second {
        None => first,
        Some(second) => first + phase_steps(&phase_shape(&plan.first), size, &second),
    }
}
