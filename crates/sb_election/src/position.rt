//! A reshape's position.

ghost use Rattle.std.specs.Prelude.{◌≡◌};
ghost use Rattle.sb_specs.specs.Verdict.{off_unit, AreValidShapes};

use sb_specs::says::{list_length, shape_of, target_of};
use sb_specs::{Refusal, Sb, is_multiple, unit};

/// Whether a reshape stands neither on its unit nor at the end of the list.
pub fn off_unit(newest: &Sb) -> Option<Refusal>
    requires { AreValidShapes newest.now }
    ensures { result ≡ off_unit newest.now }
{
    let target = match target_of(newest) {
        None => return None,
        Some(target) => target,
    };
    let unit = unit(&shape_of(newest), &target);
    let position = newest.reshape_position;
    if is_multiple(position, unit as u32) || u128::from(position) == list_length(newest) {
        return None;
    }
    Some(Refusal::PositionNotOnUnit(position, unit))
}
