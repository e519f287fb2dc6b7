//! What the calls ask of the members holds of those of an array whose reshape is under way.

ghost use Rattle.reshape_window_rows.specs.Laws.{PlacedHaveRows};

/// The members have the rows of both shapes.
pub fn placed_members_have_rows()
    ensures { PlacedHaveRows }
{}
