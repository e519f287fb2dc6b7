//! A law of what is read of the slots.

ghost use Rattle.stripe_row.specs.Laws.{ReadingsAreApart};

/// No slot holds two roles where an election has given the roles: each slot has one device number, and that one entry.
pub fn readings_are_apart()
    ensures { ReadingsAreApart }
{}
