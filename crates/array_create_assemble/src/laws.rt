//! Laws of the definitions.

ghost use Rattle.array_create_assemble.specs.NewList.{NewArraysAreZeros};
ghost use Rattle.array_create_assemble.specs.Safe.{OpeningsAreSafe, OpeningsAreHeld};

/// At the mark of an opening every image is what is stored: it assembles, to the list that stands.
pub fn openings_are_safe()
    ensures { OpeningsAreSafe }
{}

/// At the mark of an opening the superblocks are held, from where an update may start.
pub fn openings_are_held()
    ensures { OpeningsAreHeld }
{}

/// A new array stands for a list of zeros, and the parity of each of its rows fits.
pub fn new_arrays_are_zeros()
    ensures { NewArraysAreZeros }
{}
