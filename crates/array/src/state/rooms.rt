//! Room for the entries of steps.

ghost use Rattle.std.specs.Prelude.{◌≡◌, OnOk, OnErr};

use crate::state::Running;
use array_grow::{Bank, NoMemory, make_room};

impl<B: Bank> Running<B> {
    /// Makes room for the entries of so many steps, each of which takes the room of one, but the end of a reshape, which takes that of
    /// two: none of them wants memory.
    pub fn make_room(&mut self, steps: u64) -> Result<(), NoMemory>
        ensures room { OnOk result (self.new ≡ record self.old { parts = record self.old.parts { steps = steps } }) }
        ensures unchanged { OnErr result (self.new ≡ self.old) }
    {
        make_room(&mut self.array, steps)
    }
}
