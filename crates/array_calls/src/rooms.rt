//! Room for the entries of steps.

ghost use Rattle.std.specs.Prelude.{◌≡◌, OnOk, OnErr};

use array_type::{Array, Bank, NoMemory};

/// Makes room for the entries of so many steps, each of which takes the room of one, but the last of the reshape, which takes that of two:
/// none of them wants memory.
pub fn make_room<B: Bank>(array: &mut Array<B>, steps: u64) -> Result<(), NoMemory>
    ensures room { OnOk result (array.new ≡ record array.old { parts = record array.old.parts { steps = steps } }) }
    ensures unchanged { OnErr result (array.new ≡ array.old) }
{
    let Some(entries) = steps.checked_mul(50) else {
        return Err(NoMemory {});
    };
    let Some(entries) = entries.checked_add(1) else {
        return Err(NoMemory {});
    };
    match array.epoch.entries.make_room(entries as usize) {
        Ok(()) => {}
        Err(none) => return Err(none),
    }
    array.steps = steps;
    Ok(())
}
