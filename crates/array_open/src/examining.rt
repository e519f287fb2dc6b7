//! The superblocks as they are stored.

ghost use Rattle.std.specs.Prelude.{◌≡◌, ◌<◌, length, IfOk};
ghost use Rattle.array_create_assemble.specs.sb_codec_Superblock.{superblock_in};
ghost use Rattle.array_create_assemble.specs.bank_Tape.{contents};
ghost use Rattle.array_create_assemble.specs.sb_specs_Election.{IsCausedBy};

use array_create_assemble::{Bank, BankFault, Sb};
use array_steps::{Running, check_array};

/// What the superblock of a slot says as it is stored now, whichever array's it is, and `None` where the slot has no valid
/// one. It writes nothing and enters nothing. Where the slot fails it is lost by the next call that uses it.
pub fn examine<B: Bank>(array: &mut Running<B>, slot: u32) -> Result<Option<Sb>, BankFault>
    requires slot { slot < (B.given array.old.parts.bank).slots }
    ensures found { let given = B.given array.old.parts.bank in let tape = B.tape array.old.parts.bank in IfOk result (λ found. B.tells →
        found ≡ superblock_in (given.sectors slot) (contents given.start tape (length tape) slot)) }
    ensures cause { IsCausedBy slot (B.faults_of array.old.parts.bank) (B.faults_of array.new.parts.bank) result }
    ensures tape { B.tells → B.tape array.new.parts.bank ≡ B.tape array.old.parts.bank }
    ensures given { B.given array.new.parts.bank ≡ B.given array.old.parts.bank }
    ensures else_same { array.new ≡ record array.old { parts = record array.old.parts { bank = array.new.parts.bank } } }
{
    let found = array_steps::examine(&mut array.array, slot);
    check_array(&array.array);
    found
}
