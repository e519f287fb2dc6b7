//! How code over any bank says what a stop may leave at each mark of a call.
ghost use Rattle.std.specs.Prelude.{◌≡◌, ◌⊎◌, [], ◌∷◌, length, OnErr};
ghost use Rattle.bank.specs.declared.bank.Operation.TheVariants.{Write, Flush};
ghost use Rattle.bank.specs.Given.{IsPlace, HasCause, IsFaulted, NeverFalls};
ghost use Rattle.bank.specs.Tape.{disk, Did, EachMark};
ghost use Rattle.bank.specs.Example.{EachIsOldOrNew};

use crate::{Bank, BankFault, write_sector};

// Writes and flushes one copy.
#[tactic(auto, using(crate::proofs::Calls::did_step, crate::proofs::Calls::did_end, crate::proofs::Causes::cause_step))]
fn write_copy<B: Bank>(bank: &mut B, slot: u32, at: u64, from: &[u8]) -> Result<(), BankFault>
    requires size { length from.now ≡ 512 }
    requires place { IsPlace (B.given bank.old) slot at 512 }
    ensures did { Did B.tells result (B.tape bank.old) (B.tape bank.new) (Write slot at from.now ∷ Flush slot ∷ []) }
    ensures given { B.given bank.new ≡ B.given bank.old }
    ensures cause { HasCause slot (B.faults_of bank.old) (B.faults_of bank.new) result }
{
    match write_sector(bank, slot, at, from) {
        Err(fault) => return Err(fault),
        Ok(()) => {}
    }
    bank.flush(slot)
}

/// Writes the same sector to slots 0 and 1, the second copy once the first is safe.
pub fn write_both<B: Bank>(bank: &mut B, at: u64, from: &[u8]) -> Result<(), BankFault>
    requires size { length from.now ≡ 512 }
    requires first { IsPlace (B.given bank.old) 0 at 512 }
    requires second { IsPlace (B.given bank.old) 1 at 512 }
    ensures did { Did B.tells result (B.tape bank.old) (B.tape bank.new)
        (Write 0 at from.now ∷ Flush 0 ∷ Write 1 at from.now ∷ Flush 1 ∷ []) }
    ensures each_mark { let start = (B.given bank.old).start in EachMark B.tells start (B.tape bank.old) (B.tape bank.new)
        (EachIsOldOrNew at from.now (disk start (B.tape bank.old))) }
    ensures given { B.given bank.new ≡ B.given bank.old }
    ensures never_falls { NeverFalls (B.faults_of bank.old) (B.faults_of bank.new) }
    ensures failed { OnErr result (IsFaulted 0 (B.faults_of bank.old) (B.faults_of bank.new)
        ⊎ IsFaulted 1 (B.faults_of bank.old) (B.faults_of bank.new)) }
{
    match write_copy(bank, 0, at, from) {
        Err(fault) => return Err(fault),
        Ok(()) => {}
    }
    write_copy(bank, 1, at, from)
}
