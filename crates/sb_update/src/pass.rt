//! One pass over the slots, which writes the superblocks of some.

ghost use Rattle.std.specs.Prelude.{◌≡◌, ◌≢◌, ◌<◌, ◌≤◌, ◌+◌, ◌++◌, [], ◌∷◌, List, ℕ, true, false, length, take, slice_index_or, Some};
ghost use Rattle.bank.specs.declared.bank.Operation.{Operation};
ghost use Rattle.bank.specs.declared.bank.Operation.TheVariants.{Write, Flush};
ghost use Rattle.bank.specs.Given.{IsPlace, HasCause, IsFaulted, NeverFalls};
ghost use Rattle.bank.specs.Tape.{Did, EachMark, disk};
ghost use Rattle.sb_specs.specs.raid_types_Shapes.{has_slot};
ghost use Rattle.sb_specs.specs.sb_codec_Writable.{IsWritable};
ghost use Rattle.sb_specs.specs.Update.{is_recovery, is_part, is_due, give_of, own_in, planned};
ghost use Rattle.sb_specs.specs.Writing.{IsMember, IsFirstSector, IsTurn, IsPlanned, IsWriting, AreMembers, AreWritten, AreLost, plan_of};

use crate::plan::planned;
use bank::{Bank, BankFault, write_sector};
use sb_specs::sets::{contains, with};
use sb_specs::{Give, Members, Part, Sb, sectors_of};

/// The first sector of a superblock.
const SUPERBLOCK: u64 = 8;

// Whether the slot gets a role with a recovery offset.
fn is_recovery(give: Give) -> bool
    ensures { result ≡ is_recovery give }
{
    match give {
        Give::Role {
            recovery: Some(_),
            ..
        } => true,
        Give::Role { recovery: None, .. } | Give::Same | Give::Spare => false,
    }
}

// Whether this part of the update writes the slot.
fn is_part(part: Part, newest: &Sb, give: Give, own: &Sb) -> bool
    ensures { result ≡ is_part part newest.now give (Some own.now) }
{
    match part {
        Part::Behind => own.events < newest.events,
        Part::Recoveries => is_recovery(give),
        Part::Others => !is_recovery(give),
        Part::All => true,
    }
}

// Writes a slot's first superblock sector and flushes the slot.
#[tactic(auto, using(bank::proofs::Calls::did_step, bank::proofs::Calls::did_end, bank::proofs::Causes::cause_step))]
fn put_sector<B: Bank>(bank: &mut B, slot: u32, sector: &[u8]) -> Result<(), BankFault>
    requires size { length sector.now ≡ 512 }
    requires place { IsPlace (B.given bank.old) slot 8 512 }
    ensures did { Did B.tells result (B.tape bank.old) (B.tape bank.new) (Write slot 8 sector.now ∷ Flush slot ∷ []) }
    ensures given { B.given bank.new ≡ B.given bank.old }
    ensures cause { HasCause slot (B.faults_of bank.old) (B.faults_of bank.new) result }
{
    match write_sector(bank, slot, SUPERBLOCK, sector) {
        Err(fault) => return Err(fault),
        Ok(()) => {}
    }
    bank.flush(slot)
}

// The first of two sectors.
fn first_sector(sectors: &[u8]) -> &[u8]
    requires { length sectors.now ≡ 1024 }
    ensures first { result.now ≡ take 512 sectors.now }
    ensures bytes { (i : ℕ) → slice_index_or sectors.now i 0 < 256 }
{
    &sectors[..512]
}

// Writes a slot's planned superblock.
fn put_planned<B: Bank>(
    bank: &mut B,
    slot: u32,
    newest: &Sb,
    give: Give,
    own: &Sb,
) -> Result<(), BankFault>
    requires writable { IsWritable own.now }
    requires place { IsPlace (B.given bank.old) slot 8 512 }
    ensures did { (v : List ℕ) × IsFirstSector (planned newest.now give own.now) v
        × Did B.tells result (B.tape bank.old) (B.tape bank.new) (Write slot 8 v ∷ Flush slot ∷ []) }
    ensures given { B.given bank.new ≡ B.given bank.old }
    ensures cause { HasCause slot (B.faults_of bank.old) (B.faults_of bank.new) result }
{
    let sectors = sectors_of(&planned(newest, give, own));
    put_sector(bank, slot, first_sector(&sectors))
}

// One slot's turn; whether the slot failed.
fn write_slot<B: Bank>(bank: &mut B, members: &Members, give: Give, slot: u32, part: Part) -> bool
    requires slot { slot < 32 }
    requires member { IsMember (B.given bank.old) (own_in members.now.own slot) slot }
    ensures tape { B.tells → (ops : List Operation) × (B.tape bank.new ≡ B.tape bank.old ++ ops)
        × IsTurn (IsPlanned members.now.newest give (own_in members.now.own slot)) slot (is_part part members.now.newest give (own_in members.now.own slot)) result ops }
    ensures due { result ≡ true → is_part part members.now.newest give (own_in members.now.own slot) ≡ true }
    ensures given { B.given bank.new ≡ B.given bank.old }
    ensures counts { NeverFalls (B.faults_of bank.old) (B.faults_of bank.new) }
    ensures cause { result ≡ true → IsFaulted slot (B.faults_of bank.old) (B.faults_of bank.new) }
{
    match members.own.get(slot) {
        Some(own) => {
            if is_part(part, &members.newest, give, own) {
                return match put_planned(bank, slot, &members.newest, give, own) {
                    Ok(()) => false,
                    Err(_) => true,
                };
            }
            false
        }
        None => false,
    }
}

// One slot's turn, which is lost where it fails.
fn turn<B: Bank>(
    bank: &mut B,
    members: &mut Members,
    gives: &[Give; 32],
    live: u32,
    slot: u32,
    part: Part,
)
    requires slot { slot < 32 }
    requires member { has_slot live slot ≡ true → IsMember (B.given bank.old) (own_in members.old.own slot) slot }
    ensures tape { B.tells → (ops : List Operation) × (B.tape bank.new ≡ B.tape bank.old ++ ops)
        × IsTurn (IsPlanned members.old.newest (give_of gives.now slot) (own_in members.old.own slot)) slot
        (is_due part members.old.newest gives.now members.old.own live members.old.lost slot) (has_slot members.new.lost slot) ops }
    ensures members { members.new ≡ record members.old { lost = members.new.lost } }
    ensures others { (s : ℕ) → s ≢ slot → has_slot members.new.lost s ≡ has_slot members.old.lost s }
    ensures more { has_slot members.old.lost slot ≡ true → has_slot members.new.lost slot ≡ true }
    ensures due { has_slot members.new.lost slot ≡ true → has_slot members.old.lost slot ≡ false →
        is_due part members.old.newest gives.now members.old.own live members.old.lost slot ≡ true }
    ensures given { B.given bank.new ≡ B.given bank.old }
    ensures counts { NeverFalls (B.faults_of bank.old) (B.faults_of bank.new) }
    ensures cause { has_slot members.new.lost slot ≡ true → has_slot members.old.lost slot ≡ false →
        IsFaulted slot (B.faults_of bank.old) (B.faults_of bank.new) }
{
    if !contains(live, slot) || contains(members.lost, slot) {
        return;
    }
    if write_slot(bank, members, gives[slot as usize], slot, part) {
        members.lost = with(members.lost, slot);
    }
}

/// Writes the planned superblocks of the live slots of one part, in slot order, each flushed. A slot that fails is lost,
/// and the others go on.
pub fn write_slots<B: Bank>(
    bank: &mut B,
    members: &mut Members,
    gives: &[Give; 32],
    live: u32,
    part: Part,
)
    requires members { AreMembers (B.given bank.old) members.old.own live }
    ensures each_mark { let start = (B.given bank.old).start in EachMark B.tells start (B.tape bank.old) (B.tape bank.new)
        (IsWriting (plan_of members.old.newest gives.now members.old.own) (is_due part members.old.newest gives.now members.old.own live members.old.lost)
        (has_slot members.new.lost) (disk start (B.tape bank.old))) }
    ensures written { B.tells → let start = (B.given bank.old).start in
        AreWritten (plan_of members.old.newest gives.now members.old.own) (is_due part members.old.newest gives.now members.old.own live members.old.lost)
        (has_slot members.new.lost) (disk start (B.tape bank.old)) (disk start (B.tape bank.new)) }
    ensures grows { B.tells → (s : ℕ) → is_due part members.old.newest gives.now members.old.own live members.old.lost s ≡ true → has_slot members.new.lost s ≡ false →
        length (B.tape bank.old) + 2 ≤ length (B.tape bank.new) }
    ensures members { members.new ≡ record members.old { lost = members.new.lost } }
    ensures lost { AreLost (is_due part members.old.newest gives.now members.old.own live members.old.lost) members.old.lost members.new.lost
        (B.faults_of bank.old) (B.faults_of bank.new) }
    ensures counts { NeverFalls (B.faults_of bank.old) (B.faults_of bank.new) }
    ensures given { B.given bank.new ≡ B.given bank.old }
{
    for slot in 0..32u32 {
        turn(bank, members, gives, live, slot, part);
    }
}
