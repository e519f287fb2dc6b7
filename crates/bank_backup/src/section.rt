//! The calls on the backup slot: a section is written, cleared and found.

ghost use Rattle.std.specs.Prelude.{◌≡◌, ◌≢◌, ◌+◌, ◌-◌, ◌*◌, ◌/◌, ◌<◌, ◌≤◌, ◌++◌, ℕ, [], ◌∷◌, List, true, false, length, IsErr, IfOk, OnOk, OnErr, Ok, Err};
ghost use Rattle.bank.specs.declared.bank.Operation.TheVariants.{Write, Flush};
ghost use Rattle.bank.specs.Given.{IsPlace, HasCause, IsFaulted, NeverFalls};
ghost use Rattle.bank.specs.Tape.{contents, disk, AreSectors, Did, EachMark};
ghost use Rattle.bank_backup.specs.declared.section.SectionFault.TheVariants.{Before, Attempted};
ghost use Rattle.bank_backup.specs.Section.{has_section};
ghost use Rattle.bank_backup.specs.Written.{header_of, cleared_header};
ghost use Rattle.bank_backup.specs.Storing.{section_writes, section_operations, header_operations, HasSomeOf, IsHeading, IsHeaded, IsStoring, IsNaming, IsStoringOrNaming, IsNamed};

use crate::header::{SECTION_START, encode, names};
use bank::{Bank, BankFault, Span, write_sector};

/// How far `write_section` came before a call on the slot failed: not yet at the write of the header, so that the slot
/// names what it named before; or that write was attempted, so that it may name either section.
#[derive(Clone, Copy, Debug, PartialEq, Eq)]
pub enum SectionFault {
    Before,
    Attempted,
}

// Writes the section's sectors, all by one call, and flushes them.
fn store_sectors<B: Bank>(bank: &mut B, slot: u32, from: &[u8]) -> Result<(), BankFault>
    requires place { IsPlace (B.given bank.old) slot 8 (length from.now) }
    ensures did { Did B.tells result (B.tape bank.old) (B.tape bank.new) (section_operations slot from.now) }
    ensures err { OnErr result (B.tells → HasSomeOf (section_writes slot from.now) (B.tape bank.old) (B.tape bank.new)) }
    ensures given { B.given bank.new ≡ B.given bank.old }
    ensures cause { HasCause slot (B.faults_of bank.old) (B.faults_of bank.new) result }
{
    match bank.write(slot, SECTION_START, from) {
        Err(fault) => return Err(fault),
        Ok(()) => {}
    }
    bank.flush(slot)
}

// Writes the header and flushes it.
#[tactic(auto, using(bank::proofs::Calls::did_step, bank::proofs::Calls::did_end, bank::proofs::Causes::cause_step))]
fn store_header<B: Bank>(bank: &mut B, slot: u32, header: &[u8]) -> Result<(), BankFault>
    requires size { length header.now ≡ 512 }
    requires place { IsPlace (B.given bank.old) slot 0 512 }
    ensures did { Did B.tells result (B.tape bank.old) (B.tape bank.new) (header_operations slot header.now) }
    ensures err { OnErr result (B.tells → HasSomeOf (Write slot 0 header.now ∷ []) (B.tape bank.old) (B.tape bank.new)) }
    ensures given { B.given bank.new ≡ B.given bank.old }
    ensures cause { HasCause slot (B.faults_of bank.old) (B.faults_of bank.new) result }
{
    match write_sector(bank, slot, 0, header) {
        Err(fault) => Err(fault),
        Ok(()) => bank.flush(slot),
    }
}

// Stores the section's sectors, and then the header that names them.
fn store_and_name<B: Bank>(
    bank: &mut B,
    slot: u32,
    header: &[u8],
    from: &[u8],
) -> Result<(), SectionFault>
    requires size { length header.now ≡ 512 }
    requires place { IsPlace (B.given bank.old) slot 8 (length from.now) }
    ensures did { Did B.tells result (B.tape bank.old) (B.tape bank.new) (section_operations slot from.now ++ header_operations slot header.now) }
    ensures before { result ≡ Err Before → B.tells → HasSomeOf (section_writes slot from.now) (B.tape bank.old) (B.tape bank.new) }
    ensures attempted { result ≡ Err Attempted → B.tells → HasSomeOf (Write slot 0 header.now ∷ []) (B.tape bank.old ++ section_operations slot from.now) (B.tape bank.new) }
    ensures given { B.given bank.new ≡ B.given bank.old }
    ensures cause { HasCause slot (B.faults_of bank.old) (B.faults_of bank.new) result }
{
    match store_sectors(bank, slot, from) {
        Err(_) => return Err(SectionFault::Before),
        Ok(()) => {}
    }
    match store_header(bank, slot, header) {
        Err(_) => Err(SectionFault::Attempted),
        Ok(()) => Ok(()),
    }
}

/// Stores a section of the array of this uuid: its sectors from sector 8 of the slot on, and a flush; then the header that
/// names the span, and a flush. `from` has 512 bytes for each sector of the span. At each moment a stop leaves the former
/// header, or the new one with the whole section behind it.
///
/// Err where a call on the slot failed, which its fault count shows: `Before` leaves the header alone, `Attempted` leaves
/// the former one or the new one.
pub fn write_section<B: Bank>(
    bank: &mut B,
    slot: u32,
    uuid: &[u8; 16],
    span: &Span,
    from: &[u8],
) -> Result<(), SectionFault>
    requires filled { span.now.lo < span.now.hi }
    requires size { length from.now ≡ 512 * (span.now.hi - span.now.lo) }
    requires slot { slot < (B.given bank.old).slots }
    requires within { 8 + (span.now.hi - span.now.lo) ≤ (B.given bank.old).sectors slot }
    ensures did { Did B.tells result (B.tape bank.old) (B.tape bank.new)
        (section_operations slot from.now ++ header_operations slot (header_of uuid.now span.now)) }
    ensures before { result ≡ Err Before → B.tells → HasSomeOf (section_writes slot from.now) (B.tape bank.old) (B.tape bank.new) }
    ensures attempted { result ≡ Err Attempted → B.tells
        → HasSomeOf (Write slot 0 (header_of uuid.now span.now) ∷ []) (B.tape bank.old ++ section_operations slot from.now) (B.tape bank.new) }
    ensures each_mark { let start = (B.given bank.old).start in EachMark B.tells start (B.tape bank.old) (B.tape bank.new)
        (IsStoringOrNaming slot (header_of uuid.now span.now) from.now (disk start (B.tape bank.old))) }
    ensures stored { OnOk result (B.tells → let start = (B.given bank.old).start in
        IsNamed slot (header_of uuid.now span.now) from.now (disk start (B.tape bank.old)) (disk start (B.tape bank.new))) }
    ensures untouched { result ≡ Err Before → B.tells → let start = (B.given bank.old).start in
        IsStoring slot from.now (disk start (B.tape bank.old)) (disk start (B.tape bank.new)) }
    ensures unsure { result ≡ Err Attempted → B.tells → let start = (B.given bank.old).start in
        IsNaming slot (header_of uuid.now span.now) from.now (disk start (B.tape bank.old)) (disk start (B.tape bank.new)) }
    ensures given { B.given bank.new ≡ B.given bank.old }
    ensures cause { HasCause slot (B.faults_of bank.old) (B.faults_of bank.new) result }
{
    let header = encode(uuid, span.lo, span.hi - span.lo);
    store_and_name(bank, slot, &header, from)
}

/// Stores a header of the array of this uuid that names no section, and flushes it. Err where a call on the slot failed,
/// which its fault count shows; sector 0 then has its former bytes or that header.
pub fn clear_section<B: Bank>(bank: &mut B, slot: u32, uuid: &[u8; 16]) -> Result<(), BankFault>
    requires slot { slot < (B.given bank.old).slots }
    requires within { 1 ≤ (B.given bank.old).sectors slot }
    ensures did { Did B.tells result (B.tape bank.old) (B.tape bank.new) (header_operations slot (cleared_header uuid.now)) }
    ensures err { OnErr result (B.tells → HasSomeOf (Write slot 0 (cleared_header uuid.now) ∷ []) (B.tape bank.old) (B.tape bank.new)) }
    ensures each_mark { let start = (B.given bank.old).start in EachMark B.tells start (B.tape bank.old) (B.tape bank.new)
        (IsHeading slot (cleared_header uuid.now) (disk start (B.tape bank.old))) }
    ensures stored { OnOk result (B.tells → let start = (B.given bank.old).start in
        IsHeaded slot (cleared_header uuid.now) (disk start (B.tape bank.old)) (disk start (B.tape bank.new))) }
    ensures given { B.given bank.new ≡ B.given bank.old }
    ensures cause { HasCause slot (B.faults_of bank.old) (B.faults_of bank.new) result }
{
    let header = encode(uuid, 0, 0);
    store_header(bank, slot, &header)
}

/// Whether the slot holds the section of this span, of the array of this uuid. Where it does, `into` gets its sectors, of
/// 512 bytes each; at Ok(false) `into` is as it was. Nothing is written.
///
/// Err where a read failed, which the slot's fault count shows; `into` is unspecified then.
pub fn find_section<B: Bank>(
    bank: &mut B,
    slot: u32,
    uuid: &[u8; 16],
    span: &Span,
    into: &mut [u8],
) -> Result<bool, BankFault>
    requires slot { slot < (B.given bank.old).slots }
    requires size { length into.old ≡ 512 * (span.now.hi - span.now.lo) }
    ensures found { IfOk result (λ found. B.tells → let given = B.given bank.old in
        found ≡ has_section uuid.now (given.sectors slot) (contents given.start (B.tape bank.old) (length (B.tape bank.old)) slot) span.now) }
    ensures sectors { result ≡ Ok true → B.tells → let given = B.given bank.old in
        AreSectors (contents given.start (B.tape bank.old) (length (B.tape bank.old)) slot) 8 into.new }
    ensures untouched { result ≡ Ok false → into.new ≡ into.old }
    ensures tape { B.tells → B.tape bank.new ≡ B.tape bank.old }
    ensures given { B.given bank.new ≡ B.given bank.old }
    ensures never_falls { NeverFalls (B.faults_of bank.old) (B.faults_of bank.new) }
    ensures others { (s : ℕ) → s ≢ slot → B.faults_of bank.new s ≡ B.faults_of bank.old s }
    ensures failed { OnErr result (IsFaulted slot (B.faults_of bank.old) (B.faults_of bank.new)) }
    ensures stays_failed { 0 < B.faults_of bank.old slot → span.now.lo < span.now.hi → 8 + (span.now.hi - span.now.lo) ≤ (B.given bank.old).sectors slot → IsErr result }
{
    if span.hi <= span.lo || bank.len(slot) < SECTION_START + (span.hi - span.lo) {
        return Ok(false);
    }
    let mut header = [0u8; 512];
    match bank.read(slot, 0, &mut header) {
        Err(fault) => return Err(fault),
        Ok(()) => {}
    }
    if !names(&header, uuid, span) {
        return Ok(false);
    }
    match bank.read(slot, SECTION_START, into) {
        Err(fault) => Err(fault),
        Ok(()) => Ok(true),
    }
}
