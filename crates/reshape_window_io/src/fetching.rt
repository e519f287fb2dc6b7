//! Reads of the list beside an open window, whose own sectors lie in its buffer.

ghost use Rattle.std.specs.Prelude.{◌≡◌, ◌⊎◌, ◌+◌, ◌-◌, ◌*◌, ◌/◌, ◌<◌, ◌≤◌, ℕ, false, length, None, Some, MatchOption, IfSome, ⊤};
ghost use Rattle.stripe_region_read.specs.bank_Given.{NeverFalls};
ghost use Rattle.stripe_region_read.specs.raid_types_Sectors.{Sector, IsWhole};
ghost use Rattle.stripe_region_read.specs.raid_parity_Rows.{sector_of};
ghost use Rattle.stripe_region_read.specs.sb_specs_Reading.{is_clean, list_length};
ghost use Rattle.reshape_window_steps.specs.stripe_row_Rows.{present, members_without};
ghost use Rattle.reshape_window_steps.specs.history_Stands.{covers};
ghost use Rattle.reshape_window_steps.specs.history_World.{World};
ghost use Rattle.reshape_window_steps.specs.crash_views_Views.{Ledger};
ghost use Rattle.reshape_window_steps.specs.crash_safety_laws_Steady.{AreUnlost, IsSafeOver, KeepsSafe, AreGoneTold, IsUncleanTold};
ghost use Rattle.reshape_window_steps.specs.crash_safety_laws_Marking.{AreOthersPresent};
ghost use Rattle.reshape_window_steps.specs.crash_safety_laws_Safety.{HasRoomLeft};
ghost use Rattle.reshape_window_steps.specs.array_members_Placed.{AreWhole, IsPlaced};
ghost use Rattle.reshape_window_steps.specs.array_members_Moving.{IsMoved};
ghost use Rattle.reshape_window_steps.specs.array_members_Lacking.{HaveFailedSince};
ghost use Rattle.reshape_window_steps.specs.reshape_window_rows_Copies.{HasWindow, IsRoomFor};
ghost use Rattle.stripe_region_read.specs.Stretches.{ListStandsIn, RowsStandIn};
ghost use Rattle.reshape_window_io.specs.Fetching.{IsShapeBeside, IsUnreadBeside};
ghost use Rattle.reshape_window_steps.specs.sb_safe_updates_Frame.{Stands, Keeps};

use reshape_window_steps::record_missing;
use stripe_region_read::fetching::{read_list, read_regions};
use stripe_region_read::{Bank, Fetched, Members, Refusal, Span};

// The window's part of the sectors from `first` up to `to`, which may be empty.
fn part_of(span: &Span, first: u64, to: u64) -> Span
    requires { first ≤ to }
    ensures begins { first ≤ result.lo }
    ensures order { result.lo ≤ result.hi }
    ensures ends { result.hi ≤ to }
    ensures inside { result.lo < result.hi → (span.now.lo ≤ result.lo) × (result.hi ≤ span.now.hi) }
    ensures before { (x : ℕ) → first ≤ x → x < result.lo → covers (Some span.now) x ≡ false }
    ensures behind { (x : ℕ) → result.hi ≤ x → x < to → covers (Some span.now) x ≡ false }
{
    let lo = span.lo.max(first).min(to);
    Span {
        lo,
        hi: span.hi.max(lo).min(to),
    }
}

// Copies a part of the window out of its buffer.
fn fill_window(span: &Span, buffer: &[u8], part: &Span, into: &mut [u8])
    requires inside { part.now.lo < part.now.hi → (span.now.lo ≤ part.now.lo) × (part.now.hi ≤ span.now.hi) }
    requires buffer { IsRoomFor span.now buffer.now }
    requires into { length into.old ≡ 512 * (part.now.hi - part.now.lo) }
    ensures { (list : ℕ → Sector) → HasWindow span.now buffer.now list → (i : ℕ) → part.now.lo + i < part.now.hi → sector_of into.new i ≡ list (part.now.lo + i) }
{
    if part.lo >= part.hi {
        return;
    }
    let low = 512 * (part.lo - span.lo) as usize;
    let high = 512 * (part.hi - span.lo) as usize;
    into.copy_from_slice(&buffer[low..high]);
}

// Reads sectors of the list, from `first` on: those before the window, those of the window from its buffer, and those behind it.
// It names no member.
fn read_beside<B: Bank>(
    members: &mut Members,
    bank: &mut B,
    span: &Span,
    buffer: &[u8],
    first: u64,
    into: &mut [u8],
    scratch: &mut [u8],
    relied: u64,
) -> Option<Refusal>
    requires placed { IsPlaced (B.given bank.old) members.old }
    requires unlost { AreUnlost members.old }
    requires buffer { IsRoomFor span.now buffer.now }
    requires into { IsWhole into.old }
    requires within { first + length into.old / 512 ≤ list_length members.old.newest }
    requires scratch { 8192 ≤ length scratch.old }
    ensures moved { IsMoved (B.given bank.old) members.old members.new }
    ensures lost { (lost : ℕ) × (members.new ≡ members_without lost members.old) }
    ensures failed { HaveFailedSince members.old members.new 0 (B.faults_of bank.old) (B.faults_of bank.new) }
    ensures kept { AreWhole members.new → members.new ≡ members.old }
    ensures refused { MatchOption result ⊤ (IsUnreadBeside (Some span.now) relied first (first + length into.old / 512) members.new) }
    ensures holds { result ≡ None → B.tells → (list : ℕ → Sector) → ListStandsIn (IsShapeBeside (Some span.now) members.old.newest first (first + length into.old / 512)) (Some span.now) members.old (present (B.given bank.old) (B.tape bank.old)) list
        → HasWindow span.now buffer.now list
        → AreWhole members.new ⊎ RowsStandIn (IsShapeBeside (Some span.now) members.old.newest first (first + length into.old / 512)) (Some span.now) relied members.old (present (B.given bank.old) (B.tape bank.old)) list
        → (i : ℕ) → i < length into.old / 512 → sector_of into.new i ≡ list (first + i) }
    ensures tape { B.tells → B.tape bank.new ≡ B.tape bank.old }
    ensures given { B.given bank.new ≡ B.given bank.old }
    ensures counts { NeverFalls (B.faults_of bank.old) (B.faults_of bank.new) }
{
    let len = into.len();
    let part = part_of(span, first, first + (len / 512) as u64);
    let low = 512 * (part.lo - first) as usize;
    let high = 512 * (part.hi - first) as usize;
    let refusal = read_regions(members, bank, first, &mut into[0..low], scratch, relied);
    if refusal.is_some() {
        return refusal;
    }
    fill_window(span, buffer, &part, &mut into[low..high]);
    read_regions(
        members,
        bank,
        part.hi,
        &mut into[high..len],
        scratch,
        relied,
    )
}

// Fills `into` with sectors of the list, as `read_beside` does, and names the members that are missing.
fn read_around_open<B: Bank>(
    members: &mut Members,
    bank: &mut B,
    span: &Span,
    buffer: &[u8],
    first: u64,
    into: &mut [u8],
    scratch: &mut [u8],
    relied: u64,
) -> Fetched
    requires stands { Stands (B.given bank.old) members.old }
    requires buffer { IsRoomFor span.now buffer.now }
    requires into { IsWhole into.old }
    requires within { first + length into.old / 512 ≤ list_length members.old.newest }
    requires scratch { 8192 ≤ length scratch.old }
    ensures keeps { Keeps B.tells B.given B.tape B.faults_of bank.old bank.new members.old members.new result.spares }
    ensures refused { MatchOption result.refusal ⊤ (IsUnreadBeside (Some span.now) relied first (first + length into.old / 512) members.new) }
    ensures others { B.tells → AreOthersPresent (present (B.given bank.old) (B.tape bank.old)) (present (B.given bank.old) (B.tape bank.new)) }
    ensures holds { result.refusal ≡ None → B.tells → (list : ℕ → Sector) → ListStandsIn (IsShapeBeside (Some span.now) members.old.newest first (first + length into.old / 512)) (Some span.now) members.old (present (B.given bank.old) (B.tape bank.old)) list
        → HasWindow span.now buffer.now list
        → AreWhole members.new ⊎ RowsStandIn (IsShapeBeside (Some span.now) members.old.newest first (first + length into.old / 512)) (Some span.now) relied members.old (present (B.given bank.old) (B.tape bank.old)) list
        → (i : ℕ) → i < length into.old / 512 → sector_of into.new i ≡ list (first + i) }
    ensures clean { is_clean members.new.newest ≡ is_clean members.old.newest }
    ensures kept { AreWhole members.new → members.new ≡ members.old }
    ensures tape { AreWhole members.new → B.tells → B.tape bank.new ≡ B.tape bank.old }
    ensures safe { B.tells → (world : World) → (told : Ledger) → HasRoomLeft members.old (B.tape bank.old) (B.tape bank.new)
        → AreGoneTold told members.new → IsUncleanTold told members.old → IsSafeOver world (B.given bank.old) told members.old (B.tape bank.old)
        → KeepsSafe world (B.given bank.old) told members.new (B.tape bank.old) (B.tape bank.new) }
{
    let refusal = read_beside(members, bank, span, buffer, first, into, scratch, relied);
    if refusal.is_some() {
        return Fetched { spares: 0, refusal };
    }
    let spares = record_missing(members, bank);
    Fetched {
        spares,
        refusal: None,
    }
}

/// Fills `into` with sectors of the list, from `first` on: those of the window that is hidden, where one is, from its buffer, and each
/// other by the shape of its region, from the slot that holds it, or, up to sector `relied` of the list, filled in from its row. It names
/// the members that are missing. A refusal tells of a sector outside the window.
pub fn read_around_window<B: Bank>(
    members: &mut Members,
    bank: &mut B,
    hidden: Option<Span>,
    buffer: &[u8],
    first: u64,
    into: &mut [u8],
    scratch: &mut [u8],
    relied: u64,
) -> Fetched
    requires stands { Stands (B.given bank.old) members.old }
    requires buffer { IfSome hidden (λ span. IsRoomFor span buffer.now) }
    requires into { IsWhole into.old }
    requires within { first + length into.old / 512 ≤ list_length members.old.newest }
    requires scratch { 8192 ≤ length scratch.old }
    ensures keeps { Keeps B.tells B.given B.tape B.faults_of bank.old bank.new members.old members.new result.spares }
    ensures refused { MatchOption result.refusal ⊤ (IsUnreadBeside hidden relied first (first + length into.old / 512) members.new) }
    ensures others { B.tells → AreOthersPresent (present (B.given bank.old) (B.tape bank.old)) (present (B.given bank.old) (B.tape bank.new)) }
    ensures holds { result.refusal ≡ None → B.tells → (list : ℕ → Sector) → ListStandsIn (IsShapeBeside hidden members.old.newest first (first + length into.old / 512)) hidden members.old (present (B.given bank.old) (B.tape bank.old)) list
        → IfSome hidden (λ span. HasWindow span buffer.now list)
        → AreWhole members.new ⊎ RowsStandIn (IsShapeBeside hidden members.old.newest first (first + length into.old / 512)) hidden relied members.old (present (B.given bank.old) (B.tape bank.old)) list
        → (i : ℕ) → i < length into.old / 512 → sector_of into.new i ≡ list (first + i) }
    ensures clean { is_clean members.new.newest ≡ is_clean members.old.newest }
    ensures kept { AreWhole members.new → members.new ≡ members.old }
    ensures tape { AreWhole members.new → B.tells → B.tape bank.new ≡ B.tape bank.old }
    ensures safe { B.tells → (world : World) → (told : Ledger) → HasRoomLeft members.old (B.tape bank.old) (B.tape bank.new)
        → AreGoneTold told members.new → IsUncleanTold told members.old → IsSafeOver world (B.given bank.old) told members.old (B.tape bank.old)
        → KeepsSafe world (B.given bank.old) told members.new (B.tape bank.old) (B.tape bank.new) }
{
    match hidden {
        None => read_list(members, bank, first, into, scratch, relied),
        Some(span) => read_around_open(members, bank, &span, buffer, first, into, scratch, relied),
    }
}
