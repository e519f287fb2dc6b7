//! The sectors of the next window are read.

ghost use Rattle.std.specs.Prelude.{◌≡◌, ◌⊎◌, ◌-◌, ◌≤◌, ℕ, length, None, Some, MatchOption};
ghost use Rattle.stripe_region_read.specs.raid_types_Sectors.{Sector};
ghost use Rattle.stripe_region_read.specs.bank_Tape.{disk};
ghost use Rattle.reshape_progress.specs.sb_specs_Reading.{is_clean, list_length, next_window, role_count};
ghost use Rattle.reshape_progress.specs.sb_specs_Verdict.{AreValidShapes};
ghost use Rattle.reshape_progress.specs.stripe_row_Rows.{present};
ghost use Rattle.reshape_progress.specs.history_World.{World};
ghost use Rattle.reshape_progress.specs.crash_views_Regions.{DoWithout};
ghost use Rattle.reshape_progress.specs.crash_views_Views.{Ledger};
ghost use Rattle.reshape_progress.specs.crash_views_Windows.{ListStands, RowsStand};
ghost use Rattle.reshape_progress.specs.crash_safety_laws_Marking.{AreOthersPresent};
ghost use Rattle.reshape_progress.specs.crash_safety_laws_Safety.{HasRoomLeft, IsRisen};
ghost use Rattle.reshape_progress.specs.crash_safety_laws_Steady.{IsSafeOver, KeepsSafe, AreGoneTold, IsUncleanTold};
ghost use Rattle.reshape_progress.specs.array_members_Placed.{AreWhole};
ghost use Rattle.reshape_progress.specs.array_members_Moving.{IsMoved};
ghost use Rattle.reshape_progress.specs.array_members_Lacking.{AreLostSince, AreTooMany};
ghost use Rattle.reshape_progress.specs.sb_safe_updates_Unused.{IsUnusedKept};
ghost use Rattle.reshape_progress.specs.reshape_window_rows_Copies.{HasWindow, IsRoomFor};
ghost use Rattle.reshape_progress.specs.sb_safe_updates_Frame.{Stands, GoesOn};

use reshape_progress::{newly_unassigned, too_many, unassigned_roles};
use stripe_region_read::fetching::read_list;
use stripe_region_read::{Bank, Members, Refusal, Span};

/// The roles and the spares that were lost as a window was read, and why it can't be entered.
#[derive(Clone, Copy)]
pub struct Read {
    pub roles: u32,
    pub spares: u32,
    pub refusal: Option<Refusal>,
}

// Why the window isn't entered: for what its read was refused, or else for what is missing behind it.
fn refusal_behind(members: &Members, read: Option<Refusal>) -> Option<Refusal>
    requires shapes { AreValidShapes members.now.newest }
    requires roles { length members.now.roles ≡ role_count members.now.newest }
    ensures { MatchOption result ((read ≡ None) × DoWithout members.now) (λ refusal. (read ≡ Some refusal) ⊎ AreTooMany members.now refusal) }
{
    match read {
        Some(refusal) => Some(refusal),
        None => too_many(members),
    }
}

/// Reads the sectors of the next window into the buffer, and names what was lost in this. It is refused `TooManyMissing` where more
/// roles of a shape in force are missing then than it tolerates. Parity is relied on up to sector `relied` of the list, its end or more.
pub fn read_next<B: Bank>(
    members: &mut Members,
    bank: &mut B,
    span: &Span,
    window: &mut [u8],
    scratch: &mut [u8],
    relied: u64,
) -> Read
    requires stands { Stands (B.given bank.old) members.old }
    requires next { next_window members.old.newest ≡ Some span.now }
    requires room { IsRoomFor span.now window.old }
    requires scratch { 8192 ≤ length scratch.old }
    requires relied { list_length members.old.newest ≤ relied }
    ensures moved { IsMoved (B.given bank.old) members.old members.new }
    ensures since { AreLostSince members.old members.new result.roles result.spares (B.faults_of bank.old) (B.faults_of bank.new) }
    ensures refused { MatchOption result.refusal (DoWithout members.new) (AreTooMany members.new) }
    ensures bank { GoesOn B.tells B.given B.tape B.faults_of bank.old bank.new }
    ensures clean { is_clean members.new.newest ≡ is_clean members.old.newest }
    ensures rise { IsRisen B.tells members.old members.new (B.tape bank.old) (B.tape bank.new) }
    ensures others { B.tells → AreOthersPresent (present (B.given bank.old) (B.tape bank.old)) (present (B.given bank.old) (B.tape bank.new)) }
    ensures unused { B.tells → IsUnusedKept members.old (disk (B.given bank.old).start (B.tape bank.old)) (disk (B.given bank.old).start (B.tape bank.new)) }
    ensures has { result.refusal ≡ None → B.tells → (list : ℕ → Sector) → ListStands None members.old (present (B.given bank.old) (B.tape bank.old)) list
        → AreWhole members.new ⊎ RowsStand None members.old (present (B.given bank.old) (B.tape bank.old)) list → HasWindow span.now window.new list }
    ensures safe { B.tells → (world : World) → (told : Ledger) → HasRoomLeft members.old (B.tape bank.old) (B.tape bank.new)
        → AreGoneTold told members.new → IsUncleanTold told members.old → IsSafeOver world (B.given bank.old) told members.old (B.tape bank.old)
        → KeepsSafe world (B.given bank.old) told members.new (B.tape bank.old) (B.tape bank.new) }
{
    let count = members.roles.len() as u32;
    let before = unassigned_roles(members, count);
    let read = read_list(members, bank, span.lo, window, scratch, relied);
    Read {
        roles: newly_unassigned(members, count, before),
        spares: read.spares,
        refusal: refusal_behind(members, read.refusal),
    }
}
