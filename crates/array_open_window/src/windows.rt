//! The window of a stored reshape.

ghost use Rattle.std.specs.Prelude.{◌≡◌, ◌≢◌, ◌⊎◌, ◌-◌, ◌*◌, ◌<◌, ◌≤◌, ℕ, true, length, take, Some, None, Ok, IfOk, OnErr, if◌then◌else◌};
ghost use Rattle.array_reshaping_state.specs.bank_Given.{IsFaulted, NeverFalls};
ghost use Rattle.array_reshaping_state.specs.bank_Tape.{AreSectors};
ghost use Rattle.array_reshaping_state.specs.bank_backup_Section.{has_section};
ghost use Rattle.array_reshaping_state.specs.sb_specs_Reading.{Scope, is_reshaping};
ghost use Rattle.array_reshaping_state.specs.stripe_row_Rows.{present};
ghost use Rattle.array_reshaping_state.specs.history_Stands.{reach_of};
ghost use Rattle.array_reshaping_state.specs.crash_views_Regions.{AreShapesFit, header_in, open_by};
ghost use Rattle.array_reshaping_state.specs.reshape_request_the_Window_TheVariants.{Closed, Entered};
ghost use Rattle.array_reshaping_state.specs.reshape_progress_Course.{IsWindowOf};
ghost use Rattle.array_reshaping_state.specs.Due.{unsure_in};
ghost use Rattle.array_open_window.specs.Finding.{IsLookedFor, window_for, bytes_for, IsFoundIn};

use array_reshaping_state::reshape::next_window_of;
use array_reshaping_state::{Bank, BankFault, Members, Span, Window, find_section};

// The next window, with this span, is entered where the backup names its section, whose sectors then begin the buffer.
fn find_entered<B: Bank>(
    bank: &mut B,
    backup: u32,
    uuid: &[u8; 16],
    span: Span,
    buffer: &mut [u8],
) -> Result<Window, BankFault>
    requires slot { backup < (B.given bank.old).slots }
    requires filled { span.lo < span.hi }
    requires room { 512 * (span.hi - span.lo) ≤ length buffer.old }
    ensures either { IfOk result (λ window. (window ≡ Closed) ⊎ (window ≡ Entered span 0 true)) }
    ensures found { IfOk result (λ window. B.tells → let given = B.given bank.old in
        window ≡ window_for (if has_section uuid.now (given.sectors backup) (present given (B.tape bank.old) backup) span then Some span else None)) }
    ensures sectors { result ≡ Ok (Entered span 0 true) → B.tells → AreSectors (present (B.given bank.old) (B.tape bank.old) backup) 8 (take (512 * (span.hi - span.lo)) buffer.new) }
    ensures untouched { result ≡ Ok Closed → buffer.new ≡ buffer.old }
    ensures long { length buffer.new ≡ length buffer.old }
    ensures tape { B.tells → B.tape bank.new ≡ B.tape bank.old }
    ensures given { B.given bank.new ≡ B.given bank.old }
    ensures never_falls { NeverFalls (B.faults_of bank.old) (B.faults_of bank.new) }
    ensures others { (s : ℕ) → s ≢ backup → B.faults_of bank.new s ≡ B.faults_of bank.old s }
    ensures failed { OnErr result (IsFaulted backup (B.faults_of bank.old) (B.faults_of bank.new)) }
{
    let long = 512 * (span.hi - span.lo) as usize;
    let found = match find_section(bank, backup, uuid, &span, &mut buffer[..long]) {
        Err(fault) => return Err(fault),
        Ok(found) => found,
    };
    if found {
        Ok(Window::Entered {
            span,
            copied: 0,
            sectioned: true,
        })
    } else {
        Ok(Window::Closed)
    }
}

/// The window of the reshape that the superblocks tell, as the backup has it. The next one is entered, with nothing copied, where the header
/// in the backup names its section: the sectors of that, of 512 bytes each, are then the first ones of `buffer`. Else none is open, and
/// `buffer` is as it was. `buffer` has room for the longest window. Nothing is written.
///
/// Err where a read of the backup failed, which its fault count shows: then it counts as absent, and `buffer` is unspecified.
pub fn find_window<B: Bank>(
    members: &Members,
    bank: &mut B,
    backup: u32,
    buffer: &mut [u8],
) -> Result<Window, BankFault>
    requires fit { AreShapesFit members.now.newest }
    requires active { is_reshaping members.now.newest ≡ true }
    requires slot { backup < (B.given bank.old).slots }
    requires room { 512 * reach_of members.now.newest ≤ length buffer.old }
    ensures window { IfOk result (λ window. IsWindowOf members.now.newest window) }
    ensures sure { IfOk result (λ window. unsure_in window ≡ None) }
    ensures found { IfOk result (λ window. B.tells → (scope : Scope) → IsLookedFor (B.given bank.old) members.now.newest backup scope
        → window ≡ window_for (open_by scope members.now.newest (header_in scope (present (B.given bank.old) (B.tape bank.old))))) }
    ensures sectors { IfOk result (λ window. B.tells → IsFoundIn (present (B.given bank.old) (B.tape bank.old) backup) window (bytes_for window buffer.new)) }
    ensures untouched { result ≡ Ok Closed → buffer.new ≡ buffer.old }
    ensures long { length buffer.new ≡ length buffer.old }
    ensures tape { B.tells → B.tape bank.new ≡ B.tape bank.old }
    ensures given { B.given bank.new ≡ B.given bank.old }
    ensures never_falls { NeverFalls (B.faults_of bank.old) (B.faults_of bank.new) }
    ensures others { (s : ℕ) → s ≢ backup → B.faults_of bank.new s ≡ B.faults_of bank.old s }
    ensures failed { OnErr result (IsFaulted backup (B.faults_of bank.old) (B.faults_of bank.new)) }
{
    match next_window_of(members) {
        None => Ok(Window::Closed),
        Some(span) => find_entered(bank, backup, &members.newest.set_uuid, span, buffer),
    }
}
