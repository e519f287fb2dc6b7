//! Why a read or a write of an array in a reshape isn't done, before any device is touched.

ghost use Rattle.std.specs.Prelude.{◌≡◌, ◌+◌, ◌^◌, ◌<◌, ◌≤◌, ℕ, false, length, Some, MatchOption, ⊤};
ghost use Rattle.reshape_progress.specs.sb_specs_Reading.{list_length, role_count};
ghost use Rattle.reshape_progress.specs.history_Stands.{covers, shape_for};
ghost use Rattle.reshape_progress.specs.crash_views_Regions.{AreShapesFit};
ghost use Rattle.reshape_progress.specs.array_members_Lacking.{DoesWithout};
ghost use Rattle.stripe_region_resync.specs.sb_safe_updates_First.{call_refusal};
ghost use Rattle.stripe_region_resync.specs.stripe_region_read_Stretches.{IsLacked};
ghost use Rattle.stripe_region_resync.specs.stripe_region_write_Runs.{IsListTorn, IsListUnwritten};
ghost use Rattle.array_call_specs.specs.Calls.{IsRefusalOf};
ghost use Rattle.array_reshaping_state.specs.First.{list_refusal, IsUnreadAround};

use crate::windows::part_in;
use array_call_specs::{Refusal, Span};
use reshape_progress::Members;
use stripe_region_resync::{
    first_list_refusal, first_runs_refusal, runs_of, stretch_at, too_many_of,
};

// The refusal of the first of so many sectors from this one on of whose shape more roles are missing than it tolerates.
fn lacking_from(members: &Members, first: u64, count: u64) -> Option<Refusal>
    requires fit { AreShapesFit members.now.newest }
    requires roles { length members.now.roles ≡ role_count members.now.newest }
    requires short { first + count < 2 ^ 63 }
    ensures first { result ≡ list_refusal first count members.now }
    ensures why { MatchOption result ((x : ℕ) → first ≤ x → x < first + count → DoesWithout (shape_for members.now.newest x) members.now)
        (IsListTorn first (first + count) members.now) }
{
    let to = first + count;
    let mut at = first;
    while at < to {
        let stretch = stretch_at(members, at, to);
        let refusal = too_many_of(members, &stretch.shape);
        if refusal.is_some() {
            return refusal;
        }
        at = stretch.end;
    }
    None
}

// Why sectors of the list outside this window can't be had, where parity is to be relied on up to sector `relied`.
fn unread_beside(
    members: &Members,
    hidden: Option<Span>,
    from: u64,
    to: u64,
    relied: u64,
) -> Option<Refusal>
    requires fit { AreShapesFit members.now.newest }
    requires roles { length members.now.roles ≡ role_count members.now.newest }
    requires order { from ≤ to }
    requires within { to ≤ list_length members.now.newest }
    ensures { MatchOption result ((x : ℕ) → from ≤ x → x < to → covers hidden x ≡ false → IsLacked relied members.now x → ⊥) (IsUnreadAround hidden relied from to members.now) }
{
    let part = part_in(hidden, from, to);
    let refusal = first_list_refusal(members, from, part.lo, relied);
    if refusal.is_some() {
        return refusal;
    }
    first_list_refusal(members, part.hi, to, relied)
}

/// Why so many sectors from one on aren't read, before any is: `PastEnd`, or else `TooManyMissing` of the first of them of whose shape too
/// many roles are missing, be it in the open window or not, or else `NotResynced` of one whose role is missing, outside the window whose
/// sectors the buffer has, and behind sector `relied`, up to which parity is to be relied on.
pub fn first_read_refusal_from(
    members: &Members,
    hidden: Option<Span>,
    visible: u64,
    relied: u64,
    at: u64,
    count: u64,
) -> Option<Refusal>
    requires fit { AreShapesFit members.now.newest }
    requires roles { length members.now.roles ≡ role_count members.now.newest }
    requires visible { visible ≤ list_length members.now.newest }
    requires short { at + count < 2 ^ 63 }
    ensures first { MatchOption (call_refusal visible (at + count) (list_refusal at count members.now)) ⊤ (λ refusal. result ≡ Some refusal) }
    ensures why { IsRefusalOf visible (at + count) (IsUnreadAround hidden relied at (at + count)) members.now result }
{
    if visible < at + count {
        return Some(Refusal::PastEnd(visible));
    }
    let refusal = lacking_from(members, at, count);
    if refusal.is_some() {
        return refusal;
    }
    unread_beside(members, hidden, at, at + count, relied)
}

/// Why so many sectors from one on aren't written, before any row is read: `PastEnd`, or else `TooManyMissing` of the first of them of whose
/// shape too many roles are missing, be it in the open window or not, or else `NotResynced` of the lowest missing role that has data in the
/// shape of one of them outside the open window, if there is one, and behind sector `relied`, up to which parity is to be relied on.
pub fn first_write_refusal_from(
    members: &Members,
    window: Option<Span>,
    visible: u64,
    relied: u64,
    at: u64,
    count: u64,
) -> Option<Refusal>
    requires fit { AreShapesFit members.now.newest }
    requires roles { length members.now.roles ≡ role_count members.now.newest }
    requires visible { visible ≤ list_length members.now.newest }
    requires some { 0 < count }
    requires short { at + count < 2 ^ 63 }
    ensures first { MatchOption (call_refusal visible (at + count) (list_refusal at count members.now)) ⊤ (λ refusal. result ≡ Some refusal) }
    ensures why { IsRefusalOf visible (at + count) (IsListUnwritten window relied at (at + count)) members.now result }
{
    if visible < at + count {
        return Some(Refusal::PastEnd(visible));
    }
    let refusal = lacking_from(members, at, count);
    if refusal.is_some() {
        return refusal;
    }
    let cut = runs_of(members, window, at, at + count, relied);
    first_runs_refusal(members, &cut.low, &cut.high)
}
