//! Why an array doesn't grow as it is wished.

ghost use Rattle.std.specs.Prelude.{◌≡◌, ◌≤◌, ◌^◌, ◌↔◌, length, IsTrue};
ghost use Rattle.std.specs.List.{list_any};
ghost use Rattle.history.specs.raid_types_the_Refusal.{Refusal};
ghost use Rattle.stripe_row.specs.sb_specs_Reading.{shape_of, role_count};
ghost use Rattle.history.specs.sb_specs_Verdict.{AreValidShapes};
ghost use Rattle.history.specs.reshape_geometry_Geometry.{is_size};
ghost use Rattle.stripe_row.specs.Rows.{reading_of};
ghost use Rattle.history.specs.Fits.{is_missing_role, is_recovering_role, is_rebuildable};
ghost use Rattle.reshape_request.specs.Asked.{asked_of, refusal_for, busy_kind, lowest_missing, backup_refusal, lacking_refusal, grow_refusal, IsFirst, IsUngrowable};

use crate::shapes::shape_in;
use history::{BusyKind, Plan, Refusal, Role, Wish, plan};
use stripe_row::{Members, is_missing, is_reshaping};

fn is_recovering_role(role: Role) -> bool
    ensures { result ≡ is_recovering_role role }
{
    match role {
        Role::Recovering(_) => true,
        Role::Whole(_) | Role::Missing => false,
    }
}

fn is_missing_role(role: Role) -> bool
    ensures { result ≡ is_missing_role role }
{
    match role {
        Role::Missing => true,
        Role::Whole(_) | Role::Recovering(_) => false,
    }
}

// Whether a slot recovers a role.
fn has_recovering(members: &Members) -> bool
    requires { length members.now.roles ≤ 16 }
    ensures { result ≡ list_any is_recovering_role members.now.roles }
{
    for role in 0..members.roles.len() as u32 {
        if is_recovering_role(members.roles.get(role)) {
            return true;
        }
    }
    false
}

// Whether no slot holds some role.
fn has_missing(members: &Members) -> bool
    requires { length members.now.roles ≤ 16 }
    ensures { result ≡ list_any is_missing_role members.now.roles }
{
    for role in 0..members.roles.len() as u32 {
        if is_missing_role(members.roles.get(role)) {
            return true;
        }
    }
    false
}

// Whether a role is to be rebuilt: one that recovers, or a missing one beside a spare.
fn is_rebuildable(members: &Members) -> bool
    requires { length members.now.roles ≤ 16 }
    ensures { result ≡ is_rebuildable (reading_of members.now) }
{
    has_recovering(members) || has_missing(members) && members.spares.len() > 0
}

// The first of what is pending.
fn busy_kind(members: &Members, resync: Option<u64>, phases: u64) -> Option<BusyKind>
    requires { length members.now.roles ≤ 16 }
    ensures { result ≡ busy_kind (asked_of members.now resync phases 0 None) }
{
    if is_reshaping(&members.newest) {
        Some(BusyKind::Reshape)
    } else if resync.is_some() {
        Some(BusyKind::Resync)
    } else if is_rebuildable(members) {
        Some(BusyKind::Rebuild)
    } else if phases > 0 {
        Some(BusyKind::Plan)
    } else {
        None
    }
}

// The lowest role that isn't whole.
fn lowest_missing(members: &Members) -> Option<u32>
    requires roles { length members.now.roles ≡ role_count members.now.newest }
    requires few { length members.now.roles ≤ 16 }
    ensures { result ≡ lowest_missing members.now }
{
    for role in 0..members.roles.len() as u32 {
        if is_missing(members, role) {
            return Some(role);
        }
    }
    None
}

// Why the backup, if there is one, doesn't do for a plan with this largest window.
fn unbacked(backup: Option<u64>, window: u64) -> Option<Refusal>
    requires { window ≤ 2 ^ 53 }
    ensures { result ≡ backup_refusal backup window }
{
    match backup {
        None => {
            if window > 0 {
                Some(Refusal::NeedBackup)
            } else {
                None
            }
        }
        Some(have) => {
            let want = 8 + window;
            if have < want {
                Some(Refusal::BackupTooSmall(have, want))
            } else {
                None
            }
        }
    }
}

// What the array lacks for a plan: spares, a backup, or to be made smaller before.
fn unprovided(members: &Members, visible: u64, backup: Option<u64>, plan: &Plan) -> Option<Refusal>
    requires { plan.now.span ≤ 2 ^ 53 }
    ensures { result ≡ lacking_refusal (length members.now.spares) visible backup plan.now.spares plan.now.span plan.now.least }
{
    let have = members.spares.len() as u64;
    let want = u64::from(plan.spares);
    if have < want {
        return Some(Refusal::NeedSpares(have, want));
    }
    let unbacked = unbacked(backup, plan.span);
    if unbacked.is_some() {
        return unbacked;
    }
    if plan.least < visible {
        return Some(Refusal::ArraySizeFirst(visible, plan.least));
    }
    None
}

// The first refusal, in order.
fn first_refusal(
    members: &Members,
    resync: Option<u64>,
    phases: u64,
    visible: u64,
    backup: Option<u64>,
    wish: &Wish,
) -> Option<Refusal>
    requires shapes { AreValidShapes members.now.newest }
    requires size { IsTrue (is_size members.now.newest.size (shape_of members.now.newest).chunk) }
    requires roles { length members.now.roles ≡ role_count members.now.newest }
    ensures { result ≡ grow_refusal (asked_of members.now resync phases visible backup) wish.now }
{
    if let Some(kind) = busy_kind(members, resync, phases) {
        return Some(Refusal::Busy(kind));
    }
    if let Some(role) = lowest_missing(members) {
        return Some(Refusal::Degraded(role));
    }
    match plan(&shape_in(&members.newest), members.newest.size, wish) {
        Err(refusal) => Some(refusal),
        Ok(plan) => unprovided(members, visible, backup, &plan),
    }
}

/// Why an array doesn't grow as it is wished: the first of `Busy` (with a reshape, a resync, a rebuild, or a plan, of which so many
/// phases haven't ended), `Degraded`, `SameShape`, `BadShape`, `SizeNotMultiple`, `NeedSpares`, `NeedBackup`, `BackupTooSmall` and
/// `ArraySizeFirst`. The visible size and the backup's length are in sectors.
pub fn judge_grow(
    members: &Members,
    resync: Option<u64>,
    phases: u64,
    visible: u64,
    backup: Option<u64>,
    wish: &Wish,
) -> Option<Refusal>
    requires shapes { AreValidShapes members.now.newest }
    requires size { IsTrue (is_size members.now.newest.size (shape_of members.now.newest).chunk) }
    requires roles { length members.now.roles ≡ role_count members.now.newest }
    ensures exact { let a = asked_of members.now resync phases visible backup in (refusal : Refusal) → (result ≡ Some refusal) ↔ IsFirst a wish.now refusal }
    ensures none { let a = asked_of members.now resync phases visible backup in (result ≡ None) ↔ ((refusal : Refusal) → IsUngrowable a wish.now refusal → ⊥) }
    ensures first { result ≡ grow_refusal (asked_of members.now resync phases visible backup) wish.now }
    ensures planned { let a = asked_of members.now resync phases visible backup in result ≡ None → refusal_for a wish.now ≡ None }
{
    first_refusal(members, resync, phases, visible, backup, wish)
}
