//! The entries of the members that a call loses.

ghost use Rattle.std.specs.Prelude.{◌≡◌, ◌++◌, ◌+◌, ◌<◌, ◌≤◌, length};
ghost use Rattle.history_append.specs.Losing.{role_loss, role_losses, spare_loss, spare_losses, losses_of, IsSameEpoch};
ghost use Rattle.array_members.specs.history_Plain.{entries_of};

use crate::calls::append_entry;
use history_laws::{Epoch, Event, LostCause, Who, contains};

// A loss of this role, if it is in the set.
fn enter_role(epoch: &mut Epoch, who: Who, end: u64, roles: u32, role: u32)
    requires room { 0 < epoch.old.entries.room }
    requires number { who.number ≤ length epoch.old.entries.items }
    requires role { role < 32 }
    ensures items { epoch.new.entries.items ≡ epoch.old.entries.items ++ entries_of who end (role_loss roles role) }
    ensures room { epoch.old.entries.room ≤ epoch.new.entries.room + 1 }
    ensures same { IsSameEpoch epoch.old epoch.new }
{
    if contains(roles, role) {
        let cause = LostCause::Fault;
        append_entry(epoch, who, end, Event::Lost { role, cause });
    }
}

// A loss for each role in the set, in order.
fn enter_roles(epoch: &mut Epoch, who: Who, end: u64, roles: u32)
    requires room { 16 ≤ epoch.old.entries.room }
    requires number { who.number ≤ length epoch.old.entries.items }
    ensures items { epoch.new.entries.items ≡ epoch.old.entries.items ++ entries_of who end (role_losses roles 16) }
    ensures room { epoch.old.entries.room ≤ epoch.new.entries.room + 16 }
    ensures same { IsSameEpoch epoch.old epoch.new }
{
    for role in 0..16u32 {
        enter_role(epoch, who, end, roles, role);
    }
}

// A loss of this spare, if it is in the set.
fn enter_spare(epoch: &mut Epoch, who: Who, end: u64, spares: u32, slot: u32)
    requires room { 0 < epoch.old.entries.room }
    requires number { who.number ≤ length epoch.old.entries.items }
    requires slot { slot < 32 }
    ensures items { epoch.new.entries.items ≡ epoch.old.entries.items ++ entries_of who end (spare_loss spares slot) }
    ensures room { epoch.old.entries.room ≤ epoch.new.entries.room + 1 }
    ensures same { IsSameEpoch epoch.old epoch.new }
{
    if contains(spares, slot) {
        append_entry(epoch, who, end, Event::SpareLost { slot });
    }
}

// A loss for each spare in the set, in order.
fn enter_spares(epoch: &mut Epoch, who: Who, end: u64, spares: u32)
    requires room { 32 ≤ epoch.old.entries.room }
    requires number { who.number ≤ length epoch.old.entries.items }
    ensures items { epoch.new.entries.items ≡ epoch.old.entries.items ++ entries_of who end (spare_losses spares 32) }
    ensures room { epoch.old.entries.room ≤ epoch.new.entries.room + 32 }
    ensures same { IsSameEpoch epoch.old epoch.new }
{
    for slot in 0..32u32 {
        enter_spare(epoch, who, end, spares, slot);
    }
}

/// Enters a loss for each of these roles, and one for each of these spares.
pub fn append_losses(epoch: &mut Epoch, who: Who, end: u64, roles: u32, spares: u32)
    requires room { 48 ≤ epoch.old.entries.room }
    requires number { who.number ≤ length epoch.old.entries.items }
    ensures items { epoch.new.entries.items ≡ epoch.old.entries.items ++ entries_of who end (losses_of roles spares) }
    ensures room { epoch.old.entries.room ≤ epoch.new.entries.room + 48 }
    ensures same { IsSameEpoch epoch.old epoch.new }
{
    if roles == 0 && spares == 0 {
        return;
    }
    enter_roles(epoch, who, end, roles);
    enter_spares(epoch, who, end, spares);
}
