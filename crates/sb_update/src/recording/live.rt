//! The slots that an update writes.

ghost use Rattle.std.specs.Prelude.{◌≡◌, ◌<◌, ◌≤◌, length, IfSome};
ghost use Rattle.sb_specs.specs.Update.{is_live, is_added};
ghost use Rattle.sb_specs.specs.Outcome.{with_added, live_set, is_in_update};

use bank::{RoleList, SlotList};
use sb_specs::roles::{is_added, role_of};
use sb_specs::sets::{with, without};
use sb_specs::{Change, Members, Sb};

// Whether the slot holds a role or is a spare.
fn is_live(roles: &RoleList, spares: &SlotList, slot: u32) -> bool
    requires { length roles.now ≤ 16 }
    ensures { result ≡ is_live roles.now spares.now slot }
{
    role_of(roles.as_slice(), slot).is_some() || spares.contains(slot)
}

fn is_in_update(members: &Members, change: &Change, slot: u32) -> bool
    requires { length members.now.roles ≤ 16 }
    ensures { result ≡ is_in_update members.now change.now slot }
{
    is_live(&members.roles, &members.spares, slot) || is_added(&change.added, slot)
}

/// The slots that hold a role, are spares or are made one.
pub fn live_slots(members: &Members, change: &Change) -> u32
    requires { length members.now.roles ≤ 16 }
    ensures { result ≡ live_set members.now change.now }
{
    let mut live = 0;
    for slot in 0..32u32 {
        if is_in_update(members, change, slot) {
            live = with(live, slot);
        }
    }
    live
}

// A superblock with another event count.
fn with_events(sb: &Sb, events: u64) -> Sb
    ensures { result ≡ record sb.now { events = events } }
{
    Sb { events, ..*sb }
}

/// Takes in the slot that is made a spare.
pub fn take_added(members: &mut Members, added: &Option<(u32, Sb)>)
    requires { IfSome added.now (λ a. a.0 < 32) }
    ensures members { members.new ≡ with_added members.old added.now }
    ensures count { IfSome added.now (λ a. length members.new.own ≡ 32) }
{
    if let Some((slot, sb)) = added {
        let own = with_events(sb, members.newest.events);
        members.own.set(*slot, Some(own));
        members.lost = without(members.lost, with(0, *slot));
    }
}
