//! The spares as an update leaves them.

ghost use Rattle.std.specs.Prelude.{◌≡◌, ◌<◌, ◌&&◌, not, ℕ};
ghost use Rattle.sb_specs.specs.raid_types_Shapes.{has_slot};
ghost use Rattle.sb_specs.specs.Update.{is_planned_spare, give_of};
ghost use Rattle.sb_specs.specs.Outcome.{slots_below, planned_spares};

use bank::SlotList;
use sb_specs::roles::is_planned_spare;
use sb_specs::sets::{contains, with};
use sb_specs::{Change, Members};

// The set of the spares after the update.
fn spare_set(members: &Members, change: &Change) -> u32
    ensures { (s : ℕ) → s < 32 → has_slot result s ≡
        (not (has_slot members.now.lost s) && is_planned_spare members.now.spares change.now.added (give_of change.now.gives s) s) }
{
    let mut spares = 0;
    for slot in 0..32u32 {
        let give = change.gives[slot as usize];
        if !contains(members.lost, slot)
            && is_planned_spare(&members.spares, &change.added, give, slot)
        {
            spares = with(spares, slot);
        }
    }
    spares
}

// The slots of a set, in order.
fn put_slots(slots: &mut SlotList, set: u32)
    ensures { slots.new ≡ slots_below 32 (has_slot set) }
{
    slots.clear();
    for slot in 0..32u32 {
        if contains(set, slot) {
            slots.push(slot);
        }
    }
}

/// Sets the spares.
pub fn keep_spares(members: &mut Members, change: &Change)
    ensures { members.new ≡ record members.old { spares = planned_spares members.old change.now members.old.lost } }
{
    let spares = spare_set(members, change);
    put_slots(&mut members.spares, spares);
}
