//! The slots that recover a role.

ghost use Rattle.std.specs.Prelude.{◌≡◌, ◌<◌, ◌≤◌, ℕ, length, Some};
ghost use Rattle.array_reshaping_state.specs.sb_specs_Reading.{role_state, holder};
ghost use Rattle.array_reshaping_state.specs.stripe_row_Rows.{reading_of, members_without};
ghost use Rattle.array_open_window.specs.Recovering.{AreRecovering};

use array_reshaping_state::{Members, Role, lose_slots, with};

// A bit for each slot that recovers a role.
fn recovering_slots(members: &Members) -> u32
    requires few { length members.now.roles ≤ 16 }
    requires small { (role slot : ℕ) → holder (role_state (reading_of members.now) role) ≡ Some slot → slot < 32 }
    ensures { AreRecovering members.now result }
{
    let mut slots = 0;
    for role in 0..members.roles.len() as u32 {
        if let Role::Recovering(slot) = members.roles.get(role) {
            slots = with(slots, slot);
        }
    }
    slots
}

/// The slots that recover a role are lost, and those roles are missing. The answer has a bit for each of these slots. Where a reshape is
/// active they count as absent, so an opening loses them first.
pub fn lose_recovering(members: &mut Members) -> u32
    requires few { length members.old.roles ≤ 16 }
    requires small { (role slot : ℕ) → holder (role_state (reading_of members.old) role) ≡ Some slot → slot < 32 }
    ensures recovering { AreRecovering members.old result }
    ensures members { members.new ≡ members_without result members.old }
{
    let slots = recovering_slots(members);
    lose_slots(members, slots);
    slots
}
