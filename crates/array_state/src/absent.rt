//! The roles that aren't whole where an array begins.

ghost use Rattle.std.specs.Prelude.{◌≡◌, ◌<◌, ◌≤◌, ◌+◌, ◌++◌, length};
ghost use Rattle.sb_add_spare.specs.stripe_row_Rows.{reading_of};
ghost use Rattle.sb_add_spare.specs.history_Plain.{entries_of};
ghost use Rattle.array_call_laws.specs.history_append_Losing.{IsSameEpoch};
ghost use Rattle.array_call_laws.specs.array_call_specs_Adopting.{opener, absent_loss, absent_losses};

use array_call_laws::{Epoch, Event, LostCause, Who, append_entry};
use stripe_io::{Members, Role};

// The loss of this role, if it isn't whole.
fn enter_absent(epoch: &mut Epoch, members: &Members, end: u64, role: u32)
    requires room { 0 < epoch.old.entries.room }
    requires role { role < length members.now.roles }
    ensures items { epoch.new.entries.items ≡ epoch.old.entries.items ++ entries_of opener end (absent_loss (reading_of members.now) role) }
    ensures room { epoch.old.entries.room ≤ epoch.new.entries.room + 1 }
    ensures same { IsSameEpoch epoch.old epoch.new }
    ensures last { epoch.old.last ≡ end → epoch.new.last ≡ end }
{
    let opener = Who {
        caller: 254,
        number: 0,
    };
    let cause = match members.roles.get(role) {
        Role::Whole(_) => return,
        Role::Recovering(_) => LostCause::Recovering,
        Role::Missing => LostCause::Absent,
    };
    append_entry(epoch, opener, end, Event::Lost { role, cause });
}

/// Enters the losses of the roles below `disks` that aren't whole, in order, of caller 254 at the mark `end`. It takes no
/// memory.
pub fn append_absent(epoch: &mut Epoch, members: &Members, end: u64, disks: u32)
    requires room { 17 ≤ epoch.old.entries.room }
    requires disks { disks ≤ 16 }
    requires roles { disks ≤ length members.now.roles }
    ensures items { epoch.new.entries.items ≡ epoch.old.entries.items ++ entries_of opener end (absent_losses (reading_of members.now) disks) }
    ensures room { 1 ≤ epoch.new.entries.room }
    ensures same { IsSameEpoch epoch.old epoch.new }
    ensures last { epoch.old.last ≡ end → epoch.new.last ≡ end }
{
    for role in 0..disks {
        enter_absent(epoch, members, end, role);
    }
}
