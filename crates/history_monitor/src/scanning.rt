//! The monitor.

ghost use Rattle.std.specs.Prelude.{◌≡◌, OnOk};
ghost use Rattle.history_monitor.specs.Hooks.{wanted_by};
ghost use Rattle.history_monitor.specs.Urgent.{WantsUrgent};
ghost use Rattle.history_monitor.specs.Alerts.{as_list, past_of, alerts_since};
ghost use Rattle.history_monitor.specs.Told.{AreTold, AreAdded, HasScanned};

use crate::alerts::{Alert, AlertKind, AlertList};
use crate::hook::Hook;
use crate::judging::{alert_of, known_after};
use crate::past::Past;
use history::Entries;
use raid_types::NoMemory;
use std::alloc::Global;
use std::marker::Model;

/// Scans a history as it grows, and keeps of what it scanned only what later alerts depend on; that is what contracts see.
#[derive(Drop)]
pub struct Monitor {
    past: Past,
}

impl Model for Monitor {
    ghost use Rattle.history_monitor.specs.declared.past.Past.{Past};

    ghost Value = { Past };

    ghost view = { λ m. m.past };
}

// Puts the alert, if there is one and it is wanted, behind the list.
fn tell<F: Fn(AlertKind, u32) -> bool>(
    list: &mut AlertList,
    alert: Option<Alert>,
    hook: &Hook<F>,
) -> Result<(), NoMemory>
    requires callable { F.IsAlwaysCallable (wanted_by hook.now) }
    requires urgent { WantsUrgent (F.post (wanted_by hook.now)) }
    ensures { OnOk result (AreAdded (F.post (wanted_by hook.now)) (as_list alert) list.old list.new) }
{
    if let Some(alert) = alert {
        if hook.wants(&alert) {
            return list.push(alert);
        }
    }
    Ok(())
}

impl Monitor {
    ghost use Rattle.std.specs.Prelude.{[], IfOk, OnErr};

    /// A monitor that has scanned nothing; it takes no memory.
    pub fn new() -> Monitor
        ensures { result ≡ past_of [] }
    {
        Monitor {
            past: Past {
                scanned: 0,
                degraded: false,
                resynced: false,
                rebuilding: false,
            },
        }
    }

    /// The wanted alerts of the entries that are new since the last scan, in order. Without memory for them nothing is scanned.
    pub fn scan<F: Fn(AlertKind, u32) -> bool>(
        &mut self,
        alloc: Global,
        entries: &Entries,
        hook: &Hook<F>,
    ) -> Result<AlertList, NoMemory>
        requires begins { HasScanned self.old entries.now.items }
        requires callable { F.IsAlwaysCallable (wanted_by hook.now) }
        requires urgent { WantsUrgent (F.post (wanted_by hook.now)) }
        ensures told { IfOk result (AreTold (F.post (wanted_by hook.now)) (alerts_since self.old.scanned entries.now.items)) }
        ensures scanned { OnOk result (self.new ≡ past_of entries.now.items) }
        ensures kept { OnErr result (self.new ≡ self.old) }
    {
        let mut past = self.past;
        let mut list = AlertList::new(alloc);
        for at in past.scanned as usize..entries.len() {
            let event = &entries.get(at).event;
            tell(&mut list, alert_of(&past, event), hook)?;
            past = known_after(&past, event);
        }
        self.past = past;
        Ok(list)
    }
}
