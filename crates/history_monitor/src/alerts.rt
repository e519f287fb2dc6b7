//! What is told.

use raid_types::NoMemory;
use std::alloc::Global;
use std::marker::Model;

#[derive(Clone, Copy, Debug, PartialEq, Eq)]
pub enum AlertKind {
    RebuildStarted,
    RebuildFinished,
    Fail,
    FailSpare,
    SpareActive,
    DegradedArray,
}

/// An alert of the entry at a place, with the number of its role or slot; 0 where a rebuild started or finished.
#[derive(Clone, Copy, Debug, PartialEq, Eq)]
pub struct Alert {
    pub kind: AlertKind,
    pub number: u32,
    pub place: u64,
}

/// Alerts, in order.
#[derive(Drop)]
pub struct AlertList {
    alerts: Vec<Alert>,
}

impl Model for AlertList {
    ghost use Rattle.std.specs.Prelude.{List};
    ghost use Rattle.history_monitor.specs.declared.alerts.Alert.{Alert};

    ghost Value = { List Alert };

    ghost view = { λ l. l.alerts.items };
}

impl AlertList {
    ghost use Rattle.std.specs.Prelude.{◌≡◌, ◌++◌, [], ◌∷◌, length, OnOk};

    /// No alerts.
    pub fn new(alloc: Global) -> AlertList
        ensures { result ≡ [] }
    {
        AlertList {
            alerts: Vec::new(alloc),
        }
    }

    /// How many there are.
    pub fn len(&self) -> usize
        ensures { result ≡ length self.now }
    {
        self.alerts.len()
    }

    pub fn as_slice(&self) -> &[Alert]
        ensures { result.now ≡ self.now }
    {
        self.alerts.as_slice()
    }

    /// One alert more, at the end.
    pub fn push(&mut self, alert: Alert) -> Result<(), NoMemory>
        ensures { OnOk result (self.new ≡ self.old ++ alert ∷ []) }
    {
        if self.alerts.push(alert).is_err() {
            return Err(NoMemory {});
        }
        Ok(())
    }
}
