//! Which alerts are wanted: the caller's choice.

ghost use Rattle.std.specs.Prelude.{◌≡◌, true};
ghost use Rattle.history_monitor.specs.Urgent.{is_urgent, WantsUrgent};

use crate::alerts::{Alert, AlertKind};

/// A closure that says of an alert's kind and number whether it is wanted. Each function that asks it requires that it may be
/// called on every pair and wants the urgent ones, since a struct cannot keep such a fact of a closure of any type.
#[derive(Drop)]
pub struct Hook<F> {
    f: F,
}

impl<F: Fn(AlertKind, u32) -> bool> Hook<F> {
    ghost use Rattle.history_monitor.specs.Hooks.{wanted_by};

    /// A hook that asks this closure.
    pub fn new(f: F) -> Hook<F>
        requires callable { F.IsAlwaysCallable f }
        requires urgent { WantsUrgent (F.post f) }
        ensures { wanted_by result ≡ f }
    {
        Hook { f }
    }

    /// Whether the alert is wanted.
    pub fn wants(&self, alert: &Alert) -> bool
        requires callable { F.IsAlwaysCallable (wanted_by self.now) }
        requires urgent { WantsUrgent (F.post (wanted_by self.now)) }
        ensures asked { F.post (wanted_by self.now) alert.now.kind alert.now.number result }
        ensures urgent { is_urgent alert.now.kind ≡ true → result ≡ true }
    {
        (self.f)(alert.kind, alert.number)
    }
}
