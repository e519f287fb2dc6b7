//! What scan after scan tells is what the whole history tells.

ghost use Rattle.std.specs.Prelude.{◌≡◌, ℕ, ◌++◌, List, take};
ghost use Rattle.history.specs.declared.events.Entry.{Entry};
ghost use Rattle.history_monitor.specs.declared.past.Past.{Past};
ghost use Rattle.history_monitor.specs.declared.alerts.Alert.{Alert};
ghost use Rattle.history_monitor.specs.Hooks.{wanted_by};
ghost use Rattle.history_monitor.specs.Alerts.{past_of, alerts, alerts_since};
ghost use Rattle.history_monitor.specs.Told.{AreTold, HasScanned};

use crate::alerts::AlertKind;
use crate::hook::Hook;

/// The alerts of a history are those of its first entries and those since then.
pub fn alerts_add_up()
    ensures { (n : ℕ) (entries : List Entry) → alerts entries ≡ alerts (take n entries) ++ alerts_since n entries }
{}

/// What was scanned stays scanned as the history grows.
pub fn scanned_stays_scanned()
    ensures { (entries more : List Entry) → HasScanned (past_of entries) (entries ++ more) }
{}

/// Two lists that were told, joined, are what is told of the alerts of both.
pub fn told_lists_join<F: Fn(AlertKind, u32) -> bool>(hook: &Hook<F>)
    ensures { (one two told_one told_two : List Alert) → AreTold (F.post (wanted_by hook.now)) one told_one → AreTold (F.post (wanted_by hook.now)) two told_two
        → AreTold (F.post (wanted_by hook.now)) (one ++ two) (told_one ++ told_two) }
{}

/// A caller who asks again and again has been told what a whole scan would tell: one turn of that.
pub fn scans_add_up<F: Fn(AlertKind, u32) -> bool>(hook: &Hook<F>)
    ensures { (n : ℕ) (entries : List Entry) (before told : List Alert) → AreTold (F.post (wanted_by hook.now)) (alerts (take n entries)) before
        → AreTold (F.post (wanted_by hook.now)) (alerts_since n entries) told
        → AreTold (F.post (wanted_by hook.now)) (alerts entries) (before ++ told) }
{}
