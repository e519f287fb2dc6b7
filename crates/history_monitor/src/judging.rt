//! One entry: what it tells, and what it leaves to know.

ghost use Rattle.std.specs.Prelude.{◌≡◌, ◌+◌, ◌<◌, ◌^◌};
ghost use Rattle.history_monitor.specs.Alerts.{alert, unless, of_loss as alert_of_loss, of_step as alert_of_step, alert_at, past_after, is_absence, is_resync_stripe, rebuilding_after};

use crate::alerts::{Alert, AlertKind};
use crate::past::Past;
use history::{Event, LostCause, StepKind};

// The alert of this kind, of the next entry.
fn next_alert(past: &Past, kind: AlertKind, number: u32) -> Alert
    ensures { result ≡ alert past.now kind number }
{
    Alert {
        kind,
        number,
        place: past.scanned,
    }
}

// The same, unless it was told before.
fn first_alert(past: &Past, told: bool, kind: AlertKind, number: u32) -> Option<Alert>
    ensures { result ≡ unless told (alert past.now kind number) }
{
    if told {
        None
    } else {
        Some(next_alert(past, kind, number))
    }
}

// The alert of a lost role.
fn of_loss(past: &Past, role: u32, cause: LostCause) -> Option<Alert>
    ensures { result ≡ alert_of_loss past.now role cause }
{
    match cause {
        LostCause::Command | LostCause::Fault => Some(next_alert(past, AlertKind::Fail, role)),
        LostCause::Absent | LostCause::Recovering => {
            first_alert(past, past.degraded, AlertKind::DegradedArray, role)
        }
    }
}

// The alert of a step.
fn of_step(past: &Past, kind: StepKind) -> Option<Alert>
    ensures { result ≡ alert_of_step past.now kind }
{
    match kind {
        StepKind::Begun => Some(next_alert(past, AlertKind::RebuildStarted, 0)),
        StepKind::ResyncStripe => first_alert(past, past.resynced, AlertKind::RebuildStarted, 0),
        StepKind::RebuildTaken | StepKind::RebuildStripe => {
            first_alert(past, past.rebuilding, AlertKind::RebuildStarted, 0)
        }
        StepKind::Finished | StepKind::ResyncEnded | StepKind::RebuildEnded => {
            Some(next_alert(past, AlertKind::RebuildFinished, 0))
        }
        _ => None,
    }
}

/// The alert of an event behind such a past, if there is one.
pub(crate) fn alert_of(past: &Past, event: &Event) -> Option<Alert>
    ensures { result ≡ alert_at past.now event.now }
{
    match event {
        Event::Lost { role, cause } => of_loss(past, *role, *cause),
        Event::SpareLost { slot } => Some(next_alert(past, AlertKind::FailSpare, *slot)),
        Event::Rebuilt { role } => Some(next_alert(past, AlertKind::SpareActive, *role)),
        Event::Step { kind, .. } => of_step(past, *kind),
        _ => None,
    }
}

// Whether a role had no whole holder at the opening.
fn tells_absence(event: &Event) -> bool
    ensures { result ≡ is_absence event.now }
{
    match event {
        Event::Lost { cause, .. } => match cause {
            LostCause::Absent | LostCause::Recovering => true,
            LostCause::Command | LostCause::Fault => false,
        },
        _ => false,
    }
}

// Whether a rebuild is under way behind the event.
fn goes_on(rebuilding: bool, event: &Event) -> bool
    ensures { result ≡ rebuilding_after rebuilding event.now }
{
    match event {
        Event::Lost { .. } | Event::Rebuilt { .. } => false,
        Event::Step { kind, .. } => match kind {
            StepKind::RebuildTaken | StepKind::RebuildStripe => true,
            _ => rebuilding,
        },
        _ => rebuilding,
    }
}

// Whether the event is the resync of a stripe.
fn resyncs(event: &Event) -> bool
    ensures { result ≡ is_resync_stripe event.now }
{
    match event {
        Event::Step { kind, .. } => match kind {
            StepKind::ResyncStripe => true,
            _ => false,
        },
        _ => false,
    }
}

/// What is known one event later.
pub(crate) fn known_after(past: &Past, event: &Event) -> Past
    requires { past.now.scanned + 1 < 2 ^ 64 }
    ensures { result ≡ past_after past.now event.now }
{
    Past {
        scanned: past.scanned + 1,
        degraded: past.degraded || tells_absence(event),
        resynced: past.resynced || resyncs(event),
        rebuilding: goes_on(past.rebuilding, event),
    }
}
