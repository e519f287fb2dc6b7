//! The text of `alerts`.

ghost use Rattle.std.specs.Prelude.{◌+◌, ◌*◌, length};
ghost use Rattle.script.specs.Appends.{Appends, AppendsFew};
ghost use Rattle.script_status.specs.AlertTexts.{alert_text, alerts_text, each_text};

use crate::words::{push_counted, push_words};
use history_monitor::{Alert, AlertKind};
use std::alloc::AllocError;

/// Appends how many alerts there are, and each of them, in one line, less its end.
pub fn push_alerts(text: &mut Vec<u8>, alerts: &[Alert]) -> Result<(), AllocError>
    ensures appended { Appends text.old text.new result (alerts_text alerts.now) }
    ensures short { AppendsFew (30 + 40 * length alerts.now) text.old text.new result }
{
    push_counted(text, "alerts ", alerts.len() as u64)?;
    push_each(text, alerts)
}

fn push_each(text: &mut Vec<u8>, alerts: &[Alert]) -> Result<(), AllocError>
    ensures appended { Appends text.old text.new result (each_text alerts.now) }
    ensures short { AppendsFew (40 * length alerts.now) text.old text.new result }
{
    for alert in alerts {
        push_alert(text, *alert)?;
    }
    Ok(())
}

// Appends an alert's name, and the role or slot that it tells of, if it tells of one.
fn push_alert(text: &mut Vec<u8>, alert: Alert) -> Result<(), AllocError>
    ensures appended { Appends text.old text.new result (alert_text alert.kind alert.number) }
    ensures short { AppendsFew 40 text.old text.new result }
{
    let number = u64::from(alert.number);
    match alert.kind {
        AlertKind::RebuildStarted => push_words(text, " RebuildStarted"),
        AlertKind::RebuildFinished => push_words(text, " RebuildFinished"),
        AlertKind::Fail => push_counted(text, " Fail ", number),
        AlertKind::FailSpare => push_counted(text, " FailSpare ", number),
        AlertKind::SpareActive => push_counted(text, " SpareActive ", number),
        AlertKind::DegradedArray => push_counted(text, " DegradedArray ", number),
    }
}
