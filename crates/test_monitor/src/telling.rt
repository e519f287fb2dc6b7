//! A role that is failed and rebuilt onto a spare; a caller who wants failures alone; an array that is opened with a role absent, and resynced.
ghost use Rattle.std.specs.Prelude.{◌≡◌};
ghost use Rattle.history_monitor.specs.Told.{HasScanned};

use history::{Entries, Entry, Event, LostCause, StepKind};
use history_monitor::{Alert, AlertKind, Hook, Monitor};
use std::alloc::Global;
use std::test::Fail;

// One entry more, of caller 0.
fn put(entries: &mut Entries, event: Event) -> Result<(), Fail> {
    if entries.make_room(1).is_err() {
        return Err(Fail::from("no memory"));
    }
    entries.put(Entry {
        caller: 0,
        number: 0,
        end: 0,
        event,
    });
    Ok(())
}

// A step, of which it doesn't matter what it leaves.
fn step(kind: StepKind) -> Event {
    Event::Step { kind, left: 0 }
}

// Role 1 is failed, and rebuilt onto a spare in seven steps.
fn rebuilt(alloc: Global) -> Result<Entries, Fail> {
    let mut entries = Entries::new(alloc);
    put(&mut entries, Event::Added { slot: 3 })?;
    put(
        &mut entries,
        Event::Lost {
            role: 1,
            cause: LostCause::Command,
        },
    )?;
    put(&mut entries, Event::Failed { role: 1 })?;
    put(&mut entries, step(StepKind::RebuildTaken))?;
    for _stripe in 0..5u32 {
        put(&mut entries, step(StepKind::RebuildStripe))?;
    }
    put(&mut entries, step(StepKind::RebuildEnded))?;
    put(&mut entries, Event::Rebuilt { role: 1 })?;
    put(
        &mut entries,
        Event::Stepped {
            done: 7,
            left: 0,
            ended: None,
        },
    )?;
    Ok(entries)
}

// Roles 2 and 4 were absent at the opening, and two stripes were resynced.
fn resynced(alloc: Global) -> Result<Entries, Fail> {
    let mut entries = Entries::new(alloc);
    for role in [2, 4] {
        put(
            &mut entries,
            Event::Lost {
                role,
                cause: LostCause::Absent,
            },
        )?;
    }
    put(&mut entries, step(StepKind::ResyncStripe))?;
    put(&mut entries, Event::SpareLost { slot: 5 })?;
    put(&mut entries, step(StepKind::ResyncStripe))?;
    put(&mut entries, step(StepKind::ResyncEnded))?;
    Ok(entries)
}

// Whether these are the kinds, numbers and places of the alerts.
fn are(alerts: &[Alert], want: &[(AlertKind, u32, u64)]) -> bool {
    if alerts.len() != want.len() {
        return false;
    }
    for at in 0..want.len() {
        let (kind, number, place) = want[at];
        if alerts[at]
            != (Alert {
                kind,
                number,
                place,
            })
        {
            return false;
        }
    }
    true
}

// What a monitor tells of a history, and what it tells when it is asked again.
fn told(
    alloc: Global,
    entries: &Entries,
    urgent_alone: bool,
    want: &[(AlertKind, u32, u64)],
) -> Result<bool, Fail> {
    let mut monitor = Monitor::new();
    let hook = Hook::new(|kind, _number| match kind {
        AlertKind::Fail | AlertKind::DegradedArray => true,
        _ => !urgent_alone,
    });
    let Ok(first) = monitor.scan(alloc, entries, &hook) else {
        return Err(Fail::from("no memory"));
    };
    let Ok(second) = monitor.scan(alloc, entries, &hook) else {
        return Err(Fail::from("no memory"));
    };
    Ok(are(first.as_slice(), want) && second.len() == 0)
}

// After `create`, `add 3`, `fail 1` and `step 7` the line `alerts` tells these four, and a second one none.
#[test]
fn a_rebuild_is_told_once(rt: HostRuntime) -> Result<(), Fail> {
    let alloc = rt.alloc();
    let want = [
        (AlertKind::Fail, 1, 1),
        (AlertKind::RebuildStarted, 0, 3),
        (AlertKind::RebuildFinished, 0, 9),
        (AlertKind::SpareActive, 1, 10),
    ];
    assert!(rt; told(alloc, &rebuilt(alloc)?, false, &want)?);
    assert!(rt; told(alloc, &rebuilt(alloc)?, true, &want[..1])?);
    let want = [
        (AlertKind::DegradedArray, 2, 0),
        (AlertKind::RebuildStarted, 0, 2),
        (AlertKind::FailSpare, 5, 3),
        (AlertKind::RebuildFinished, 0, 5),
    ];
    assert!(rt; told(alloc, &resynced(alloc)?, false, &want)?);
    assert!(rt; told(alloc, &resynced(alloc)?, true, &want[..1])?);
    Ok(())
}
