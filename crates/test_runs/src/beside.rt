//! That the worker runs beside the lanes.

ghost use Rattle.std.specs.Prelude.{◌≡◌};

use crate::runs::{PLAIN, Row, bank_of, source_of};
use run_scripts::{Hook, Pace, run_script};
use script_io::MemorySink;
use std::alloc::Global;
use std::sync::Wait;
use std::test::Fail;
use std::thread::Threads;
use test_gate_bank::Words;

// A block beside a grow.
const BESIDE: Row = Row {
    create: false,
    lines: "create 6ba7b810-9dad-11d1-80b4-00c04fd430c8 level=5 disks=4 chunk=8 size=128 offset=16\nadd 4\ngrow disks=5\ntogether\na: write 0 1 77\na: flush\nb: read 0 1\nend\n",
    ..PLAIN
};

// The status of a run in which lane a's write, which has the seed 77, waits at the bank until the pace is asked, and the pace until the
// write waits. The pace always answers 1.
fn status_beside(
    rt: &(impl Threads + Wait + Sync),
    alloc: Global,
    words: &Words,
) -> Result<u8, Fail> {
    let mut source = source_of(alloc, &BESIDE)?;
    let mut sink = MemorySink::new(alloc, 4096, Vec::new(alloc))?;
    let memory = bank_of(alloc, &BESIDE)?;
    let bank = words.bank(memory, [77, 0, 0, 0])?;
    let pace = Pace::new(
        |_, _| -> u64
            ensures { result ≡ 1 }
        {
            words.open();
            1
        },
    );
    let report = run_script(
        rt,
        alloc,
        None,
        &mut source,
        &mut sink,
        bank,
        Some(7),
        &pace,
        &Hook::new(|_, _| true),
    );
    Ok(report.status)
}

// Who runs the worker behind the lanes, or them behind it, waits in vain.
#[test]
fn worker_beside_lanes(rt: HostRuntime) -> Result<(), Fail> {
    let words = Words::new(rt.alloc())?;
    assert!(rt; status_beside(&rt, rt.alloc(), &words)? == 0);
    assert!(rt; !words.was_late());
    Ok(())
}
