//! Runs in which a call of the bank, the source or the sink fails, or whose lanes have a worker that is asked for one step at a time. Their
//! replies are worked out by hand, those of `grow` are of an engine that was written from the rules alone. Runs in which nothing fails are
//! in `examples/cases`.

ghost use Rattle.std.specs.Prelude.{◌≡◌, length, IfOk};

use bank::MemoryBank;
use run_scripts::{AlertKind, Hook, Pace, Report, run_script};
use script_io::{MemorySink, MemorySource};
use std::alloc::Global;
use std::process::Abort;
use std::sync::Wait;
use std::test::Fail;
use std::thread::Threads;

const CREATE: &str =
    "create 6ba7b810-9dad-11d1-80b4-00c04fd430c8 level=5 disks=3 chunk=8 size=40 offset=16\n";

/// A run: whether the line above stands first, the lines behind it, the length of a slot and how many operations the bank has room
/// for, and the numbers of the calls of bank, source and sink that fail; and then the status and the replies.
#[derive(Clone, Copy)]
pub struct Row {
    pub create: bool,
    pub lines: &'static str,
    pub length: u64,
    pub room: u64,
    pub calls: &'static [u64],
    pub pulls: &'static [u64],
    pub pushes: &'static [u64],
    pub status: u8,
    pub output: &'static [u8],
}

/// Slots in which an array of 128 rows has room, and the backup a window of 96 sectors.
pub const PLAIN: Row = Row {
    create: true,
    lines: "",
    length: 160,
    room: 8_192,
    calls: &[],
    pulls: &[],
    pushes: &[],
    status: 0,
    output: b"",
};

pub fn source_of(alloc: Global, row: &Row) -> Result<MemorySource, Fail> {
    let mut text = Vec::new(alloc);
    if row.create {
        text.extend_from_slice(CREATE.as_bytes())?;
    }
    text.extend_from_slice(row.lines.as_bytes())?;
    let pulls = Vec::from_slice(alloc, row.pulls)?;
    Ok(MemorySource::new(text, pulls))
}

/// Eight slots, the last of which is the backup.
pub fn bank_of(alloc: Global, row: &Row) -> Result<MemoryBank, Fail>
    ensures { IfOk result (λ bank. length bank.start ≡ 8) }
{
    let lengths = vec![in alloc; row.length; 8]?;
    let calls = Vec::from_slice(alloc, row.calls)?;
    Ok(MemoryBank::new(alloc, lengths, row.room, calls)?)
}

// The report of a run whose hook wants every alert, or the urgent ones alone, and what its sink took.
fn ran<R: Threads + Wait + Sync>(
    rt: &R,
    alloc: Global,
    row: &Row,
    urgent_alone: bool,
) -> Result<(Report<MemoryBank>, Vec<u8>), Fail> {
    let mut source = source_of(alloc, row)?;
    let pushes = Vec::from_slice(alloc, row.pushes)?;
    let mut sink = MemorySink::new(alloc, 4096, pushes)?;
    let bank = bank_of(alloc, row)?;
    let pace = Pace::new(
        |_, _| -> u64
            ensures { result ≡ 1 }
        { 1 },
    );
    let hook = Hook::new(move |kind, _number| match kind {
        AlertKind::Fail | AlertKind::DegradedArray => true,
        _ => !urgent_alone,
    });
    let report = run_script(
        rt,
        alloc,
        None,
        &mut source,
        &mut sink,
        bank,
        Some(7),
        &pace,
        &hook,
    );
    let taken = Vec::from_slice(alloc, sink.bytes())?;
    Ok((report, taken))
}

fn compare<R: Threads + Wait + Sync + Abort>(
    rt: &R,
    alloc: Global,
    rows: &[Row],
) -> Result<(), Fail> {
    for row in rows {
        let (report, taken) = ran(rt, alloc, row, false)?;
        assert!(rt; taken.as_slice() == row.output, "{}", row.lines);
        assert!(rt;
            report.status == row.status && report.bad_line == 0,
            "{}",
            row.lines
        );
        assert!(rt; report.shown == row.output.len() as u64, "{}", row.lines);
    }
    Ok(())
}

// Lines behind `create`, and the calls of the bank that fail. The array has 40 rows on three of the bank's eight slots.
// Making it takes 147 calls: 7 reads and 8 flushes, as all slots are looked at; 3 * (40 writes and a flush) for the zeros;
// 3 * (a read, a write and a flush) for the superblocks.
const RUNS: [Row; 12] = [
    // the first read of a row fails, and its sector is filled in
    Row {
        lines: "read 0 1\n",
        calls: &[147],
        output: b"created\nread 0 1: zero x1\n",
        ..PLAIN
    },
    // and so does the next one, by which it was to be filled in
    Row {
        lines: "read 0 1\n",
        calls: &[147, 148],
        status: 1,
        output: b"created\nrefused 2 TooManyMissing 2 1\n",
        ..PLAIN
    },
    // the first write of the second member fails
    Row {
        lines: "write 0 1 7\nread 0 1\n",
        calls: &[56],
        status: 1,
        output: b"refused 9 SlotFault 1\nrefused 28 NotRunning\nrefused 28 NotRunning\n",
        ..PLAIN
    },
    // the superblocks of the first two members can't be read again
    Row {
        lines: "stop\nassemble\nassemble\n",
        calls: &[150, 151],
        status: 1,
        output: b"created\nstopped\nrefused 24 MembersMissing 2 1\nrefused 24 MembersMissing 2 1\n",
        ..PLAIN
    },
    // that of the first member can't, so that its role is missing from the opening on, until it is rebuilt on a spare
    Row {
        lines: "stop\nassemble\nadd 3\nwait\nfail 1\nread 0 1\n",
        calls: &[150],
        output: b"created\nstopped\nassembled level 5 disks 3 chunk 8 size 40 layout left-symmetric visible 80 left 0\nadded 3\nwaited left 0\nfailed 1\nread 0 1: zero x1\n",
        ..PLAIN
    },
    // a slot that fails has no superblock to show
    Row {
        create: false,
        lines: "examine 5\nexamine 5\nexamine 4\nexamine 8\n",
        calls: &[0],
        status: 1,
        output: b"refused 9 SlotFault 5\nrefused 9 SlotFault 5\nslot 4 no superblock\nrefused 30 NoSuchSlot 8\n",
        ..PLAIN
    },
    Row {
        lines: "examine 1\nread 8 1\nmdstat\n",
        calls: &[147],
        status: 1,
        output: b"created\nrefused 9 SlotFault 1\nread 8 1: zero x1\nmd: raid5 [3/2] [U_U] 80 sectors\n",
        ..PLAIN
    },
    Row {
        lines: "read 0 1\n",
        pulls: &[0],
        status: 4,
        ..PLAIN
    },
    Row {
        lines: "write 0 1 7\nread 0 2\n",
        pushes: &[1],
        status: 5,
        output: b"created\n",
        ..PLAIN
    },
    // the sink fails amid a block, whose lines were performed all the same
    Row {
        lines: "together\na: write 0 1 7\na: read 0 1\nb: flush\nend\n",
        pushes: &[2],
        status: 5,
        output: b"created\na: wrote 0 1\n",
        ..PLAIN
    },
    // the flush behind the first section's header fails: that window is not written to any more, and the reshape stays where it is
    Row {
        create: false,
        lines: "create 6ba7b810-9dad-11d1-80b4-00c04fd430c8 level=5 disks=4 chunk=8 size=128 offset=16\nadd 4\nwrite 0 96 3\nflush\ngrow disks=5\nstep 2\nwrite 0 1 5\nread 0 1\nwrite 96 1 5\nstep 1\n",
        calls: &[862],
        status: 1,
        output: b"created\nadded 4\nwrote 0 96\nflushed\nplanned 26\nstepped 1 left 25 refused 4 BackupFault\nrefused 4 BackupFault\nread 0 1: seed 3 x1\nwrote 96 1\nstepped 0 left 25 refused 4 BackupFault\n",
        ..PLAIN
    },
    // lanes that read and write before and behind the reshape, and beside it; slots of the length that `memory` has
    Row {
        create: false,
        lines: "create 6ba7b810-9dad-11d1-80b4-00c04fd430c8 level=5 disks=6 chunk=128 size=4096\nwrite 0 128 1\nwrite 20352 128 2\nflush\ngrow chunk=1024\ntogether\na: write 128 64 3\na: read 128 64\nb: write 10240 64 4\nb: flush\nb: read 10240 64\nend\nstop\nassemble\nread 0 128\nread 128 64\nread 10240 64\nread 20352 128\n",
        length: 6144,
        room: 262_144,
        output: b"created\nwrote 0 128\nwrote 20352 128\nflushed\nplanned 14\na: wrote 128 64\na: read 128 64: seed 3 x64\nb: wrote 10240 64\nb: flushed\nb: read 10240 64: seed 4 x64\nworker: left 0\nstopped\nassembled level 5 disks 6 chunk 1024 size 4096 layout left-symmetric visible 20480 left 0\nread 0 128: seed 1 x128\nread 128 64: seed 3 x64\nread 10240 64: seed 4 x64\nread 20352 128: seed 2 x128\n",
        ..PLAIN
    },
];

#[test]
fn runs_of_scripts(rt: HostRuntime) -> Result<(), Fail> {
    compare(&rt, rt.alloc(), &RUNS)
}

// A role is failed, and rebuilt onto a spare.
const REBUILT: Row = Row {
    lines: "add 3\nfail 1\nstep 7\nalerts\nalerts\n",
    output: b"created\nadded 3\nfailed 1\nstepped 7 left 0\nalerts 1 Fail 1\nalerts 0\n",
    ..PLAIN
};

#[test]
fn urgent_alerts_alone(rt: HostRuntime) -> Result<(), Fail> {
    let (report, taken) = ran(&rt, rt.alloc(), &REBUILT, true)?;
    assert!(rt; report.status == 0 && taken.as_slice() == REBUILT.output);
    Ok(())
}
