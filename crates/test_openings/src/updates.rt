//! Every mark of an update of five slots, with each single failing call: what the images of four picks say.

ghost use Rattle.std.specs.Prelude.{◌≡◌, ◌<◌, None};

use crate::banks::{bank_of, said_of};
use crate::checks::{are_live, may_give};
use crate::roles::{A, B, C, D, NONE};
use bank::{Bank, MemoryBank, Pick};
use raid_types::{Fault, Refusal, Role};
use sb_codec::{Sb, fields_of};
use sb_specs::says::role_count;
use sb_specs::sets::with;
use sb_specs::{Change, Give, Members};
use sb_update::update;
use std::alloc::Global;
use std::process::Abort;
use std::test::Fail;

const CLEAN: u64 = u64::MAX;

const DIRTY: u64 = 0;

const PICKS: [Pick; 4] = [
    Pick::Flushed,
    Pick::Latest,
    Pick::Mixed(0x5555_5555_5555_5555),
    Pick::Mixed(0xaaaa_aaaa_aaaa_aaaa),
];

/// What superblocks say: the event count, the clean mark, the slot of each role, and a bit for each spare.
type Said = (u64, u64, [Role; 4], u32);

/// An update: the role entries and the clean mark of five devices, the event count and the clean mark of the first, what
/// slot 4 gets, what is said before the update and after it, and the slots in the order in which they are written, each
/// with what is said where it is lost then.
#[derive(Clone, Copy)]
struct Case {
    entries: [u16; 5],
    mark: u64,
    first: (u64, u64),
    give: Give,
    former: Said,
    planned: Said,
    turns: [Option<(u32, Said)>; 6],
}

const NEW: Role = Role::Recovering(4);

const CASES: [Case; 3] = [
    // the array is marked dirty
    Case {
        entries: [3, 2, 1, 0, 0xffff],
        mark: CLEAN,
        first: (7, CLEAN),
        give: Give::Same,
        former: (7, CLEAN, [D, C, B, A], 16),
        planned: (8, DIRTY, [D, C, B, A], 16),
        turns: [
            Some((0, (9, DIRTY, [D, C, B, NONE], 16))),
            Some((1, (9, DIRTY, [D, C, NONE, A], 16))),
            Some((2, (9, DIRTY, [D, NONE, B, A], 16))),
            Some((3, (9, DIRTY, [NONE, C, B, A], 16))),
            Some((4, (9, DIRTY, [D, C, B, A], 0))),
            None,
        ],
    },
    // slot 0 is one event behind, and says that the array is clean; where it is lost in catching up, the update names it
    Case {
        entries: [3, 2, 1, 0, 0xffff],
        mark: DIRTY,
        first: (6, CLEAN),
        give: Give::Same,
        former: (7, DIRTY, [D, C, B, A], 16),
        planned: (8, CLEAN, [D, C, B, A], 16),
        turns: [
            Some((0, (8, CLEAN, [D, C, B, NONE], 16))),
            Some((0, (9, CLEAN, [D, C, B, NONE], 16))),
            Some((1, (9, CLEAN, [D, C, NONE, A], 16))),
            Some((2, (9, CLEAN, [D, NONE, B, A], 16))),
            Some((3, (9, CLEAN, [NONE, C, B, A], 16))),
            Some((4, (9, CLEAN, [D, C, B, A], 0))),
        ],
    },
    // role 3 is missing, and slots 3 and 4 are spares; slot 4 is written first
    Case {
        entries: [2, 1, 0, 0xffff, 0xffff],
        mark: CLEAN,
        first: (7, CLEAN),
        give: Give::Role {
            role: 3,
            recovery: Some(0),
        },
        former: (7, CLEAN, [C, B, A, NONE], 24),
        planned: (8, CLEAN, [C, B, A, NEW], 8),
        turns: [
            Some((4, (9, CLEAN, [C, B, A, NONE], 8))),
            Some((0, (9, CLEAN, [C, B, NONE, NEW], 8))),
            Some((1, (9, CLEAN, [C, NONE, A, NEW], 8))),
            Some((2, (9, CLEAN, [NONE, B, A, NEW], 8))),
            Some((3, (9, CLEAN, [C, B, A, NEW], 0))),
            None,
        ],
    },
];

// What the members of a bank of five slots say.
fn said_by(rt: &impl Abort, members: &Members) -> Said {
    assert!(rt; members.roles.len() == 4);
    let mut roles = [Role::Missing; 4];
    roles.copy_from_slice(members.roles.as_slice());
    let mut spares = 0;
    for slot in 0..5u32 {
        if members.spares.contains(slot) {
            spares = with(spares, slot);
        }
    }
    let newest = &members.newest;
    (newest.events, newest.resync_offset, roles, spares)
}

// The lowest role that is missing, of an array that is dirty.
fn dirty_degraded(said: Said) -> Option<u32> {
    for role in 0..4u32 {
        if said.1 == DIRTY && said.2[role as usize] == Role::Missing {
            return Some(role);
        }
    }
    None
}

// Whether an image answers this; a dirty array with a missing role is refused.
fn says(rt: &impl Abort, answer: &Result<Members, Fault>, said: Said) -> bool {
    match answer {
        Ok(members) => dirty_degraded(said).is_none() && said_by(rt, members) == said,
        Err(Fault::Refused(Refusal::DirtyDegraded(role))) => dirty_degraded(said) == Some(*role),
        Err(_) => false,
    }
}

// What the election answers on the image at a mark.
fn answer_at(
    rt: &impl Abort,
    alloc: Global,
    bank: &MemoryBank,
    mark: u64,
    pick: Pick,
) -> Result<Result<Members, Fault>, Fail> {
    assert!(rt; mark <= bank.ops());
    let mut image = bank.image(alloc, mark, pick, 0)?;
    Ok(said_of(rt, alloc, &mut image))
}

// At each mark an image says one of these, and at the last mark the last of them.
fn walk(
    rt: &impl Abort,
    alloc: Global,
    bank: &MemoryBank,
    former: Said,
    planned: Said,
    early: Said,
    last: Said,
) -> Result<(), Fail> {
    let end = bank.ops();
    for mark in 0..=end {
        for pick in PICKS {
            let answer = answer_at(rt, alloc, bank, mark, pick)?;
            let is_other = says(rt, &answer, former)
                || says(rt, &answer, planned)
                || says(rt, &answer, early);
            assert!(rt;
                says(rt, &answer, last) || mark < end && is_other,
                "at {mark}"
            );
        }
    }
    Ok(())
}

// Which slot is lost where this call of the update fails, and what is said at its end.
fn last_said(rt: &impl Abort, case: &Case, number: u64) -> (u32, Said) {
    let turn = number / 2;
    if turn >= 6 {
        return (0, case.planned);
    }
    let Some((slot, said)) = case.turns[turn as usize] else {
        return (0, case.planned);
    };
    assert!(rt; slot < 5);
    (with(0, slot), said)
}

// The clean mark that is planned, and what slot 4 gets.
fn change_of(case: &Case, newest: &Sb) -> Change
    ensures { result.added ≡ None }
{
    let mut gives = [Give::Same; 32];
    gives[4] = case.give;
    Change {
        shared: Sb {
            resync_offset: case.planned.1,
            ..*newest
        },
        gives,
        added: None,
    }
}

// The superblock of the device of this number, in an array of four disks at level 6, where the devices have these entries.
fn device(number: u32, entries: [u16; 5], events: u64, resync_offset: u64) -> Sb {
    let mut dev_roles = [0xfffe; 384];
    dev_roles[..5].copy_from_slice(&entries);
    Sb {
        magic: 0xa92b_4efc,
        major: 1,
        super_offset: 8,
        max_dev: 128,
        set_uuid: [7; 16],
        level: 6,
        layout: 2,
        size: 8,
        chunksize: 8,
        raid_disks: 4,
        data_offset: 16,
        dev_number: number,
        events,
        resync_offset,
        dev_roles,
        ..fields_of(&[0; 1024])
    }
}

// The device of each slot, the first one with its own event count and clean mark.
fn devices(entries: [u16; 5], resync_offset: u64, first: (u64, u64)) -> [Sb; 5] {
    let mut superblocks = [device(0, entries, first.0, first.1); 5];
    for number in 1..5u32 {
        superblocks[number as usize] = device(number, entries, 7, resync_offset);
    }
    superblocks
}

// The call of this number in the update is to fail; the election's five reads come before it. Where slot 4 is lost and
// was to get a role, what the others get first names it already.
fn try_failing(rt: &impl Abort, alloc: Global, case: &Case, number: u64) -> Result<(), Fail>
    requires { number < 100 }
{
    let superblocks = devices(case.entries, case.mark, case.first);
    let mut bank = bank_of(rt, alloc, &superblocks, 24, 64, &[5 + number])?;
    let mut members = said_of(rt, alloc, &mut bank).expect(rt, "members");
    assert!(rt; said_by(rt, &members) == case.former);
    let change = change_of(case, &members.newest);
    assert!(rt; members.roles.len() <= 16 && role_count(&change.shared) <= 16);
    assert!(rt; are_live(&bank, &members) && may_give(&members, &change));
    let lost = update(&mut members, &mut bank, &change);
    let (slots, last) = last_said(rt, case, number);
    assert!(rt; lost == slots && said_by(rt, &members) == last, "{number}");
    let mut early = last;
    if lost == 16 && case.give != Give::Same {
        early.0 = case.planned.0;
    }
    walk(rt, alloc, &bank, case.former, case.planned, early, last)
}

// Each call of the update, of at most 12, is to fail, and then none.
fn try_cases(rt: &impl Abort, alloc: Global, cases: &[Case]) -> Result<(), Fail> {
    for case in cases {
        for number in 0..13u64 {
            try_failing(rt, alloc, case, number)?;
        }
    }
    Ok(())
}

#[test]
fn updates_that_are_stopped(rt: HostRuntime) -> Result<(), Fail> {
    let cases = CASES;
    try_cases(&rt, rt.alloc(), &cases)
}
