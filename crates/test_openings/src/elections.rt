//! Elections over superblocks that real md wrote, and over ones made for each refusal.

use crate::banks::{bank_of, said_of};
use crate::roles::{A, B, C, D, E, NONE};
use raid_types::{Fault, Refusal, Role};
use sb_codec::Sb;
use sb_specs::Members;
use std::alloc::Global;
use std::process::Abort;
use std::test::Fail;
use test_mdadm_images::{DEGRADED, DEGRADED_MEMBERS, GROWN, GROWN_MEMBERS, members_of, reshaping};

/// The event count, the roles and the lost slots, or the refusal.
type Answer = Result<(u64, &'static [Role], u32), Refusal>;

// Whether the members say this, and that there are no spares.
fn says(members: &Members, wanted: &Answer) -> bool {
    let Ok((events, roles, lost)) = wanted else {
        return false;
    };
    members.newest.events == *events
        && members.roles.as_slice() == *roles
        && members.spares.len() == 0
        && members.lost == *lost
}

fn is_refused(refusal: Refusal, wanted: &Answer) -> bool {
    match wanted {
        Ok(_) => false,
        Err(other) => refusal == *other,
    }
}

// Whether an election is answered so.
fn answers(
    rt: &impl Abort,
    alloc: Global,
    superblocks: &[Sb],
    sectors: u64,
    failing: &[u64],
    wanted: &Answer,
) -> Result<bool, Fail> {
    let mut bank = bank_of(rt, alloc, superblocks, sectors, 0, failing)?;
    match said_of(rt, alloc, &mut bank) {
        Ok(members) => Ok(says(&members, wanted)),
        Err(Fault::Refused(refusal)) => Ok(is_refused(refusal, wanted)),
        Err(_) => Ok(false),
    }
}

// The calls that fail, and the answer; each slot is read by one call, in slot order.
const OF_GROWN: [(&[u64], Answer); 4] = [
    (&[], Ok((42, &[A, B, C, D, E], 0))),
    (&[1], Ok((42, &[A, NONE, C, D, E], 2))),
    (&[1, 3], Err(Refusal::MembersMissing(2, 1))),
    (&[0, 1, 2, 3, 4], Err(Refusal::NoSuperblock)),
];

const OF_BEHIND: Answer = Ok((18, &[A, B, NONE, D], 0));

// The member that fell behind says of itself that it holds role 2, and that the array is dirty.
fn fallen_behind(rt: &impl Abort, alloc: Global) -> Result<Vec<Sb>, Fail> {
    let mut members = members_of(alloc, &DEGRADED, &DEGRADED_MEMBERS)?;
    assert!(rt; members.len() == 4);
    let third = &mut members[2];
    third.events = 14;
    third.resync_offset = 0;
    third.dev_roles[2] = 2;
    Ok(members)
}

/// What a member of an array in a reshape says, beside what they all say.
#[derive(Clone, Copy)]
struct Said {
    number: u32,
    features: u32,
    size: u64,
    position: u64,
    offset: u64,
    events: u64,
    resync: u64,
    entry: u16,
    late: u16,
}

const PLAIN: Said = Said {
    number: 0,
    features: 4,
    size: 128,
    position: 64,
    offset: 16,
    events: 9,
    resync: u64::MAX,
    entry: 0xfffe,
    late: 0xfffe,
};

fn superblock(said: &Said) -> Sb {
    let plain = reshaping();
    let mut roles = plain.dev_roles;
    roles[3] = said.entry;
    roles[130] = said.late;
    Sb {
        max_dev: 384,
        dev_number: said.number,
        feature_map: said.features,
        size: said.size,
        reshape_position: said.position,
        data_offset: said.offset,
        events: said.events,
        resync_offset: said.resync,
        dev_roles: roles,
        ..plain
    }
}

const SECOND: Said = Said { number: 1, ..PLAIN };

// The position isn't on a unit.
const OFF: Said = Said {
    position: 72,
    ..PLAIN
};

const RECOVERING: Said = Said {
    resync: 0,
    features: 6,
    ..OFF
};

const ENTERED: Said = Said { entry: 1, ..PLAIN };

const UNEVEN: Said = Said {
    size: 124,
    ..ENTERED
};

const LATE: Said = Said { late: 2, ..PLAIN };

const SHIFTED: Said = Said {
    offset: 17,
    ..PLAIN
};

const STRANGE: Said = Said {
    features: 8,
    ..SHIFTED
};

// Two superblocks, each in a slot of 144 sectors, and what is answered.
const OF_TWO: [(Said, Said, Answer); 12] = [
    // each refusal of the roles where those before it don't come
    (PLAIN, SECOND, Ok((9, &[A, B, NONE], 0))),
    (OFF, SECOND, Err(Refusal::PositionNotOnUnit(72, 16))),
    (
        Said { resync: 0, ..OFF },
        SECOND,
        Err(Refusal::DirtyDegraded(2)),
    ),
    (RECOVERING, SECOND, Err(Refusal::MembersMissing(2, 1))),
    (RECOVERING, PLAIN, Err(Refusal::TwoHolders(0))),
    // each refusal of the slots, with two slots of one number
    (ENTERED, PLAIN, Err(Refusal::BadField(262))),
    // a role from 128 on counts in either of the two
    (LATE, PLAIN, Err(Refusal::BadField(516))),
    (PLAIN, LATE, Err(Refusal::BadField(516))),
    (ENTERED, SHIFTED, Err(Refusal::BadField(128))),
    (UNEVEN, SHIFTED, Err(Refusal::BadField(80))),
    (UNEVEN, STRANGE, Err(Refusal::Unsupported(8))),
    (
        UNEVEN,
        Said {
            events: 7,
            ..STRANGE
        },
        Err(Refusal::BadField(80)),
    ),
];

// What is answered where these calls fail.
fn compare(
    rt: &impl Abort,
    alloc: Global,
    superblocks: &[Sb],
    rows: &[(&[u64], Answer)],
) -> Result<(), Fail> {
    for (failing, wanted) in rows {
        assert!(rt;
            answers(rt, alloc, superblocks, 448, failing, wanted)?,
            "{wanted:?}"
        );
    }
    Ok(())
}

fn compare_two(rt: &impl Abort, alloc: Global, rows: &[(Said, Said, Answer)]) -> Result<(), Fail> {
    for (first, second, wanted) in rows {
        let superblocks = [superblock(first), superblock(second)];
        assert!(rt;
            answers(rt, alloc, &superblocks, 144, &[], wanted)?,
            "{wanted:?}"
        );
    }
    Ok(())
}

#[test]
fn elections_of_arrays(rt: HostRuntime) -> Result<(), Fail> {
    let alloc = rt.alloc();
    let grown = members_of(alloc, &GROWN, &GROWN_MEMBERS)?;
    compare(&rt, alloc, &grown, &OF_GROWN)?;
    let behind = fallen_behind(&rt, alloc)?;
    assert!(rt; answers(&rt, alloc, &behind, 288, &[], &OF_BEHIND)?);
    compare_two(&rt, alloc, &OF_TWO)
}
