//! Openings of arrays that real md wrote, of a reshape and of arrays that are made, against values that were worked out by
//! hand. The device's uuid was computed by Python.

use crate::roles::{A, B, C, D, NONE};
use bank::{Bank, MemoryBank, Op};
use raid_types::{Fault, Refusal, Role, Shape};
use sb_codec::Sb;
use std::alloc::Global;
use std::process::Abort;
use std::test::Fail;
use test_array_samples::{
    CreateSpec, Opened, SHAPE, SPEC, bank_of, made, opened, refusal_of_create, write_all_rows,
};
use test_mdadm_images::{
    BITMAP, BITMAP_MEMBERS, DIRTY, DIRTY_MEMBERS, SPARE, SPARE_MEMBERS, members_of, reshaping,
};

/// The roles, the spares, the slots that are given and those that are lost; or the refusal.
type Answer = Result<(&'static [Role], &'static [u32], u32, u32), Refusal>;

fn says(opened: &Opened, wanted: &Answer) -> bool {
    let Ok((roles, spares, given, lost)) = wanted else {
        return false;
    };
    opened.members.roles.as_slice() == *roles
        && opened.members.spares.as_slice() == *spares
        && opened.given == *given
        && opened.members.lost == *lost
}

fn is_refused(refusal: Refusal, wanted: &Answer) -> bool {
    match wanted {
        Ok(_) => false,
        Err(other) => refusal == *other,
    }
}

// Whether an opening answers so.
fn opens(
    alloc: Global,
    bank: &mut MemoryBank,
    backup: Option<u32>,
    wanted: &Answer,
) -> Result<bool, Fail> {
    match opened(alloc, bank, backup)? {
        Ok(opened) => Ok(says(&opened, wanted)),
        Err(Fault::Refused(refusal)) => Ok(is_refused(refusal, wanted)),
        Err(_) => Ok(false),
    }
}

/// The lengths of the slots, the calls that fail, the backup, what an opening answers, and the operations then.
type Opening = (&'static [u64], &'static [u64], Option<u32>, Answer, u64);

// The superblocks stand in the first slots, and two operations wrote each. Then come the reads of the members, which are
// on no tape, and the flushes of all slots.
fn compare(
    rt: &impl Abort,
    alloc: Global,
    superblocks: &[Sb],
    openings: &[Opening],
) -> Result<(), Fail> {
    for (lengths, failing, backup, wanted, ops) in openings {
        let mut bank = bank_of(alloc, lengths, 64, failing)?;
        write_all_rows(&mut bank, superblocks)?;
        assert!(rt; opens(alloc, &mut bank, *backup, wanted)?, "{wanted:?}");
        assert!(rt; bank.ops() == *ops, "{wanted:?}");
    }
    Ok(())
}

const OF_DIRTY: [Opening; 2] = [
    (&[288; 4], &[], None, Ok((&[A, B, C, D], &[], 15, 0)), 12),
    (&[288; 4], &[9], None, Err(Refusal::DirtyDegraded(1)), 11),
];

const SPARED: Answer = Ok((&[A, B, C, D], &[4], 63, 0));

const LESS: Answer = Ok((&[A, NONE, C, D], &[4], 61, 2));

const UNBACKED: Answer = Ok((&[A, B, C, D], &[4], 31, 32));

const OF_SPARE: [Opening; 5] = [
    (&[288; 6], &[], Some(5), SPARED, 16),
    (&[288; 6], &[6], Some(5), LESS, 15),
    (&[288; 6], &[11], Some(5), LESS, 15),
    (&[288; 6], &[15], Some(5), UNBACKED, 15),
    (
        &[288; 6],
        &[6, 12],
        Some(5),
        Err(Refusal::MembersMissing(2, 1)),
        14,
    ),
];

const OF_BITMAP: [Opening; 1] = [(&[384; 3], &[], None, Err(Refusal::Unsupported(1)), 9)];

const OF_NONE: [Opening; 1] = [(&[288; 3], &[], None, Err(Refusal::NoSuperblock), 3)];

// The backup needs its header of 8 sectors and a unit.
const OF_RESHAPE: [Opening; 4] = [
    (
        &[144, 144, 24],
        &[],
        Some(2),
        Ok((&[A, B, NONE], &[], 7, 0)),
        7,
    ),
    (&[144, 144, 24], &[], None, Err(Refusal::BackupAbsent), 7),
    (&[144, 144, 23], &[], Some(2), Err(Refusal::BackupAbsent), 7),
    (
        &[144, 144, 24],
        &[6],
        Some(2),
        Err(Refusal::BackupAbsent),
        6,
    ),
];

// Each slot is flushed once, in order.
fn compare_flushes(rt: &impl Abort, alloc: Global, superblocks: &[Sb]) -> Result<(), Fail> {
    let mut bank = bank_of(alloc, &[288; 4], 64, &[])?;
    write_all_rows(&mut bank, superblocks)?;
    assert!(rt; opened(alloc, &mut bank, None)?.is_ok());
    assert!(rt; bank.ops() == 12);
    assert!(rt; bank.op(8) == Op::Flush { slot: 0 } && bank.op(11) == Op::Flush { slot: 3 });
    Ok(())
}

#[test]
fn arrays_of_real_md(rt: HostRuntime) -> Result<(), Fail> {
    let alloc = rt.alloc();
    let dirty = members_of(alloc, &DIRTY, &DIRTY_MEMBERS)?;
    compare(&rt, alloc, &dirty, &OF_DIRTY)?;
    compare_flushes(&rt, alloc, &dirty)?;
    let spare = members_of(alloc, &SPARE, &SPARE_MEMBERS)?;
    compare(&rt, alloc, &spare, &OF_SPARE)?;
    let bitmap = members_of(alloc, &BITMAP, &BITMAP_MEMBERS)?;
    compare(&rt, alloc, &bitmap, &OF_BITMAP)?;
    compare(&rt, alloc, &[], &OF_NONE)?;
    let first = reshaping();
    let second = Sb {
        dev_number: 1,
        ..first
    };
    compare(&rt, alloc, &[first, second], &OF_RESHAPE)
}

// What has no place in eight slots of 6,144 sectors, the last of which is the backup.
const HOMELESS: [(CreateSpec, Refusal); 3] = [
    (
        CreateSpec {
            size: 4104,
            offset: 2048,
            ..SPEC
        },
        Refusal::SlotTooSmall(6144, 6152),
    ),
    (
        CreateSpec {
            shape: Shape { disks: 8, ..SHAPE },
            ..SPEC
        },
        Refusal::NoSuchSlot(7),
    ),
    (
        CreateSpec {
            shape: Shape { chunk: 16, ..SHAPE },
            ..SPEC
        },
        Refusal::SizeNotMultiple(40, 16),
    ),
];

fn compare_homeless(
    rt: &impl Abort,
    alloc: Global,
    rows: &[(CreateSpec, Refusal)],
) -> Result<(), Fail> {
    let bank = bank_of(alloc, &[6144; 8], 0, &[])?;
    for (spec, refusal) in rows {
        assert!(rt; bank.slots() == 8);
        assert!(rt;
            refusal_of_create(&bank, Some(7), spec) == Some(*refusal),
            "{refusal:?}"
        );
    }
    Ok(())
}

/// The uuid of device 1 of the array whose uuid is sixteen bytes 7.
const DEVICE: u128 = 0x1be3_1517_d7fd_53ae_80fb_ffe8_347c_953e;

// The bytes of the superblock of device 1, at their offsets.
const SHOWN: [(u16, &[u8]); 13] = [
    (0, &[0xfc, 0x4e, 0x2b, 0xa9, 1, 0, 0, 0]),
    (16, &[7; 16]),
    (72, &[5, 0, 0, 0, 2, 0, 0, 0, 40, 0, 0, 0]),
    (88, &[8, 0, 0, 0, 3, 0, 0, 0]),
    (96, &[0; 32]),
    (128, &[16]),
    (136, &[48]),
    (160, &[1]),
    (
        200,
        &[
            1, 0, 0, 0, 0, 0, 0, 0, 255, 255, 255, 255, 255, 255, 255, 255,
        ],
    ),
    (220, &[128, 0, 0, 0]),
    (256, &[0, 0, 1, 0, 2, 0, 0xfe, 0xff]),
    (504, &[0xfe, 0xff, 0xfe, 0xff, 0xfe, 0xff, 0xfe, 0xff]),
    (512, &[0; 512]),
];

// Whether these bytes stand there.
fn has(bytes: &[u8; 1024], at: u16, wanted: &[u8]) -> bool {
    match bytes.get(at as usize..) {
        Some(rest) => rest.starts_with(wanted),
        None => false,
    }
}

fn compare_shown(rt: &impl Abort, bank: &mut MemoryBank, shown: &[(u16, &[u8])]) {
    let mut bytes = [1u8; 1024];
    assert!(rt; bank.slots() == 5 && bank.len(1) == 64);
    assert!(rt; bank.read(1, 8, &mut bytes).is_ok());
    for (at, wanted) in shown {
        assert!(rt; has(&bytes, *at, wanted), "{at}");
    }
    assert!(rt; has(&bytes, 168, &DEVICE.to_be_bytes()));
}

const MADE: Answer = Ok((&[A, B, C], &[], 31, 0));

// The refusal of an array that is to be made, if it is one.
fn refusal(
    alloc: Global,
    bank: &mut MemoryBank,
    spec: &CreateSpec,
) -> Result<Option<Refusal>, Fail> {
    match made(alloc, bank, spec)? {
        Err(Fault::Refused(refusal)) => Ok(Some(refusal)),
        _ => Ok(None),
    }
}

// An array of two disks.
const TWO: CreateSpec = CreateSpec {
    shape: Shape { disks: 2, ..SHAPE },
    ..SPEC
};

const OTHER: CreateSpec = CreateSpec {
    uuid: [8; 16],
    ..TWO
};

// An array is made, with a flush of each slot, and for each member 40 zeros and a flush, and a superblock and a flush. It
// is opened as it was made. Slot 2 has it then, and isn't written by one of two disks and its uuid.
fn compare_made(rt: &impl Abort, alloc: Global) -> Result<(), Fail> {
    let mut bank = bank_of(alloc, &[64; 5], 400, &[])?;
    let array = made(alloc, &mut bank, &SPEC)?.expect(rt, "an array");
    assert!(rt; array.given == 31 && array.members.roles.as_slice() == [A, B, C].as_slice());
    assert!(rt; array.members.spares.as_slice().is_empty());
    assert!(rt; bank.ops() == 5 + 3 * 41 + 3 * 2);
    compare_shown(rt, &mut bank, &SHOWN);
    assert!(rt; refusal(alloc, &mut bank, &TWO)? == Some(Refusal::UuidInUse(2)));
    assert!(rt; bank.ops() == 139);
    assert!(rt; opens(alloc, &mut bank, Some(4), &MADE)?);
    assert!(rt; made(alloc, &mut bank, &OTHER)?.is_ok());
    Ok(())
}

// The call that fails and its slot: calls 0 to 3 read the members' superblocks, 4 to 8 flush the slots, 9 to 131 write the
// zeros and flush them, and 132 to 140 read, write and flush each member.
const FAULTS: [(u64, u32); 7] = [
    (3, 3),
    (8, 4),
    (9, 0),
    (90, 1),
    (131, 2),
    (134, 0),
    (136, 1),
];

fn compare_faults(rt: &impl Abort, alloc: Global, faults: &[(u64, u32)]) -> Result<(), Fail> {
    for (call, slot) in faults {
        let mut bank = bank_of(alloc, &[64; 5], 400, &[*call])?;
        assert!(rt;
            refusal(alloc, &mut bank, &SPEC)? == Some(Refusal::SlotFault(*slot)),
            "{call}"
        );
    }
    Ok(())
}

#[test]
fn arrays_that_are_made(rt: HostRuntime) -> Result<(), Fail> {
    let homeless = HOMELESS;
    compare_homeless(&rt, rt.alloc(), &homeless)?;
    compare_made(&rt, rt.alloc())?;
    compare_faults(&rt, rt.alloc(), &FAULTS)
}
