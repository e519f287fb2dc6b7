//! The header's bytes, each call failing in turn, and what a stop leaves, against tables written by hand.

use bank::{Bank, BankFault, MemoryBank, Pick};
use bank_backup::{
    Header, SectionFault, clear_section, decode, encode, find_section, write_section,
};
use raid_types::Span;
use std::alloc::Global;
use std::process::Abort;
use std::test::Fail;

const UUID: [u8; 16] = [
    0x6b, 0xa7, 0xb8, 0x10, 0x9d, 0xad, 0x11, 0xd1, 0x80, 0xb4, 0x00, 0xc0, 0x4f, 0xd4, 0x30, 0xc8,
];

// "md_backup_data-1"
const MAGIC: [u8; 16] = [
    0x6d, 0x64, 0x5f, 0x62, 0x61, 0x63, 0x6b, 0x75, 0x70, 0x5f, 0x64, 0x61, 0x74, 0x61, 0x2d, 0x31,
];

// A header by the format's table: each number has its lowest byte first, and the bytes that aren't named are 0.
fn by_hand(arraystart: [u8; 8], length: [u8; 8]) -> [u8; 512] {
    let mut sector = [0u8; 512];
    sector[..16].copy_from_slice(&MAGIC);
    sector[16..32].copy_from_slice(&UUID);
    sector[40] = 8;
    sector[48..56].copy_from_slice(&arraystart);
    sector[56..64].copy_from_slice(&length);
    sector
}

// A member's slot, and a backup slot of so many sectors: ten hold a section of two.
fn two_slots(alloc: Global, sectors: u64, failing: u64) -> Result<MemoryBank, Fail> {
    let lengths = Vec::from_slice(alloc, &[4u64, sectors])?;
    let failing = Vec::from_slice(alloc, &[failing])?;
    Ok(MemoryBank::new(alloc, lengths, 16, failing)?)
}

// Stores the sectors 40 and 41 of the list, filled with ones and twos.
fn store(rt: &impl Abort, bank: &mut MemoryBank) -> Result<(), SectionFault> {
    assert!(rt; bank.slots() == 2);
    assert!(rt; 10 <= bank.len(1));
    let mut bytes = [1u8; 1024];
    bytes[512..].fill(2);
    write_section(bank, 1, &UUID, &Span { lo: 40, hi: 42 }, &bytes)
}

fn clear(rt: &impl Abort, bank: &mut MemoryBank) -> Result<(), BankFault> {
    assert!(rt; bank.slots() == 2);
    assert!(rt; 1 <= bank.len(1));
    clear_section(bank, 1, &UUID)
}

// The bytes that fill the two sectors of the section from this sector of the list on; None where it isn't found.
fn find(rt: &impl Abort, bank: &mut MemoryBank, lo: u64) -> Result<Option<(u8, u8)>, BankFault> {
    assert!(rt; bank.slots() == 2);
    assert!(rt; lo < 100);
    let mut into = [9u8; 1024];
    let span = Span { lo, hi: lo + 2 };
    let found = find_section(bank, 1, &UUID, &span, &mut into)?;
    assert!(rt; into[..512] == [into[0]; 512]);
    assert!(rt; into[512..] == [into[512]; 512]);
    assert!(rt; found || (into[0] == 9 && into[512] == 9));
    Ok(if found {
        Some((into[0], into[512]))
    } else {
        None
    })
}

#[test]
fn headers_have_the_bytes_of_the_format(rt: HostRuntime) {
    let table = [
        (
            0x0102_0304_0506_0708,
            [8, 7, 6, 5, 4, 3, 2, 1],
            96,
            [96, 0, 0, 0, 0, 0, 0, 0],
        ),
        (0, [0; 8], 0, [0; 8]),
        (u64::MAX, [255; 8], 1 << 32, [0, 0, 0, 0, 1, 0, 0, 0]),
    ];
    for (arraystart, first, length, last) in table {
        let mut want = by_hand(first, last);
        assert_eq!(rt; encode(&UUID, arraystart, length), want);
        let says = Header {
            uuid: UUID,
            devstart: 8,
            arraystart,
            length,
        };
        assert_eq!(rt; decode(&want), Some(says));
        // the magic of another version
        want[15] = 0x32;
        assert_eq!(rt; decode(&want), None);
    }
}

#[test]
fn each_failing_call_says_what_was_attempted(rt: HostRuntime) -> Result<(), Fail> {
    // Storing is one call for the section, one for the header, and a flush behind each; clearing is the last two. A write
    // that is told to fail is appended, a flush isn't, and a slot that has failed does no more.
    let failed = Err(BankFault::Failed);
    let table = [
        (0, Err(SectionFault::Before), failed, 2, 2),
        (1, Err(SectionFault::Before), failed, 2, 2),
        (2, Err(SectionFault::Attempted), failed, 4, 2),
        (3, Err(SectionFault::Attempted), failed, 4, 2),
        (4, Ok(()), failed, 6, 1),
        (5, Ok(()), failed, 6, 1),
        (6, Ok(()), Ok(()), 7, 0),
    ];
    for (failing, stored, cleared, ops, faults) in table {
        let mut bank = two_slots(rt.alloc(), 10, failing)?;
        assert_eq!(rt; store(&rt, &mut bank), stored, "at {failing}");
        assert_eq!(rt; clear(&rt, &mut bank), cleared, "at {failing}");
        assert!(rt; bank.slots() == 2);
        assert_eq!(rt;
            (bank.ops(), bank.faults(0), bank.faults(1)),
            (ops, 0, faults),
            "at {failing}"
        );
    }
    Ok(())
}

#[test]
fn a_section_stands_where_its_header_does(rt: HostRuntime) -> Result<(), Fail> {
    let mut bank = two_slots(rt.alloc(), 10, 99)?;
    assert_eq!(rt; store(&rt, &mut bank), Ok(()));
    assert_eq!(rt; clear(&rt, &mut bank), Ok(()));
    // After two writes and a flush the header is written, flushed, cleared and flushed. Behind its write an image may have
    // it, also one that keeps no other write since the flush.
    let none: Option<(u8, u8)> = None;
    let both = Some((1, 2));
    let table = [
        (
            Pick::Flushed,
            [none, none, none, none, none, both, both, none],
        ),
        (
            Pick::Latest,
            [none, none, none, none, both, both, none, none],
        ),
        (
            Pick::Mixed(8),
            [none, none, none, none, both, both, both, none],
        ),
        (
            Pick::Mixed(3),
            [none, none, none, none, none, both, both, none],
        ),
    ];
    for (pick, wants) in table {
        let mut mark = 0u64;
        for want in wants {
            assert!(rt; mark <= bank.ops());
            let mut image = bank.image(rt.alloc(), mark, pick, 1)?;
            assert_eq!(rt; find(&rt, &mut image, 40), Ok(want), "at {mark}");
            mark = mark.wrapping_add(1);
        }
    }
    Ok(())
}

#[test]
fn only_its_own_header_counts(rt: HostRuntime) -> Result<(), Fail> {
    let none = Ok(None);
    let found = Ok(Some((3, 4)));
    let failed = Err(BankFault::Failed);
    // a byte of the header, the first sector that is asked for, and the call that fails; bytes behind the length aren't judged
    let table = [
        (64usize, 1, 40, 9, found),
        (64, 1, 39, 9, none),
        (64, 1, 42, 9, none),
        (15, 0x32, 40, 9, none),
        (16, 0x6a, 40, 9, none),
        (31, 0xc9, 40, 9, none),
        (40, 9, 40, 9, none),
        (48, 41, 40, 9, none),
        (55, 1, 40, 9, none),
        (56, 1, 40, 9, none),
        (56, 3, 40, 9, none),
        (56, 0, 40, 9, none),
        (63, 1, 40, 9, none),
        (64, 0, 40, 0, failed),
        (64, 0, 40, 1, failed),
    ];
    for (at, byte, lo, failing, want) in table {
        let mut header = by_hand([40, 0, 0, 0, 0, 0, 0, 0], [2, 0, 0, 0, 0, 0, 0, 0]);
        assert!(rt; at < 512);
        header[at] = byte;
        let mut bank = two_slots(rt.alloc(), 10, failing)?;
        assert!(rt; bank.ops() == 0 && bank.slots() == 2 && bank.len(1) == 10);
        bank.set_sector(1, 0, &header);
        bank.set_sector(1, 8, &[3; 512]);
        bank.set_sector(1, 9, &[4; 512]);
        assert_eq!(rt;
            find(&rt, &mut bank, lo),
            want,
            "at {at}, from {lo}, call {failing}"
        );
    }
    // a slot that is one sector too short
    let mut bank = two_slots(rt.alloc(), 9, 9)?;
    assert!(rt; bank.ops() == 0 && bank.slots() == 2 && bank.len(1) == 9);
    let header = by_hand([40, 0, 0, 0, 0, 0, 0, 0], [2, 0, 0, 0, 0, 0, 0, 0]);
    bank.set_sector(1, 0, &header);
    assert_eq!(rt; find(&rt, &mut bank, 40), none);
    Ok(())
}
