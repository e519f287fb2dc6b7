//! Lines as people get them wrong, and what they are told.

use script_mistakes::{Reason, diagnose_line, diagnose_script, message_of, push_marked};
use std::alloc::Global;
use std::process::Abort;
use std::test::Fail;

fn assert_told(
    rt: &impl Abort,
    alloc: Global,
    inside: bool,
    line: &[u8],
    place: (usize, usize),
    text: &str,
) -> Result<(), Fail> {
    let diagnosis = diagnose_line(inside, line).ok_or("a good line")?;
    assert_eq!(rt; diagnosis.column, place.0);
    assert_eq!(rt; diagnosis.width, place.1);
    let words = message_of(alloc, line, &diagnosis)?;
    assert_eq!(rt; words.as_str(), text);
    Ok(())
}

#[test]
fn words_and_numbers_have_their_mistakes(rt: HostRuntime) -> Result<(), Fail> {
    assert_told(
        &rt,
        rt.alloc(),
        false,
        b"raed 0 1",
        (0, 4),
        "unknown word: did you mean read?",
    )?;
    assert_told(
        &rt,
        rt.alloc(),
        false,
        b"READ 0 1",
        (0, 4),
        "unknown word: did you mean read?",
    )?;
    assert_told(
        &rt,
        rt.alloc(),
        false,
        b"crate 6ba7b810-9dad-11d1-80b4-00c04fd430c8 level=5 disks=3 size=40",
        (0, 5),
        "unknown word: did you mean create?",
    )?;
    assert_told(
        &rt,
        rt.alloc(),
        false,
        b" # a comment behind a space",
        (1, 1),
        "a comment begins with the first byte of its line",
    )?;
    assert_told(
        &rt,
        rt.alloc(),
        false,
        b"end",
        (0, 3),
        "this stands in a block alone, between together and end",
    )?;
    assert_told(
        &rt,
        rt.alloc(),
        false,
        b"a: read 0 1",
        (0, 2),
        "this stands in a block alone, between together and end",
    )?;
    assert_told(
        &rt,
        rt.alloc(),
        false,
        b"read",
        (4, 0),
        "the first sector is missing",
    )?;
    assert_told(
        &rt,
        rt.alloc(),
        false,
        b"read 0",
        (6, 0),
        "the count of sectors is missing",
    )?;
    assert_told(
        &rt,
        rt.alloc(),
        false,
        b"read 0 1 2",
        (9, 1),
        "nothing may follow here",
    )?;
    assert_told(
        &rt,
        rt.alloc(),
        false,
        b"read 0 0",
        (7, 1),
        "out of range: a number from 1 to 128 is wanted",
    )?;
    assert_told(
        &rt,
        rt.alloc(),
        false,
        b"read 0 129",
        (7, 3),
        "out of range: a number from 1 to 128 is wanted",
    )?;
    assert_told(
        &rt,
        rt.alloc(),
        false,
        b"read 9223372036854775806 2",
        (25, 1),
        "out of range: a number from 1 to 1 is wanted",
    )?;
    assert_told(
        &rt,
        rt.alloc(),
        false,
        b"read 00 1",
        (5, 2),
        "a number from 0 to 9223372036854775806 without a leading zero is wanted",
    )?;
    assert_told(
        &rt,
        rt.alloc(),
        false,
        b"read 0x1 1",
        (5, 3),
        "a number from 0 to 9223372036854775806 is wanted",
    )?;
    assert_told(
        &rt,
        rt.alloc(),
        false,
        b"read 18446744073709551616 1",
        (5, 20),
        "out of range: a number from 0 to 9223372036854775806 is wanted",
    )?;
    assert_told(
        &rt,
        rt.alloc(),
        false,
        b"write 0 1",
        (9, 0),
        "the seed is missing",
    )?;
    assert_told(
        &rt,
        rt.alloc(),
        false,
        b"write 0 1 4294967296",
        (10, 10),
        "out of range: a number from 0 to 4294967295 is wanted",
    )?;
    assert_told(
        &rt,
        rt.alloc(),
        false,
        b"fail -1",
        (5, 2),
        "a number from 0 to 4294967295 is wanted",
    )?;
    assert_told(
        &rt,
        rt.alloc(),
        false,
        b"step 0",
        (5, 1),
        "out of range: a number from 1 to 4294967295 is wanted",
    )?;
    Ok(())
}

#[test]
fn keys_have_their_mistakes(rt: HostRuntime) -> Result<(), Fail> {
    assert_told(
        &rt,
        rt.alloc(),
        false,
        b"array-size 1k",
        (11, 2),
        "a number or max is wanted",
    )?;
    assert_told(
        &rt,
        rt.alloc(),
        false,
        b"examine sda",
        (8, 3),
        "a number from 0 to 4294967295 is wanted",
    )?;
    assert_told(
        &rt,
        rt.alloc(),
        false,
        b"create level=5 disks=3 size=40",
        (7, 7),
        "a UUID is wanted, 32 hexadecimal digits",
    )?;
    assert_told(
        &rt,
        rt.alloc(),
        false,
        b"create 6ba7b810-9dad-11d1-80b4-00c04fd430c8 level=5 disks=3",
        (59, 0),
        "size= is missing",
    )?;
    assert_told(
        &rt,
        rt.alloc(),
        false,
        b"create 6ba7b810-9dad-11d1-80b4-00c04fd430c8 level=5 dsks=3 size=40",
        (52, 6),
        "unknown key: did you mean disks=?",
    )?;
    assert_told(
        &rt,
        rt.alloc(),
        false,
        b"create 6ba7b810-9dad-11d1-80b4-00c04fd430c8 level=5 level=6 disks=3 size=40",
        (52, 7),
        "level= stands twice",
    )?;
    assert_told(
        &rt,
        rt.alloc(),
        false,
        b"create 6ba7b810-9dad-11d1-80b4-00c04fd430c8 level=raid5 disks=3 size=40",
        (50, 5),
        "a number from 0 to 4294967295 is wanted",
    )?;
    assert_told(
        &rt,
        rt.alloc(),
        false,
        b"create 6ba7b810-9dad-11d1-80b4-00c04fd430c8 level=5 disks=3 size=40 layout=left-symetric",
        (75, 13),
        "unknown layout: did you mean left-symmetric?",
    )?;
    assert_told(
        &rt,
        rt.alloc(),
        false,
        b"create 6ba7b810-9dad-11d1-80b4-00c04fd430c8 level=5 disks=3 size=40 chunk=64k",
        (74, 3),
        "a number from 0 to 4294967295 is wanted",
    )?;
    assert_told(
        &rt,
        rt.alloc(),
        false,
        b"grow",
        (4, 0),
        "a key is missing: level=, disks=, chunk= or layout=",
    )?;
    assert_told(
        &rt,
        rt.alloc(),
        false,
        b"grow disks=",
        (11, 0),
        "a number from 0 to 4294967295 is wanted",
    )?;
    assert_told(
        &rt,
        rt.alloc(),
        false,
        b"assemble 6ba7b810-9dad-11d1-80b4-00c04fd430c8 now",
        (46, 3),
        "nothing may follow here",
    )?;
    Ok(())
}

#[test]
fn blocks_and_bytes_have_their_mistakes(rt: HostRuntime) -> Result<(), Fail> {
    assert_told(
        &rt,
        rt.alloc(),
        true,
        b"read 0 1",
        (0, 4),
        "in a block a line begins with a: or b:, or is end",
    )?;
    assert_told(
        &rt,
        rt.alloc(),
        true,
        b"a:read 0 1",
        (0, 6),
        "unknown word: did you mean a:?",
    )?;
    assert_told(
        &rt,
        rt.alloc(),
        true,
        b"a:",
        (2, 0),
        "what the lane asks is missing: read, write, flush or fail",
    )?;
    assert_told(
        &rt,
        rt.alloc(),
        true,
        b"b: wait",
        (3, 4),
        "a lane asks read, write, flush and fail alone",
    )?;
    assert_told(
        &rt,
        rt.alloc(),
        false,
        b"flush\r",
        (5, 1),
        "a carriage return: save the file with Unix line ends",
    )?;
    assert_told(
        &rt,
        rt.alloc(),
        false,
        b"read\t0 1",
        (4, 1),
        "a tab: words stand between spaces",
    )?;
    Ok(())
}

#[test]
fn a_line_is_marked_below(rt: HostRuntime) -> Result<(), Fail> {
    let mut text = Vec::new(rt.alloc());
    push_marked(&mut text, b"read\t0 1", 4, 1)?;
    assert_eq!(rt; text.as_slice(), b"read?0 1\n    ^\n".as_slice());
    Ok(())
}

#[test]
fn a_script_is_told_by_its_first_mistake(rt: HostRuntime) -> Result<(), Fail> {
    let open = diagnose_script(b"together\na: flush\n").ok_or("a good script")?;
    assert_eq!(rt; open.number, 3);
    assert!(rt; open.reason == Reason::BlockOpen);
    let inside = diagnose_script(b"# one\ntogether\nflush\nend\n").ok_or("a good script")?;
    assert_eq!(rt; inside.number, 3);
    let ended = diagnose_script(b"flush\nend\n").ok_or("a good script")?;
    assert_eq!(rt; ended.number, 2);
    assert!(rt; diagnose_script(b"together\na: flush\nend\nflush\n").is_none());
    Ok(())
}
