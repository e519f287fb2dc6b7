//! Each call of `raid_parity_simd` beside the one of `parity`, byte for byte, on the rows of every layout.

ghost use Rattle.std.specs.Prelude.{◌≢◌, ◌+◌, ◌*◌, ◌<◌, ◌≤◌, IsSome, length};
ghost use Rattle.raid_parity.specs.Rows.{IsRowRoles};

use crate::layouts::LAYOUTS;
use raid_layout::row_of;
use raid_types::{RowRoles, Shape};
use reshape_geometry::limits::is_valid_shape;
use std::process::Abort;
use std::test::Fail;

// The bytes that a seed gives: room for a row on seven disks that begins at any of the first 16 bytes.
fn bytes_of(seed: u32) -> [u8; 3600] {
    let mut bytes = [0; 3600];
    let mut state = seed;
    for at in 0..3600usize {
        state = state.wrapping_mul(1664525).wrapping_add(1013904223);
        bytes[at] = (state / 65_536 % 256) as u8;
    }
    bytes
}

// Changes each byte of a role's sector.
fn spoil(row: &mut [u8], role: u32)
    requires { 512 * role + 512 ≤ length row.old }
{
    let start = 512 * role as usize;
    for at in 0..512usize {
        row[start + at] ^= 0xa5;
    }
}

// Both crates fill one role that was spoiled, and give the row back as it was.
fn compare_one(rt: &impl Abort, roles: &RowRoles, whole: &[u8; 3600], start: usize, missing: u32)
    requires roles { IsRowRoles roles.now }
    requires disks { roles.now.disks ≤ 7 }
    requires start { start ≤ 16 }
    requires missing { missing < roles.now.disks }
{
    let end = start + 512 * roles.disks as usize;
    let mut plain = *whole;
    spoil(&mut plain[start..end], missing);
    let mut lanes = plain;
    raid_parity::fill_one(&mut plain[start..end], roles, missing);
    raid_parity_simd::fill_one(&mut lanes[start..end], roles, missing);
    assert!(rt; plain == lanes, "{roles:?} {missing}");
    assert!(rt; lanes == *whole, "{roles:?} {missing}");
}

// The same of two roles.
fn compare_two(
    rt: &impl Abort,
    roles: &RowRoles,
    whole: &[u8; 3600],
    start: usize,
    first: u32,
    second: u32,
)
    requires roles { IsRowRoles roles.now }
    requires disks { roles.now.disks ≤ 7 }
    requires start { start ≤ 16 }
    requires first { first < roles.now.disks }
    requires second { second < roles.now.disks }
    requires differ { first ≢ second }
    requires q { IsSome roles.now.q }
{
    let end = start + 512 * roles.disks as usize;
    let mut plain = *whole;
    spoil(&mut plain[start..end], first);
    spoil(&mut plain[start..end], second);
    let mut lanes = plain;
    raid_parity::fill_two(&mut plain[start..end], roles, first, second);
    raid_parity_simd::fill_two(&mut lanes[start..end], roles, first, second);
    assert!(rt; plain == lanes, "{roles:?} {first} {second}");
    assert!(rt; lanes == *whole, "{roles:?} {first} {second}");
}

// The parity of a row, then each role and each two roles of it.
fn compare_row(rt: &impl Abort, roles: &RowRoles, bytes: &[u8; 3600], start: usize)
    requires roles { IsRowRoles roles.now }
    requires disks { roles.now.disks ≤ 7 }
    requires start { start ≤ 16 }
{
    let end = start + 512 * roles.disks as usize;
    let mut plain = *bytes;
    let mut lanes = *bytes;
    raid_parity::syndromes(&mut plain[start..end], roles);
    raid_parity_simd::syndromes(&mut lanes[start..end], roles);
    assert!(rt; plain == lanes, "{roles:?}");
    for first in 0..roles.disks {
        compare_one(rt, roles, &plain, start, first);
        if roles.q.is_some() {
            for second in 0..first {
                compare_two(rt, roles, &plain, start, first, second);
            }
        }
    }
}

// Each stripe of a shape until the parity has come round, on the bytes of three seeds. The rows begin at the bytes 0, 7
// and 15, so vectors are loaded and stored out of line too.
fn compare_shape(rt: &impl Abort, shape: &Shape) -> Result<(), Fail> {
    if !is_valid_shape(shape) || shape.disks > 7 {
        return Err(Fail::from("not a shape of at most seven disks"));
    }
    for stripe in 0..shape.disks as u64 {
        let roles = row_of(shape, stripe * 8);
        for seed in [1_600u32, 20_261_127, 0xdead_beef] {
            let bytes = bytes_of(seed);
            compare_row(rt, &roles, &bytes, (seed % 16) as usize);
        }
    }
    Ok(())
}

#[test]
fn same_as_parity(rt: HostRuntime) -> Result<(), Fail> {
    for (level, layout) in LAYOUTS {
        for disks in 4..8u32 {
            compare_shape(
                &rt,
                &Shape {
                    level,
                    layout,
                    chunk: 8,
                    disks,
                },
            )?;
        }
    }
    Ok(())
}
