//! Each call of `raid_parity_simd` over many rows of a buffer beside the one of `parity` over each row.

ghost use Rattle.std.specs.Prelude.{◌≢◌, ◌+◌, ◌*◌, ◌<◌, ◌≤◌, IsSome, length};
ghost use Rattle.raid_parity.specs.Rows.{IsRowRoles};
ghost use Rattle.raid_parity_simd.specs.Buffers.{role_bytes};

use crate::layouts::LAYOUTS;
use raid_layout::row_of;
use raid_parity_simd::{ROLE_BYTES, fill_one_run, fill_two_run, syndromes_run};
use raid_types::{RowRoles, Shape};
use reshape_geometry::limits::is_valid_shape;
use std::process::Abort;
use std::test::Fail;

// Rows of up to seven disks, so many of them, and those of them that are set: the first and how many.
const ROWS: usize = 7;

const FIRST: usize = 2;

const COUNT: usize = 4;

const ROW: usize = 3584;

// Rows of seven sectors one behind the other, with the bytes that a seed gives.
fn rows_of(seed: u32) -> [u8; 25088] {
    let mut bytes = [0; 25088];
    let mut state = seed;
    for at in 0..25088usize {
        state = state.wrapping_mul(1664525).wrapping_add(1013904223);
        bytes[at] = (state / 65_536 % 256) as u8;
    }
    bytes
}

// Lays these rows into a buffer.
fn lay(rows: &[u8; 25088], buffer: &mut [u8])
    requires { role_bytes * 7 ≤ length buffer.old }
{
    for i in 0..ROWS {
        for role in 0..7usize {
            let from = ROW * i + 512 * role;
            let to = ROLE_BYTES * role + 512 * i;
            for at in 0..512usize {
                buffer[to + at] = rows[from + at];
            }
        }
    }
}

// Whether a buffer has these rows.
fn has(buffer: &[u8], rows: &[u8; 25088]) -> bool
    requires { role_bytes * 7 ≤ length buffer.now }
{
    let mut same = true;
    for i in 0..ROWS {
        for role in 0..7usize {
            let from = ROW * i + 512 * role;
            let to = ROLE_BYTES * role + 512 * i;
            for at in 0..512usize {
                if buffer[to + at] != rows[from + at] {
                    same = false;
                }
            }
        }
    }
    same
}

// Each call on the rows of a seed.
fn compare_runs(rt: &impl Abort, roles: &RowRoles, rows: &[u8; 25088], buffer: &mut [u8])
    requires roles { IsRowRoles roles.now }
    requires disks { roles.now.disks ≤ 7 }
    requires room { role_bytes * 7 ≤ length buffer.old }
{
    let len = 512 * roles.disks as usize;
    let mut plain = *rows;
    lay(rows, buffer);
    for i in FIRST..FIRST + COUNT {
        raid_parity::syndromes(&mut plain[ROW * i..ROW * i + len], roles);
    }
    syndromes_run(buffer, roles, FIRST, COUNT);
    assert!(rt; has(buffer, &plain), "{roles:?}");
    for first in 0..roles.disks {
        let mut plain = *rows;
        lay(rows, buffer);
        for i in FIRST..FIRST + COUNT {
            raid_parity::fill_one(&mut plain[ROW * i..ROW * i + len], roles, first);
        }
        fill_one_run(buffer, roles, first, FIRST, COUNT);
        assert!(rt; has(buffer, &plain), "{roles:?} {first}");
    }
}

// The same for two missing roles.
fn compare_two(
    rt: &impl Abort,
    roles: &RowRoles,
    rows: &[u8; 25088],
    buffer: &mut [u8],
    one: u32,
    two: u32,
)
    requires roles { IsRowRoles roles.now }
    requires disks { roles.now.disks ≤ 7 }
    requires room { role_bytes * 7 ≤ length buffer.old }
    requires one { one < roles.now.disks }
    requires two { two < roles.now.disks }
    requires differ { one ≢ two }
    requires q { IsSome roles.now.q }
{
    let len = 512 * roles.disks as usize;
    let mut plain = *rows;
    lay(rows, buffer);
    for i in FIRST..FIRST + COUNT {
        raid_parity::fill_two(&mut plain[ROW * i..ROW * i + len], roles, one, two);
    }
    fill_two_run(buffer, roles, one, two, FIRST, COUNT);
    assert!(rt; has(buffer, &plain), "{roles:?} {one} {two}");
}

fn compare_twos(rt: &impl Abort, roles: &RowRoles, rows: &[u8; 25088], buffer: &mut [u8])
    requires roles { IsRowRoles roles.now }
    requires disks { roles.now.disks ≤ 7 }
    requires room { role_bytes * 7 ≤ length buffer.old }
{
    if roles.q.is_some() {
        for one in 0..roles.disks {
            for two in 0..one {
                compare_two(rt, roles, rows, buffer, one, two);
            }
        }
    }
}

// The first two stripes of a shape, on the bytes of a seed.
fn compare_shape(rt: &impl Abort, shape: &Shape, buffer: &mut [u8]) -> Result<(), Fail> {
    if buffer.len() < ROLE_BYTES * 7 || !is_valid_shape(shape) || shape.disks > 7 {
        return Err(Fail::from("no room, or not a shape of at most seven disks"));
    }
    for stripe in 0..2u64 {
        let roles = row_of(shape, stripe * 8);
        let rows = rows_of(1_600 + stripe as u32);
        compare_runs(rt, &roles, &rows, buffer);
        compare_twos(rt, &roles, &rows, buffer);
    }
    Ok(())
}

#[test]
fn runs_are_rows(rt: HostRuntime) -> Result<(), Fail> {
    let mut buffer = vec![in rt.alloc(); 0u8; ROLE_BYTES * 7]?;
    for (level, layout) in LAYOUTS {
        for disks in 4..8u32 {
            compare_shape(
                &rt,
                &Shape {
                    level,
                    layout,
                    chunk: 8,
                    disks,
                },
                &mut buffer,
            )?;
        }
    }
    Ok(())
}
