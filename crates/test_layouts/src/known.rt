//! Rows whose parity was worked out by hand.

ghost use Rattle.std.specs.Prelude.{◌≡◌, ◌≤◌, IsSome, length};
ghost use Rattle.raid_parity.specs.Rows.{IsRowRoles};

use raid_types::RowRoles;
use std::process::Abort;

// Puts each byte in its place.
fn put(row: &mut [u8], bytes: &[(u16, u8)])
    ensures { length row.new ≡ length row.old }
{
    for (at, byte) in bytes {
        let at = *at as usize;
        if at < row.len() {
            row[at] = *byte;
        }
    }
}

// Whether each byte is in its place.
fn has(row: &[u8], bytes: &[(u16, u8)]) -> bool {
    for (at, byte) in bytes {
        if row.get(*at as usize) != Some(byte) {
            return false;
        }
    }
    true
}

// The parity of these data bytes by both crates.
fn compare(rt: &impl Abort, roles: &RowRoles, data: &[(u16, u8)], wanted: &[(u16, u8)])
    requires roles { IsRowRoles roles.now }
    requires disks { roles.now.disks ≤ 5 }
{
    let end = 512 * roles.disks as usize;
    let mut plain = [0u8; 2560];
    put(&mut plain, data);
    let mut lanes = plain;
    raid_parity::syndromes(&mut plain[..end], roles);
    assert!(rt; has(&plain, wanted), "{roles:?}");
    raid_parity_simd::syndromes(&mut lanes[..end], roles);
    assert!(rt; has(&lanes, wanted), "{roles:?}");
}

const TWO_ONES: [(u16, u8); 4] = [(511, 1), (1023, 1), (1535, 0), (2047, 3)];

// The first role is filled, and then the first two, over bytes that are wrong.
fn fill(rt: &impl Abort, roles: &RowRoles)
    requires roles { IsRowRoles roles.now }
    requires disks { roles.now.disks ≡ 4 }
    requires q { IsSome roles.now.q }
{
    let mut row = [0u8; 2048];
    put(&mut row, &[(511, 7), (1023, 1), (1535, 0), (2047, 3)]);
    raid_parity::fill_one(row.as_mut_slice(), roles, 0);
    assert!(rt; row[511] == 1);
    row[1023] = 9;
    raid_parity::fill_two(row.as_mut_slice(), roles, 1, 0);
    assert!(rt; has(&row, &TWO_ONES));
}

// The same by vectors.
fn fill_by_lanes(rt: &impl Abort, roles: &RowRoles)
    requires roles { IsRowRoles roles.now }
    requires disks { roles.now.disks ≡ 4 }
    requires q { IsSome roles.now.q }
{
    let mut row = [0u8; 2048];
    put(&mut row, &[(511, 7), (1023, 1), (1535, 0), (2047, 3)]);
    raid_parity_simd::fill_one(row.as_mut_slice(), roles, 0);
    assert!(rt; row[511] == 1);
    row[1023] = 9;
    raid_parity_simd::fill_two(row.as_mut_slice(), roles, 1, 0);
    assert!(rt; has(&row, &TWO_ONES));
}

#[test]
fn known_rows(rt: HostRuntime) {
    // the data bytes 1 of exponent 0 and 1 of exponent 1
    let roles = RowRoles {
        disks: 4,
        p: 2,
        q: Some(3),
    };
    compare(&rt, &roles, &TWO_ONES[..2], &TWO_ONES);
    fill(&rt, &roles);
    fill_by_lanes(&rt, &roles);
    // left-symmetric on five disks, stripe 0: P on role 4 and Q on role 0, the data on roles 1, 2, 3 in this order
    let roles = RowRoles {
        disks: 5,
        p: 4,
        q: Some(0),
    };
    compare(
        &rt,
        &roles,
        &[(512, 0x01), (1024, 0x10), (1536, 0x20)],
        &[(2048, 0x31), (0, 0x01 ^ 0x20 ^ 0x80)],
    );
    // left-asymmetric on five disks, stripe 2: P on role 2 and Q on role 3, the exponents 0, 1, 2 on roles 4, 0, 1
    let roles = RowRoles {
        disks: 5,
        p: 2,
        q: Some(3),
    };
    compare(
        &rt,
        &roles,
        &[(2048, 0x01), (0, 0x10), (512, 0x20)],
        &[(1024, 0x31), (1536, 0x01 ^ 0x20 ^ 0x80)],
    );
}
