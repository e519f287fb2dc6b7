//! Bad rows of five disks at level 6, and of three at level 5, all of whose sound sectors are zero.

use raid_types::RowRoles;
use std::test::Fail;
use stripe_suspects::{Judged, judge_row};

/// The first row of the layout left-symmetric.
const LEVEL_6: RowRoles = RowRoles {
    disks: 5,
    p: 3,
    q: Some(4),
};

// A row of zeros, but for sectors that are full of a byte.
fn row_with(sectors: &[(u8, u8)]) -> [u8; 2560] {
    let mut row = [0; 2560];
    for (role, byte) in sectors {
        let start = 512 * *role as usize;
        for at in 0..512 {
            if start + at < 2560 {
                row[start + at] = *byte;
            }
        }
    }
    row
}

#[test]
fn one_bad_sector_is_named(rt: HostRuntime) -> Result<(), Fail> {
    assert_eq!(rt; judge_row(&mut row_with(&[]), &LEVEL_6), Judged::Good);
    for role in 0..5u8 {
        let mut row = row_with(&[(role, 1)]);
        assert_eq!(rt; judge_row(&mut row, &LEVEL_6), Judged::Suspect(role as u32));
    }
    Ok(())
}

#[test]
fn parity_is_set_from_the_data(rt: HostRuntime) -> Result<(), Fail> {
    let mut row = row_with(&[(1, 1)]);
    let _judged = judge_row(&mut row, &LEVEL_6);
    assert_eq!(rt; (row[512], row[1536], row[2559]), (1, 1, 2));
    assert_eq!(rt; judge_row(&mut row, &LEVEL_6), Judged::Good);
    Ok(())
}

#[test]
fn two_bad_sectors_name_none(rt: HostRuntime) -> Result<(), Fail> {
    let mut row = row_with(&[]);
    row[7] = 1;
    row[512 + 8] = 1;
    assert_eq!(rt; judge_row(&mut row, &LEVEL_6), Judged::Unknown);
    let level_5 = RowRoles {
        disks: 3,
        p: 2,
        q: None,
    };
    let mut row = [0; 1536];
    row[7] = 1;
    assert_eq!(rt; judge_row(&mut row, &level_5), Judged::Unknown);
    Ok(())
}
