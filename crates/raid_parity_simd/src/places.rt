//! Where the parts begin that are summed.
ghost use Rattle.std.specs.Prelude.{◌≡◌, ◌==◌, ◌||◌, Some};
ghost use Rattle.raid_parity.specs.Exponents.{is_q};
ghost use Rattle.raid_parity.specs.Rows.{IsRowRoles};
ghost use Rattle.raid_parity_simd.specs.Places.{AreDataPlaces, AreOtherPlaces};

use crate::order::{MOST_ROLES, data_role};
use raid_parity::RowRoles;

/// So many places; what follows them is left open.
#[derive(Clone, Copy)]
pub(crate) struct Places {
    pub list: [usize; MOST_ROLES],
    pub count: usize,
}

/// The places of the data, from the greatest exponent down to exponent 0.
pub(crate) fn data_places(starts: &[usize; MOST_ROLES], roles: &RowRoles, q: u32) -> Places
    requires roles { IsRowRoles roles.now }
    requires q { roles.now.q ≡ Some q }
    ensures { AreDataPlaces roles.now q starts.now result.list result.count }
{
    let mut list = [0; MOST_ROLES];
    let count = roles.disks - 2;
    for k in 0..count {
        let role = data_role(roles, q, count - 1 - k);
        list[k as usize] = starts[role as usize];
    }
    Places {
        list,
        count: count as usize,
    }
}

// Whether a role is this one or Q.
fn is_skipped(roles: &RowRoles, role: u32, other: u32) -> bool
    ensures { result ≡ ((other == role) || is_q roles.now other) }
{
    match roles.q {
        None => other == role,
        Some(q) => other == role || q == other,
    }
}

/// The places of all roles but this one and Q.
pub(crate) fn other_places(starts: &[usize; MOST_ROLES], roles: &RowRoles, role: u32) -> Places
    requires roles { IsRowRoles roles.now }
    ensures { AreOtherPlaces roles.now role starts.now result.list result.count }
{
    let mut list = [0; MOST_ROLES];
    let mut count = 0;
    for other in 0..roles.disks {
        if !is_skipped(roles, role, other) {
            list[count] = starts[other as usize];
            count += 1;
        }
    }
    Places { list, count }
}
