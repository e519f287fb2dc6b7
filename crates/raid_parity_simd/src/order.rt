//! The data roles of a row with a Q by their exponents.
ghost use Rattle.std.specs.Prelude.{◌≡◌, ◌+◌, ◌<◌, Some, IsTrue};
ghost use Rattle.raid_parity.specs.Exponents.{is_data, steps_behind, exponent};
ghost use Rattle.raid_parity.specs.Rows.{IsRowRoles};

use raid_parity::RowRoles;

/// The most roles of a row.
pub const MOST_ROLES: usize = 16;

/// How many disks a role stands behind Q, going round.
pub(crate) fn steps_after(roles: &RowRoles, q: u32, role: u32) -> u32
    requires roles { IsRowRoles roles.now }
    requires q { q < roles.now.disks }
    requires role { role < roles.now.disks }
    ensures { result ≡ steps_behind roles.now q role }
{
    if q < role {
        role - (q + 1)
    } else {
        role + roles.disks - (q + 1)
    }
}

/// The data role of an exponent.
pub(crate) fn data_role(roles: &RowRoles, q: u32, wanted: u32) -> u32
    requires roles { IsRowRoles roles.now }
    requires q { roles.now.q ≡ Some q }
    requires wanted { wanted + 2 < roles.now.disks }
    ensures within { result < roles.now.disks }
    ensures data { IsTrue (is_data roles.now result) }
    ensures value { exponent roles.now q result ≡ wanted }
{
    let passed_p = steps_after(roles, q, roles.p) <= wanted;
    let steps = if passed_p { wanted + 1 } else { wanted };
    let place = q + 1 + steps;
    if place < roles.disks {
        place
    } else {
        place - roles.disks
    }
}
