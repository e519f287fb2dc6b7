//! The parity of a row, and its lacking roles.
ghost use Rattle.std.specs.Prelude.{◌≡◌, ◌≢◌, ◌==◌, ℕ, ◌*◌, ◌<◌, ◌||◌, IsTrue, IsSome, slice_index};
ghost use Rattle.raid_parity.specs.Exponents.{is_data};
ghost use Rattle.raid_parity.specs.Parity.{fill, AreEquationsMet};
ghost use Rattle.raid_parity.specs.Rows.{IsRowRoles, IsRowOf, sector_of, row_without, whole_row};
ghost use Rattle.raid_parity_simd.specs.Parts.{role_limit};

use crate::order::MOST_ROLES;
use crate::solve::{factors_of, set_two};
use crate::sums::{set_both, set_q, set_rest};
use raid_parity::RowRoles;

const SECTOR: usize = 512;

// Where the sectors of a row begin.
fn row_starts() -> [usize; MOST_ROLES]
    ensures { (role : ℕ) → role < role_limit → slice_index result role ≡ 512 * role }
{
    let mut starts = [0; MOST_ROLES];
    for role in 0..MOST_ROLES {
        starts[role] = SECTOR * role;
    }
    starts
}

/// Sets P, and Q where there is one, from the data of a row of whole sectors, role after role.
pub fn syndromes(row: &mut [u8], roles: &RowRoles)
    requires roles { IsRowRoles roles.now }
    requires whole { IsRowOf roles.now.disks row.old }
    ensures good { AreEquationsMet roles.now (whole_row roles.now.disks (sector_of row.new)) }
    ensures data { (role : ℕ) → IsTrue (is_data roles.now role) → sector_of row.new role ≡ sector_of row.old role }
{
    let starts = row_starts();
    match roles.q {
        None => set_rest(row, &starts, SECTOR, roles, roles.p),
        Some(q) => set_both(row, &starts, SECTOR, roles, q),
    }
}

/// Sets the sector of one missing role from those of the others: Q from the data, any other from the data and P.
pub fn fill_one(row: &mut [u8], roles: &RowRoles, missing: u32)
    requires roles { IsRowRoles roles.now }
    requires whole { IsRowOf roles.now.disks row.old }
    requires missing { missing < roles.now.disks }
    ensures filled { sector_of row.new missing ≡ fill roles.now (row_without (λ role. role == missing) roles.now.disks (sector_of row.old)) missing }
    ensures others { (role : ℕ) → role ≢ missing → sector_of row.new role ≡ sector_of row.old role }
{
    let starts = row_starts();
    if let Some(q) = roles.q {
        if q == missing {
            set_q(row, &starts, SECTOR, roles, q);
            return;
        }
    }
    set_rest(row, &starts, SECTOR, roles, missing);
}

/// Sets the sectors of two missing roles of a row that has a Q, from those of the others.
pub fn fill_two(row: &mut [u8], roles: &RowRoles, first: u32, second: u32)
    requires roles { IsRowRoles roles.now }
    requires whole { IsRowOf roles.now.disks row.old }
    requires first { first < roles.now.disks }
    requires second { second < roles.now.disks }
    requires differ { first ≢ second }
    requires q { IsSome roles.now.q }
    ensures first { sector_of row.new first ≡ fill roles.now (row_without (λ role. (role == first) || (role == second)) roles.now.disks (sector_of row.old)) first }
    ensures second { sector_of row.new second ≡ fill roles.now (row_without (λ role. (role == first) || (role == second)) roles.now.disks (sector_of row.old)) second }
    ensures others { (role : ℕ) → role ≢ first → role ≢ second → sector_of row.new role ≡ sector_of row.old role }
{
    let q = roles.q.unwrap();
    let factors = factors_of(roles, q, first, second);
    set_two(
        row,
        &row_starts(),
        SECTOR,
        roles,
        q,
        first,
        second,
        &factors,
    );
}
