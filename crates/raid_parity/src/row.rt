//! The parity of a row, and its lacking roles.
ghost use Rattle.std.specs.Prelude.{◌≡◌, ◌≢◌, ◌==◌, ℕ, ◌<◌, ◌||◌, false, IsTrue, IsSome, if◌then◌else◌, slice_index};
ghost use Rattle.std.specs.Int.Bits.{bit_xor};
ghost use Rattle.raid_parity.specs.Exponents.{is_data, is_q};
ghost use Rattle.raid_parity.specs.Parity.{p_byte, q_byte, fill, AreEquationsMet};
ghost use Rattle.raid_parity.specs.Rows.{IsRowRoles, IsRowOf, byte_of, bytes_at, sector_of, row_without, whole_row};

use crate::sectors::{add_sector, combination, put_sector, sector};
use crate::sums::{Sums, both_sums, plain_sum, rests, weights_of};
use raid_gf256::{inv, mul};
use raid_types::RowRoles;

/// Sets P, and Q where there is one, from the data of a row of whole sectors, role after role.
pub fn syndromes(row: &mut [u8], roles: &RowRoles)
    requires roles { IsRowRoles roles.now }
    requires whole { IsRowOf roles.now.disks row.old }
    ensures good { AreEquationsMet roles.now (whole_row roles.now.disks (sector_of row.new)) }
    ensures data { (role : ℕ) → IsTrue (is_data roles.now role) → sector_of row.new role ≡ sector_of row.old role }
{
    match roles.q {
        None => {
            let sum = plain_sum(row, roles);
            put_sector(row, roles.p, &sum);
        }
        Some(q) => {
            let Sums { plain, weighed } = both_sums(row, roles, q);
            put_sector(row, roles.p, &plain);
            put_sector(row, q, &weighed);
        }
    }
}

// The sector of a role that is missing alone, from a row that has zeros there.
fn missing_sector(row: &[u8], roles: &RowRoles, missing: u32) -> [u8; 512]
    requires roles { IsRowRoles roles.now }
    requires whole { IsRowOf roles.now.disks row.now }
    ensures q { IsTrue (is_q roles.now missing) → (at : ℕ) → at < 512 → slice_index result at ≡ q_byte roles.now missing (bytes_at roles.now.disks row.now at) }
    ensures other { is_q roles.now missing ≡ false → (at : ℕ) → at < 512 → slice_index result at ≡ bit_xor (p_byte roles.now (bytes_at roles.now.disks row.now at)) (byte_of row.now roles.now.p at) }
{
    if let Some(q) = roles.q {
        if q == missing {
            let Sums { plain: _, weighed } = both_sums(row, roles, q);
            return weighed;
        }
    }
    let mut sum = plain_sum(row, roles);
    add_sector(&mut sum, sector(row, roles.p));
    sum
}

/// Sets the sector of one missing role from those of the others: Q from the data, any other from the data and P.
pub fn fill_one(row: &mut [u8], roles: &RowRoles, missing: u32)
    requires roles { IsRowRoles roles.now }
    requires whole { IsRowOf roles.now.disks row.old }
    requires missing { missing < roles.now.disks }
    ensures filled { sector_of row.new missing ≡ fill roles.now (row_without (λ role. role == missing) roles.now.disks (sector_of row.old)) missing }
    ensures others { (role : ℕ) → role ≢ missing → sector_of row.new role ≡ sector_of row.old role }
{
    put_sector(row, missing, &[0; 512]);
    let sector = missing_sector(row, roles, missing);
    put_sector(row, missing, &sector);
}

/// Sets the sectors of two missing roles of a row that has a Q, from those of the others.
pub fn fill_two(row: &mut [u8], roles: &RowRoles, first: u32, second: u32)
    requires roles { IsRowRoles roles.now }
    requires whole { IsRowOf roles.now.disks row.old }
    requires first { first < roles.now.disks }
    requires second { second < roles.now.disks }
    requires differ { first ≢ second }
    requires q { IsSome roles.now.q }
    ensures first { sector_of row.new first ≡ fill roles.now (row_without (λ role. (role == first) || (role == second)) roles.now.disks (sector_of row.old)) first }
    ensures second { sector_of row.new second ≡ fill roles.now (row_without (λ role. (role == first) || (role == second)) roles.now.disks (sector_of row.old)) second }
    ensures others { (role : ℕ) → role ≢ first → role ≢ second → sector_of row.new role ≡ sector_of row.old role }
{
    put_sector(row, first, &[0; 512]);
    put_sector(row, second, &[0; 512]);
    let q = roles.q.unwrap();
    let Sums { plain, weighed } = rests(row, roles, q);
    let one = weights_of(roles, q, first);
    let two = weights_of(roles, q, second);
    let over = inv(mul(one.p, two.q) ^ mul(two.p, one.q));
    let first_sector = combination(&plain, mul(over, two.q), &weighed, mul(over, two.p));
    let second_sector = combination(&plain, mul(over, one.q), &weighed, mul(over, one.p));
    put_sector(row, first, &first_sector);
    put_sector(row, second, &second_sector);
}
