//! The sums of a row's data, and how often each role counts in them.
ghost use Rattle.std.specs.Prelude.{◌≡◌, ◌≢◌, ℕ, ◌+◌, ◌*◌, ◌<◌, Some, slice_index};
ghost use Rattle.std.specs.Int.Bits.{bit_xor};
ghost use Rattle.raid_parity.specs.Exponents.{is_data, steps_behind};
ghost use Rattle.raid_parity.specs.Parity.{p_byte, q_byte};
ghost use Rattle.raid_parity.specs.Rows.{IsRowRoles, IsRowOf, byte_of, bytes_at, p_weight, q_weight};

use crate::sectors::{add_sector, add_to_both, sector};
use raid_gf256::pow_g;
use raid_types::RowRoles;

/// Two sums of a row's sectors, the second with a weight for each.
#[derive(Drop)]
pub(crate) struct Sums {
    pub plain: [u8; 512],
    pub weighed: [u8; 512],
}

/// How often a role counts in the equation of P, and in that of Q.
#[derive(Clone, Copy)]
pub(crate) struct Weights {
    pub p: u8,
    pub q: u8,
}

// Whether a role is neither P nor Q.
fn is_data_role(roles: &RowRoles, role: u32) -> bool
    ensures { result ≡ is_data roles.now role }
{
    match roles.q {
        None => role != roles.p,
        Some(q) => role != roles.p && q != role,
    }
}

/// The sum of the data, as P has it.
pub(crate) fn plain_sum(row: &[u8], roles: &RowRoles) -> [u8; 512]
    requires roles { IsRowRoles roles.now }
    requires whole { IsRowOf roles.now.disks row.now }
    ensures { (at : ℕ) → at < 512 → slice_index result at ≡ p_byte roles.now (bytes_at roles.now.disks row.now at) }
{
    let mut sum = [0; 512];
    for role in 0..roles.disks {
        if is_data_role(roles, role) {
            add_sector(&mut sum, sector(row, role));
        }
    }
    sum
}

/// The sums of the data, as P and as Q has them.
///
/// The walk goes from the role before Q down to the one after it, so that each doubling raises the weights of all the
/// roles that were passed.
pub(crate) fn both_sums(row: &[u8], roles: &RowRoles, q: u32) -> Sums
    requires roles { IsRowRoles roles.now }
    requires whole { IsRowOf roles.now.disks row.now }
    requires q { roles.now.q ≡ Some q }
    ensures plain { (at : ℕ) → at < 512 → slice_index result.plain at ≡ p_byte roles.now (bytes_at roles.now.disks row.now at) }
    ensures weighed { (at : ℕ) → at < 512 → slice_index result.weighed at ≡ q_byte roles.now q (bytes_at roles.now.disks row.now at) }
{
    let mut plain = [0; 512];
    let mut weighed = [0; 512];
    let mut role = q;
    for _passed in 1..roles.disks {
        role = if role == 0 { roles.disks - 1 } else { role - 1 };
        if role != roles.p {
            add_to_both(&mut plain, &mut weighed, sector(row, role));
        }
    }
    Sums { plain, weighed }
}

/// The sums of the data with the parity that stands there, all 0 where both equations hold.
pub(crate) fn rests(row: &[u8], roles: &RowRoles, q: u32) -> Sums
    requires roles { IsRowRoles roles.now }
    requires whole { IsRowOf roles.now.disks row.now }
    requires q { roles.now.q ≡ Some q }
    ensures plain { (at : ℕ) → at < 512 → slice_index result.plain at ≡ bit_xor (p_byte roles.now (bytes_at roles.now.disks row.now at)) (byte_of row.now roles.now.p at) }
    ensures weighed { (at : ℕ) → at < 512 → slice_index result.weighed at ≡ bit_xor (q_byte roles.now q (bytes_at roles.now.disks row.now at)) (byte_of row.now q at) }
{
    let Sums {
        mut plain,
        mut weighed,
    } = both_sums(row, roles, q);
    add_sector(&mut plain, sector(row, roles.p));
    add_sector(&mut weighed, sector(row, q));
    Sums { plain, weighed }
}

// How many disks a role stands behind Q, going round.
fn steps_after(roles: &RowRoles, q: u32, role: u32) -> u32
    requires roles { IsRowRoles roles.now }
    requires q { q < roles.now.disks }
    requires role { role < roles.now.disks }
    ensures { result ≡ steps_behind roles.now q role }
{
    (role + roles.disks - (q + 1)) % roles.disks
}

/// How often a role counts in the two equations.
pub(crate) fn weights_of(roles: &RowRoles, q: u32, role: u32) -> Weights
    requires roles { IsRowRoles roles.now }
    requires q { roles.now.q ≡ Some q }
    requires role { role < roles.now.disks }
    ensures p { result.p ≡ p_weight roles.now role }
    ensures q { result.q ≡ q_weight roles.now q role }
{
    if role == roles.p {
        return Weights { p: 1, q: 0 };
    }
    if role == q {
        return Weights { p: 0, q: 1 };
    }
    let steps = steps_after(roles, q, role);
    let passed_p = steps_after(roles, q, roles.p) < steps;
    let exponent = if passed_p { steps - 1 } else { steps };
    Weights {
        p: 1,
        q: pow_g(exponent),
    }
}
