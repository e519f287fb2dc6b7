//! The sums of the data in the parts of roles, and how often each role counts in them.
ghost use Rattle.std.specs.Prelude.{◌≡◌, ℕ, ◌+◌, ◌<◌, ◌≤◌, false, Some, length, slice_index};
ghost use Rattle.std.specs.Int.Bits.{bit_xor};
ghost use Rattle.raid_parity.specs.Exponents.{is_q, steps_behind};
ghost use Rattle.raid_parity.specs.Parity.{p_byte, q_byte};
ghost use Rattle.raid_parity.specs.Rows.{IsRowRoles, p_weight, q_weight};
ghost use Rattle.raid_parity_simd.specs.Parts.{AreParts, IsOutside, part_byte, part_bytes, role_limit};
ghost use Rattle.raid_parity_simd.specs.Places.{plain_sum, weighed_sum};

use crate::order::{MOST_ROLES, steps_after};
use crate::places::{Places, data_places, other_places};
use crate::sectors::{LANES, double_and_add, load, store};
use raid_parity::{RowRoles, pow_g};
use std::simd::prelude::*;

/// Two sums of one block, the second with a weight for each role.
#[derive(Clone, Copy)]
pub(crate) struct BlockSums {
    pub plain: u8x64,
    pub weighed: u8x64,
}

/// How often a role counts in the equation of P, and in that of Q.
#[derive(Clone, Copy)]
pub(crate) struct Weights {
    pub p: u8,
    pub q: u8,
}

/// The sum of the first block of each of these parts.
#[inline(always)]
pub(crate) fn sum_at(here: &[u8], places: &Places) -> u8x64
    requires few { places.now.count ≤ role_limit }
    requires room { (j : ℕ) → j < places.now.count → slice_index places.now.list j + 64 ≤ length here.now }
    ensures lanes { length result ≡ 64 }
    ensures each { (i : ℕ) → i < 64 → slice_index result i ≡ plain_sum places.now.count (λ j. slice_index here.now (slice_index places.now.list j + i)) }
{
    let mut sum = u8x64::splat(0);
    for j in 0..places.count {
        let block = load(here, places.list[j]);
        sum ^= block;
    }
    sum
}

/// Sets a role's part to the sum of all others but Q.
#[inline(always)]
pub(crate) fn set_rest(
    bytes: &mut [u8],
    starts: &[usize; MOST_ROLES],
    len: usize,
    roles: &RowRoles,
    role: u32,
)
    requires roles { IsRowRoles roles.now }
    requires parts { AreParts roles.now.disks starts.now len (length bytes.old) }
    requires role { role < roles.now.disks }
    requires not_q { is_q roles.now role ≡ false }
    ensures there { (k : ℕ) → k < len → part_byte bytes.new starts.now role k ≡ bit_xor (bit_xor (p_byte roles.now (part_bytes roles.now.disks bytes.old starts.now k)) (part_byte bytes.old starts.now roles.now.p k)) (part_byte bytes.old starts.now role k) }
    ensures others { (place : ℕ) → IsOutside (slice_index starts.now role) len place → slice_index bytes.new place ≡ slice_index bytes.old place }
{
    let places = other_places(starts, roles, role);
    let start = starts[role as usize];
    for block in 0..len / LANES {
        let at = block * LANES;
        let sum = sum_at(&bytes[at..], &places);
        store(bytes, start + at, sum);
    }
}

/// The sum of the first block of each of these parts, and the sum that is doubled before each.
///
/// Both sums stay in registers: each block of data is loaded once, and nothing is stored here.
#[inline(always)]
pub(crate) fn both_at(here: &[u8], places: &Places) -> BlockSums
    requires few { places.now.count ≤ role_limit }
    requires room { (j : ℕ) → j < places.now.count → slice_index places.now.list j + 64 ≤ length here.now }
    ensures plain_lanes { length result.plain ≡ 64 }
    ensures weighed_lanes { length result.weighed ≡ 64 }
    ensures bytes { (place : ℕ) → slice_index here.now place < 256 }
    ensures plain { (i : ℕ) → i < 64 → slice_index result.plain i ≡ plain_sum places.now.count (λ j. slice_index here.now (slice_index places.now.list j + i)) }
    ensures weighed { (i : ℕ) → i < 64 → slice_index result.weighed i ≡ weighed_sum places.now.count (λ j. slice_index here.now (slice_index places.now.list j + i)) }
{
    let mut plain = u8x64::splat(0);
    let mut weighed = u8x64::splat(0);
    for j in 0..places.count {
        let block = load(here, places.list[j]);
        plain ^= block;
        weighed = double_and_add(weighed, block);
    }
    BlockSums { plain, weighed }
}

/// Sets P and Q to the sums of the data.
#[inline(always)]
pub(crate) fn set_both(
    bytes: &mut [u8],
    starts: &[usize; MOST_ROLES],
    len: usize,
    roles: &RowRoles,
    q: u32,
)
    requires roles { IsRowRoles roles.now }
    requires parts { AreParts roles.now.disks starts.now len (length bytes.old) }
    requires q { roles.now.q ≡ Some q }
    ensures p { (k : ℕ) → k < len → part_byte bytes.new starts.now roles.now.p k ≡ p_byte roles.now (part_bytes roles.now.disks bytes.old starts.now k) }
    ensures q { (k : ℕ) → k < len → part_byte bytes.new starts.now q k ≡ q_byte roles.now q (part_bytes roles.now.disks bytes.old starts.now k) }
    ensures others { (place : ℕ) → IsOutside (slice_index starts.now roles.now.p) len place → IsOutside (slice_index starts.now q) len place → slice_index bytes.new place ≡ slice_index bytes.old place }
{
    let places = data_places(starts, roles, q);
    let p_start = starts[roles.p as usize];
    let q_start = starts[q as usize];
    for block in 0..len / LANES {
        let at = block * LANES;
        let sums = both_at(&bytes[at..], &places);
        store(bytes, p_start + at, sums.plain);
        store(bytes, q_start + at, sums.weighed);
    }
}

/// Sets Q to the sum of the data.
#[inline(always)]
pub(crate) fn set_q(
    bytes: &mut [u8],
    starts: &[usize; MOST_ROLES],
    len: usize,
    roles: &RowRoles,
    q: u32,
)
    requires roles { IsRowRoles roles.now }
    requires parts { AreParts roles.now.disks starts.now len (length bytes.old) }
    requires q { roles.now.q ≡ Some q }
    ensures there { (k : ℕ) → k < len → part_byte bytes.new starts.now q k ≡ q_byte roles.now q (part_bytes roles.now.disks bytes.old starts.now k) }
    ensures others { (place : ℕ) → IsOutside (slice_index starts.now q) len place → slice_index bytes.new place ≡ slice_index bytes.old place }
{
    let places = data_places(starts, roles, q);
    let start = starts[q as usize];
    for block in 0..len / LANES {
        let at = block * LANES;
        let sums = both_at(&bytes[at..], &places);
        store(bytes, start + at, sums.weighed);
    }
}

/// How often a role counts in the two equations.
pub(crate) fn weights_of(roles: &RowRoles, q: u32, role: u32) -> Weights
    requires roles { IsRowRoles roles.now }
    requires q { roles.now.q ≡ Some q }
    requires role { role < roles.now.disks }
    ensures p { result.p ≡ p_weight roles.now role }
    ensures q { result.q ≡ q_weight roles.now q role }
{
    if role == roles.p {
        return Weights { p: 1, q: 0 };
    }
    if role == q {
        return Weights { p: 0, q: 1 };
    }
    let steps = steps_after(roles, q, role);
    let passed_p = steps_after(roles, q, roles.p) < steps;
    let exponent = if passed_p { steps - 1 } else { steps };
    Weights {
        p: 1,
        q: pow_g(exponent),
    }
}
