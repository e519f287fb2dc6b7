//! Two roles that are missing, from the rests of both equations.
ghost use Rattle.std.specs.Prelude.{◌≡◌, ◌≢◌, ℕ, ◌+◌, ◌*◌, ◌%◌, ◌<◌, ◌≤◌, Some, length, slice_index};
ghost use Rattle.std.specs.Int.Bits.{bit_xor};
ghost use Rattle.raid_parity.specs.raid_gf256_Field.{product};
ghost use Rattle.raid_parity.specs.raid_types_Search.{tabulate};
ghost use Rattle.raid_parity.specs.Parity.{p_byte, q_byte};
ghost use Rattle.raid_parity.specs.Rows.{IsRowRoles};
ghost use Rattle.raid_parity_simd.specs.Factors.{AreFactors};
ghost use Rattle.raid_parity_simd.specs.Parts.{AreParts, IsOutside, part_byte, emptied, solved};
ghost use Rattle.raid_parity_simd.specs.Places.{AreDataPlaces};

use crate::order::MOST_ROLES;
use crate::places::{Places, data_places};
use crate::sectors::{LANES, Products, load, looked_up, products_of, store};
use crate::sums::{BlockSums, both_at, weights_of};
use raid_parity::{RowRoles, inv, mul};
use std::simd::prelude::*;

/// What the rests of both equations are multiplied with, for each of two missing roles.
#[derive(Clone, Copy)]
pub(crate) struct Factors {
    pub first_plain: u8,
    pub first_weighed: u8,
    pub second_plain: u8,
    pub second_weighed: u8,
}

/// The factors of two roles.
pub(crate) fn factors_of(roles: &RowRoles, q: u32, first: u32, second: u32) -> Factors
    requires roles { IsRowRoles roles.now }
    requires q { roles.now.q ≡ Some q }
    requires first { first < roles.now.disks }
    requires second { second < roles.now.disks }
    requires differ { first ≢ second }
    ensures { AreFactors roles.now q first second result.first_plain result.first_weighed result.second_plain result.second_weighed }
{
    let one = weights_of(roles, q, first);
    let two = weights_of(roles, q, second);
    let over = inv(mul(one.p, two.q) ^ mul(two.p, one.q));
    Factors {
        first_plain: mul(over, two.q),
        first_weighed: mul(over, two.p),
        second_plain: mul(over, one.q),
        second_weighed: mul(over, one.p),
    }
}

// The rests of both equations in one block, in which two roles are cleared.
#[inline(always)]
fn cleared_rests(
    bytes: &mut [u8],
    starts: &[usize; MOST_ROLES],
    len: usize,
    roles: &RowRoles,
    q: u32,
    places: &Places,
    first: u32,
    second: u32,
    at: usize,
) -> BlockSums
    requires roles { IsRowRoles roles.now }
    requires parts { AreParts roles.now.disks starts.now len (length bytes.old) }
    requires q { roles.now.q ≡ Some q }
    requires places { AreDataPlaces roles.now q starts.now places.now.list places.now.count }
    requires first { first < roles.now.disks }
    requires second { second < roles.now.disks }
    requires at { at + 64 ≤ len }
    ensures plain_lanes { length result.plain ≡ 64 }
    ensures weighed_lanes { length result.weighed ≡ 64 }
    ensures plain { (i : ℕ) → i < 64 → let f : ℕ → ℕ = emptied (λ role. part_byte bytes.old starts.now role (at + i)) first second in slice_index result.plain i ≡ bit_xor (p_byte roles.now (tabulate roles.now.disks f)) (f roles.now.p) }
    ensures weighed { (i : ℕ) → i < 64 → let f : ℕ → ℕ = emptied (λ role. part_byte bytes.old starts.now role (at + i)) first second in slice_index result.weighed i ≡ bit_xor (q_byte roles.now q (tabulate roles.now.disks f)) (f q) }
    ensures others { (place : ℕ) → IsOutside (slice_index starts.now first + at) 64 place → IsOutside (slice_index starts.now second + at) 64 place → slice_index bytes.new place ≡ slice_index bytes.old place }
{
    store(bytes, starts[first as usize] + at, u8x64::splat(0));
    store(bytes, starts[second as usize] + at, u8x64::splat(0));
    let sums = both_at(&bytes[at..], places);
    let p = load(bytes, starts[roles.p as usize] + at);
    let weighed = load(bytes, starts[q as usize] + at);
    BlockSums {
        plain: sums.plain ^ p,
        weighed: sums.weighed ^ weighed,
    }
}

// Two rests, each times a factor, added.
#[inline(always)]
fn combined(plain: &Products, weighed: &Products, rests: &BlockSums) -> u8x64
    requires plain_low { (i : ℕ) → i < 64 → slice_index plain.now.low i ≡ product plain.now.factor (i % 16) }
    requires plain_high { (i : ℕ) → i < 64 → slice_index plain.now.high i ≡ product plain.now.factor (i % 16 * 16) }
    requires weighed_low { (i : ℕ) → i < 64 → slice_index weighed.now.low i ≡ product weighed.now.factor (i % 16) }
    requires weighed_high { (i : ℕ) → i < 64 → slice_index weighed.now.high i ≡ product weighed.now.factor (i % 16 * 16) }
    ensures lanes { length result ≡ 64 }
    ensures each { (i : ℕ) → i < 64 → slice_index result i ≡ bit_xor (product plain.now.factor (slice_index rests.now.plain i)) (product weighed.now.factor (slice_index rests.now.weighed i)) }
{
    let one = looked_up(plain, rests.plain);
    let two = looked_up(weighed, rests.weighed);
    one ^ two
}

/// Sets the parts of two roles to what the rests of both equations give.
#[inline(always)]
pub(crate) fn set_two(
    bytes: &mut [u8],
    starts: &[usize; MOST_ROLES],
    len: usize,
    roles: &RowRoles,
    q: u32,
    first: u32,
    second: u32,
    factors: &Factors,
)
    requires roles { IsRowRoles roles.now }
    requires parts { AreParts roles.now.disks starts.now len (length bytes.old) }
    requires q { roles.now.q ≡ Some q }
    requires first { first < roles.now.disks }
    requires second { second < roles.now.disks }
    requires differ { first ≢ second }
    ensures first { (k : ℕ) → k < len → part_byte bytes.new starts.now first k ≡ solved roles.now q factors.now.first_plain factors.now.first_weighed (emptied (λ role. part_byte bytes.old starts.now role k) first second) }
    ensures second { (k : ℕ) → k < len → part_byte bytes.new starts.now second k ≡ solved roles.now q factors.now.second_plain factors.now.second_weighed (emptied (λ role. part_byte bytes.old starts.now role k) first second) }
    ensures others { (place : ℕ) → IsOutside (slice_index starts.now first) len place → IsOutside (slice_index starts.now second) len place → slice_index bytes.new place ≡ slice_index bytes.old place }
{
    let places = data_places(starts, roles, q);
    let first_plain = products_of(factors.first_plain);
    let first_weighed = products_of(factors.first_weighed);
    let second_plain = products_of(factors.second_plain);
    let second_weighed = products_of(factors.second_weighed);
    let first_start = starts[first as usize];
    let second_start = starts[second as usize];
    for block in 0..len / LANES {
        let at = block * LANES;
        let rests = cleared_rests(bytes, starts, len, roles, q, &places, first, second, at);
        let one = combined(&first_plain, &first_weighed, &rests);
        let two = combined(&second_plain, &second_weighed, &rests);
        store(bytes, first_start + at, one);
        store(bytes, second_start + at, two);
    }
}
