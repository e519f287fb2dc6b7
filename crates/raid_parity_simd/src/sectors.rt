//! Blocks of 64 bytes.
ghost use Rattle.std.specs.Prelude.{◌≡◌, ℕ, ◌+◌, ◌*◌, ◌%◌, ◌<◌, ◌≤◌, length, slice_index};
ghost use Rattle.std.specs.Int.Bits.{bit_xor};
ghost use Rattle.std.specs.Simd.Lanes.{Each1, chunk, put_chunk};
ghost use Rattle.raid_parity.specs.raid_gf256_Field.{double, product};

use std::simd::prelude::*;

pub(crate) const LANES: usize = 64;

/// The block of 64 bytes at a place.
#[inline(always)]
pub(crate) fn load(bytes: &[u8], at: usize) -> u8x64
    requires { at + 64 ≤ length bytes.now }
    ensures lanes { length result ≡ 64 }
    ensures bytes { Each1 (λ x. x < 256) result }
    ensures value { result ≡ chunk at 64 bytes.now }
{
    u8x64::from_slice(&bytes[at..])
}

/// Stores a block at a place.
#[inline(always)]
pub(crate) fn store(into: &mut [u8], at: usize, block: u8x64)
    requires { at + 64 ≤ length into.old }
    ensures { into.new ≡ put_chunk at into.old block }
{
    block.copy_to_slice(&mut into[at..]);
}

// Two times each lane.
#[inline(always)]
fn double_lanes(v: u8x64) -> u8x64
    ensures lanes { length result ≡ 64 }
    ensures bytes { Each1 (λ x. x < 256) result }
    ensures each { (i : ℕ) → i < 64 → slice_index result i ≡ double (slice_index v i) }
{
    let carries = v.simd_ge(u8x64::splat(128));
    (v + v) ^ carries.select(u8x64::splat(29), u8x64::splat(0))
}

/// Two times each lane, with another vector added.
///
/// What the carries give back goes to the other vector first, so that no register is copied in a loop.
#[inline(always)]
pub(crate) fn double_and_add(v: u8x64, more: u8x64) -> u8x64
    ensures lanes { length result ≡ 64 }
    ensures each { (i : ℕ) → i < 64 → slice_index result i ≡ bit_xor (double (slice_index v i)) (slice_index more i) }
{
    let carried = v.simd_ge(u8x64::splat(128));
    let reduced = more ^ carried.select(u8x64::splat(29), u8x64::splat(0));
    reduced ^ (v + v)
}

// A factor times each lane, by the bits of the factor.
#[inline(always)]
fn times_lanes(v: u8x64, factor: u8) -> u8x64
    ensures lanes { length result ≡ 64 }
    ensures each { (i : ℕ) → i < 64 → slice_index result i ≡ product factor (slice_index v i) }
{
    let mut sum = u8x64::splat(0);
    let mut term = v;
    let mut left = factor;
    for _bit in 0..8u32 {
        let taken = left % 2;
        if taken == 1 {
            sum ^= term;
        }
        left /= 2;
        term = double_lanes(term);
    }
    sum
}

/// The products of a factor with the low halves of bytes, and with the high halves, each sixteen of them four times over.
#[derive(Clone, Copy)]
pub(crate) struct Products {
    factor: u8,
    low: u8x64,
    high: u8x64,
}

const LOW_HALVES: [u8; 64] = [
    0, 1, 2, 3, 4, 5, 6, 7, 8, 9, 10, 11, 12, 13, 14, 15, 0, 1, 2, 3, 4, 5, 6, 7, 8, 9, 10, 11, 12,
    13, 14, 15, 0, 1, 2, 3, 4, 5, 6, 7, 8, 9, 10, 11, 12, 13, 14, 15, 0, 1, 2, 3, 4, 5, 6, 7, 8, 9,
    10, 11, 12, 13, 14, 15,
];

const HIGH_HALVES: [u8; 64] = [
    0, 16, 32, 48, 64, 80, 96, 112, 128, 144, 160, 176, 192, 208, 224, 240, 0, 16, 32, 48, 64, 80,
    96, 112, 128, 144, 160, 176, 192, 208, 224, 240, 0, 16, 32, 48, 64, 80, 96, 112, 128, 144, 160,
    176, 192, 208, 224, 240, 0, 16, 32, 48, 64, 80, 96, 112, 128, 144, 160, 176, 192, 208, 224,
    240,
];

/// The tables of a factor.
pub(crate) fn products_of(factor: u8) -> Products
    ensures factor { result.factor ≡ factor }
    ensures low { (i : ℕ) → i < 64 → slice_index result.low i ≡ product factor (i % 16) }
    ensures high { (i : ℕ) → i < 64 → slice_index result.high i ≡ product factor (i % 16 * 16) }
{
    let low = times_lanes(u8x64::from_array(LOW_HALVES), factor);
    let high = times_lanes(u8x64::from_array(HIGH_HALVES), factor);
    Products { factor, low, high }
}

/// The factor times each lane, looked up by the two halves of a byte.
#[inline(always)]
pub(crate) fn looked_up(products: &Products, v: u8x64) -> u8x64
    requires low { (i : ℕ) → i < 64 → slice_index products.now.low i ≡ product products.now.factor (i % 16) }
    requires high { (i : ℕ) → i < 64 → slice_index products.now.high i ≡ product products.now.factor (i % 16 * 16) }
    ensures lanes { length result ≡ 64 }
    ensures each { (i : ℕ) → i < 64 → slice_index result i ≡ product products.now.factor (slice_index v i) }
{
    let of_low = products.low.swizzle_dyn_within::<16>(v & u8x64::splat(15));
    let of_high = products.high.swizzle_dyn_within::<16>(v >> u8x64::splat(4));
    of_low ^ of_high
}
