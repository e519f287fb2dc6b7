//! The bytes of a sector, 64 at a time.

ghost use Rattle.std.specs.Prelude.{◌≡◌, ℕ, ◌+◌, ◌%◌, ◌<◌, ◌≤◌, length, slice_index};
ghost use Rattle.std.specs.Str.{bytes_eq};
ghost use Rattle.std.specs.Simd.Lanes.{chunk, put_chunk};

use std::simd::prelude::*;

const COUNTS: [u8; 64] = [
    0, 1, 2, 3, 4, 5, 6, 7, 8, 9, 10, 11, 12, 13, 14, 15, 16, 17, 18, 19, 20, 21, 22, 23, 24, 25,
    26, 27, 28, 29, 30, 31, 32, 33, 34, 35, 36, 37, 38, 39, 40, 41, 42, 43, 44, 45, 46, 47, 48, 49,
    50, 51, 52, 53, 54, 55, 56, 57, 58, 59, 60, 61, 62, 63,
];

// The 64 bytes at a place.
#[inline(always)]
fn load(bytes: &[u8], at: usize) -> u8x64
    requires { at + 64 ≤ length bytes.now }
    ensures lanes { length result ≡ 64 }
    ensures value { result ≡ chunk at 64 bytes.now }
{
    u8x64::from_slice(&bytes[at..])
}

// Whether two blocks are the same.
#[inline(always)]
fn is_same(left: u8x64, right: u8x64) -> bool
    ensures { result ≡ bytes_eq left right }
{
    left.simd_ne(right).to_bitmask() == 0
}

/// Whether two sectors hold the same bytes.
pub fn are_alike(left: &[u8; 512], right: &[u8; 512]) -> bool
    ensures { result ≡ bytes_eq left.now right.now }
{
    for block in 0..8usize {
        if !is_same(load(left, 64 * block), load(right, 64 * block)) {
            return false;
        }
    }
    true
}

// As much more in each lane.
#[inline(always)]
fn add_to_each(block: u8x64, more: u8) -> u8x64
    ensures lanes { length result ≡ 64 }
    ensures each { (i : ℕ) → i < 64 → slice_index result i ≡ (slice_index block i + more) % 256 }
{
    block + u8x64::splat(more)
}

// 64 bytes, each one more than the one before it, from this one on.
#[inline(always)]
fn counted_block(first: u8) -> u8x64
    ensures lanes { length result ≡ 64 }
    ensures each { (i : ℕ) → i < 64 → slice_index result i ≡ (first + i) % 256 }
{
    add_to_each(u8x64::from_array(COUNTS), first)
}

// Puts 64 bytes in place.
#[inline(always)]
fn store(into: &mut [u8], at: usize, block: u8x64)
    requires { at + 64 ≤ length into.old }
    ensures { into.new ≡ put_chunk at into.old block }
{
    block.copy_to_slice(&mut into[at..]);
}

/// A sector whose bytes are each one more than the one before it, from this one on.
pub fn counted_sector(first: u8) -> [u8; 512]
    ensures { (k : ℕ) → k < 512 → slice_index result k ≡ (first + k) % 256 }
{
    let mut sector = [0u8; 512];
    for block in 0..8usize {
        let at = 64 * block;
        let start = ((usize::from(first) + at) % 256) as u8;
        store(&mut sector, at, counted_block(start));
    }
    sector
}
