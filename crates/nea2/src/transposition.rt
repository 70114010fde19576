//! Planes from a block, and blocks from planes.

ghost use Rattle.std.specs.Prelude.{◌≡◌, ℕ, [], ◌+◌, ◌-◌, ◌*◌, ◌/◌, ◌%◌, ◌^◌, ◌<◌, length, slice_index, slice_index_or};
ghost use Rattle.std.specs.Int.{bit_at};
ghost use Rattle.nea2.specs.Planes.{IsFull, chosen, octet_of};

use crate::planes::Planes;
use std::simd::prelude::*;

/// Bit i of each lane, in all eight bits of the lane.
#[inline(always)]
fn filled(block: u8x16, i: u8) -> u8x16
    requires { i < 8 }
    ensures full { length result ≡ 16 }
    ensures bits { (j k : ℕ) → j < 16 → k < 8 → bit_at (slice_index result j) k ≡ bit_at (slice_index block j) i }
{
    u8x16::splat(0) - ((block >> u8x16::splat(i)) & u8x16::splat(1))
}

/// The planes of eight copies of a block.
#[inline(always)]
pub(crate) fn copies(block: u8x16) -> Planes
    ensures full { IsFull result }
    ensures octets { (j k : ℕ) → j < 16 → k < 8 → octet_of result k j ≡ slice_index block j }
{
    [
        filled(block, 0),
        filled(block, 1),
        filled(block, 2),
        filled(block, 3),
        filled(block, 4),
        filled(block, 5),
        filled(block, 6),
        filled(block, 7),
    ]
}

/// The bits of a whose place has a 1, against the bits of b 1 places lower.
#[inline(always)]
fn swapped_1(a: u8x16, b: u8x16) -> (u8x16, u8x16)
    ensures full_first { length result.0 ≡ 16 }
    ensures full_second { length result.1 ≡ 16 }
    ensures fits_first { (j : ℕ) → j < 16 → slice_index result.0 j < 2 ^ 8 }
    ensures fits_second { (j : ℕ) → j < 16 → slice_index result.1 j < 2 ^ 8 }
    ensures first { (j k : ℕ) → j < 16 → k < 8 → bit_at (slice_index result.0 j) k ≡ bit_at (chosen (k / 1) (slice_index a j) (slice_index b j)) (k - k / 1 % 2 * 1) }
    ensures second { (j k : ℕ) → j < 16 → k < 8 → bit_at (slice_index result.1 j) k ≡ bit_at (chosen (k / 1) (slice_index a j) (slice_index b j)) (k - k / 1 % 2 * 1 + 1) }
{
    let t = ((a >> u8x16::splat(1)) ^ b) & u8x16::splat(0x55);
    (a ^ (t << u8x16::splat(1)), b ^ t)
}

/// The bits of a whose place has a 2, against the bits of b 2 places lower.
#[inline(always)]
fn swapped_2(a: u8x16, b: u8x16) -> (u8x16, u8x16)
    ensures full_first { length result.0 ≡ 16 }
    ensures full_second { length result.1 ≡ 16 }
    ensures fits_first { (j : ℕ) → j < 16 → slice_index result.0 j < 2 ^ 8 }
    ensures fits_second { (j : ℕ) → j < 16 → slice_index result.1 j < 2 ^ 8 }
    ensures first { (j k : ℕ) → j < 16 → k < 8 → bit_at (slice_index result.0 j) k ≡ bit_at (chosen (k / 2) (slice_index a j) (slice_index b j)) (k - k / 2 % 2 * 2) }
    ensures second { (j k : ℕ) → j < 16 → k < 8 → bit_at (slice_index result.1 j) k ≡ bit_at (chosen (k / 2) (slice_index a j) (slice_index b j)) (k - k / 2 % 2 * 2 + 2) }
{
    let t = ((a >> u8x16::splat(2)) ^ b) & u8x16::splat(0x33);
    (a ^ (t << u8x16::splat(2)), b ^ t)
}

/// The bits of a whose place has a 4, against the bits of b 4 places lower.
#[inline(always)]
fn swapped_4(a: u8x16, b: u8x16) -> (u8x16, u8x16)
    ensures full_first { length result.0 ≡ 16 }
    ensures full_second { length result.1 ≡ 16 }
    ensures fits_first { (j : ℕ) → j < 16 → slice_index result.0 j < 2 ^ 8 }
    ensures fits_second { (j : ℕ) → j < 16 → slice_index result.1 j < 2 ^ 8 }
    ensures first { (j k : ℕ) → j < 16 → k < 8 → bit_at (slice_index result.0 j) k ≡ bit_at (chosen (k / 4) (slice_index a j) (slice_index b j)) (k - k / 4 % 2 * 4) }
    ensures second { (j k : ℕ) → j < 16 → k < 8 → bit_at (slice_index result.1 j) k ≡ bit_at (chosen (k / 4) (slice_index a j) (slice_index b j)) (k - k / 4 % 2 * 4 + 4) }
{
    let t = ((a >> u8x16::splat(4)) ^ b) & u8x16::splat(0x0f);
    (a ^ (t << u8x16::splat(4)), b ^ t)
}

/// The eight blocks, each as a vector of its octets: the bits of the planes are transposed in three rounds of
/// swaps.
#[inline(always)]
pub(crate) fn blocks(p: Planes) -> Planes
    ensures full { IsFull result }
    ensures octets { (j k : ℕ) → j < 16 → k < 8 → slice_index (slice_index_or result k []) j ≡ octet_of p k j }
{
    let [p0, p1, p2, p3, p4, p5, p6, p7] = p;
    let (p0, p1) = swapped_1(p0, p1);
    let (p2, p3) = swapped_1(p2, p3);
    let (p4, p5) = swapped_1(p4, p5);
    let (p6, p7) = swapped_1(p6, p7);
    let (p0, p2) = swapped_2(p0, p2);
    let (p1, p3) = swapped_2(p1, p3);
    let (p4, p6) = swapped_2(p4, p6);
    let (p5, p7) = swapped_2(p5, p7);
    let (p0, p4) = swapped_4(p0, p4);
    let (p1, p5) = swapped_4(p1, p5);
    let (p2, p6) = swapped_4(p2, p6);
    let (p3, p7) = swapped_4(p3, p7);
    [p0, p1, p2, p3, p4, p5, p6, p7]
}
