//! The rounds of AES-128 (FIPS 197, 5.1) on eight blocks at a time, which are kept as eight planes: bit k of
//! lane j of plane i is bit i of octet j of block k. So ShiftRows and MixColumns move whole lanes, by constant
//! shuffles.

ghost use Rattle.std.specs.Prelude.{◌≡◌, ℕ, ◌+◌, ◌*◌, ◌%◌, ◌<◌, bit_xor, length, slice_index, slice_index_or};
ghost use Rattle.nea2.specs.Cipher.{add_round_key, last_round, mixed, whole_round};
ghost use Rattle.nea2.specs.Field.{times_x};
ghost use Rattle.nea2.specs.Planes.{IsFull, block_of, octet_of};

use crate::circuit::sub_bytes;
use std::simd::prelude::*;

/// Planes blocks, as planes.
pub(crate) type Planes = [u8x16; 8];

/// The exclusive or of the octets.
#[inline(always)]
pub(crate) fn xored(p: Planes, q: Planes) -> Planes
    requires left { IsFull p }
    requires right { IsFull q }
    ensures full { IsFull result }
    ensures octets { (j k : ℕ) → j < 16 → octet_of result k j ≡ bit_xor (octet_of p k j) (octet_of q k j) }
{
    let [p0, p1, p2, p3, p4, p5, p6, p7] = p;
    let [q0, q1, q2, q3, q4, q5, q6, q7] = q;
    [
        p0 ^ q0,
        p1 ^ q1,
        p2 ^ q2,
        p3 ^ q3,
        p4 ^ q4,
        p5 ^ q5,
        p6 ^ q6,
        p7 ^ q7,
    ]
}

/// Each octet times x (FIPS 197, 4.2).
#[inline(always)]
fn times_x(p: Planes) -> Planes
    requires { IsFull p }
    ensures full { IsFull result }
    ensures octets { (j k : ℕ) → j < 16 → k < 8 → octet_of result k j ≡ times_x (octet_of p k j) }
{
    let [p0, p1, p2, p3, p4, p5, p6, p7] = p;
    [p7, p0 ^ p7, p1, p2 ^ p7, p3 ^ p7, p4, p5, p6]
}

/// A plane with row r moved left by r.
#[inline(always)]
fn plane_shifted(p: u8x16) -> u8x16
    ensures full { length result ≡ 16 }
    ensures lanes { (r c : ℕ) → r < 4 → c < 4 → slice_index result (r + 4 * c) ≡ slice_index p (r + 4 * ((c + r) % 4)) }
{
    p.swizzle([0, 5, 10, 15, 4, 9, 14, 3, 8, 13, 2, 7, 12, 1, 6, 11])
}

/// ShiftRows: row r moves left by r (FIPS 197, 5.1.2).
#[inline(always)]
fn shift_rows(p: Planes) -> Planes
    requires { IsFull p }
    ensures full { IsFull result }
    ensures octets { (r c k : ℕ) → r < 4 → c < 4 → octet_of result k (r + 4 * c) ≡ octet_of p k (r + 4 * ((c + r) % 4)) }
{
    let [p0, p1, p2, p3, p4, p5, p6, p7] = p;
    [
        plane_shifted(p0),
        plane_shifted(p1),
        plane_shifted(p2),
        plane_shifted(p3),
        plane_shifted(p4),
        plane_shifted(p5),
        plane_shifted(p6),
        plane_shifted(p7),
    ]
}

/// A plane with each row moved up by one.
#[inline(always)]
fn plane_up_1(p: u8x16) -> u8x16
    ensures full { length result ≡ 16 }
    ensures lanes { (r c : ℕ) → r < 4 → c < 4 → slice_index result (r + 4 * c) ≡ slice_index p ((r + 1) % 4 + 4 * c) }
{
    p.swizzle([1, 2, 3, 0, 5, 6, 7, 4, 9, 10, 11, 8, 13, 14, 15, 12])
}

/// Each row moves up by one.
#[inline(always)]
fn rows_up_1(p: Planes) -> Planes
    requires { IsFull p }
    ensures full { IsFull result }
    ensures octets { (r c k : ℕ) → r < 4 → c < 4 → octet_of result k (r + 4 * c) ≡ octet_of p k ((r + 1) % 4 + 4 * c) }
{
    let [p0, p1, p2, p3, p4, p5, p6, p7] = p;
    [
        plane_up_1(p0),
        plane_up_1(p1),
        plane_up_1(p2),
        plane_up_1(p3),
        plane_up_1(p4),
        plane_up_1(p5),
        plane_up_1(p6),
        plane_up_1(p7),
    ]
}

/// A plane with each row moved up by two.
#[inline(always)]
fn plane_up_2(p: u8x16) -> u8x16
    ensures full { length result ≡ 16 }
    ensures lanes { (r c : ℕ) → r < 4 → c < 4 → slice_index result (r + 4 * c) ≡ slice_index p ((r + 2) % 4 + 4 * c) }
{
    p.swizzle([2, 3, 0, 1, 6, 7, 4, 5, 10, 11, 8, 9, 14, 15, 12, 13])
}

/// Each row moves up by two.
#[inline(always)]
fn rows_up_2(p: Planes) -> Planes
    requires { IsFull p }
    ensures full { IsFull result }
    ensures octets { (r c k : ℕ) → r < 4 → c < 4 → octet_of result k (r + 4 * c) ≡ octet_of p k ((r + 2) % 4 + 4 * c) }
{
    let [p0, p1, p2, p3, p4, p5, p6, p7] = p;
    [
        plane_up_2(p0),
        plane_up_2(p1),
        plane_up_2(p2),
        plane_up_2(p3),
        plane_up_2(p4),
        plane_up_2(p5),
        plane_up_2(p6),
        plane_up_2(p7),
    ]
}

/// MixColumns (FIPS 197, 5.1.3). With a, b, c and d an octet and those of the three rows below it, each row
/// becomes 2(a + b) + b + (c + d).
#[inline(always)]
fn mix_columns(p: Planes) -> Planes
    requires { IsFull p }
    ensures full { IsFull result }
    ensures octets { (r c k : ℕ) → r < 4 → c < 4 → k < 8 → octet_of result k (r + 4 * c)
        ≡ mixed r (octet_of p k (0 + 4 * c)) (octet_of p k (1 + 4 * c)) (octet_of p k (2 + 4 * c)) (octet_of p k (3 + 4 * c)) }
{
    let next = rows_up_1(p);
    let pair = xored(p, next);
    let twice = times_x(pair);
    let sum = xored(twice, next);
    let below = rows_up_2(pair);
    xored(sum, below)
}

/// A whole round (FIPS 197, 5.1).
#[inline(always)]
pub(crate) fn whole_round(p: Planes, key: Planes) -> Planes
    requires state { IsFull p }
    requires key { IsFull key }
    ensures full { IsFull result }
    ensures each_block { (k : ℕ) → k < 8 → block_of result k ≡ whole_round (block_of p k) (block_of key k) }
{
    let s = sub_bytes(p);
    let moved = shift_rows(s);
    let mixed = mix_columns(moved);
    xored(mixed, key)
}

/// The last round, without MixColumns (FIPS 197, 5.1).
#[inline(always)]
pub(crate) fn last_round(p: Planes, key: Planes) -> Planes
    requires state { IsFull p }
    requires key { IsFull key }
    ensures full { IsFull result }
    ensures each_block { (k : ℕ) → k < 8 → block_of result k ≡ last_round (block_of p k) (block_of key k) }
{
    let s = sub_bytes(p);
    let moved = shift_rows(s);
    xored(moved, key)
}

/// AddRoundKey (FIPS 197, 5.1.4).
#[inline(always)]
pub(crate) fn add_round_key(p: Planes, key: Planes) -> Planes
    requires state { IsFull p }
    requires key { IsFull key }
    ensures full { IsFull result }
    ensures each_block { (k : ℕ) → k < 8 → block_of result k ≡ add_round_key (block_of p k) (block_of key k) }
{
    xored(p, key)
}
