//! The key schedule (FIPS 197, 5.2). It substitutes by the circuit of the rounds, so that no octet of a key
//! indexes a table.

ghost use Rattle.std.specs.Prelude.{◌≡◌, ℕ, ◌<◌, slice_index};
ghost use Rattle.nea2.specs.Cipher.{next_round_key, substitution};

use crate::circuit::sub_bytes;
use crate::transposition::{blocks, copies};
use std::simd::prelude::*;

/// The round constants: the powers of x from 0 on (FIPS 197, 5.2).
pub(crate) const ROUND_CONSTANTS: [u8; 10] = [1, 2, 4, 8, 16, 32, 64, 128, 0x1b, 0x36];

/// The octets of a block substituted (FIPS 197, 5.1.1).
fn substituted_block(block: &[u8; 16]) -> [u8; 16]
    ensures { (j : ℕ) → j < 16 → slice_index result j ≡ substitution (slice_index block.now j) }
{
    let out = blocks(sub_bytes(copies(u8x16::from_array(*block))));
    out[0].to_array()
}

/// The round key after `key`, with the round constant of its round.
pub(crate) fn next_round_key(key: &[u8; 16], constant: u8) -> [u8; 16]
    ensures { result ≡ next_round_key key.now constant }
{
    let s = substituted_block(key);
    let [_, _, _, _, _, _, _, _, _, _, _, _, s12, s13, s14, s15] = s;
    let [
        k0,
        k1,
        k2,
        k3,
        k4,
        k5,
        k6,
        k7,
        k8,
        k9,
        k10,
        k11,
        k12,
        k13,
        k14,
        k15,
    ] = *key;
    let a0 = k0 ^ (s13 ^ constant);
    let a1 = k1 ^ s14;
    let a2 = k2 ^ s15;
    let a3 = k3 ^ s12;
    let b0 = k4 ^ a0;
    let b1 = k5 ^ a1;
    let b2 = k6 ^ a2;
    let b3 = k7 ^ a3;
    let c0 = k8 ^ b0;
    let c1 = k9 ^ b1;
    let c2 = k10 ^ b2;
    let c3 = k11 ^ b3;
    let d0 = k12 ^ c0;
    let d1 = k13 ^ c1;
    let d2 = k14 ^ c2;
    let d3 = k15 ^ c3;
    [
        a0, a1, a2, a3, b0, b1, b2, b3, c0, c1, c2, c3, d0, d1, d2, d3,
    ]
}
