//! The round keys as planes, and the ten rounds.

ghost use Rattle.std.specs.Prelude.{◌≡◌, ℕ, List, ◌<◌, slice_index};
ghost use Rattle.nea2.specs.Cipher.{cipher};
ghost use Rattle.nea2.specs.Planes.{IsFull, block_of, octet_of};
ghost use Rattle.nea2.specs.RoundKeys.{AreFull, HasRoundKeys, planes_of};

use crate::planes::{Planes, add_round_key, last_round, whole_round};
use crate::transposition::copies;
use std::simd::prelude::*;

/// A round key, as the planes of eight copies of it.
#[derive(Clone, Copy, Drop)]
pub(crate) struct RoundKey {
    p0: u8x16,
    p1: u8x16,
    p2: u8x16,
    p3: u8x16,
    p4: u8x16,
    p5: u8x16,
    p6: u8x16,
    p7: u8x16,
}

impl RoundKey {
    /// The round key with these octets.
    pub(crate) fn new(key: &[u8; 16]) -> RoundKey
        ensures full { IsFull (planes_of result) }
        ensures octets { (j k : ℕ) → j < 16 → k < 8 → octet_of (planes_of result) k j ≡ slice_index key.now j }
    {
        let [p0, p1, p2, p3, p4, p5, p6, p7] = copies(u8x16::from_array(*key));
        RoundKey {
            p0,
            p1,
            p2,
            p3,
            p4,
            p5,
            p6,
            p7,
        }
    }

    /// Its planes.
    #[inline(always)]
    fn planes(&self) -> Planes
        ensures { result ≡ planes_of self.now }
    {
        [
            self.p0, self.p1, self.p2, self.p3, self.p4, self.p5, self.p6, self.p7,
        ]
    }
}

/// The eight blocks enciphered under the key that has these round keys (FIPS 197, 5.1).
#[inline(always)]
pub(crate) fn enciphered(p: Planes, keys: &[RoundKey; 11]) -> Planes
    requires state { IsFull p }
    requires keys { AreFull keys.now }
    ensures full { IsFull result }
    ensures each_block { (key : List ℕ) (k : ℕ) → HasRoundKeys keys.now key → k < 8 → block_of result k ≡ cipher key (block_of p k) }
{
    let mut state = add_round_key(p, keys[0].planes());
    'rounds: for round in 0..9 {
        let next = whole_round(state, keys[round + 1].planes());
        state = next;
    }
    last_round(state, keys[10].planes())
}
