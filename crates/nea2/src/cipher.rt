//! A key of AES-128 made ready, and what it enciphers (FIPS 197).

ghost use Rattle.std.specs.Prelude.{◌≡◌, ℕ, ◌<◌};
ghost use Rattle.nea2.specs.Cipher.{cipher};
ghost use Rattle.nea2.specs.Planes.{IsFull, block_of};

use crate::key_schedule::{ROUND_CONSTANTS, next_round_key};
use crate::planes::Planes;
use crate::round_keys::{RoundKey, enciphered};
use crate::transposition::{blocks, copies};
use std::marker::Model;
use std::simd::prelude::*;

/// A key of AES-128, made ready once and then used by reference: its eleven round keys, 1408 octets. Contracts
/// see the key, as a list of 16 octets.
#[derive(Drop)]
pub struct Aes128 {
    round_keys: [RoundKey; 11],
}

impl Model for Aes128 {
    ghost use Rattle.std.specs.Prelude.{◌≡◌, ℕ, ◌<◌, List, length};
    ghost use Rattle.nea2.specs.RoundKeys.{AreFull, HasRoundKeys, key_of};

    ghost Value = { List ℕ };

    ghost view = { λ a. key_of a.round_keys };

    ghost invariant = { λ a. AreFull a.round_keys × HasRoundKeys a.round_keys (key_of a.round_keys) };
}

impl Aes128 {
    /// The key, with its round keys (FIPS 197, 5.2).
    pub fn new(key: &[u8; 16]) -> Aes128
        ensures { result ≡ key.now }
    {
        let first = RoundKey::new(key);
        let mut round_keys = [first; 11];
        let mut last = *key;
        'rounds: for round in 0..10 {
            let next = next_round_key(&last, ROUND_CONSTANTS[round]);
            round_keys[round + 1] = RoundKey::new(&next);
            last = next;
        }
        Aes128 { round_keys }
    }

    /// The block enciphered under this key (FIPS 197, 5.1). It costs as much as eight blocks of a keystream.
    pub fn block(&self, b: [u8; 16]) -> [u8; 16]
        ensures { result ≡ cipher self.now b }
    {
        self.enciphered_block(&b)
    }

    /// The block enciphered: eight copies of it are, and the first is taken.
    fn enciphered_block(&self, block: &[u8; 16]) -> [u8; 16]
        ensures { result ≡ cipher self.now block.now }
    {
        let out = blocks(self.enciphered(copies(u8x16::from_array(*block))));
        out[0].to_array()
    }

    /// The eight blocks enciphered under this key (FIPS 197, 5.1).
    #[inline(always)]
    pub(crate) fn enciphered(&self, p: Planes) -> Planes
        requires { IsFull p }
        ensures full { IsFull result }
        ensures each_block { (k : ℕ) → k < 8 → block_of result k ≡ cipher self.now (block_of p k) }
    {
        enciphered(p, &self.round_keys)
    }
}
