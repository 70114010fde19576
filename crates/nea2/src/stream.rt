//! Counter mode, eight blocks at a time.

ghost use Rattle.std.specs.Prelude.{◌≡◌, ℕ, [], ◌+◌, ◌*◌, ◌≤◌, ◌<◌, ◌^◌, ◌++◌, bit_xor, drop, length, take, slice_index_or};
ghost use Rattle.nea2.specs.Cipher.{cipher};
ghost use Rattle.nea2.specs.Combined.{combined};
ghost use Rattle.nea2.specs.Keystream.{bearer, counter_block, direction, keystream};
ghost use Rattle.nea2.specs.Planes.{IsFull, number_octet, octet_of};

use crate::cipher::Aes128;
use crate::planes::{Planes, xored};
use crate::transposition::{blocks, copies};
use dc_base::{Alg, Dir, DrbId};
use std::simd::prelude::*;

/// Combines the text with the keystream of the algorithm for this key, COUNT, bearer and direction. The
/// same call again gives the text back. The text has at most 9000 octets, the longest PDCP SDU
/// (TS 38.323, 4.3.1).
pub fn nea(alg: Alg, key: &Aes128, count: u32, id: DrbId, dir: Dir, text: &mut [u8])
    requires { length text.old ≤ 9000 }
    ensures enciphered { text.new ≡ combined text.old (keystream alg key.now count id dir (length text.old)) }
    ensures deciphered { combined text.new (keystream alg key.now count id dir (length text.new)) ≡ text.old }
{
    match alg {
        Alg::Nea0 => {}
        Alg::Nea2 => encipher(key, count, id, dir, text),
    }
}

/// The last octet of block k combined with k.
#[inline(always)]
fn with_numbers(p: Planes) -> Planes
    requires { IsFull p }
    ensures full { IsFull result }
    ensures octets { (j k : ℕ) → j < 16 → k < 8 → octet_of result k j ≡ bit_xor (octet_of p k j) (number_octet j k) }
{
    let none = u8x16::splat(0);
    let numbers = [
        u8x16::from_array([0, 0, 0, 0, 0, 0, 0, 0, 0, 0, 0, 0, 0, 0, 0, 0xaa]),
        u8x16::from_array([0, 0, 0, 0, 0, 0, 0, 0, 0, 0, 0, 0, 0, 0, 0, 0xcc]),
        u8x16::from_array([0, 0, 0, 0, 0, 0, 0, 0, 0, 0, 0, 0, 0, 0, 0, 0xf0]),
        none,
        none,
        none,
        none,
        none,
    ];
    xored(p, numbers)
}

/// The counter block of this number (TS 33.401, B.1.3).
#[inline(always)]
fn counter_block(count: u32, id: DrbId, dir: Dir, number: u64) -> [u8; 16]
    ensures { result ≡ counter_block count id dir number }
{
    let [c0, c1, c2, c3] = count.to_be_bytes();
    let bearer = bearer_and_direction(id, dir);
    let [n0, n1, n2, n3, n4, n5, n6, n7] = number.to_be_bytes();
    [
        c0, c1, c2, c3, bearer, 0, 0, 0, n0, n1, n2, n3, n4, n5, n6, n7,
    ]
}

/// The octet after COUNT (TS 33.401, B.1.3): BEARER, which is the identity less one (TS 38.323, 5.8), in its high
/// five bits, then DIRECTION.
fn bearer_and_direction(id: DrbId, dir: Dir) -> u8
    ensures { result ≡ (bearer id * 2 + direction dir) * 4 }
{
    let bearer = id.get() - 1;
    match dir {
        Dir::Ul => bearer * 8,
        Dir::Dl => bearer * 8 + 4,
    }
}

/// The eight blocks of the keystream from block 8 * batch on.
#[inline(always)]
fn stream_blocks(key: &Aes128, count: u32, id: DrbId, dir: Dir, batch: u64) -> Planes
    requires { batch < 2 ^ 32 }
    ensures full { IsFull result }
    ensures each_block { (k : ℕ) → k < 8 → slice_index_or result k [] ≡ cipher key.now (counter_block count id dir (8 * batch + k)) }
{
    let first = counter_block(count, id, dir, 8 * batch);
    let planes = with_numbers(copies(u8x16::from_array(first)));
    blocks(key.enciphered(planes))
}

/// Combines the front of the text with as much of the stream as it needs.
#[inline(always)]
fn combine(text: &mut [u8], stream: u8x16)
    ensures { text.new ≡ combined text.old stream }
{
    if text.len() >= 16 {
        let front = u8x16::from_slice(text) ^ stream;
        front.copy_to_slice(text);
    } else {
        let octets = stream.to_array();
        let len = text.len();
        'octets: for i in 0..len {
            prove!(i < 16);
            text[i] ^= octets[i];
        }
    }
}

/// Combines what lies from `at` on, if anything.
#[inline(always)]
fn combine_at(text: &mut [u8], at: usize, stream: u8x16)
    ensures { text.new ≡ take at text.old ++ combined (drop at text.old) stream }
{
    if at < text.len() {
        combine(&mut text[at..], stream);
    }
}

/// Combines the text with the keystream of 128-NEA2.
fn encipher(key: &Aes128, count: u32, id: DrbId, dir: Dir, text: &mut [u8])
    requires { length text.old ≤ 9000 }
    ensures { text.new ≡ combined text.old (keystream Alg.Nea2 key.now count id dir (length text.old)) }
{
    let batches = text.len().div_ceil(128);
    'batches: for batch in 0..batches {
        let stream = stream_blocks(key, count, id, dir, batch as u64);
        'parts: for k in 0..8 {
            combine_at(text, 128 * batch + 16 * k, stream[k]);
        }
    }
}
