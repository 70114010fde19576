//! Vectors of FIPS 197, NIST SP 800-38A and 3GPP, and texts enciphered by OpenSSL.

use dc_base::{Alg, Dir, DrbId};
use nea2::{Aes128, nea};
use std::process::Abort;

/// A text of two whole blocks and nine octets.
const TEXT: [u8; 41] = *b"A text that is no whole number of blocks.";

/// Enciphers TEXT, compares, and deciphers.
fn check(
    rt: &impl Abort,
    alg: Alg,
    key: u128,
    count: u32,
    number: u8,
    dir: Dir,
    expected: [u8; 41],
) {
    let key = Aes128::new(&key.to_be_bytes());
    let id = DrbId::new(number).expect(rt, "identity");
    let mut text = TEXT;
    nea(alg, &key, count, id, dir, &mut text);
    assert_eq!(rt; text, expected);
    nea(alg, &key, count, id, dir, &mut text);
    assert_eq!(rt; text, TEXT);
}

/// 48 zeros under a key of zeros by Python's `cryptography`, and TEXT by OpenSSL and in clear.
#[test]
fn texts_are_enciphered_and_deciphered(rt: HostRuntime) {
    let mut zeros = [0; 48];
    let id = DrbId::new(1).expect(&rt, "identity");
    nea(
        Alg::Nea2,
        &Aes128::new(&[0; 16]),
        0,
        id,
        Dir::Ul,
        &mut zeros,
    );
    let expected = [
        0x66, 0xe9, 0x4b, 0xd4, 0xef, 0x8a, 0x2c, 0x3b, 0x88, 0x4c, 0xfa, 0x59, 0xca, 0x34, 0x2b,
        0x2e, 0x58, 0xe2, 0xfc, 0xce, 0xfa, 0x7e, 0x30, 0x61, 0x36, 0x7f, 0x1d, 0x57, 0xa4, 0xe7,
        0x45, 0x5a, 0x03, 0x88, 0xda, 0xce, 0x60, 0xb6, 0xa3, 0x92, 0xf3, 0x28, 0xc2, 0xb9, 0x71,
        0xb2, 0xfe, 0x78,
    ];
    assert_eq!(rt; zeros, expected);

    // computed by OpenSSL, `enc -aes-128-ctr` with the counter block 89abcdefa40000000000000000000000
    let expected = [
        0xd5, 0x88, 0x08, 0x62, 0x7f, 0xd8, 0x97, 0x72, 0x4f, 0x4b, 0xdd, 0x32, 0xff, 0x8b, 0x9a,
        0x4b, 0x8a, 0x6a, 0xac, 0x3b, 0x71, 0xc2, 0x45, 0x59, 0xe7, 0xf1, 0x33, 0x3f, 0x4b, 0x4b,
        0x49, 0xdb, 0x65, 0xcc, 0x95, 0x49, 0xfc, 0xea, 0xce, 0x40, 0x5f,
    ];
    check(
        &rt,
        Alg::Nea2,
        0x2b7e151628aed2a6abf7158809cf4f3c,
        0x89abcdef,
        21,
        Dir::Dl,
        expected,
    );
    check(
        &rt,
        Alg::Nea0,
        0x2b7e151628aed2a6abf7158809cf4f3c,
        0x89abcdef,
        21,
        Dir::Dl,
        TEXT,
    );
}

/// Test set 1 of 128-EEA2 (TS 33.401, C.1): BEARER is 15 hexadecimal, and the text has 253 bits, so that the low
/// three bits of its last octet are none of it.
#[test]
fn vector_of_3gpp(rt: HostRuntime) {
    let key = Aes128::new(&0xd3c5d592327fb11c4035c6680af8c6d1u128.to_be_bytes());
    let id = DrbId::new(0x15 + 1).expect(&rt, "identity");
    let mut text = [
        0x98, 0x1b, 0xa6, 0x82, 0x4c, 0x1b, 0xfb, 0x1a, 0xb4, 0x85, 0x47, 0x20, 0x29, 0xb7, 0x1d,
        0x80, 0x8c, 0xe3, 0x3e, 0x2c, 0xc3, 0xc0, 0xb5, 0xfc, 0x1f, 0x3d, 0xe8, 0xa6, 0xdc, 0x66,
        0xb1, 0xf0,
    ];
    nea(Alg::Nea2, &key, 0x398a59b4, id, Dir::Dl, &mut text);
    text[31] &= 0xf8;
    let expected = [
        0xe9, 0xfe, 0xd8, 0xa6, 0x3d, 0x15, 0x53, 0x04, 0xd7, 0x1d, 0xf2, 0x0b, 0xf3, 0xe8, 0x22,
        0x14, 0xb2, 0x0e, 0xd7, 0xda, 0xd2, 0xf2, 0x33, 0xdc, 0x3c, 0x22, 0xd7, 0xbd, 0xee, 0xed,
        0x8e, 0x78,
    ];
    assert_eq!(rt; text, expected);
}

/// Key, block, and the block enciphered.
const BLOCKS: [[u128; 3]; 9] = [
    // FIPS 197, the example of AES-128
    [
        0x000102030405060708090a0b0c0d0e0f,
        0x00112233445566778899aabbccddeeff,
        0x69c4e0d86a7b0430d8cdb78070b4c55a,
    ],
    // NIST SP 800-38A, F.1.1, in electronic codebook mode
    [
        0x2b7e151628aed2a6abf7158809cf4f3c,
        0x6bc1bee22e409f96e93d7e117393172a,
        0x3ad77bb40d7a3660a89ecaf32466ef97,
    ],
    [
        0x2b7e151628aed2a6abf7158809cf4f3c,
        0xae2d8a571e03ac9c9eb76fac45af8e51,
        0xf5d3d58503b9699de785895a96fdbaaf,
    ],
    [
        0x2b7e151628aed2a6abf7158809cf4f3c,
        0x30c81c46a35ce411e5fbc1191a0a52ef,
        0x43b1cd7f598ece23881b00e3ed030688,
    ],
    [
        0x2b7e151628aed2a6abf7158809cf4f3c,
        0xf69f2445df4f9b17ad2b417be66c3710,
        0x7b0c785e27e8ad3f8223207104725dd4,
    ],
    // NIST SP 800-38A, F.5.1, the counter blocks of counter mode
    [
        0x2b7e151628aed2a6abf7158809cf4f3c,
        0xf0f1f2f3f4f5f6f7f8f9fafbfcfdfeff,
        0xec8cdf7398607cb0f2d21675ea9ea1e4,
    ],
    [
        0x2b7e151628aed2a6abf7158809cf4f3c,
        0xf0f1f2f3f4f5f6f7f8f9fafbfcfdff00,
        0x362b7c3c6773516318a077d7fc5073ae,
    ],
    [
        0x2b7e151628aed2a6abf7158809cf4f3c,
        0xf0f1f2f3f4f5f6f7f8f9fafbfcfdff01,
        0x6a2cc3787889374fbeb4c81b17ba6c44,
    ],
    [
        0x2b7e151628aed2a6abf7158809cf4f3c,
        0xf0f1f2f3f4f5f6f7f8f9fafbfcfdff02,
        0xe89c399ff0f198c6d40a31db156cabfe,
    ],
];

/// AES-128 on single blocks (FIPS 197; NIST SP 800-38A).
#[test]
fn blocks_are_those_of_the_standards(rt: HostRuntime) {
    for [key, block, expected] in BLOCKS {
        let found = Aes128::new(&key.to_be_bytes()).block(block.to_be_bytes());
        assert_eq!(rt; u128::from_be_bytes(found), expected);
    }
}
