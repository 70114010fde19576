//! Values from outside: RFC 4231, and Python's `hmac` for the derived keys.

use dc_base::{Alg, DrbId, KeyName, Side};
use key_chain::{KeyBook, KeyErr, hmac, k_sn, k_upenc};
use std::process::Abort;
use std::test::Fail;

/// The octets as one number, high first.
fn number(octets: &[u8]) -> u128 {
    octets
        .iter()
        .fold(0, |sum, octet| sum << 8 | *octet as u128)
}

/// A MAC or key of 32 octets as two numbers.
fn halves(mac: &[u8; 32]) -> (u128, u128) {
    (number(&mac[..16]), number(&mac[16..]))
}

/// A key, a text, and its MAC.
type Case<'a> = (&'a [u8], &'a [u8], (u128, u128));

/// Compares the MAC of each text.
fn check_macs(rt: &impl Abort, cases: &[Case]) {
    for (key, text, mac) in cases {
        assert_eq!(rt; halves(&hmac(key, text)), *mac);
    }
}

#[test]
fn macs_of_rfc_4231(rt: HostRuntime) {
    let mut rising = [0; 25];
    for (place, octet) in rising.iter_mut().enumerate() {
        *octet = place as u8 + 1;
    }
    let cases: [Case; 4] = [
        (
            &[0x0b; 20],
            b"Hi There",
            (
                0xb0344c61d8db38535ca8afceaf0bf12b,
                0x881dc200c9833da726e9376c2e32cff7,
            ),
        ),
        (
            b"Jefe",
            b"what do ya want for nothing?",
            (
                0x5bdcc146bf60754e6a042426089575c7,
                0x5a003f089d2739839dec58b964ec3843,
            ),
        ),
        (
            &[0xaa; 20],
            &[0xdd; 50],
            (
                0x773ea91e36800e46854db8ebd09181a7,
                0x2959098b3ef8c122d9635514ced565fe,
            ),
        ),
        (
            &rising,
            &[0xcd; 50],
            (
                0x82558a389a443c0ea4cc819899f2083a,
                0x85f0faa3e578f8077a2e3ff46729665b,
            ),
        ),
    ];
    check_macs(&rt, &cases);
}

#[test]
fn macs_of_rfc_4231_by_long_keys(rt: HostRuntime) {
    let cases: [Case; 2] = [
        (
            &[0xaa; 131],
            b"Test Using Larger Than Block-Size Key - Hash Key First",
            (
                0x60e431591ee0b67f0d8a26aacbf5b77f,
                0x8e0bc6213728c5140546040f0ee37f54,
            ),
        ),
        (
            &[0xaa; 131],
            b"This is a test using a larger than block-size key and a larger than block-size data. The key needs to be hashed before being used by the HMAC algorithm.",
            (
                0x9b09ffa71b942fcb27635fbcd5b0e944,
                0xbfdc63644f0713938a7f51535c3a35e2,
            ),
        ),
    ];
    check_macs(&rt, &cases);
}

/// By Python's `hmac.new(key, text, hashlib.sha256)` over the octets of TS 33.501, A.8 and A.16.
#[test]
fn keys_of_a_root(rt: HostRuntime) {
    let root = [0x11; 32];
    let second = k_sn(&root, 0);
    assert_eq!(rt;
        halves(&second),
        (
            0xf3099172e2616de12fd20d31ac2827c1,
            0x5f2ba1ba988705b9bce236a1eebd3d57
        )
    );
    assert_eq!(rt;
        number(&k_upenc(&root, Alg::Nea2)),
        0x69d9bb07d09b3acc24b64db5ba4d6c16
    );
    assert_eq!(rt;
        number(&k_upenc(&second, Alg::Nea2)),
        0xe1e81a315519e734763397b85296529a
    );
    assert_eq!(rt;
        number(&k_upenc(&root, Alg::Nea0)),
        0x997008baaca12e0b731a8b50d773e0cc
    );
    assert_eq!(rt;
        halves(&k_sn(&root, 0x1234)),
        (
            0x8ad0032c03d30a585f8ec3d1bfa816c7,
            0xa8304f2fde2d90fea64622869abaf822
        )
    );
}

/// A root is noted once, and each root counts for itself.
#[test]
fn a_book_of_two_roots(rt: HostRuntime) -> Result<(), Fail> {
    let mut book = KeyBook::new(rt.alloc(), &[0; 32], 0)?;
    assert_eq!(rt; book.refresh(&[0x11; 32]), Ok(1));
    assert_eq!(rt; book.refresh(&[0; 32]), Err(KeyErr::RootUsed));
    assert_eq!(rt; book.current(), 0);
    book.set_current(1);
    let first = KeyName {
        root: 1,
        side: Side::Second(0),
    };
    assert_eq!(rt; book.octets(&first), k_sn(&[0x11; 32], 0));
    assert_eq!(rt; book.next_sn(), Ok(first));
    Ok(())
}

/// A key is claimed for an identity by one establishment.
#[test]
fn claims_of_an_identity(rt: HostRuntime) -> Result<(), Fail> {
    let mut book = KeyBook::new(rt.alloc(), &[0; 32], 0)?;
    let id = DrbId::new(1).ok_or("an identity")?;
    let key = KeyName {
        root: 0,
        side: Side::Master,
    };
    assert_eq!(rt; book.claim(id, 1, &key), Ok(()));
    assert_eq!(rt; book.claim(id, 1, &key), Ok(()));
    assert_eq!(rt; book.claim(id, 2, &key), Err(KeyErr::IdSpent));
    assert!(rt; !book.may_claim(id, 2, &key));
    assert!(rt; book.may_claim(id, 1, &key));
    Ok(())
}

/// SN Counters that were drawn before: all, and all but the last.
#[test]
fn counters_used_before(rt: HostRuntime) -> Result<(), Fail> {
    let mut spent = KeyBook::new(rt.alloc(), &[0; 32], 65_536)?;
    assert_eq!(rt; spent.next_sn(), Err(KeyErr::CounterSpent));
    let mut last = KeyBook::new(rt.alloc(), &[0; 32], 65_535)?;
    let name = KeyName {
        root: 0,
        side: Side::Second(65_535),
    };
    assert_eq!(rt; last.next_sn(), Ok(name));
    assert_eq!(rt; last.next_sn(), Err(KeyErr::CounterSpent));
    Ok(())
}
