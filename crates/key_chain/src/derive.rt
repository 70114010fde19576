//! The keys derived from a root (TS 33.501, annexes A.8 and A.16).

ghost use Rattle.std.specs.Prelude.{◌≡◌};
ghost use Rattle.key_chain.specs.Derived.{algorithm_identity, k_sn, k_upenc};

use crate::mac::hmac;
use dc_base::Alg;

/// The key K_SN of a secondary node, from the root key and the SN Counter
/// (TS 33.501, A.16). It takes no memory.
pub fn k_sn(root: &[u8; 32], counter: u16) -> [u8; 32]
    ensures { result ≡ k_sn root.now counter }
{
    let [high, low] = counter.to_be_bytes();
    hmac(root, &[0x79, high, low, 0x00, 0x02])
}

/// The user plane ciphering key K_UPenc, from the root key or K_SN
/// (TS 33.501, A.8): the last 16 octets of what is derived. It takes no memory.
pub fn k_upenc(key: &[u8; 32], alg: Alg) -> [u8; 16]
    ensures { result ≡ k_upenc key.now alg }
{
    let derived = hmac(key, &[0x69, 0x05, 0x00, 0x01, identity(alg), 0x00, 0x01]);
    let mut last = [0; 16];
    last.copy_from_slice(&derived[16..]);
    last
}

/// The algorithm's identity (TS 33.501, 5.11.1.1).
fn identity(alg: Alg) -> u8
    ensures { result ≡ algorithm_identity alg }
{
    match alg {
        Alg::Nea0 => 0,
        Alg::Nea2 => 2,
    }
}
