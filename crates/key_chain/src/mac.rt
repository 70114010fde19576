//! HMAC with SHA-256 (FIPS 198-1): the MAC of a text under a key.

ghost use Rattle.std.specs.Prelude.{◌≡◌, ◌≤◌, length};
ghost use Rattle.key_chain.specs.Hmac.{block_key, hmac, padded_to_block, xored_with};

use sha2::{Digest, Sha256};

/// The octets of a block of SHA-256.
const BLOCK: usize = 64;

/// The octet that masks the key inside (FIPS 198-1, ipad).
const INNER_PAD: u8 = 0x36;

/// The octet that masks the key outside (FIPS 198-1, opad).
const OUTER_PAD: u8 = 0x5c;

/// The HMAC-SHA-256, a MAC, of `text` under `key` (FIPS 198-1). Any lengths will do: a key longer than a
/// block of 64 octets is hashed first. It takes no memory.
pub fn hmac(key: &[u8], text: &[u8]) -> [u8; 32]
    ensures { result ≡ hmac key.now text.now }
{
    let key = block_key(key);
    let mut inner = Sha256::new();
    inner.update(xored(&key, INNER_PAD));
    inner.update(text);
    let mut outer = Sha256::new();
    outer.update(xored(&key, OUTER_PAD));
    outer.update(inner.finalize());
    outer.finalize()
}

/// The key as one block: hashed if it is longer, then padded with zeros.
fn block_key(key: &[u8]) -> [u8; 64]
    ensures { result ≡ block_key key.now }
{
    if key.len() <= BLOCK {
        padded(key)
    } else {
        padded(&Sha256::digest(key))
    }
}

/// The key, of at most 64 octets, with zeros behind it, up to a block.
fn padded(key: &[u8]) -> [u8; 64]
    requires { length key.now ≤ 64 }
    ensures { result ≡ padded_to_block key.now }
{
    let mut block = [0; BLOCK];
    block[..key.len()].copy_from_slice(key);
    block
}

/// The block with each octet masked.
fn xored(block: &[u8; 64], pad: u8) -> [u8; 64]
    ensures { result ≡ xored_with pad block.now }
{
    let mut masked = *block;
    for octet in masked.iter_mut() {
        *octet ^= pad;
    }
    masked
}
