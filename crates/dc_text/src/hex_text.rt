ghost use Rattle.std.specs.Prelude.{◌≡◌, ◌≢◌, ◌⊎◌, ◌↔◌, ℕ, ◌≤◌, List, [], slice_index, EachIndex, IfNone, IfOk, IfSome, IsTrue};
ghost use Rattle.hex.specs.Hex.{encode_lower, IsBytes};
ghost use Rattle.dc_text.specs.HexText.{IsLowerDigit};

use dc_base::{Memory, Octets};
use hex::FromHexError;
use std::alloc::Global;

/// The octets that a field writes in lower-case hexadecimal digits, two for each octet, and at least one octet.
///
/// `Ok(None)` exactly where the field writes no octets so.
pub fn hex_octets(alloc: Global, field: &[u8]) -> Result<Option<Octets>, Memory>
    ensures some { IfOk result (λ found. IfSome found (λ octets.
        (field.now ≡ encode_lower octets) × (octets ≢ []) × IsBytes octets)) }
    ensures none { IfOk result (λ found. IfNone found
        ((octets : List ℕ) → IsBytes octets → octets ≢ [] → field.now ≢ encode_lower octets)) }
{
    if field.is_empty() || !has_lower_digits_alone(field) {
        return Ok(None);
    }
    match hex::decode(alloc, field) {
        Ok(octets) => Ok(Some(Octets::from_vec(octets))),
        Err(error) => match error {
            FromHexError::OutOfMemory => Err(Memory),
            _ => Ok(None),
        },
    }
}

fn has_lower_digits_alone(field: &[u8]) -> bool
    ensures { IsTrue result ↔ EachIndex field.now (λ k. IsLowerDigit (slice_index field.now k)) }
{
    field.iter().all(|octet| is_lower_digit(*octet))
}

fn is_lower_digit(octet: u8) -> bool
    ensures { IsTrue result ↔ IsLowerDigit octet }
{
    matches!(octet, b'0'..=b'9' | b'a'..=b'f')
}
