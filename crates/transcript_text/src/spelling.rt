//! The values that one field of a line writes, read.
ghost use Rattle.std.specs.Prelude.{◌≡◌, ◌≤◌, ◌==◌, ℕ, List, [], true, false, codes, IfOk, IfSome, IfNone, refl};
ghost use Rattle.std.specs.Fmt.{decimal};
ghost use Rattle.std.specs.Str.{bytes_eq};
ghost use Rattle.hex.specs.Hex.{encode_lower, IsBytes};
ghost use Rattle.pdcp_pdu.specs.DataPdu.{is_data};
ghost use Rattle.transcript.specs.Words.{or_dash, octets_or_dash};
ghost use Rattle.script_text.specs.Scripts.{IsIdentity};
ghost use Rattle.transcript_text.specs.Ranges.{IsWord, IsHex, IsTag};
ghost use Rattle.transcript_text.specs.Grammar.{Allows, Kind, Number, identity, word_32};
ghost use Rattle.transcript_text.specs.Grammar.Kind.{Octets as OctetsKind, Pdu as PduKind, Bits as BitsKind, Tag as TagKind};

use dc_base::{DrbId, Memory, Octets, Tag};
use pdcp_pdu::is_data;
use std::alloc::Global;

/// A value that one field of a line writes.
pub trait Spelled {
    /// The sort of the field.
    ghost kind: { Kind };

    /// The field that writes a value.
    ghost word: { Self → List ℕ };

    /// The values that a line may have.
    ghost in_range: { Self → Type 0 };

    /// The value that the field writes. `None` exactly where it writes none that a line may have.
    fn of(alloc: Global, field: &[u8]) -> Result<Option<Self>, Memory>
        ensures some { IfOk result (λ found. IfSome found (λ v. in_range v × (field.now ≡ word v))) }
        ensures none { IfOk result (λ found. IfNone found (Allows kind field.now → ⊥)) };

    /// The field of such a value is of the sort.
    ghost allowed: { (v : Self) → in_range v → Allows kind (word v) };
}

/// Octets, or a dash for none.
#[derive(Debug, Drop)]
pub struct Bits(pub Octets);

/// A data PDU.
#[derive(Debug, Drop)]
pub struct DataPdu(pub Octets);

/// A control PDU.
#[derive(Debug, Drop)]
pub struct ControlPdu(pub Octets);

impl Spelled for DrbId {
    ghost kind = { identity };

    ghost word = { decimal };

    ghost in_range = { IsIdentity };

    fn of(_alloc: Global, field: &[u8]) -> Result<Option<DrbId>, Memory> {
        Ok(identity_of(field))
    }

    ghost allowed = { λ v h. (v, h, refl) };
}

impl Spelled for u32 {
    ghost use Rattle.std.proofs.Common.{arith};

    ghost kind = { word_32 };

    ghost word = { decimal };

    ghost in_range = { IsWord };

    fn of(_alloc: Global, field: &[u8]) -> Result<Option<u32>, Memory> {
        Ok(number_of(field, 0, u32::MAX))
    }

    ghost allowed = { λ v h. (v, (Prim.omega arith, h), refl) };
}

impl Spelled for u8 {
    ghost use Rattle.std.proofs.Common.{arith};

    ghost kind = { Number 0 255 };

    ghost word = { decimal };

    ghost in_range = { λ n. n ≤ 255 };

    fn of(_alloc: Global, field: &[u8]) -> Result<Option<u8>, Memory> {
        Ok(match number_of(field, 0, 255) {
            Some(number) => Some(number as u8),
            None => None,
        })
    }

    ghost allowed = { λ v h. (v, (Prim.omega arith, h), refl) };
}

impl Spelled for u16 {
    ghost use Rattle.std.proofs.Common.{arith};

    ghost kind = { Number 0 65535 };

    ghost word = { decimal };

    ghost in_range = { λ n. n ≤ 65535 };

    fn of(_alloc: Global, field: &[u8]) -> Result<Option<u16>, Memory> {
        Ok(match number_of(field, 0, 65_535) {
            Some(number) => Some(number as u16),
            None => None,
        })
    }

    ghost allowed = { λ v h. (v, (Prim.omega arith, h), refl) };
}

impl Spelled for Tag {
    ghost kind = { TagKind };

    ghost word = { or_dash decimal };

    ghost in_range = { IsTag };

    fn of(_alloc: Global, field: &[u8]) -> Result<Option<Tag>, Memory> {
        Ok(tag_of(field))
    }

    ghost allowed = { λ v h. (v, h, refl) };
}

impl Spelled for Octets {
    ghost kind = { OctetsKind };

    ghost word = { encode_lower };

    ghost in_range = { IsHex };

    fn of(alloc: Global, field: &[u8]) -> Result<Option<Octets>, Memory> {
        dc_text::hex_octets(alloc, field)
    }

    ghost allowed = { λ v h. (v, h, refl) };
}

impl Spelled for Bits {
    ghost kind = { BitsKind };

    ghost word = { λ b. octets_or_dash b.0 };

    ghost in_range = { λ b. IsBytes b.0 };

    fn of(alloc: Global, field: &[u8]) -> Result<Option<Bits>, Memory> {
        bits_of(alloc, field)
    }

    ghost allowed = { λ v h. (v.0, h, refl) };
}

impl Spelled for DataPdu {
    ghost kind = { PduKind true };

    ghost word = { λ p. encode_lower p.0 };

    ghost in_range = { λ p. IsHex p.0 × (is_data p.0 ≡ true) };

    fn of(alloc: Global, field: &[u8]) -> Result<Option<DataPdu>, Memory> {
        match pdu_of(alloc, field, true)? {
            Some(pdu) => Ok(Some(DataPdu(pdu))),
            None => Ok(None),
        }
    }

    ghost allowed = { λ v h. (v.0, h, refl) };
}

impl Spelled for ControlPdu {
    ghost kind = { PduKind false };

    ghost word = { λ p. encode_lower p.0 };

    ghost in_range = { λ p. IsHex p.0 × (is_data p.0 ≡ false) };

    fn of(alloc: Global, field: &[u8]) -> Result<Option<ControlPdu>, Memory> {
        match pdu_of(alloc, field, false)? {
            Some(pdu) => Ok(Some(ControlPdu(pdu))),
            None => Ok(None),
        }
    }

    ghost allowed = { λ v h. (v.0, h, refl) };
}

/// The identity that the field writes: 1 to 32.
pub fn identity_of(field: &[u8]) -> Option<DrbId>
    ensures some { IfSome result (λ id. IsIdentity id × (field.now ≡ decimal id)) }
    ensures none { IfNone result (Allows identity field.now → ⊥) }
{
    DrbId::new(number_of(field, 1, 32)? as u8)
}

/// The COUNT that the field writes, or none for a dash.
fn tag_of(field: &[u8]) -> Option<Tag>
    ensures some { IfSome result (λ tag. IsTag tag × (field.now ≡ or_dash decimal tag)) }
    ensures none { IfNone result (Allows TagKind field.now → ⊥) }
{
    if is_dash(field) {
        Some(Tag::none())
    } else {
        match number_of(field, 0, u32::MAX) {
            Some(count) => Some(Tag::count(count)),
            None => None,
        }
    }
}

/// The octets that the field writes, or none for a dash.
fn bits_of(alloc: Global, field: &[u8]) -> Result<Option<Bits>, Memory>
    ensures some { IfOk result (λ found. IfSome found (λ b. IsBytes b.0 × (field.now ≡ octets_or_dash b.0))) }
    ensures none { IfOk result (λ found. IfNone found (Allows BitsKind field.now → ⊥)) }
{
    if is_dash(field) {
        Ok(Some(Bits(Octets::new(alloc))))
    } else {
        match dc_text::hex_octets(alloc, field)? {
            Some(octets) => Ok(Some(Bits(octets))),
            None => Ok(None),
        }
    }
}

/// The PDU that the field writes, if it is of this sort: data, or control.
fn pdu_of(alloc: Global, field: &[u8], data_wanted: bool) -> Result<Option<Octets>, Memory>
    ensures some { IfOk result (λ found. IfSome found (λ pdu.
        (IsHex pdu × (is_data pdu ≡ data_wanted)) × (field.now ≡ encode_lower pdu))) }
    ensures none { IfOk result (λ found. IfNone found (Allows (PduKind data_wanted) field.now → ⊥)) }
{
    match dc_text::hex_octets(alloc, field)? {
        Some(pdu) => {
            let is_data = is_data(pdu.as_slice());
            if is_data == data_wanted {
                Ok(Some(pdu))
            } else {
                Ok(None)
            }
        }
        None => Ok(None),
    }
}

/// Whether the field is a dash.
fn is_dash(field: &[u8]) -> bool
    ensures { result ≡ bytes_eq field.now (codes "-") }
{
    field == b"-".as_slice()
}

/// The number of this range that the field writes.
pub fn number_of(field: &[u8], low: u32, high: u32) -> Option<u32>
    ensures some { IfSome result (λ n. ((low ≤ n) × (n ≤ high)) × (field.now ≡ decimal n)) }
    ensures none { IfNone result (Allows (Number low high) field.now → ⊥) }
{
    match dc_text::decimal(field, u64::from(high)) {
        Some(number) => {
            if number >= u64::from(low) {
                Some(number as u32)
            } else {
                None
            }
        }
        None => None,
    }
}
