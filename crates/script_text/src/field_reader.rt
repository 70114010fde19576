//! The fields of a line, read one by one.

ghost use Rattle.std.specs.Prelude.{◌≡◌, ◌+◌, ◌≤◌, ℕ, List, [], ◌∷◌, length, IfOk, IfErr, IfSome, IfNone};
ghost use Rattle.std.specs.List.{position, position_or_len};
ghost use Rattle.std.specs.Fmt.{decimal};
ghost use Rattle.hex.specs.Hex.{encode_lower, IsBytes};
ghost use Rattle.script_text.specs.Grammar.{fields, is_space, Allows, Kind, Exactly, Number, payload};
ghost use Rattle.pdcp_pdu.specs.DataPdu.{IsPayload};
ghost use Rattle.script_text.specs.declared.scripted.LineFault.TheVariants.{Column};
ghost use Rattle.script_text.specs.Places.{Takes, IsFaultAt};

use crate::scripted::LineFault;
use crate::spelling::Spelled;
use dc_base::{Memory, Octets};
use std::alloc::Global;
use std::marker::Model;

/// The longest payload, in octets.
const MAX_PAYLOAD: usize = 9000;

/// Takes the fields of a line one after another. A line has at most 20,000 octets. A call that answers a fault may have
/// taken the field, and the reader is not used again then.
#[derive(Drop)]
pub struct FieldReader<'a> {
    line: &'a [u8],
    /// How many octets stand before the next field; one more than the line's length where none is left.
    at: u32,
}

/// Contracts see the place of the next field, and the fields from there on.
impl<'a> Model for FieldReader<'a> {
    ghost use Rattle.std.specs.Prelude.{◌≤◌, length};
    ghost use Rattle.script_text.specs.Places.{Left, fields_from};

    ghost Value = { Left };

    ghost view = { λ r. record { at = r.at; fields = fields_from r.line.now r.at } };

    ghost invariant = { λ r. (length r.line.now ≤ 20000) × (r.at ≤ 20001) };
}

impl<'a> FieldReader<'a> {
    /// A reader of all fields of a line.
    pub fn new(line: &'a [u8]) -> FieldReader<'a>
        requires { length line.now ≤ 20000 }
        ensures at { result.at ≡ 0 }
        ensures fields { result.fields ≡ fields line.now }
    {
        FieldReader { line, at: 0 }
    }

    /// The column of the next field, from 1.
    pub fn column(&self) -> u32
        ensures { result ≡ self.now.at + 1 }
    {
        self.at + 1
    }

    /// The next field as it stands. Where none is left, the fault has the column after the line's end.
    pub fn next_field(&mut self) -> Result<&'a [u8], LineFault>
        ensures found { IfOk result (λ f. self.old.fields ≡ f.now ∷ self.new.fields) }
        ensures moved { IfOk result (λ f. self.new.at ≡ self.old.at + length f.now + 1) }
        ensures fault { IfErr result (λ fault. fault ≡ Column self.old.at) }
        ensures none { IfErr result (λ fault. self.old.fields ≡ []) }
    {
        let line = self.line;
        let begin = self.at as usize;
        if begin > line.len() {
            return Err(LineFault::Column(self.at));
        }
        let rest = &line[begin..];
        let length = field_length(rest);
        self.at = (begin + length + 1) as u32;
        Ok(&rest[..length])
    }

    /// Nothing, where no field is left.
    pub fn take_end(&mut self) -> Result<(), LineFault>
        ensures none { IfOk result (λ _. self.old.fields ≡ []) }
        ensures fault { IfErr result (λ fault. IsFaultAt [] self.old fault) }
    {
        let column = self.column();
        match self.next_field() {
            Ok(_) => Err(LineFault::Column(column)),
            Err(_) => Ok(()),
        }
    }

    /// A value that one word writes.
    pub fn take<T: Spelled>(&mut self) -> Result<T, LineFault>
        ensures taken { IfOk result (λ v. Takes T.kind (T.word v) self.old self.new) }
        ensures range { IfOk result (λ v. T.in_range v) }
        ensures fault { IfErr result (λ fault. (ks : List Kind) → IsFaultAt (T.kind ∷ ks) self.old fault) }
    {
        let column = self.column();
        let field = self.next_field()?;
        T::of(field).ok_or(LineFault::Column(column))
    }

    /// This word.
    pub fn take_word(&mut self, word: &str) -> Result<(), LineFault>
        ensures taken { IfOk result (λ _. Takes (Exactly word.now) word.now self.old self.new) }
        ensures fault { IfErr result (λ fault. (ks : List Kind) → IsFaultAt (Exactly word.now ∷ ks) self.old fault) }
    {
        let column = self.column();
        let field = self.next_field()?;
        if field == word.as_bytes() {
            Ok(())
        } else {
            Err(LineFault::Column(column))
        }
    }

    /// A number in this range.
    pub fn take_number(&mut self, low: u32, high: u32) -> Result<u32, LineFault>
        ensures taken { IfOk result (λ v. Takes (Number low high) (decimal v) self.old self.new) }
        ensures range { IfOk result (λ v. (low ≤ v) × (v ≤ high)) }
        ensures fault { IfErr result (λ fault. (ks : List Kind) → IsFaultAt ((Number low high) ∷ ks) self.old fault) }
    {
        let column = self.column();
        let field = self.next_field()?;
        number_of(field, low, high).ok_or(LineFault::Column(column))
    }

    /// A payload. `Memory` where there was none for it.
    pub fn take_payload(&mut self, alloc: Global) -> Result<Octets, LineFault>
        ensures taken { IfOk result (λ v. Takes payload (encode_lower v) self.old self.new) }
        ensures range { IfOk result (λ v. IsPayload v) }
        ensures fault { IfErr result (λ fault. (ks : List Kind) → IsFaultAt (payload ∷ ks) self.old fault) }
    {
        let column = self.column();
        let field = self.next_field()?;
        match payload_of(alloc, field) {
            Ok(octets) => octets.ok_or(LineFault::Column(column)),
            Err(Memory) => Err(LineFault::Memory),
        }
    }
}

/// How many octets stand before the first space: all where there is none.
fn field_length(rest: &[u8]) -> usize
    ensures value { result ≡ position_or_len is_space rest.now }
    ensures within { result ≤ length rest.now }
{
    match first_space(rest) {
        Some(place) => place,
        None => rest.len(),
    }
}

/// The place of the first space.
fn first_space(rest: &[u8]) -> Option<usize>
    ensures { result ≡ position is_space rest.now }
{
    rest.iter().position(|octet| *octet == b' ')
}

/// The payload that the field writes: 1 to 9000 octets.
fn payload_of(alloc: Global, field: &[u8]) -> Result<Option<Octets>, Memory>
    ensures some { IfOk result (λ found. IfSome found (λ v. IsPayload v × (field.now ≡ encode_lower v))) }
    ensures none { IfOk result (λ found. IfNone found (Allows payload field.now → ⊥)) }
{
    match dc_text::hex_octets(alloc, field)? {
        Some(octets) => {
            if octets.len() <= MAX_PAYLOAD {
                Ok(Some(octets))
            } else {
                Ok(None)
            }
        }
        None => Ok(None),
    }
}

/// The number of this range that the field writes.
pub fn number_of(field: &[u8], low: u32, high: u32) -> Option<u32>
    ensures some { IfSome result (λ n. ((low ≤ n) × (n ≤ high)) × (field.now ≡ decimal n)) }
    ensures none { IfNone result (Allows (Number low high) field.now → ⊥) }
{
    match dc_text::decimal(field, u64::from(high)) {
        Some(number) => {
            if number >= u64::from(low) {
                Some(number as u32)
            } else {
                None
            }
        }
        None => None,
    }
}
