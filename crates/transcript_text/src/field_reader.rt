//! The fields of a line, or the parts of a field, read one by one.

ghost use Rattle.std.specs.Prelude.{◌≡◌, ◌+◌, ◌^◌, ◌==◌, ◌≤◌, [], ◌∷◌, length, IfOk, IfErr, IfSome, IfNone};
ghost use Rattle.std.specs.List.{position, position_or_len};
ghost use Rattle.transcript_text.specs.Grammar.{Allows, IsNotHere, IsNoWord, parts};
ghost use Rattle.transcript_text.specs.declared.fault.LineFault.TheVariants.{Column};
ghost use Rattle.transcript_text.specs.Places.{Takes, FaultAt, IsFaultAt, has_any};

use crate::fault::LineFault;
use crate::spelling::Spelled;
use crate::words::Keyword;
use std::alloc::Global;
use std::marker::Model;

/// Takes the fields of a text one after another, between any two of which one separator stands. A call that answers a
/// fault may have taken a field, and the reader is not used again then.
#[derive(Drop)]
pub struct FieldReader<'a> {
    text: &'a [u8],
    separator: u8,
    /// How many octets stand before the next field; one more than the text's length where none is left.
    at: usize,
}

/// Contracts see the place of the next field, and the fields from there on.
impl<'a> Model for FieldReader<'a> {
    ghost use Rattle.std.specs.Prelude.{◌≤◌, ◌+◌, length};
    ghost use Rattle.transcript_text.specs.Places.{Left, parts_from};

    ghost Value = { Left };

    ghost view = { λ r. record { at = r.at; fields = parts_from r.separator r.text.now r.at; separator = r.separator } };

    ghost invariant = { λ r. r.at ≤ length r.text.now + 1 };
}

impl<'a> FieldReader<'a> {
    /// A reader of all fields of a text.
    pub fn new(text: &'a [u8], separator: u8) -> FieldReader<'a>
        ensures at { result.at ≡ 0 }
        ensures fields { result.fields ≡ parts separator text.now }
        ensures separator { result.separator ≡ separator }
    {
        FieldReader {
            text,
            separator,
            at: 0,
        }
    }

    /// Whether a field is left.
    pub fn has_more(&self) -> bool
        ensures { result ≡ has_any self.now.fields }
    {
        self.at <= self.text.len()
    }

    /// All that is left of the text as it stands, `None` where no field is left.
    pub fn rest(&self) -> Option<&'a [u8]>
        ensures some { IfSome result (λ rest. self.now.fields ≡ parts self.now.separator rest.now) }
        ensures none { IfNone result (self.now.fields ≡ []) }
    {
        let text = self.text;
        if self.at <= text.len() {
            Some(&text[self.at..])
        } else {
            None
        }
    }

    /// How many octets stand before the next field; one more than the text's length where none is left.
    pub fn at(&self) -> usize
        ensures value { result ≡ self.now.at }
        ensures small { result ≤ 2 ^ 63 }
    {
        self.at
    }

    /// The fault of the next field.
    fn fault(&self) -> LineFault
        ensures { result ≡ Column (self.now.at + 1) }
    {
        LineFault::Column(self.at + 1)
    }

    /// The next field as it stands. Where none is left, the fault has the column after the text's end.
    pub fn next_field(&mut self) -> Result<&'a [u8], LineFault>
        ensures found { IfOk result (λ f. self.old.fields ≡ f.now ∷ self.new.fields) }
        ensures moved { IfOk result (λ f. self.new.at ≡ self.old.at + length f.now + 1) }
        ensures kept { IfOk result (λ f. self.new.separator ≡ self.old.separator) }
        ensures fault { IfErr result (λ fault. fault ≡ Column self.old.at) }
        ensures none { IfErr result (λ fault. self.old.fields ≡ []) }
    {
        let text = self.text;
        let begin = self.at;
        if begin > text.len() {
            return Err(LineFault::Column(begin));
        }
        let rest = &text[begin..];
        let length = field_length(rest, self.separator);
        self.at = begin + length + 1;
        Ok(&rest[..length])
    }

    /// Nothing, where no field is left.
    pub fn end(&mut self) -> Result<(), LineFault>
        ensures none { IfOk result (λ _. self.old.fields ≡ []) }
        ensures fault { IfErr result (λ fault. IsFaultAt [] self.old fault) }
    {
        if self.has_more() {
            Err(self.fault())
        } else {
            Ok(())
        }
    }

    /// A value that the next field writes. `Memory` where there was none for it.
    pub fn take<T: Spelled>(&mut self, alloc: Global) -> Result<T, LineFault>
        ensures taken { IfOk result (λ v. Takes (T.word v) self.old self.new) }
        ensures allowed { IfOk result (λ v. Allows T.kind (T.word v)) }
        ensures range { IfOk result (λ v. T.in_range v) }
        ensures fault { IfErr result (λ fault. FaultAt (IsNotHere T.kind) self.old fault) }
    {
        let fault = self.fault();
        let field = self.next_field()?;
        match T::of(alloc, field) {
            Ok(value) => value.ok_or(fault),
            Err(_) => Err(LineFault::Memory),
        }
    }

    /// The word that the next field is.
    pub fn keyword<W: Keyword>(&mut self) -> Result<W, LineFault>
        ensures taken { IfOk result (λ w. Takes (W.word w) self.old self.new) }
        ensures kept { IfOk result (λ w. self.new.separator ≡ self.old.separator) }
        ensures fault { IfErr result (λ fault. FaultAt (IsNoWord W.word) self.old fault) }
    {
        let fault = self.fault();
        let field = self.next_field()?;
        W::of(field).ok_or(fault)
    }
}

/// How many octets stand before the first separator: all where there is none.
fn field_length(rest: &[u8], separator: u8) -> usize
    ensures value { result ≡ position_or_len (λ o. o == separator) rest.now }
    ensures within { result ≤ length rest.now }
{
    match first_place(rest, separator) {
        Some(place) => place,
        None => rest.len(),
    }
}

/// The place of the first separator.
fn first_place(rest: &[u8], separator: u8) -> Option<usize>
    ensures { result ≡ position (λ o. o == separator) rest.now }
{
    rest.iter().position(|octet| *octet == separator)
}
