//! The extension headers of a packet (TS 29.281, 5.2.1 and 5.2.2).

ghost use Rattle.std.specs.Prelude.{◌≡◌, ◌<◌, ◌≤◌, false, true, ◌||◌, ◌∷◌, length, drop, MatchOption, MatchResult};
ghost use Rattle.std.specs.Option.{option_copied};
ghost use Rattle.gtpu.specs.Extension.{is_unknown_required, may_have_length, short_number, long_number, number_of, AreExtensions};
ghost use Rattle.gtpu.specs.Fault.{is_misshapen, is_second, HasExtensionFault};
ghost use Rattle.gtpu.specs.Walk.{Splits, Joins, Extends};

use crate::faults::GtpErr;
use crate::packet::PduNumber;

/// The type of an NR RAN container (TS 29.281, 5.2.2.6).
pub const CONTAINER: u8 = 0x84;
/// The type of a PDCP PDU number of 16 bits (TS 29.281, 5.2.2.2).
pub const NUMBER: u8 = 0xC0;
/// The type of a long PDCP PDU number, of 18 bits (TS 29.281, 5.2.2.2A).
pub const LONG_NUMBER: u8 = 0x82;

/// What the extension headers that are understood carry, at most one of each.
#[derive(Clone, Copy)]
pub struct Understood<'a> {
    /// The content of the NR RAN container.
    pub container: Option<&'a [u8]>,
    /// The PDCP PDU number, of either type.
    pub number: Option<PduNumber>,
}

/// Whether a header of this type must be understood and is not: bit 7 of the type is set, and it is none of the three.
fn is_unknown_required(kind: u8) -> bool
    ensures { result ≡ is_unknown_required kind }
{
    kind >= 0x80 && !(kind == CONTAINER || kind == NUMBER || kind == LONG_NUMBER)
}

/// Whether a header of this type may have this length, in units of 4 octets.
fn may_have_length(kind: u8, units: u8) -> bool
    ensures { result ≡ may_have_length kind units }
{
    match kind {
        NUMBER => units == 1,
        LONG_NUMBER => units == 2,
        _ => true,
    }
}

/// The content of the header whose length octet comes first, and what follows it, from the next type on. None
/// where the length octet is missing, 0 or none that the type may have, or the header ends past the packet.
fn split(kind: u8, after: &[u8]) -> Option<(&[u8], &[u8])>
    ensures { MatchOption result (is_misshapen kind after.now ≡ true) (λ parts. Splits kind after.now parts.0.now parts.1.now) }
{
    let (units, after) = after.split_first()?;
    let units = *units;
    if units == 0 || !may_have_length(kind, units) {
        return None;
    }
    let end = 4 * usize::from(units) - 2;
    if after.len() <= end {
        return None;
    }
    Some(after.split_at(end))
}

/// The number in the first two octets.
fn short_number(content: &[u8]) -> u16
    ensures { result ≡ short_number content.now }
{
    match content {
        [high, low, ..] => u16::from_be_bytes([*high, *low]),
        _ => 0,
    }
}

/// The number in the low 18 bits of the first three octets.
fn long_number(content: &[u8]) -> u32
    ensures { result ≡ long_number content.now }
{
    match content {
        [high, middle, low, ..] => u32::from_be_bytes([0, *high, *middle, *low]) % (1 << 18),
        _ => 0,
    }
}

/// The number that a header of this type carries, if it does.
fn number_of(kind: u8, content: &[u8]) -> Option<PduNumber>
    ensures { result ≡ number_of kind content.now }
{
    match kind {
        NUMBER => Some(PduNumber::Short(short_number(content))),
        LONG_NUMBER => Some(PduNumber::Long(long_number(content))),
        _ => None,
    }
}

impl<'a> Understood<'a> {
    /// The same with one more header, unless it is a second container or number.
    fn with(self, kind: u8, content: &'a [u8]) -> Option<Understood<'a>>
        ensures { MatchOption result (is_second (option_copied self.entry.container) self.entry.number kind ≡ true)
            (λ known. Joins kind content.entry.now (option_copied self.entry.container) self.entry.number (option_copied known.container) known.number) }
    {
        if kind == CONTAINER {
            if self.container.is_some() {
                return None;
            }
            return Some(Understood {
                container: Some(content),
                number: self.number,
            });
        }
        let Some(number) = number_of(kind, content) else {
            return Some(self);
        };
        if self.number.is_some() {
            return None;
        }
        Some(Understood {
            container: self.container,
            number: Some(number),
        })
    }
}

/// The same with the header of this type that stands here, and what follows it, unless it has a fault.
fn step<'a>(known: Understood<'a>, kind: u8, after: &'a [u8]) -> Option<(Understood<'a>, &'a [u8])>
    requires some { 0 < kind }
    requires understood { is_unknown_required kind ≡ false }
    ensures { MatchOption result
        (is_misshapen kind after.entry.now || is_second (option_copied known.entry.container) known.entry.number kind ≡ true)
        (λ next. Extends kind after.entry.now (option_copied known.entry.container) known.entry.number (option_copied next.0.container) next.0.number next.1.now) }
{
    let (content, rest) = split(kind, after)?;
    let known = known.with(kind, content)?;
    Some((known, rest))
}

/// Reads the extension headers up to a next type of 0, and the body behind it. It refuses the first header with
/// a fault: an unknown type that must be understood before a wrong length or a second of a kind.
pub fn read(input: &[u8]) -> Result<(Understood<'_>, &[u8]), GtpErr>
    requires { 12 ≤ length input.now }
    ensures { MatchResult result
        (λ x. AreExtensions (drop 11 input.now) (option_copied x.0.container) x.0.number (0 ∷ x.1.now))
        (λ e. HasExtensionFault input.now e) }
{
    let mut known = Understood {
        container: None,
        number: None,
    };
    let mut rest = &input[11..];
    loop {
        let kind = rest[0];
        let after = &rest[1..];
        if kind == 0 {
            return Ok((known, after));
        }
        let place = input.len() - rest.len();
        if is_unknown_required(kind) {
            return Err(GtpErr::UnknownRequired { place });
        }
        let Some((more, next)) = step(known, kind, after) else {
            return Err(GtpErr::Extension { place: place + 1 });
        };
        known = more;
        rest = next;
    }
}
