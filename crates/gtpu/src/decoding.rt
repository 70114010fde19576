//! From octets to a packet.

ghost use Rattle.std.specs.Prelude.{◌≡◌, ◌<◌, ◌≤◌, length, drop, None, Some, MatchResult, IfOk, IfErr, IsOkAnd, IsErrOf};
ghost use Rattle.std.specs.Option.{option_copied};
ghost use Rattle.gtpu.specs.Content.{Content, view, kind_of};
ghost use Rattle.gtpu.specs.Grammar.{HasHeader, IsAfterTeid, IsPacket};
ghost use Rattle.gtpu.specs.Fault.{header_fault, HasExtensionFault, HasFault};
ghost use Rattle.gtpu.specs.Decoded.{outcome, decoded};

use crate::extensions::{self, Understood};
use crate::faults::GtpErr;
use crate::packet::{GtpKind, Packet};

/// The message type that an octet names (TS 29.281, 6.1).
fn kind_of(octet: u8) -> Option<GtpKind>
    ensures { result ≡ kind_of octet }
{
    match octet {
        255 => Some(GtpKind::GPdu),
        254 => Some(GtpKind::EndMarker),
        1 => Some(GtpKind::EchoRequest),
        2 => Some(GtpKind::EchoResponse),
        26 => Some(GtpKind::ErrorIndication),
        _ => None,
    }
}

/// The first octet, the message type and the TEID (TS 29.281, 5.1), behind the checks of the header in their order:
/// short, version, kind, length, and short again where a flag announces octets 8 to 11.
fn header(input: &[u8]) -> Result<(u8, GtpKind, u32), GtpErr>
    ensures { MatchResult result
        (λ h. HasHeader input.now h.0 h.1 h.2 (drop 8 input.now) × (header_fault input.now ≡ None))
        (λ e. header_fault input.now ≡ Some e) }
{
    let [
        first,
        kind,
        high,
        low,
        teid_0,
        teid_1,
        teid_2,
        teid_3,
        after @ ..,
    ] = input
    else {
        return Err(GtpErr::Short { place: input.len() });
    };
    if *first / 16 != 3 {
        return Err(GtpErr::Version { place: 0 });
    }
    let Some(kind) = kind_of(*kind) else {
        return Err(GtpErr::Kind { place: 1 });
    };
    if usize::from(u16::from_be_bytes([*high, *low])) != after.len() {
        return Err(GtpErr::Length { place: 2 });
    }
    if *first % 8 != 0 && after.len() < 4 {
        return Err(GtpErr::Short { place: input.len() });
    }
    let teid = u32::from_be_bytes([*teid_0, *teid_1, *teid_2, *teid_3]);
    Ok((*first, kind, teid))
}

/// What the extension headers carry, if there are any, and the body. Sequence and N-PDU numbers are ignored.
fn after_teid(flags: u8, input: &[u8]) -> Result<(Understood<'_>, &[u8]), GtpErr>
    requires header { 8 ≤ length input.now }
    requires numbers { 0 < flags → 12 ≤ length input.now }
    ensures { MatchResult result
        (λ x. IsAfterTeid flags (option_copied x.0.container) x.0.number x.1.now (drop 8 input.now))
        (λ e. (4 ≤ flags) × HasExtensionFault input.now e) }
{
    let nothing = Understood {
        container: None,
        number: None,
    };
    match flags {
        0 => Ok((nothing, &input[8..])),
        1..=3 => Ok((nothing, &input[12..])),
        _ => extensions::read(input),
    }
}

/// The packet, or the first check that fails.
fn packet(input: &[u8]) -> Result<Packet<'_>, GtpErr>
    ensures { MatchResult result (λ p. IsPacket (view p) input.now) (λ e. HasFault input.now e) }
{
    let (first, kind, teid) = header(input)?;
    let (known, body) = after_teid(first % 8, input)?;
    Ok(Packet {
        kind,
        teid,
        container: known.container,
        number: known.number,
        body,
    })
}

/// The packet that the octets are (TS 29.281, 5.1 and 5.2). It takes no memory.
///
/// The parts are lent out of the octets. The spare bit, sequence and N-PDU numbers are ignored. Extension headers
/// of an unknown type are skipped where bit 7 of the type is 0, and refused where it is 1.
pub fn decode(input: &[u8]) -> Result<Packet<'_>, GtpErr>
    // What is read is a packet that says this, and no other packet is spelled so.
    ensures ok { IfOk result (λ p. IsPacket (view p) input.now) }
    ensures only { (p : Content) → IsPacket p input.now → IsOkAnd result (λ q. view q ≡ p) }
    // An error is the first check that fails, and where a check fails there is an error.
    ensures fault { IfErr result (λ e. HasFault input.now e) }
    ensures first { (e : GtpErr) → HasFault input.now e → IsErrOf result e }
    // Both as one function of the octets, by which definitions read packets.
    ensures read { outcome result ≡ decoded input.now }
{
    packet(input)
}
