//! From a packet to octets.

ghost use Rattle.std.specs.Prelude.{◌≡◌, ◌+◌, ◌^◌, ◌<◌, ◌≤◌, ◌++◌, length, IfSome, IfOk, OnOk};
ghost use Rattle.std.specs.Option.{option_copied};
ghost use Rattle.std.specs.List.{flat_map};
ghost use Rattle.gtpu.specs.Content.{view, message_type};
ghost use Rattle.gtpu.specs.Extension.{octets_of};
ghost use Rattle.gtpu.specs.Grammar.{IsPacket};
ghost use Rattle.gtpu.specs.Decoded.{decoded};
ghost use Rattle.gtpu.specs.Spelling.{extension, container_header, number_header, extensions, spelling, IsContainer, FitsLong, FitsShort};

use crate::extensions::{CONTAINER, LONG_NUMBER, NUMBER};
use crate::packet::{GtpKind, Packet, PduNumber};
use dc_base::{Memory, Octets};
use std::alloc::Global;

/// The first octet (TS 29.281, 5.1): version 1, PT 1, and no flag.
const PLAIN: u8 = 0x30;
/// The same with the flag E.
const EXTENDED: u8 = 0x34;

/// The octet that names the message type (TS 29.281, 6.1).
fn message_type(kind: GtpKind) -> u8
    ensures { result ≡ message_type kind }
{
    match kind {
        GtpKind::GPdu => 255,
        GtpKind::EndMarker => 254,
        GtpKind::EchoRequest => 1,
        GtpKind::EchoResponse => 2,
        GtpKind::ErrorIndication => 26,
    }
}

/// Writes an extension header, with the octet before it that names its type (TS 29.281, 5.2.1).
fn write_header(octets: &mut Octets, kind: u8, content: &[u8]) -> Result<(), Memory>
    requires { length content.now ≤ 1018 }
    ensures { OnOk result (octets.new ≡ octets.old ++ octets_of (extension kind content.now)) }
{
    octets.push(kind)?;
    octets.push(((content.len() + 2) / 4) as u8)?;
    octets.extend(content)
}

/// Writes the extension header of an NR RAN container, if there is one (TS 29.281, 5.2.2.6).
fn write_container(octets: &mut Octets, container: Option<&[u8]>) -> Result<(), Memory>
    requires { IfSome (option_copied container) IsContainer }
    ensures { OnOk result (octets.new ≡ octets.old ++ flat_map octets_of (container_header (option_copied container.entry))) }
{
    match container {
        None => Ok(()),
        Some(content) => write_header(octets, CONTAINER, content),
    }
}

/// Writes the extension header of a PDCP PDU number, if there is one: of 16 bits, or of 18 in three octets
/// with three spare ones behind them (TS 29.281, 5.2.2.2 and 5.2.2.2A).
fn write_number(octets: &mut Octets, number: Option<PduNumber>) -> Result<(), Memory>
    ensures added { OnOk result (octets.new ≡ octets.old ++ flat_map octets_of (number_header number)) }
    ensures fits { IfSome number FitsShort }
{
    match number {
        None => Ok(()),
        Some(PduNumber::Short(n)) => write_header(octets, NUMBER, &n.to_be_bytes()),
        Some(PduNumber::Long(n)) => {
            let [_, high, middle, low] = n.to_be_bytes();
            write_header(octets, LONG_NUMBER, &[high, middle, low, 0, 0, 0])
        }
    }
}

/// How many octets the extension header of a PDCP PDU number has, with the octet that names its type; 0 for no number.
fn number_len(number: Option<PduNumber>) -> usize
    ensures { result ≡ length (flat_map octets_of (number_header number)) }
{
    match number {
        None => 0,
        Some(PduNumber::Short(_)) => 4,
        Some(PduNumber::Long(_)) => 8,
    }
}

/// The same of an NR RAN container.
fn container_len(container: Option<&[u8]>) -> usize
    requires { IfSome (option_copied container) IsContainer }
    ensures value { result ≡ length (flat_map octets_of (container_header (option_copied container.entry))) }
    ensures most { result ≤ 1020 }
{
    match container {
        None => 0,
        Some(content) => 2 + content.len(),
    }
}

/// How many octets stand between the TEID and the body.
fn extensions_len(p: &Packet<'_>) -> usize
    requires { IfSome (option_copied p.now.container) IsContainer }
    ensures { result ≡ length (extensions (view p.now)) }
{
    if p.container.is_none() && p.number.is_none() {
        return 0;
    }
    4 + container_len(p.container) + number_len(p.number)
}

/// Writes what stands between the TEID and the body.
fn write_extensions(octets: &mut Octets, p: &Packet<'_>) -> Result<(), Memory>
    requires { IfSome (option_copied p.now.container) IsContainer }
    ensures { OnOk result ((octets.new ≡ octets.old ++ extensions (view p.now)) × IfSome p.now.number FitsShort) }
{
    if p.container.is_none() && p.number.is_none() {
        return Ok(());
    }
    octets.extend(&[0, 0, 0])?;
    write_container(octets, p.container)?;
    write_number(octets, p.number)?;
    octets.push(0)
}

/// Writes the octets of a packet with so many octets between the TEID and the body.
fn write_packet(octets: &mut Octets, p: &Packet<'_>, between: usize) -> Result<(), Memory>
    requires between { between ≡ length (extensions (view p.now)) }
    requires length { between + length p.now.body.now < 2 ^ 16 }
    requires container { IfSome (option_copied p.now.container) IsContainer }
    ensures { OnOk result ((octets.new ≡ octets.old ++ spelling (view p.now)) × (p.now.teid < 2 ^ 32) × IfSome p.now.number FitsShort) }
{
    let length = (between + p.body.len()) as u16;
    octets.push(if between == 0 { PLAIN } else { EXTENDED })?;
    octets.push(message_type(p.kind))?;
    octets.extend(&length.to_be_bytes())?;
    octets.extend(&p.teid.to_be_bytes())?;
    write_extensions(octets, p)?;
    octets.extend(p.body)
}

/// The octets of a packet, in the one way in which packets are written here (TS 29.281, 5.1 and 5.2).
///
/// The flag E is set exactly if there is a container or a number. The container comes before the number.
/// All that a reader ignores is 0. The buffer is made once, of the packet's length. The length field has to fit 16 bits; a container has 4k - 2 octets, up to
/// 1018; a long number is below 2^18.
pub fn encode(alloc: Global, p: &Packet<'_>) -> Result<Octets, Memory>
    requires length { length (extensions (view p.now)) + length p.now.body.now < 2 ^ 16 }
    requires container { IfSome (option_copied p.now.container) IsContainer }
    requires number { IfSome p.now.number FitsLong }
    ensures spelled { IfOk result (λ octets. octets ≡ spelling (view p.now)) }
    // The octets are a packet that says this, so it is what `decode` reads.
    ensures read_again { IfOk result (λ octets. IsPacket (view p.now) octets) }
    ensures decoded_again { IfOk result (λ octets. decoded octets ≡ Ok (view p.now)) }
{
    let between = extensions_len(p);
    let len = 8 + between + p.body.len();
    let mut octets = Octets::from_vec(Vec::with_capacity(alloc, len)?);
    write_packet(&mut octets, p, between)?;
    Ok(octets)
}
