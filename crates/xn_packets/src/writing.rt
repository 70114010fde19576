//! Writing a packet of a bearer's own traffic.

ghost use Rattle.std.specs.Prelude.{◌≡◌, IfOk, IfSome};
ghost use Rattle.std.specs.Option.{option_copied};
ghost use Rattle.gtpu.specs.Spelling.{IsContainer};
ghost use Rattle.nr_u.specs.Frames.{IsWritable};
ghost use Rattle.node_rules.specs.Packets.{own_packet, down_packet, up_packet, status_packet};

use dc_base::{DrbId, Gen, Memory, Octets, teid_of};
use gtpu::GtpKind;
use nr_u::Frame;
use std::alloc::Global;

/// The generations that a TEID holds, and the numbers that a tunnel has: 24 bits each.
const NUMBERS: u32 = 1 << 24;

/// The octets that a body may have beside the longest container.
const MOST: usize = 64_511;

/// A G-PDU of a bearer's own traffic.
fn own_packet(
    alloc: Global,
    g: Gen,
    id: DrbId,
    container: Option<&[u8]>,
    body: &[u8],
) -> Result<Octets, Memory>
    requires { IfSome (option_copied container) IsContainer }
    ensures { IfOk result (λ octets. octets ≡ own_packet g id (option_copied container.entry) body.now) }
{
    if g >= NUMBERS || body.len() > MOST {
        return Err(Memory);
    }
    let packet = gtpu::Packet {
        kind: GtpKind::GPdu,
        teid: teid_of(g, id, 0),
        container,
        number: None,
        body,
    };
    gtpu::encode(alloc, &packet)
}

/// The octets of a downlink PDU to a host, under its number in the tunnel; `repeat` says whether its COUNT was sent before. A
/// run draws fewer than 2^24 generations and fewer than 2^24 numbers a tunnel, and a PDU has far fewer than 64,512 octets; of
/// more it says `Memory`.
pub fn down_packet(
    alloc: Global,
    g: Gen,
    id: DrbId,
    number: u32,
    repeat: bool,
    pdu: &[u8],
) -> Result<Octets, Memory>
    ensures { IfOk result (λ octets. octets ≡ down_packet g id number repeat pdu.now) }
{
    if number >= NUMBERS {
        return Err(Memory);
    }
    let user = true;
    let frame = Frame::User {
        number,
        user,
        repeat,
    };
    let container = nr_u::encode(alloc, &frame)?;
    own_packet(alloc, g, id, Some(container.as_slice()), pdu)
}

/// The octets of an uplink PDU to the anchor. A run draws fewer than 2^24 generations, and a PDU has far fewer than 64,512
/// octets; of more it says `Memory`.
pub fn up_packet(alloc: Global, g: Gen, id: DrbId, pdu: &[u8]) -> Result<Octets, Memory>
    ensures { IfOk result (λ octets. octets ≡ up_packet g id pdu.now) }
{
    own_packet(alloc, g, id, None, pdu)
}

/// The octets of a delivery status to the anchor; the status is one that can be written. A run draws fewer than 2^24
/// generations; of one more it says `Memory`.
pub fn status_packet(alloc: Global, g: Gen, id: DrbId, status: &Frame) -> Result<Octets, Memory>
    requires { IsWritable status.now }
    ensures { IfOk result (λ octets. octets ≡ status_packet g id status.now) }
{
    let container = nr_u::encode(alloc, status)?;
    own_packet(alloc, g, id, Some(container.as_slice()), &[])
}
