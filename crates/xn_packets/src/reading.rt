//! Reading a packet.

ghost use Rattle.std.specs.Prelude.{◌≡◌, Result, IfOk};
ghost use Rattle.std.specs.Option.{option_copied};
ghost use Rattle.std.specs.Result.{result_ok};
ghost use Rattle.dc_base.specs.Tunnel.{teid_kind};
ghost use Rattle.gtpu.specs.Content.{view};
ghost use Rattle.node_rules.specs.Packets.{packet_of, of_message, of_kind, with_container, with_frame};
ghost use Rattle.nr_u.specs.declared.frame.Frame.{Frame as NruFrame};
ghost use Rattle.nr_u.specs.declared.frame.NruErr.{NruErr};
ghost use Rattle.xn_packets.specs.Said.{said};

use dc_base::{Dir, DrbId, Gen, Memory, teid_parts};
use forward::{Load, frame_in, load_in};
use gtpu::GtpKind;
use nr_u::Frame;
use std::alloc::Global;

/// What a packet in a tunnel says to the node that takes it, of a bearer and a generation of it. PDUs and SDUs lie where the
/// packet does.
#[derive(Debug, Drop)]
pub enum Packet<'a> {
    /// A downlink PDU on its way to a host, with its number in the tunnel (24 bits) and whether it was sent before (DL USER
    /// DATA: TS 38.425, 5.5.2.1).
    PduDown {
        id: DrbId,
        g: Gen,
        number: u32,
        repeat: bool,
        pdu: &'a [u8],
    },
    /// An uplink PDU on its way to the anchor.
    PduUp {
        id: DrbId,
        g: Gen,
        pdu: &'a [u8],
    },
    /// The delivery status of a host (DL DATA DELIVERY STATUS: TS 38.425, 5.5.2.2).
    Delivery {
        id: DrbId,
        g: Gen,
        status: Frame,
    },
    /// What a packet of the forwarding tunnel of a direction carries.
    Forwarding {
        id: DrbId,
        g: Gen,
        dir: Dir,
        load: Load<'a>,
    },
    /// Nothing to a node: any other packet, and octets that are none.
    Nothing,
}

/// What a packet of a bearer's own traffic says that has a container, by the frame in it, if it is one.
fn with_frame<'a>(id: DrbId, g: Gen, body: &'a [u8], found: Option<Frame>) -> Packet<'a>
    ensures { (read : Result NruFrame NruErr) → found ≡ result_ok read → said result ≡ with_frame id g body.entry.now read }
{
    match found {
        Some(
            Frame::User {
                number,
                user,
                repeat,
            },
        ) => {
            if !user {
                return Packet::Nothing;
            }
            Packet::PduDown {
                id,
                g,
                number,
                repeat,
                pdu: body,
            }
        }
        Some(Frame::Status { highest, lost }) => Packet::Delivery {
            id,
            g,
            status: Frame::Status { highest, lost },
        },
        None => Packet::Nothing,
    }
}

/// What a packet of a bearer's own traffic says.
fn with_container<'a>(
    alloc: Global,
    id: DrbId,
    g: Gen,
    p: &gtpu::Packet<'a>,
) -> Result<Packet<'a>, Memory>
    ensures { IfOk result (λ read. said read ≡ with_container id g p.now.body.now (option_copied p.now.container)) }
{
    match p.container {
        None => Ok(Packet::PduUp { id, g, pdu: p.body }),
        Some(container) => Ok(with_frame(id, g, p.body, frame_in(alloc, container)?)),
    }
}

/// What a G-PDU says, by the kind of its TEID.
fn of_kind<'a>(alloc: Global, p: &gtpu::Packet<'a>) -> Result<Packet<'a>, Memory>
    ensures { IfOk result (λ read. said read ≡ of_kind (view p.now) (teid_kind p.now.teid)) }
{
    let (g, id, kind) = teid_parts(p.teid);
    match kind {
        0 => with_container(alloc, id, g, p),
        1 => {
            let load = load_in(alloc, p)?;
            let dir = Dir::Dl;
            Ok(Packet::Forwarding { id, g, dir, load })
        }
        2 => {
            let load = load_in(alloc, p)?;
            let dir = Dir::Ul;
            Ok(Packet::Forwarding { id, g, dir, load })
        }
        _ => Ok(Packet::Nothing),
    }
}

/// What a packet says, by its message type: an End Marker says nothing, and so do the messages that carry no user data.
fn of_message<'a>(alloc: Global, p: &gtpu::Packet<'a>) -> Result<Packet<'a>, Memory>
    ensures { IfOk result (λ read. said read ≡ of_message (view p.now) p.now.kind) }
{
    match p.kind {
        GtpKind::GPdu => of_kind(alloc, p),
        _ => Ok(Packet::Nothing),
    }
}

/// What the octets of a packet say. The kind of traffic, the bearer and its generation are those of its TEID; octets that are
/// no packet say nothing.
pub fn read_packet<'a>(alloc: Global, octets: &'a [u8]) -> Result<Packet<'a>, Memory>
    ensures { IfOk result (λ read. said read ≡ packet_of octets.now) }
{
    match gtpu::decode(octets) {
        Ok(p) => of_message(alloc, &p),
        Err(_) => Ok(Packet::Nothing),
    }
}
