//! Which bearer and generation a flight is of, and by which edge of its receiver's windows it ages.

ghost use Rattle.std.specs.Prelude.{◌≡◌, IfOk};
ghost use Rattle.node_rules.specs.Flights.{flight_named, packet_named, weight, packet_weight, pdu_weight, frame_weight};
ghost use Rattle.xn_packets.specs.Said.{said};

use crate::reading::{Packet, read_packet};
use dc_base::{DrbId, Flight, Gen, Memory};
use node_rules::Weight;
use nr_u::Frame;
use pdcp_pdu::is_data;
use std::alloc::Global;

/// The identity and the generation that a packet is of.
fn packet_named(p: &Packet<'_>) -> Option<(DrbId, Gen)>
    ensures { result ≡ packet_named (said p.now) }
{
    match p {
        Packet::PduDown { id, g, .. } => Some((*id, *g)),
        Packet::PduUp { id, g, .. } => Some((*id, *g)),
        Packet::Delivery { id, g, .. } => Some((*id, *g)),
        Packet::Forwarding { id, g, .. } => Some((*id, *g)),
        Packet::Nothing => None,
    }
}

/// The identity and the generation that a flight is of: none of a record, and of a packet those of its TEID, if it says
/// something.
pub fn flight_named(alloc: Global, flight: &Flight) -> Result<Option<(DrbId, Gen)>, Memory>
    ensures { IfOk result (λ named. named ≡ flight_named flight.now) }
{
    match flight {
        Flight::Air { id, g, .. } => Ok(Some((*id, *g))),
        Flight::Ack { id, g, .. } => Ok(Some((*id, *g))),
        Flight::Tun { packet, .. } => {
            let read = read_packet(alloc, packet.as_slice())?;
            Ok(packet_named(&read))
        }
        Flight::Sdu { id, g, .. } => Ok(Some((*id, *g))),
        Flight::End { id, g } => Ok(Some((*id, *g))),
        Flight::Told { id, g, .. } => Ok(Some((*id, *g))),
        Flight::Ctl(_) => Ok(None),
    }
}

/// By which edge a PDU with a COUNT ages.
fn pdu_weight(id: DrbId, g: Gen, count: u32, pdu: &[u8]) -> Weight
    ensures { result ≡ pdu_weight id g count pdu.now }
{
    if is_data(pdu) {
        Weight::DataPduOf { id, g, count }
    } else {
        Weight::Weightless
    }
}

/// By which edge a frame with a COUNT ages.
fn frame_weight(id: DrbId, g: Gen, count: u32, frame: &Frame) -> Weight
    ensures { result ≡ frame_weight id g count frame.now }
{
    match frame {
        Frame::Status {
            highest: Some(_),
            ..
        } => Weight::DeliveryOf { id, g, count },
        _ => Weight::Weightless,
    }
}

/// By which edge a packet with a COUNT ages.
fn packet_weight(count: u32, p: &Packet<'_>) -> Weight
    ensures { result ≡ packet_weight count (said p.now) }
{
    match p {
        Packet::PduDown { id, g, pdu, .. } => pdu_weight(*id, *g, count, pdu),
        Packet::PduUp { id, g, pdu } => pdu_weight(*id, *g, count, pdu),
        Packet::Delivery { id, g, status } => frame_weight(*id, *g, count, status),
        _ => Weight::Weightless,
    }
}

/// By which edge of its receiver's windows a flight ages: a data PDU and a delivery status that names a sequence number have
/// an edge if they have a tag, and other flights have none (the premise on packet lifetime, this product's own).
pub fn weight(alloc: Global, flight: &Flight) -> Result<Weight, Memory>
    ensures { IfOk result (λ found. found ≡ weight flight.now) }
{
    match flight {
        Flight::Air {
            id,
            g,
            tag,
            pdu,
            ..
        } => match tag.get() {
            None => Ok(Weight::Weightless),
            Some(count) => Ok(pdu_weight(*id, *g, count, pdu.as_slice())),
        },
        Flight::Tun { tag, packet } => match tag.get() {
            None => Ok(Weight::Weightless),
            Some(count) => {
                let read = read_packet(alloc, packet.as_slice())?;
                Ok(packet_weight(count, &read))
            }
        },
        _ => Ok(Weight::Weightless),
    }
}
