//! Of `xn_packets`.

use dc_base::{Dir, DrbId, Flight, Gen, Octets, Tag};
use forward::{ForwardOut, Load};
use node_rules::Weight;
use nr_u::Frame;
use std::alloc::Global;
use std::test::Fail;
use xn_packets::{
    Packet, down_packet, flight_named, read_packet, status_packet, up_packet, weight,
};

/// The first identity.
fn first() -> Result<DrbId, Fail> {
    Ok(DrbId::new(1).ok_or("an identity")?)
}

/// A downlink PDU of bearer 1 and generation 2, with number 5 in the tunnel.
fn down(alloc: Global, repeat: bool, pdu: &[u8]) -> Result<Octets, Fail> {
    Ok(
        down_packet(alloc, 2, first()?, 5, repeat, pdu)
            .ok()
            .ok_or("memory")?,
    )
}

/// An uplink PDU of bearer 1 and generation 2.
fn up(alloc: Global, pdu: &[u8]) -> Result<Octets, Fail> {
    Ok(up_packet(alloc, 2, first()?, pdu).ok().ok_or("memory")?)
}

/// A delivery status of bearer 1 and generation 2 that names 7 and lists nothing.
fn status(alloc: Global) -> Result<Octets, Fail> {
    let frame = Frame::Status {
        highest: Some(7),
        lost: dc_base::Seq::new(alloc),
    };
    Ok(
        status_packet(alloc, 2, first()?, &frame)
            .ok()
            .ok_or("memory")?,
    )
}

/// The total of an empty downlink forwarding tunnel of bearer 1 and generation 2.
fn total(alloc: Global) -> Result<Octets, Fail> {
    let mut out = ForwardOut::new(alloc, 257);
    let (total, _end_marker) = out.close().ok().ok_or("memory")?;
    Ok(total)
}

/// What octets say.
fn read(alloc: Global, octets: &Octets) -> Result<Packet<'_>, Fail> {
    Ok(read_packet(alloc, octets.as_slice()).ok().ok_or("memory")?)
}

/// Whose a packet is.
fn named(alloc: Global, packet: Octets) -> Result<Option<(DrbId, Gen)>, Fail> {
    let tag = Tag::none();
    Ok(
        flight_named(alloc, &Flight::Tun { tag, packet })
            .ok()
            .ok_or("memory")?,
    )
}

/// The weight of a packet with COUNT 9.
fn weighed(alloc: Global, packet: Octets) -> Result<Weight, Fail> {
    let tag = Tag::count(9);
    Ok(
        weight(alloc, &Flight::Tun { tag, packet })
            .ok()
            .ok_or("memory")?,
    )
}

#[test]
fn written(rt: HostRuntime) -> Result<(), Fail> {
    assert_eq!(rt;
        down(rt.alloc(), true, &[0x80, 1, 0xaa])?.as_slice(),
        [
            0x34, 0xff, 0, 0x0f, 0, 0, 1, 0, 0, 0, 0, 0x84, 2, 3, 0, 0, 5, 0, 0, 0, 0x80, 1, 0xaa
        ]
        .as_slice()
    );
    assert_eq!(rt;
        up(rt.alloc(), &[0x80, 1, 0xaa])?.as_slice(),
        [0x30, 0xff, 0, 3, 0, 0, 1, 0, 0x80, 1, 0xaa].as_slice()
    );
    assert_eq!(rt;
        status(rt.alloc())?.as_slice(),
        [
            0x34, 0xff, 0, 0x0c, 0, 0, 1, 0, 0, 0, 0, 0x84, 2, 0x11, 0, 0, 0, 7, 0, 0
        ]
        .as_slice()
    );
    Ok(())
}

#[test]
fn read_again(rt: HostRuntime) -> Result<(), Fail> {
    let octets = down(rt.alloc(), true, &[0x80, 1, 0xaa])?;
    match read(rt.alloc(), &octets)? {
        Packet::PduDown {
            id,
            g,
            number,
            repeat,
            pdu,
        } => {
            assert_eq!(rt; (id.get(), g, number, repeat), (1, 2, 5, true));
            assert_eq!(rt; pdu, [0x80, 1, 0xaa].as_slice());
        }
        _ => return Err(Fail::from("a downlink PDU")),
    }
    let octets = up(rt.alloc(), &[0, 0xaa])?;
    match read(rt.alloc(), &octets)? {
        Packet::PduUp { id, g, pdu } => {
            assert_eq!(rt; (id.get(), g), (1, 2));
            assert_eq!(rt; pdu, [0, 0xaa].as_slice());
        }
        _ => return Err(Fail::from("an uplink PDU")),
    }
    let octets = total(rt.alloc())?;
    match read(rt.alloc(), &octets)? {
        Packet::Forwarding { id, g, dir, load } => {
            assert_eq!(rt; (id.get(), g, dir), (1, 2, Dir::Dl));
            assert_eq!(rt; load, Load::Total { number: 0 });
        }
        _ => return Err(Fail::from("of a forwarding tunnel")),
    }
    Ok(())
}

#[test]
fn named_and_weighed(rt: HostRuntime) -> Result<(), Fail> {
    let id = first()?;
    let alloc = rt.alloc();
    assert_eq!(rt; named(alloc, status(alloc)?)?, Some((id, 2)));
    assert_eq!(rt;
        weighed(alloc, status(alloc)?)?,
        Weight::DeliveryOf { id, g: 2, count: 9 }
    );
    assert_eq!(rt;
        weighed(alloc, up(alloc, &[0x80, 1, 0xaa])?)?,
        Weight::DataPduOf { id, g: 2, count: 9 }
    );
    assert_eq!(rt; weighed(alloc, total(alloc)?)?, Weight::Weightless);
    Ok(())
}
