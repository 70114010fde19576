//! Of `leg_host`.

use dc_base::{DrbId, Flight, LinkId, Node, Octets, Seq, SnLen, Tag};
use leg_host::LegHost;
use std::alloc::Global;
use std::test::Fail;

/// The first identity.
fn first() -> Result<DrbId, Fail> {
    Ok(DrbId::new(1).ok_or("an identity")?)
}

/// The host at A of bearer 1 in generation 2, whose anchor is at the master.
fn host(alloc: Global) -> Result<LegHost, Fail> {
    Ok(LegHost::new(alloc, Node::A, Node::M, 2, first()?, SnLen::S12))
}

/// What the host sends when a downlink PDU comes with this number.
fn down(alloc: Global, host: &mut LegHost, number: u32) -> Result<Seq<(LinkId, Flight)>, Fail> {
    let pdu = [0x80, 1, 0xaa];
    let packet = xn_packets::down_packet(alloc, 2, first()?, number, false, &pdu)
        .ok()
        .ok_or("memory")?;
    let tag = Tag::count(1);
    Ok(
        host.tunnel_in(&Flight::Tun { tag, packet })
            .ok()
            .ok_or("memory")?,
    )
}

/// What the host sends when a flight comes over the air.
fn air(host: &mut LegHost, flight: Flight) -> Result<Seq<(LinkId, Flight)>, Fail> {
    Ok(host.air_in(&flight).ok().ok_or("memory")?)
}

/// An uplink PDU of bearer 1 in generation 2, with number 0 on the leg.
fn uplink(alloc: Global) -> Result<Flight, Fail> {
    Ok(Flight::Air {
        id: first()?,
        g: 2,
        num: 0,
        tag: Tag::count(3),
        pdu: Octets::from_slice(alloc, &[0x80, 1, 0xbb])
            .ok()
            .ok_or("memory")?,
    })
}

/// The confirm of the PDU with number 0 on the leg.
fn confirm() -> Result<Flight, Fail> {
    Ok(Flight::Ack {
        id: first()?,
        g: 2,
        num: 0,
    })
}

/// Whether this is the delivery status that names 1, lists nothing and has the tag 1, on its way to the master.
fn is_status(send: &(LinkId, Flight)) -> bool {
    match send {
        (link, Flight::Tun { tag, packet }) => {
            link.to == Node::M
                && tag.get() == Some(1)
                && packet.as_slice()
                    == [
                        0x34, 0xff, 0, 0x0c, 0, 0, 1, 0, 0, 0, 0, 0x84, 2, 0x11, 0, 0, 0, 1, 0, 0,
                    ]
                    .as_slice()
        }
        _ => false,
    }
}

#[test]
fn a_leg(rt: HostRuntime) -> Result<(), Fail> {
    let alloc = rt.alloc();
    let mut host = host(alloc)?;
    assert_eq!(rt; air(&mut host, confirm()?)?.len(), 0);
    assert_eq!(rt; down(alloc, &mut host, 0)?.len(), 1);
    assert_eq!(rt; down(alloc, &mut host, 0)?.len(), 0);
    assert_eq!(rt; air(&mut host, uplink(alloc)?)?.len(), 2);
    let sends = air(&mut host, confirm()?)?;
    assert_eq!(rt; sends.len(), 1);
    for send in sends.as_slice() {
        assert!(rt; is_status(send));
    }
    Ok(())
}
