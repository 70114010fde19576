//! The host of a leg.

ghost use Rattle.std.specs.Prelude.{◌≡◌, ◌<◌, [], ◌∷◌, ◌++◌, length, slice_get, option_map, IfOk, IfSome, OnOk};
ghost use Rattle.std.specs.Result.{result_ok};
ghost use Rattle.dc_base.specs.Count.{modulus};
ghost use Rattle.pdcp_pdu.specs.Pdu.{decoded};
ghost use Rattle.node_rules.specs.Host.{new_host};
ghost use Rattle.dc_base.specs.declared.flights.Flight.TheVariants as flights;
ghost use Rattle.node_rules.specs.HostRules.{is_hosts, to_anchor, to_terminal, confirmed, host_air_in, sn_in, pdu_came, host_packet, host_tunnel_in};
ghost use Rattle.node_rules.specs.Packets.{up_packet, status_packet};
ghost use Rattle.nr_u.specs.Tunnel.Delivery.{status_of, tag_of};
ghost use Rattle.xn_packets.specs.Said.{said};

use crate::sends::{Send, one, two};
use dc_base::{Class, DrbId, Flight, Gen, LinkId, Memory, Node, Octets, Seq, SnLen, Tag};
use nr_u::Inbound;
use pdcp_pdu::Pdu;
use std::alloc::Global;
use std::marker::Model;
use xn_packets::{Packet, read_packet, status_packet, up_packet};

/// The numbers that a tunnel has: 24 bits.
const NUMBERS: u32 = 1 << 24;

/// The numbers that a leg has: 32 bits.
const LEG_NUMBERS: usize = 1 << 32;

/// The SN of a PDU, with none for a status report; nothing of one that can not be read.
fn sn_of(n: SnLen, pdu: &[u8]) -> Option<Option<u32>>
    ensures sn { result ≡ option_map sn_in (result_ok (decoded n pdu.now)) }
    ensures small { IfSome result (λ sn. IfSome sn (λ s. s < modulus n)) }
{
    match pdcp_pdu::decode(n, pdu) {
        Ok(Pdu::Sdu { sn, .. }) => Some(Some(sn)),
        Ok(Pdu::Report { .. }) => Some(None),
        Err(_) => None,
    }
}

/// The host of a leg in one generation of its bearer. Downlink PDUs go from the tunnel to the leg, uplink PDUs from the leg to
/// the tunnel, and each confirm of the leg gives a delivery status (TS 38.425, 5.4). After `Memory` it is not used again.
#[derive(Debug, Drop)]
pub struct LegHost {
    alloc: Global,
    /// This node.
    node: Node,
    /// The node at the other end of the tunnel.
    anchor: Node,
    g: Gen,
    id: DrbId,
    /// The bearer's SN length.
    n: SnLen,
    /// What came from the anchor.
    tunnel: Inbound,
    /// For each PDU put on the leg, by its number there, the number that it had in the tunnel.
    carried: Seq<u32>,
}

impl Model for LegHost {
    ghost use Rattle.std.specs.Prelude.{◌≡◌};
    ghost use Rattle.node_rules.specs.Host.{Host};

    ghost Value = { Host };

    ghost view = { λ a. record { node = a.node; anchor = a.anchor; g = a.g; id = a.id; tunnel = a.tunnel; carried = a.carried } };

    ghost invariant = { λ a. a.n ≡ a.tunnel.n };
}

impl LegHost {
    /// A host to which nothing came yet: at this node, for the leg of a bearer of the other node in one generation. It takes
    /// memory from `alloc`.
    pub fn new(alloc: Global, node: Node, anchor: Node, g: Gen, id: DrbId, n: SnLen) -> LegHost
        ensures { result ≡ new_host node anchor g id n }
    {
        LegHost {
            alloc,
            node,
            anchor,
            g,
            id,
            n,
            tunnel: Inbound::new(alloc, n),
            carried: Seq::new(alloc),
        }
    }

    /// Whether this is of the host's bearer and generation.
    fn is_hosts(&self, id: DrbId, g: Gen) -> bool
        ensures { result ≡ is_hosts self.now id g }
    {
        self.id.get() == id.get() && self.g == g
    }

    /// A packet to the anchor, with the tag of what it carries.
    fn to_anchor(&self, tag: Tag, packet: Octets) -> Send
        ensures { result ≡ to_anchor self.now tag packet }
    {
        let link = LinkId::new(self.node, self.anchor, Class::Tun);
        (link, Flight::Tun { tag, packet })
    }

    /// A flight to the terminal.
    fn to_terminal(&self, flight: Flight) -> Send
        ensures { result ≡ to_terminal self.now flight }
    {
        (LinkId::new(self.node, Node::T, Class::Air), flight)
    }

    /// No sends.
    fn silent(&self) -> Seq<Send>
        ensures { result ≡ [] }
    {
        Seq::new(self.alloc)
    }

    /// An uplink PDU comes: it is confirmed, and relayed unread.
    fn relay(&self, id: DrbId, g: Gen, num: u32, tag: Tag, pdu: &[u8]) -> Result<Seq<Send>, Memory>
        ensures { IfOk result (λ sends. sends ≡ to_terminal self.now (flights.Ack id g num) ∷ to_anchor self.now tag (up_packet g id pdu.now) ∷ []) }
    {
        let ack = self.to_terminal(Flight::Ack { id, g, num });
        let packet = up_packet(self.alloc, g, id, pdu)?;
        two(self.alloc, ack, self.to_anchor(tag, packet))
    }

    /// The delivery status of what came so far, on its way to the anchor.
    fn status(&self) -> Result<Seq<Send>, Memory>
        ensures { IfOk result (λ sends. sends ≡ to_anchor self.now (tag_of self.now.tunnel) (status_packet self.now.g self.now.id (status_of self.now.tunnel)) ∷ []) }
    {
        let (status, tag) = self.tunnel.status()?;
        let packet = status_packet(self.alloc, self.g, self.id, &status)?;
        one(self.alloc, self.to_anchor(tag, packet))
    }

    /// The PDU with this number on the leg was confirmed. No PDU may have had it.
    fn confirm(&mut self, num: u32) -> Result<Seq<Send>, Memory>
        ensures { IfOk result (λ sends. (self.new, sends) ≡ confirmed self.old (slice_get self.old.carried num)) }
    {
        let Some(number) = self.carried.get(num as usize).copied() else {
            return Ok(self.silent());
        };
        self.tunnel.acked(number);
        self.status()
    }

    /// A flight comes over the air: a PDU is confirmed and relayed to the anchor unread, and the confirm of a PDU is told to the
    /// anchor by a delivery status. What is not of the host's bearer and generation is ignored.
    pub fn air_in(&mut self, flight: &Flight) -> Result<Seq<(LinkId, Flight)>, Memory>
        ensures { IfOk result (λ sends. (self.new, sends) ≡ host_air_in self.old flight.now) }
    {
        match flight {
            Flight::Air {
                id,
                g,
                num,
                tag,
                pdu,
            } => {
                if !self.is_hosts(*id, *g) {
                    return Ok(self.silent());
                }
                self.relay(*id, *g, *num, *tag, pdu.as_slice())
            }
            Flight::Ack { id, g, num } => {
                if !self.is_hosts(*id, *g) {
                    return Ok(self.silent());
                }
                self.confirm(*num)
            }
            _ => Ok(self.silent()),
        }
    }

    /// A PDU with this number in the tunnel is put on the leg, with its tag. A leg has fewer than 2^32 PDUs; of one more it says
    /// `Memory`.
    fn put_on_leg(&mut self, number: u32, tag: Tag, pdu: &[u8]) -> Result<Seq<Send>, Memory>
        ensures carried { OnOk result (self.new ≡ record self.old { carried = self.old.carried ++ number ∷ [] }) }
        ensures sends { IfOk result (λ sends. sends ≡ to_terminal self.old (flights.Air self.old.id self.old.g (length self.old.carried) tag pdu.now) ∷ []) }
    {
        let num = self.carried.len();
        if num >= LEG_NUMBERS {
            return Err(Memory);
        }
        let num = num as u32;
        let pdu = Octets::from_slice(self.alloc, pdu)?;
        self.carried.push(number)?;
        let air = Flight::Air {
            id: self.id,
            g: self.g,
            num,
            tag,
            pdu,
        };
        one(self.alloc, self.to_terminal(air))
    }

    /// A downlink PDU comes with this number. One that can not be read is dropped, and so is one whose number came before. A
    /// number that is read in a packet has 24 bits; of a greater one it says `Memory`.
    fn pdu_came(
        &mut self,
        number: u32,
        repeat: bool,
        tag: Tag,
        pdu: &[u8],
    ) -> Result<Seq<Send>, Memory>
        ensures { IfOk result (λ sends. (self.new, sends) ≡ pdu_came self.old number repeat tag pdu.now (decoded self.old.tunnel.n pdu.now)) }
    {
        if number >= NUMBERS {
            return Err(Memory);
        }
        let Some(sn) = sn_of(self.n, pdu) else {
            return Ok(self.silent());
        };
        if !self.tunnel.came(number, sn, repeat, tag)? {
            return Ok(self.silent());
        }
        self.put_on_leg(number, tag, pdu)
    }

    /// What a packet with this tag says comes to the host.
    fn packet_in(&mut self, tag: Tag, packet: &Packet<'_>) -> Result<Seq<Send>, Memory>
        ensures { IfOk result (λ sends. (self.new, sends) ≡ host_packet self.old tag (said packet.now)) }
    {
        match packet {
            Packet::PduDown {
                id,
                g,
                number,
                repeat,
                pdu,
            } => {
                if !self.is_hosts(*id, *g) {
                    return Ok(self.silent());
                }
                self.pdu_came(*number, *repeat, tag, pdu)
            }
            _ => Ok(self.silent()),
        }
    }

    /// A flight comes through the tunnel: a downlink PDU of the host's bearer and generation with a new number is put on the leg,
    /// with its tag. A PDU that can not be read is dropped, and so is one whose number came before; what is not of the host's
    /// bearer and generation is ignored. A leg has fewer than 2^32 PDUs; of one more it says `Memory`.
    pub fn tunnel_in(&mut self, flight: &Flight) -> Result<Seq<(LinkId, Flight)>, Memory>
        ensures { IfOk result (λ sends. (self.new, sends) ≡ host_tunnel_in self.old flight.now) }
    {
        match flight {
            Flight::Tun { tag, packet } => {
                let read = read_packet(self.alloc, packet.as_slice())?;
                self.packet_in(*tag, &read)
            }
            _ => Ok(self.silent()),
        }
    }
}
