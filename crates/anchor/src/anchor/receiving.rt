//! What comes to an anchor over the leg of its own node and through the tunnels (TS 38.323, 5.2.2; TS 38.425, 5.4).

ghost use Rattle.std.specs.Prelude.{◌≡◌, IfOk, IsNone};
ghost use Rattle.std.specs.Option.{option_map};
ghost use Rattle.forward.specs.Reading.{said_load};
ghost use Rattle.node_rules.specs.Adopting.{forward_in, status_in};
ghost use Rattle.node_rules.specs.Anchor.{setup_at};
ghost use Rattle.node_rules.specs.AnchorReceiving.{ack, air_ack, air_in, air_pdu, delivery_in, is_from_host, is_on_leg, packet_in, relayed_pdu, tunnel_in};
ghost use Rattle.node_rules.specs.Choices.{by_policies};
ghost use Rattle.node_rules.specs.Setup.{anchor_cell, has_failed, is_of};
ghost use Rattle.pdcp_pdu.specs.Pdu.{decoded};
ghost use Rattle.split_leg.specs.Stored.{margins};
ghost use Rattle.xn_packets.specs.Said.{said};
ghost use Rattle.anchor.specs.Ready.{is_to_adopt};
ghost use Rattle.anchor.specs.Receiving.{octets_in, settled_at};

use super::{Anchor, State};
use crate::lists::joined;
use crate::out::silent;
use dc_base::{Cell, Class, Dir, DrbId, Flight, Gen, LinkId, Memory, Node, Seq, StatusTransfer};
use forward::Load;
use node_rules::AnchorOut;
use nr_u::Frame;
use split_leg::Policies;
use std::mem;
use xn_packets::{Packet, read_packet};

impl Anchor {
    /// Octets come as an uplink PDU; `None` exactly where they are none, and then all is as before.
    fn octets_in(&mut self, pdu: &[u8]) -> Result<Option<AnchorOut>, Memory>
        ensures came { IfOk result (λ out. option_map (λ o. (self.new, o)) out ≡ octets_in self.old (decoded (setup_at self.old).n pdu.now)) }
        ensures same { IfOk result (λ out. IsNone out → self.new ≡ self.old) }
    {
        match &mut self.state {
            State::Waiting(waiting) => {
                if waiting.keep(pdu)? {
                    Ok(Some(silent(self.alloc)))
                } else {
                    Ok(None)
                }
            }
            State::Active(active) => active.take_pdu(pdu),
            State::Spent => Err(Memory),
        }
    }

    /// The confirm of an uplink PDU over the air, unless the leg is marked as failed.
    fn ack(&self, num: u32) -> Result<Seq<(LinkId, Flight)>, Memory>
        ensures { IfOk result (λ acks. acks ≡ ack (setup_at self.now) num (has_failed (setup_at self.now) (anchor_cell (setup_at self.now).legs.shape))) }
    {
        let setup = self.setup()?;
        let mut acks = Seq::new(self.alloc);
        if !setup.has_failed(setup.anchor_cell()) {
            let ack = Flight::Ack {
                id: setup.id(),
                g: setup.g(),
                num,
            };
            acks.push((LinkId::new(setup.node(), Node::T, Class::Air), ack))?;
        }
        Ok(acks)
    }

    /// A PDU comes as this number of the leg; one that can not be read has no confirm.
    fn air_pdu(&mut self, num: u32, pdu: &[u8]) -> Result<AnchorOut, Memory>
        ensures { IfOk result (λ out. (self.new, out) ≡ air_pdu self.old num (decoded (setup_at self.old).n pdu.now)) }
    {
        let acks = self.ack(num)?;
        let Some(out) = self.octets_in(pdu)? else {
            return Ok(silent(self.alloc));
        };
        Ok(AnchorOut {
            adopted: out.adopted,
            ups: out.ups,
            low: out.low,
            sends: joined(acks, out.sends)?,
        })
    }

    /// The confirm of a downlink PDU comes.
    fn air_ack(&mut self, num: u32) -> Result<AnchorOut, Memory>
        ensures { IfOk result (λ out. (self.new, out) ≡ air_ack self.old num) }
    {
        match &mut self.state {
            State::Waiting(_) => Ok(silent(self.alloc)),
            State::Active(active) => active.take_ack(num),
            State::Spent => Err(Memory),
        }
    }

    /// Whether a flight on the leg over this cell group is the anchor's.
    fn is_on_leg(&self, cell: Cell, id: DrbId, g: Gen) -> Result<bool, Memory>
        ensures { IfOk result (λ on. on ≡ is_on_leg (setup_at self.now) cell id g) }
    {
        let setup = self.setup()?;
        let is_own = match (cell, setup.anchor_cell()) {
            (Cell::Mcg, Cell::Mcg) => true,
            (Cell::Mcg, Cell::Scg) => false,
            (Cell::Scg, Cell::Mcg) => false,
            (Cell::Scg, Cell::Scg) => true,
        };
        Ok(setup.is_of(id, g) && is_own && setup.has_cell(cell))
    }

    /// A flight comes over the air on the leg over this cell group; only PDUs and their confirms do.
    pub fn air_in(&mut self, cell: Cell, flight: &Flight) -> Result<AnchorOut, Memory>
        ensures { IfOk result (λ out. (self.new, out) ≡ air_in self.old cell flight.now) }
    {
        match flight {
            Flight::Air {
                id,
                g,
                num,
                pdu,
                ..
            } => {
                if self.is_on_leg(cell, *id, *g)? {
                    self.air_pdu(*num, pdu.as_slice())
                } else {
                    Ok(silent(self.alloc))
                }
            }
            Flight::Ack { id, g, num } => {
                if self.is_on_leg(cell, *id, *g)? {
                    self.air_ack(*num)
                } else {
                    Ok(silent(self.alloc))
                }
            }
            _ => Ok(silent(self.alloc)),
        }
    }

    /// A PDU that the host relays; one that can not be read does nothing.
    fn relayed_pdu(&mut self, pdu: &[u8]) -> Result<AnchorOut, Memory>
        ensures { IfOk result (λ out. (self.new, out) ≡ relayed_pdu self.old (decoded (setup_at self.old).n pdu.now)) }
    {
        match self.octets_in(pdu)? {
            None => Ok(silent(self.alloc)),
            Some(out) => Ok(out),
        }
    }

    /// A delivery status comes; to a waiting anchor it says nothing.
    fn delivery_in(&mut self, status: &Frame, policies: &Policies) -> Result<AnchorOut, Memory>
        ensures { IfOk result (λ out. (self.new, out) ≡ delivery_in (by_policies (margins policies.now)) self.old status.now) }
    {
        match &mut self.state {
            State::Waiting(_) => Ok(silent(self.alloc)),
            State::Active(active) => active.take_status(status, policies),
            State::Spent => Err(Memory),
        }
    }

    /// Whether it waits, and has all that it waits for.
    fn is_to_adopt(&self) -> bool
        ensures { result ≡ is_to_adopt self.now }
    {
        match &self.state {
            State::Waiting(waiting) => waiting.is_ready(),
            State::Active(_) => false,
            State::Spent => false,
        }
    }

    /// After something came for which it waits: once all is there, it takes the bearer over.
    fn settle(&mut self, policies: &Policies) -> Result<AnchorOut, Memory>
        ensures { IfOk result (λ out. (self.new, out) ≡ settled_at (by_policies (margins policies.now)) self.old) }
    {
        if !self.is_to_adopt() {
            return Ok(silent(self.alloc));
        }
        match mem::replace(&mut self.state, State::Spent) {
            State::Waiting(waiting) => {
                let (active, out) = waiting.adopt(policies)?;
                self.state = State::Active(active);
                Ok(out)
            }
            _ => Err(Memory),
        }
    }

    /// SN STATUS TRANSFER comes (TS 38.423, 8.2.2): a waiting anchor may adopt the bearer by it.
    pub fn status_in(
        &mut self,
        status: &StatusTransfer,
        policies: &Policies,
    ) -> Result<AnchorOut, Memory>
        ensures { IfOk result (λ out. (self.new, out) ≡ status_in (by_policies (margins policies.now)) self.old status.now) }
    {
        let is_new = match &mut self.state {
            State::Waiting(waiting) => waiting.note_status(status)?,
            State::Active(_) => false,
            State::Spent => return Err(Memory),
        };
        if is_new {
            self.settle(policies)
        } else {
            Ok(silent(self.alloc))
        }
    }

    /// A packet of a forwarding tunnel comes: a waiting anchor may adopt the bearer by it.
    fn forward_in(
        &mut self,
        dir: Dir,
        load: &Load<'_>,
        policies: &Policies,
    ) -> Result<AnchorOut, Memory>
        ensures { IfOk result (λ out. (self.new, out) ≡ forward_in (by_policies (margins policies.now)) self.old dir (said_load load.now)) }
    {
        match &mut self.state {
            State::Waiting(waiting) => waiting.take_load(dir, load)?,
            State::Active(_) => return Ok(silent(self.alloc)),
            State::Spent => return Err(Memory),
        }
        self.settle(policies)
    }

    /// Whether a packet of this bearer and generation comes from the host.
    fn is_from_host(&self, id: DrbId, g: Gen) -> Result<bool, Memory>
        ensures { IfOk result (λ is. is ≡ is_from_host (setup_at self.now) id g) }
    {
        let setup = self.setup()?;
        Ok(setup.is_of(id, g) && setup.host().is_some())
    }

    /// Whether a packet is of this bearer and generation.
    fn is_of(&self, id: DrbId, g: Gen) -> Result<bool, Memory>
        ensures { IfOk result (λ is. is ≡ is_of (setup_at self.now) id g) }
    {
        Ok(self.setup()?.is_of(id, g))
    }

    /// What a packet says comes to the anchor.
    fn packet_in(&mut self, packet: &Packet<'_>, policies: &Policies) -> Result<AnchorOut, Memory>
        ensures { IfOk result (λ out. (self.new, out) ≡ packet_in (by_policies (margins policies.now)) self.old (said packet.now)) }
    {
        match packet {
            Packet::PduUp { id, g, pdu } => {
                if self.is_from_host(*id, *g)? {
                    self.relayed_pdu(pdu)
                } else {
                    Ok(silent(self.alloc))
                }
            }
            Packet::Delivery { id, g, status } => {
                if self.is_from_host(*id, *g)? {
                    self.delivery_in(status, policies)
                } else {
                    Ok(silent(self.alloc))
                }
            }
            Packet::Forwarding { id, g, dir, load } => {
                if self.is_of(*id, *g)? {
                    self.forward_in(*dir, load, policies)
                } else {
                    Ok(silent(self.alloc))
                }
            }
            _ => Ok(silent(self.alloc)),
        }
    }

    /// A flight comes through a tunnel: packets do (TS 38.425, 5.4; TS 38.423, 8.2.2).
    pub fn tunnel_in(&mut self, flight: &Flight, policies: &Policies) -> Result<AnchorOut, Memory>
        ensures { IfOk result (λ out. (self.new, out) ≡ tunnel_in (by_policies (margins policies.now)) self.old flight.now) }
    {
        match flight {
            Flight::Tun { packet, .. } => {
                let packet = read_packet(self.alloc, packet.as_slice())?;
                self.packet_in(&packet, policies)
            }
            _ => Ok(silent(self.alloc)),
        }
    }
}
