//! The ways of a node to all inboxes.

ghost use Rattle.std.specs.Prelude.{◌≡◌, ◌∷◌, [], List, OnOk, ℕ};
ghost use Rattle.crossbeam_queue.specs.Passes.{view};
ghost use Rattle.dc_base.specs.Nodes.{node_number};
ghost use Rattle.journals.specs.Messages.{message, messages};
ghost use Rattle.journals.specs.declared.entries.Message.{Message};
ghost use Rattle.outlets.specs.Boxes.{ids};
ghost use Rattle.outlets.specs.Ways.{AreOf, AreWays, posted};

use crate::boxes::Inboxes;
use crate::four::Four;
use crate::outlet::Outlet;
use dc_base::{Flight, Line, LinkId, Memory, Node};
use inbox::Ticket;
use journals::Message;
use std::alloc::Global;
use std::marker::Model;

/// The outlets of a node, one to the inbox of each node. None of the rules sends a message to the node itself, so the outlet to
/// its own inbox stays empty.
#[derive(Drop)]
pub struct Outlets {
    t: Outlet,
    m: Outlet,
    a: Outlet,
    b: Outlet,
}

impl Model for Outlets {
    ghost use Rattle.outlets.specs.Ways.{Ways};

    ghost Value = { Ways };

    ghost view = { λ x. record { t = x.t; m = x.m; a = x.a; b = x.b } };
}

impl Outlets {
    /// With these passes, and nothing waits.
    pub fn new(alloc: Global, tickets: Four<Ticket>) -> Outlets
        ensures { result ≡ record { t = record { pass = tickets.t; waiting = [] }; m = record { pass = tickets.m; waiting = [] }; a = record { pass = tickets.a; waiting = [] }; b = record { pass = tickets.b; waiting = [] } } }
    {
        let Four { t, m, a, b } = tickets;
        Outlets {
            t: Outlet::new(alloc, t),
            m: Outlet::new(alloc, m),
            a: Outlet::new(alloc, a),
            b: Outlet::new(alloc, b),
        }
    }

    /// Offers to each inbox what waits for it, each from the front until one is refused.
    pub fn offer_all(&mut self, boxes: &Inboxes, me: Node)
        requires { (sent : ℕ → List Message) × AreWays (ids boxes.now) (node_number me) sent self.old }
        ensures { (sent : ℕ → List Message) → AreWays (ids boxes.now) (node_number me) sent self.old → AreWays (ids boxes.now) (node_number me) sent self.new }
    {
        self.t.offer_all(&boxes.t, me);
        self.m.offer_all(&boxes.m, me);
        self.a.offer_all(&boxes.a, me);
        self.b.offer_all(&boxes.b, me);
    }

    // A message joins those that wait for its receiver.
    fn post(&mut self, message: Message) -> Result<(), Memory>
        ensures { OnOk result (self.new ≡ posted self.old (message ∷ [])) }
    {
        match message.link.to {
            Node::T => self.t.post(message),
            Node::M => self.m.post(message),
            Node::A => self.a.post(message),
            Node::B => self.b.post(message),
        }
    }

    // A copy of a flight is sent. Want of memory is answered too on a link of another node.
    fn send(&mut self, me: Node, stamp: u64, link: LinkId, flight: &Flight) -> Result<(), Memory>
        ensures posted { OnOk result (self.new ≡ posted self.old (message stamp link flight.now ∷ [])) }
        ensures own { OnOk result (AreOf (node_number me) (message stamp link flight.now ∷ [])) }
    {
        if link.from.number() != me.number() {
            return Err(Memory);
        }
        let flight = flight.copy()?;
        self.post(Message {
            link,
            stamp,
            flight,
        })
    }

    /// For each send of these lines a message with this stamp joins those that wait for its receiver. Want of memory is answered
    /// too for a send on a link of another node. After it the outlets are not used again.
    pub fn send_all(&mut self, me: Node, stamp: u64, lines: &[Line]) -> Result<(), Memory>
        ensures posted { OnOk result (self.new ≡ posted self.old (messages stamp lines.now)) }
        ensures own { OnOk result (AreOf (node_number me) (messages stamp lines.now)) }
    {
        for line in lines {
            if let Line::Send(link, flight) = line {
                self.send(me, stamp, *link, flight)?;
            }
        }
        Ok(())
    }

    /// The passes, handed out.
    pub fn into_tickets(self) -> Four<Ticket>
        ensures { (result.t ≡ self.t.pass) × (result.m ≡ self.m.pass) × (result.a ≡ self.a.pass) × (result.b ≡ self.b.pass) }
    {
        let Outlets { t, m, a, b } = self;
        Four {
            t: t.into_ticket(),
            m: m.into_ticket(),
            a: a.into_ticket(),
            b: b.into_ticket(),
        }
    }
}
