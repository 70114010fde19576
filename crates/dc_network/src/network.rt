//! The four nodes with the links between them, and what an event does there.

ghost use Rattle.std.specs.Prelude.{◌≡◌, ◌≤◌, length, slice_get, IfOk};
ghost use Rattle.std.specs.Option.{option_copied};
ghost use Rattle.node_rules.specs.Choices.{by_policies};
ghost use Rattle.node_rules.specs.Readers.{has, is_busy};
ghost use Rattle.node_rules.specs.Run.{node_at, world_step};
ghost use Rattle.node_rules.specs.World.{first_loaded, flights_on, new_world};
ghost use Rattle.split_leg.specs.Stored.{margins};

mod flights;
mod inputs;

use crate::links::LinkSet;
use crate::outcome_lines::lines_of;
use dc_base::{Answer, DrbId, Event, Flight, Header, Line, LinkId, Memory, Node, Seq};
use master_core::Master;
use second_core::Second;
use split_leg::Policies;
use std::alloc::Global;
use std::marker::Model;
use term_core::Terminal;

/// What comes of an event: its answer, and the lines after it.
#[derive(Debug, Drop)]
pub struct Happened {
    pub answer: Answer,
    pub lines: Seq<Line>,
}

/// The terminal, the master and both secondary nodes (TS 37.340, 4.2.2), and the flights under way between them. Of what
/// happened before it keeps nothing else. After a call that answers `Memory` it is not used again.
#[derive(Drop)]
pub struct Network {
    alloc: Global,
    terminal: Terminal,
    master: Master,
    a: Second,
    b: Second,
    links: LinkSet,
}

impl Model for Network {
    ghost use Rattle.node_rules.specs.World.{World};

    ghost Value = { World };

    ghost view = { λ x. record { terminal = x.terminal; master = x.master; a = x.a; b = x.b; links = x.links } };
}

impl Network {
    /// The nodes before the first event, with nothing under way: no bearer and no secondary node.
    pub fn new(alloc: Global, header: &Header) -> Result<Network, Memory>
        requires { header.now.used ≤ 65536 }
        ensures { IfOk result (λ made. made ≡ new_world header.now) }
    {
        Ok(Network {
            alloc,
            terminal: Terminal::new(alloc, header.alg),
            master: Master::new(alloc, header.alg, &header.root, header.used)?,
            a: Second::new(alloc, header.alg, Node::A),
            b: Second::new(alloc, header.alg, Node::B),
            links: LinkSet::new(alloc)?,
        })
    }

    /// An event happens, by the rules of the nodes and the links. Want of memory is answered too where a number passes what its
    /// field holds, which no run within its limits comes to: 2^24 generations, 2^24 PDUs in a tunnel, 2^32 PDUs on a leg; and for
    /// a payload that is not of 1 to 9000 octets.
    pub fn event(&mut self, event: Event, policies: &Policies) -> Result<Happened, Memory>
        ensures { IfOk result (λ done. (self.new, record { event = event; answer = done.answer; lines = done.lines }) ≡ world_step (by_policies (margins policies.now)) self.old event) }
    {
        let outcome = self.take(event, policies)?;
        let answer = outcome.answer;
        let lines = lines_of(self.alloc, outcome)?;
        self.links.put_sends(lines.as_slice())?;
        Ok(Happened { answer, lines })
    }

    /// The first link, in their order, on which a flight stands: `None` where all are empty.
    pub fn first_loaded(&self) -> Option<LinkId>
        ensures { result ≡ first_loaded self.now.links }
    {
        self.links.first_loaded()
    }

    /// How many flights stand on a link.
    pub fn len(&self, link: LinkId) -> usize
        ensures { result ≡ length (flights_on link self.now.links) }
    {
        self.links.len(link)
    }

    /// The flight at this place of a link, from 0: `None` exactly where there is no such place.
    pub fn flight(&self, link: LinkId, position: usize) -> Option<&Flight>
        ensures { option_copied result ≡ slice_get (flights_on link self.now.links) position }
    {
        self.links.flight(link, position)
    }

    /// Whether a command is open at the master.
    pub fn is_busy(&self) -> bool
        ensures { result ≡ is_busy self.now.master }
    {
        self.master.is_busy()
    }

    /// Whether a report of the bearer is not refused at the node.
    pub fn has(&self, node: Node, id: DrbId) -> bool
        ensures { result ≡ has (node_at self.now node) id }
    {
        match node {
            Node::T => self.terminal.has(id),
            Node::M => self.master.has(id),
            Node::A => self.a.has(id),
            Node::B => self.b.has(id),
        }
    }
}
