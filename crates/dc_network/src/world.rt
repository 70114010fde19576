//! The nodes and the links, and all lines since the start.

ghost use Rattle.std.specs.Prelude.{◌≡◌, ◌≤◌, [], IfOk, OnOk};
ghost use Rattle.dc_network.specs.Counting.{counted};
ghost use Rattle.dc_network.specs.Keeping.{kept_after};
ghost use Rattle.node_rules.specs.Choices.{by_policies};
ghost use Rattle.node_rules.specs.World.{new_world};
ghost use Rattle.split_leg.specs.Stored.{margins};

use crate::counting::{CountedLines, Counts};
use crate::network::{Happened, Network};
use dc_base::{Event, Header, Line, Memory, Seq};
use split_leg::Policies;
use std::alloc::Global;
use std::marker::Model;

/// The nodes and the links between them, and all lines since the start. After a call that answers `Memory` it is not used
/// again.
#[derive(Drop)]
pub struct World {
    network: Network,
    lines: CountedLines,
}

impl Model for World {
    ghost use Rattle.dc_network.specs.Keeping.{Kept};

    ghost Value = { Kept };

    ghost view = { λ a. record { now = a.network; lines = a.lines } };
}

impl World {
    /// The nodes before the first event, with nothing under way and no line.
    pub fn new(alloc: Global, header: &Header) -> Result<World, Memory>
        requires { header.now.used ≤ 65536 }
        ensures { IfOk result (λ made. made ≡ record { now = new_world header.now; lines = [] }) }
    {
        Ok(World {
            network: Network::new(alloc, header)?,
            lines: CountedLines::new(alloc),
        })
    }

    /// An event happens: it, its answer and the lines after it are added to the lines. Want of memory is answered too where
    /// `Network::event` says so.
    pub fn event(&mut self, event: Event, policies: &Policies) -> Result<(), Memory>
        ensures { OnOk result (self.new ≡ kept_after (by_policies (margins policies.now)) self.old event) }
    {
        self.lines.push(Line::Event(event.copy()?))?;
        let Happened { answer, lines } = self.network.event(event, policies)?;
        self.lines.push(Line::Answer(answer))?;
        self.lines.append(lines)?;
        Ok(())
    }

    /// The nodes and the links.
    pub fn network(&self) -> &Network
        ensures { result.now ≡ self.now.now }
    {
        &self.network
    }

    /// All lines since the start.
    pub fn lines(&self) -> &Seq<Line>
        ensures { result.now ≡ self.now.lines }
    {
        self.lines.lines()
    }

    /// The lines, handed out.
    pub fn into_lines(self) -> Seq<Line>
        ensures { result ≡ self.lines }
    {
        self.lines.into_lines()
    }

    /// How many events, flights and octets of flights the lines have.
    pub fn counts(&self) -> Counts
        ensures { result ≡ counted self.now.lines }
    {
        self.lines.counts()
    }
}
