//! The terminal: what it holds, and what it does with one input.

ghost use Rattle.std.specs.Prelude.{◌≡◌, IfOk};
ghost use Rattle.node_rules.specs.Choices.{by_policies};
ghost use Rattle.node_rules.specs.NodeRule.{terminal_node};
ghost use Rattle.node_rules.specs.Readers.{edges_at, has};
ghost use Rattle.node_rules.specs.Terminal.{new_terminal, terminal_step};
ghost use Rattle.split_leg.specs.Stored.{margins};

mod events;
mod flights;
mod items;
mod plans;

use crate::half::TerminalHalf;
use dc_base::{Alg, DrbId, Gen, Memory, Node};
use node_parts::{NodeCore, accepted};
use node_rules::{Edges, Input, Outcome};
use split_leg::Policies;
use std::alloc::Global;
use std::collections::BTreeMap;
use std::marker::Model;

/// The terminal: the ciphering algorithm, the secondary node of the last plan taken, and its bearers. After a call that answers
/// `Memory` it is not used again.
#[derive(Drop)]
pub struct Terminal {
    alloc: Global,
    alg: Alg,
    sec: Option<Node>,
    halves: BTreeMap<DrbId, TerminalHalf>,
}

impl Model for Terminal {
    ghost use Rattle.node_rules.specs.Terminal.{TerminalNode};

    ghost Value = { TerminalNode };

    ghost view = { λ a. record { alg = a.alg; sec = a.sec; halves = a.halves.entries } };
}

impl Terminal {
    /// The terminal before the first event: it has no bearer. It takes no memory.
    pub fn new(alloc: Global, alg: Alg) -> Terminal
        ensures { result ≡ new_terminal alg }
    {
        Terminal {
            alloc,
            alg,
            sec: None,
            halves: BTreeMap::new(alloc),
        }
    }

    /// Takes an input: an event of its own, or a flight from a link to it. It answers what it notes and sends. No script submits
    /// a payload that is not of 1 to 9000 octets, and no plan sets one bearer twice with two lengths of sequence numbers; of
    /// these it says `Memory`.
    pub fn step(&mut self, input: Input, policies: &Policies) -> Result<Outcome, Memory>
        ensures { IfOk result (λ out. (self.new, out) ≡ terminal_step (by_policies (margins policies.now)) self.old input) }
    {
        match input {
            Input::Cmd(event) => self.take_event(event, policies),
            Input::Come(link, flight) => {
                let effects = self.take_flight(link, flight, policies)?;
                Ok(accepted(effects))
            }
        }
    }

    /// The SN length, RX_DELIV and Low of a bearer, where the terminal has it in this generation.
    pub fn edges(&self, id: DrbId, g: Gen) -> Option<Edges>
        ensures { result ≡ edges_at (terminal_node self.now) id g }
    {
        let half = self.halves.get(&id)?;
        if half.setup().g() != g {
            return None;
        }
        Some(Edges {
            n: half.setup().n(),
            deliv: half.rx_deliv(),
            low: half.low(),
        })
    }

    /// Whether the terminal has the bearer.
    pub fn has(&self, id: DrbId) -> bool
        ensures { result ≡ has (terminal_node self.now) id }
    {
        self.halves.contains_key(&id)
    }
}

impl NodeCore for Terminal {
    ghost node = { λ t. terminal_node t };

    fn step(&mut self, input: Input, policies: &Policies) -> Result<Outcome, Memory> {
        Terminal::step(self, input, policies)
    }

    fn edges(&self, id: DrbId, g: Gen) -> Option<Edges> {
        Terminal::edges(self, id, g)
    }

    fn has(&self, id: DrbId) -> bool {
        Terminal::has(self, id)
    }
}
