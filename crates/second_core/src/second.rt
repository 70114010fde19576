//! A secondary node: what it holds, and what it does with one input.

ghost use Rattle.std.specs.Prelude.{◌≡◌, IfOk};
ghost use Rattle.node_rules.specs.Choices.{by_policies};
ghost use Rattle.node_rules.specs.NodeRule.{node_step, second_node};
ghost use Rattle.node_rules.specs.Readers.{edges_at, has};
ghost use Rattle.node_rules.specs.SecondStep.{second_step};
ghost use Rattle.node_rules.specs.Secondary.{new_second};
ghost use Rattle.split_leg.specs.Stored.{margins};

mod acts;
mod anchors;
mod events;
mod flights;
mod line;
mod plans;
mod records;

use crate::feed::{FedAnchor, FrozenAnchor};
use dc_base::{Alg, DrbId, Gen, Memory, Node};
use leg_host::LegHost;
use node_parts::{NodeCore, accepted};
use node_rules::{Edges, Input, Outcome};
use split_leg::Policies;
use std::alloc::Global;
use std::collections::BTreeMap;
use std::marker::Model;
use xn_procs::SecondProc;

/// A secondary node: the ciphering algorithm, its procedures, and by the identities of the bearers the anchors, what is left of
/// frozen ones, and the leg hosts. After a call that answers `Memory` it is not used again.
#[derive(Drop)]
pub struct Second {
    alloc: Global,
    alg: Alg,
    proc: SecondProc,
    anchors: BTreeMap<DrbId, FedAnchor>,
    frozen: BTreeMap<DrbId, FrozenAnchor>,
    hosts: BTreeMap<DrbId, LegHost>,
}

impl Model for Second {
    ghost use Rattle.node_rules.specs.Secondary.{SecondNode};

    ghost Value = { SecondNode };

    ghost view = { λ a. record { alg = a.alg; proc = a.proc; anchors = a.anchors.entries; frozen = a.frozen.entries; hosts = a.hosts.entries } };
}

impl Second {
    /// This node before the first event: it has no context of the terminal. It takes no memory.
    pub fn new(alloc: Global, alg: Alg, me: Node) -> Second
        ensures { result ≡ new_second alg me }
    {
        Second {
            alloc,
            alg,
            proc: SecondProc::new(me),
            anchors: BTreeMap::new(alloc),
            frozen: BTreeMap::new(alloc),
            hosts: BTreeMap::new(alloc),
        }
    }

    /// Takes an input: an event of its own, or a flight from a link to it. It answers what it notes and sends. In no run does a
    /// plan set a bearer up here by a record that has no K_SN of 32 octets, renew an anchor with another SN length, or come with
    /// a generation of 2^24 or more, and the core sends only SDUs of 1 to 9000 octets; of these it says `Memory`.
    pub fn step(&mut self, input: Input, policies: &Policies) -> Result<Outcome, Memory>
        ensures { IfOk result (λ out. (self.new, out) ≡ second_step (by_policies (margins policies.now)) self.old input) }
    {
        match input {
            Input::Cmd(event) => self.take_event(event, policies),
            Input::Come(link, flight) => {
                let effects = self.take_flight(link.class, flight, policies)?;
                Ok(accepted(effects))
            }
        }
    }

    /// The SN length, RX_DELIV and Low of a bearer, where the node has its active anchor in this generation.
    pub fn edges(&self, id: DrbId, g: Gen) -> Option<Edges>
        ensures { result ≡ edges_at (second_node self.now) id g }
    {
        let fed = self.anchors.get(&id)?;
        if fed.generation() != g {
            return None;
        }
        fed.edges()
    }

    /// Whether the node has the active anchor of the bearer: a report of it is not refused.
    pub fn has(&self, id: DrbId) -> bool
        ensures { result ≡ has (second_node self.now) id }
    {
        self.has_active(id)
    }
}

impl NodeCore for Second {
    ghost node = { λ s. second_node s };

    fn step(&mut self, input: Input, policies: &Policies) -> Result<Outcome, Memory> {
        let outcome = Second::step(self, input, policies)?;
        Ok(outcome)
    }

    fn edges(&self, id: DrbId, g: Gen) -> Option<Edges> {
        Second::edges(self, id, g)
    }

    fn has(&self, id: DrbId) -> bool {
        Second::has(self, id)
    }
}
