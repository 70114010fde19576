//! The master: what it holds, and what it does with one input.

ghost use Rattle.std.specs.Prelude.{◌≡◌, ◌≤◌, IfOk};
ghost use Rattle.node_rules.specs.Choices.{by_policies};
ghost use Rattle.node_rules.specs.Master.{new_master};
ghost use Rattle.node_rules.specs.MasterStep.{master_step};
ghost use Rattle.node_rules.specs.NodeRule.{master_node, node_step};
ghost use Rattle.node_rules.specs.Readers.{edges_at, has, is_busy};
ghost use Rattle.split_leg.specs.Stored.{margins};

mod acts;
mod anchors;
mod events;
mod flights;
mod plans;
mod records;
mod submissions;
mod windows;

use anchor::Anchor;
use dc_base::{Alg, DrbId, Gen, Memory};
use leg_host::LegHost;
use node_parts::{NodeCore, accepted};
use node_rules::{Edges, Input, Outcome, Window};
use split_leg::Policies;
use std::alloc::Global;
use std::collections::BTreeMap;
use std::marker::Model;
use xn_procs::MasterProc;

/// The master: the ciphering algorithm, its procedures, and by the identities of the bearers the anchors, the leg hosts and the
/// windows of the core's downlink. After a call that answers `Memory` it is not used again.
#[derive(Drop)]
pub struct Master {
    alloc: Global,
    alg: Alg,
    proc: MasterProc,
    anchors: BTreeMap<DrbId, Anchor>,
    hosts: BTreeMap<DrbId, LegHost>,
    windows: BTreeMap<DrbId, Window>,
}

impl Model for Master {
    ghost use Rattle.node_rules.specs.Master.{MasterNode};

    ghost Value = { MasterNode };

    ghost view = { λ a. record { alg = a.alg; proc = a.proc; anchors = a.anchors.entries; hosts = a.hosts.entries; windows = a.windows.entries } };
}

impl Master {
    /// The master before the first event, with the first root key: it has no bearer and no secondary node. `used` SN Counters of
    /// that root, at most 65,536, were drawn before.
    pub fn new(alloc: Global, alg: Alg, root: &[u8; 32], used: u32) -> Result<Master, Memory>
        requires { used ≤ 65536 }
        ensures { IfOk result (λ made. made ≡ new_master alg used root.now) }
    {
        Ok(Master {
            alloc,
            alg,
            proc: MasterProc::new(alloc, root, used)?,
            anchors: BTreeMap::new(alloc),
            hosts: BTreeMap::new(alloc),
            windows: BTreeMap::new(alloc),
        })
    }

    /// Takes an input: an event of its own, or a flight from a link to it. It answers what it notes and sends. In no run does
    /// an event submit a payload that is not of 1 to 9000 octets or more than 2^32 - 1 payloads to a bearer, nor a plan name a root
    /// that was not noted, renew an anchor with another SN length, or come with a generation of 2^24 or more; of these it says
    /// `Memory`.
    pub fn step(&mut self, input: Input, policies: &Policies) -> Result<Outcome, Memory>
        ensures { IfOk result (λ out. (self.new, out) ≡ master_step (by_policies (margins policies.now)) self.old input) }
    {
        match input {
            Input::Cmd(event) => self.take_event(event, policies),
            Input::Come(link, flight) => {
                let effects = self.take_flight(link.from, link.class, flight, policies)?;
                Ok(accepted(effects))
            }
        }
    }

    /// The SN length, RX_DELIV and Low of a bearer, where the master has its active anchor in this generation.
    pub fn edges(&self, id: DrbId, g: Gen) -> Option<Edges>
        ensures { result ≡ edges_at (master_node self.now) id g }
    {
        let anchor = self.anchors.get(&id)?;
        if anchor.generation() != g {
            return None;
        }
        anchor.edges()
    }

    /// Whether the bearer is established, and no command drops it: a report of it is not refused.
    pub fn has(&self, id: DrbId) -> bool
        ensures { result ≡ has (master_node self.now) id }
    {
        self.proc.has_bearer(id)
    }

    /// Whether a command is open.
    pub fn is_busy(&self) -> bool
        ensures { result ≡ is_busy self.now }
    {
        self.proc.is_busy()
    }
}

impl NodeCore for Master {
    ghost node = { λ m. master_node m };

    fn step(&mut self, input: Input, policies: &Policies) -> Result<Outcome, Memory> {
        let outcome = Master::step(self, input, policies)?;
        Ok(outcome)
    }

    fn edges(&self, id: DrbId, g: Gen) -> Option<Edges> {
        Master::edges(self, id, g)
    }

    fn has(&self, id: DrbId) -> bool {
        Master::has(self, id)
    }
}
