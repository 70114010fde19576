//! The anchor of a bearer at a node.

ghost use Rattle.std.specs.Prelude.{◌≡◌, Some, IfOk};
ghost use Rattle.std.specs.Option.{option_map};
ghost use Rattle.node_rules.specs.Anchor.{deliv_at, fresh, low_at, setup_at, waiting};
ghost use Rattle.node_rules.specs.AnchorSending.{fail_scg, recover, report, submit, unlock};
ghost use Rattle.node_rules.specs.Choices.{by_policies};
ghost use Rattle.node_rules.specs.Readers.{entity_edges, entity_in};
ghost use Rattle.split_leg.specs.Stored.{margins};

mod receiving;

use crate::active::ActiveAnchor;
use crate::freezing::{FreezeOut, freeze};
use crate::out::{sending, silent};
use crate::payload::is_payload;
use crate::waiting::WaitingAnchor;
use dc_base::{Gen, Memory, Node, Octets};
use node_rules::{AnchorOut, Edges};
use pdcp_entity::{PdcpEntity, Setup};
use split_leg::Policies;
use std::alloc::Global;
use std::marker::Model;

/// The anchor of a bearer at a node: active, with the PDCP entity, or waiting for the bearer (TS 37.340, 10). After a call that
/// answers `Memory` it is not used again.
#[derive(Drop)]
pub struct Anchor {
    alloc: Global,
    state: State,
}

#[derive(Drop)]
pub(crate) enum State {
    Waiting(WaitingAnchor),
    Active(ActiveAnchor),
    /// Memory ran out while it took the bearer over.
    Spent,
}

impl Model for Anchor {
    ghost use Rattle.node_rules.specs.Anchor.{AnchorState};

    ghost Value = { AnchorState };

    ghost use Rattle.anchor.specs.States.{anchor_state};

    ghost view = { λ a. anchor_state a.state };
}

impl Anchor {
    ghost use Rattle.anchor.specs.States.{frozen_at, is_waiting, renewal};
    ghost use Rattle.anchor.specs.Frozen.{given};

    /// The anchor of a new bearer: active and closed.
    pub fn fresh(alloc: Global, setup: Setup) -> Anchor
        ensures { result ≡ fresh setup }
    {
        let entity = PdcpEntity::new(alloc, setup);
        Anchor {
            alloc,
            state: State::Active(ActiveAnchor::closed(alloc, entity)),
        }
    }

    /// The anchor to which a bearer moves.
    pub fn waiting(alloc: Global, setup: Setup) -> Anchor
        ensures { result ≡ waiting setup }
    {
        Anchor {
            alloc,
            state: State::Waiting(WaitingAnchor::new(alloc, setup)),
        }
    }

    /// Whether it waits for the bearer.
    pub fn is_waiting(&self) -> bool
        ensures { result ≡ is_waiting self.now }
    {
        match &self.state {
            State::Waiting(_) => true,
            State::Active(_) => false,
            State::Spent => true,
        }
    }

    /// The generation in which it is set up.
    pub fn generation(&self) -> Gen
        ensures { result ≡ (setup_at self.now).g }
    {
        match &self.state {
            State::Waiting(waiting) => waiting.setup().g(),
            State::Active(active) => active.setup().g(),
            State::Spent => 0,
        }
    }

    /// What is set up in this generation.
    pub fn setup(&self) -> Result<&Setup, Memory>
        ensures { IfOk result (λ setup. setup.now ≡ setup_at self.now) }
    {
        match &self.state {
            State::Waiting(waiting) => Ok(waiting.setup()),
            State::Active(active) => Ok(active.setup()),
            State::Spent => Err(Memory),
        }
    }

    /// RX_DELIV, the COUNT of the next SDU to hand up; `None` exactly while it waits (TS 38.323, 7.1).
    pub fn rx_deliv(&self) -> Option<u32>
        ensures { result ≡ deliv_at self.now }
    {
        match &self.state {
            State::Waiting(_) => None,
            State::Active(active) => Some(active.rx_deliv()),
            State::Spent => None,
        }
    }

    /// The least COUNT that is not confirmed, or the next one; `None` exactly while it waits.
    pub fn low(&self) -> Option<u32>
        ensures { result ≡ low_at self.now }
    {
        match &self.state {
            State::Waiting(_) => None,
            State::Active(active) => Some(active.low()),
            State::Spent => None,
        }
    }

    /// The SN length, RX_DELIV and Low of its entity; `None` exactly while it waits.
    pub fn edges(&self) -> Option<Edges>
        ensures { result ≡ option_map entity_edges (entity_in self.now) }
    {
        match &self.state {
            State::Waiting(_) => None,
            State::Active(active) => Some(active.edges()),
            State::Spent => None,
        }
    }

    /// An SDU of 1 to 9000 octets is submitted (TS 38.323, 5.2.1); of any other it says `Memory`.
    pub fn submit(&mut self, sdu: Octets, policies: &Policies) -> Result<AnchorOut, Memory>
        ensures { IfOk result (λ out. (self.new, out) ≡ submit (by_policies (margins policies.now)) self.old sdu) }
    {
        if !is_payload(sdu.as_slice()) {
            return Err(Memory);
        }
        match &mut self.state {
            State::Waiting(waiting) => {
                waiting.submit(sdu)?;
                Ok(silent(self.alloc))
            }
            State::Active(active) => {
                let sends = active.submit(sdu, policies)?;
                Ok(sending(self.alloc, sends))
            }
            State::Spent => Err(Memory),
        }
    }

    /// The reconfiguration is complete (TS 37.340, 10.2 to 10.5: SN RECONFIGURATION COMPLETE): a closed anchor opens, and a
    /// waiting one notes it.
    pub fn unlock(&mut self, policies: &Policies) -> Result<AnchorOut, Memory>
        ensures { IfOk result (λ out. (self.new, out) ≡ unlock (by_policies (margins policies.now)) self.old) }
    {
        match &mut self.state {
            State::Waiting(waiting) => {
                waiting.tell();
                Ok(silent(self.alloc))
            }
            State::Active(active) => {
                let sends = active.unlock(policies)?;
                Ok(sending(self.alloc, sends))
            }
            State::Spent => Err(Memory),
        }
    }

    /// PDCP data recovery is asked for (TS 38.323, 5.5): an open anchor sends all that is kept.
    pub fn recover(&mut self, policies: &Policies) -> Result<AnchorOut, Memory>
        ensures { IfOk result (λ out. (self.new, out) ≡ recover (by_policies (margins policies.now)) self.old) }
    {
        match &mut self.state {
            State::Waiting(_) => Ok(silent(self.alloc)),
            State::Active(active) => {
                let sends = active.recover(policies)?;
                Ok(sending(self.alloc, sends))
            }
            State::Spent => Err(Memory),
        }
    }

    /// It learns that the SCG leg failed (TS 37.340, 7.7): it marks the leg, and recovers if it is open.
    pub fn fail_scg(&mut self, policies: &Policies) -> Result<AnchorOut, Memory>
        ensures { IfOk result (λ out. (self.new, out) ≡ fail_scg (by_policies (margins policies.now)) self.old) }
    {
        match &mut self.state {
            State::Waiting(waiting) => {
                waiting.fail_scg();
                Ok(silent(self.alloc))
            }
            State::Active(active) => {
                let sends = active.fail_scg(policies)?;
                Ok(sending(self.alloc, sends))
            }
            State::Spent => Err(Memory),
        }
    }

    /// A status report is asked for (TS 38.323, 5.4.1): an open anchor sends one.
    pub fn report(&mut self, policies: &Policies) -> Result<AnchorOut, Memory>
        ensures { IfOk result (λ out. (self.new, out) ≡ report (by_policies (margins policies.now)) self.old) }
    {
        match &mut self.state {
            State::Waiting(_) => Ok(silent(self.alloc)),
            State::Active(active) => {
                let sends = active.report(policies)?;
                Ok(sending(self.alloc, sends))
            }
            State::Spent => Err(Memory),
        }
    }

    /// The anchor in a new generation at the same node, closed (TS 37.340, 10.3), and whether it is one: a waiting anchor stays
    /// as it is. A bearer keeps its SN length; of another it says `Memory`.
    pub fn renew(&mut self, setup: Setup) -> Result<bool, Memory>
        ensures { IfOk result (λ renewed. (self.new, renewed) ≡ renewal self.old setup) }
    {
        match &mut self.state {
            State::Waiting(_) => Ok(false),
            State::Active(active) => {
                if setup.n() != active.setup().n() {
                    return Err(Memory);
                }
                active.renew(setup);
                Ok(true)
            }
            State::Spent => Err(Memory),
        }
    }

    /// An active anchor is frozen for a change to a node (TS 38.423, 8.2.2); `last` says that no SDU comes from the core any
    /// more. Of a waiting anchor it says `Memory`.
    pub fn freeze(self, target: Node, g: Gen, last: bool) -> Result<FreezeOut, Memory>
        ensures { IfOk result (λ out. Some (given out) ≡ frozen_at self target g last) }
    {
        let Anchor { alloc, state } = self;
        match state {
            State::Waiting(_) => Err(Memory),
            State::Active(active) => freeze(alloc, active.into_entity(), target, g, last),
            State::Spent => Err(Memory),
        }
    }
}
