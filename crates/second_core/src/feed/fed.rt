//! An anchor that takes SDUs from the core.

ghost use Rattle.std.specs.Prelude.{◌≡◌, None, Some, IfOk};
ghost use Rattle.std.specs.Option.{option_map};
ghost use Rattle.anchor.specs.Frozen.{given};
ghost use Rattle.anchor.specs.States.{frozen_at, is_waiting};
ghost use Rattle.node_rules.specs.Anchor.{setup_at};
ghost use Rattle.node_rules.specs.Choices.{by_policies};
ghost use Rattle.node_rules.specs.Feed.{end_in, has_ended, sdu_in};
ghost use Rattle.node_rules.specs.Readers.{entity_edges, entity_in};
ghost use Rattle.node_rules.specs.Secondary.{anchored};
ghost use Rattle.second_core.specs.Steps.{anchor_does, renewed_as};
ghost use Rattle.split_leg.specs.Stored.{margins};

use crate::steps::{AnchorStep, anchor_does};
use anchor::{Anchor, FreezeOut};
use dc_base::{Gen, Memory, Node, Octets, Seq};
use node_rules::{AnchorOut, Edges};
use pdcp_entity::Setup;
use split_leg::Policies;
use std::alloc::Global;
use std::marker::Model;

/// An anchor that takes SDUs from the core. After a call that answers `Memory` it is not used again.
#[derive(Drop)]
pub(crate) struct FedAnchor {
    alloc: Global,
    /// The generation in which the node became the bearer's anchor: an SDU of an older one is not of this bearer.
    since: Gen,
    /// The change for which the line said already that no more SDUs come.
    ended: Option<Gen>,
    anchor: Anchor,
}

impl Model for FedAnchor {
    ghost use Rattle.node_rules.specs.Feed.{Fed};

    ghost Value = { Fed };

    ghost view = { λ a. record { since = a.since; ended = a.ended; anchor = a.anchor } };
}

impl FedAnchor {
    /// An anchor that begins at the node in this generation.
    pub(crate) fn new(alloc: Global, since: Gen, anchor: Anchor) -> FedAnchor
        ensures { result ≡ record { since = since; ended = None; anchor = anchor } }
    {
        FedAnchor {
            alloc,
            since,
            ended: None,
            anchor,
        }
    }

    /// The generation in which the node became the bearer's anchor.
    pub(crate) fn since(&self) -> Gen
        ensures { result ≡ self.now.since }
    {
        self.since
    }

    /// Whether the anchor waits for the bearer.
    pub(crate) fn is_waiting(&self) -> bool
        ensures { result ≡ is_waiting self.now.anchor }
    {
        self.anchor.is_waiting()
    }

    /// What is set up for the anchor in its generation.
    pub(crate) fn setup(&self) -> Result<&Setup, Memory>
        ensures { IfOk result (λ setup. setup.now ≡ setup_at self.now.anchor) }
    {
        self.anchor.setup()
    }

    /// The generation of the anchor.
    pub(crate) fn generation(&self) -> Gen
        ensures { result ≡ (setup_at self.now.anchor).g }
    {
        self.anchor.generation()
    }

    /// The SN length, RX_DELIV and Low of its entity; `None` exactly while it waits.
    pub(crate) fn edges(&self) -> Option<Edges>
        ensures { result ≡ option_map entity_edges (entity_in self.now.anchor) }
    {
        self.anchor.edges()
    }

    /// A step of the anchor alone.
    pub(crate) fn does(
        &mut self,
        step: AnchorStep,
        policies: &Policies,
    ) -> Result<AnchorOut, Memory>
        ensures { IfOk result (λ out. (self.new, out) ≡ anchored self.old (anchor_does (by_policies (margins policies.now)) step self.old.anchor)) }
    {
        let out = anchor_does(&mut self.anchor, step, policies)?;
        Ok(out)
    }

    /// An SDU of 1 to 9000 octets comes from the core, with the generation of its path; of any other it says `Memory`.
    pub(crate) fn sdu_in(
        &mut self,
        g: Gen,
        sdu: Octets,
        policies: &Policies,
    ) -> Result<AnchorOut, Memory>
        ensures { IfOk result (λ out. (self.new, out) ≡ sdu_in (by_policies (margins policies.now)) self.old g sdu) }
    {
        if g < self.since {
            return Ok(AnchorOut {
                adopted: false,
                ups: Seq::new(self.alloc),
                low: None,
                sends: Seq::new(self.alloc),
            });
        }
        let out = self.anchor.submit(sdu, policies)?;
        Ok(out)
    }

    /// The line ends for a change, of which an active anchor has not heard yet.
    pub(crate) fn end_in(&mut self, g: Gen)
        ensures { self.new ≡ end_in self.old g self.old.anchor }
    {
        if !self.anchor.is_waiting() {
            self.ended = Some(g);
        }
    }

    /// An active anchor stays in a new generation, and whether it is one: a waiting anchor stays as it is. A bearer keeps its SN
    /// length; of another it says `Memory`.
    pub(crate) fn renew(&mut self, setup: Setup) -> Result<bool, Memory>
        ensures { IfOk result (λ renewed. (self.new, renewed) ≡ renewed_as self.old setup self.old.anchor) }
    {
        let renewed = self.anchor.renew(setup)?;
        Ok(renewed)
    }

    /// An active anchor is frozen for a change to a node (TS 38.423, 8.2.2). Of a waiting one it says `Memory`.
    pub(crate) fn freeze(self, target: Node, g: Gen) -> Result<FreezeOut, Memory>
        ensures { IfOk result (λ out. Some (given out) ≡ frozen_at self.anchor target g (has_ended self.ended g)) }
    {
        let last = self.ended == Some(g);
        self.anchor.freeze(target, g, last)
    }
}
