//! The anchors of the master.

ghost use Rattle.std.specs.Prelude.{◌≡◌, IfOk, OnOk, is_some, not};
ghost use Rattle.std.specs.Option.{option_and_then};
ghost use Rattle.node_rules.specs.AnchorSending.{unlock};
ghost use Rattle.node_rules.specs.Choices.{by_policies};
ghost use Rattle.node_rules.specs.Effects.{in_turn};
ghost use Rattle.node_rules.specs.Held.{held, holding, identities};
ghost use Rattle.node_rules.specs.Master.{is_waiting, on_anchor, on_anchor_of, without_waiting};
ghost use Rattle.node_rules.specs.MasterStep.{is_anchor_of};
ghost use Rattle.node_rules.specs.Secondary.{active_in};
ghost use Rattle.master_core.specs.Steps.{anchor_does, stepped, stepped_out};
ghost use Rattle.split_leg.specs.Stored.{margins};

use super::Master;
use crate::steps::{AnchorStep, anchor_does};
use anchor::Anchor;
use dc_base::{Dir, DrbId, Gen, Memory, Node, Seq};
use node_parts::{add, handed_up, quiet};
use node_rules::{AnchorOut, Effects};
use split_leg::Policies;

impl Master {
    /// Whether the master has the active anchor of the bearer.
    pub(super) fn has_active(&self, id: DrbId) -> bool
        ensures { result ≡ is_some (option_and_then active_in (held id self.now.anchors)) }
    {
        match self.anchors.get(&id) {
            Some(anchor) => !anchor.is_waiting(),
            None => false,
        }
    }

    /// Whether the master has an anchor of the bearer in this generation.
    pub(super) fn has_anchor_of(&self, id: DrbId, g: Gen) -> bool
        ensures { result ≡ is_anchor_of g (held id self.now.anchors) }
    {
        match self.anchors.get(&id) {
            Some(anchor) => anchor.generation() == g,
            None => false,
        }
    }

    /// The master has this anchor of the bearer from now on, or none.
    pub(super) fn set_anchor(&mut self, id: DrbId, anchor: Option<Anchor>) -> Result<(), Memory>
        ensures { OnOk result (self.new ≡ record self.old { anchors = holding id anchor self.old.anchors }) }
    {
        match anchor {
            Some(anchor) => {
                self.anchors.insert(id, anchor)?;
                Ok(())
            }
            None => {
                self.anchors.remove(&id);
                Ok(())
            }
        }
    }

    /// A step of the anchor of a bearer, where the master has it, with its generation and what the step gives.
    pub(super) fn anchor_steps(
        &mut self,
        id: DrbId,
        step: AnchorStep,
        policies: &Policies,
    ) -> Result<Option<(Gen, AnchorOut)>, Memory>
        ensures { IfOk result (λ out. (self.new, out) ≡ stepped self.old id (anchor_does (by_policies (margins policies.now)) step) (held id self.old.anchors)) }
    {
        let Some(anchor) = self.anchors.get_mut(&id) else {
            return Ok(None);
        };
        let g = anchor.generation();
        let out = anchor_does(anchor, step, policies)?;
        Ok(Some((g, out)))
    }

    /// What comes of a step of an anchor: what it hands up and sends, and its Low, which the window hears of at once.
    pub(super) fn stepped_out(&mut self, id: DrbId, out: AnchorOut) -> Result<Effects, Memory>
        ensures { IfOk result (λ made. (self.new, made) ≡ stepped_out self.old id out) }
    {
        let AnchorOut {
            ups,
            low,
            sends,
            ..
        } = out;
        let notes = handed_up(self.alloc, Node::M, id, Dir::Ul, ups)?;
        let mut effects = Effects { notes, sends };
        add(&mut effects, self.low_rises(id, low)?)?;
        Ok(effects)
    }

    /// A step of the anchor of a bearer, where the master has it.
    pub(super) fn anchor_does(
        &mut self,
        id: DrbId,
        step: AnchorStep,
        policies: &Policies,
    ) -> Result<Effects, Memory>
        ensures { IfOk result (λ out. (self.new, out) ≡ on_anchor self.old id (anchor_does (by_policies (margins policies.now)) step) (held id self.old.anchors)) }
    {
        match self.anchor_steps(id, step, policies)? {
            Some((_, out)) => self.stepped_out(id, out),
            None => Ok(quiet(self.alloc)),
        }
    }

    /// A step of the anchor of a bearer in this generation alone.
    pub(super) fn anchor_of_does(
        &mut self,
        id: DrbId,
        g: Gen,
        step: AnchorStep,
        policies: &Policies,
    ) -> Result<Effects, Memory>
        ensures { IfOk result (λ out. (self.new, out) ≡ on_anchor_of self.old g (anchor_does (by_policies (margins policies.now)) step) id (held id self.old.anchors)) }
    {
        if self.has_anchor_of(id, g) {
            self.anchor_does(id, step, policies)
        } else {
            Ok(quiet(self.alloc))
        }
    }

    /// The anchors of a generation are opened.
    pub(super) fn unlock_all(&mut self, g: Gen, policies: &Policies) -> Result<Effects, Memory>
        ensures { IfOk result (λ out. (self.new, out) ≡ in_turn (λ n id. on_anchor_of n g (unlock (by_policies (margins policies.now))) id (held id n.anchors)) self.old (identities self.old.anchors)) }
    {
        let ids = self.identities()?;
        self.unlock_each(ids.as_slice(), g, policies)
    }

    // The bearers of which the master has an anchor.
    fn identities(&self) -> Result<Seq<DrbId>, Memory>
        ensures { IfOk result (λ ids. ids ≡ identities self.now.anchors) }
    {
        let mut ids = Seq::new(self.alloc);
        for (id, _) in &self.anchors {
            ids.push(*id)?;
        }
        Ok(ids)
    }

    // The anchors of these bearers are opened, one after another, where they are of a generation.
    fn unlock_each(&mut self, ids: &[DrbId], g: Gen, policies: &Policies) -> Result<Effects, Memory>
        ensures { IfOk result (λ out. (self.new, out) ≡ in_turn (λ n id. on_anchor_of n g (unlock (by_policies (margins policies.now))) id (held id n.anchors)) self.old ids.now) }
    {
        let mut effects = quiet(self.alloc);
        for id in ids {
            let done = self.anchor_of_does(*id, g, AnchorStep::Unlock, policies)?;
            add(&mut effects, done)?;
        }
        Ok(effects)
    }

    /// The anchors that wait for their bearers go.
    pub(super) fn drop_waiting(&mut self)
        ensures { self.new ≡ without_waiting self.old }
    {
        self.anchors.retain(
            |_, anchor| -> bool
                ensures { (result ≡ not (is_waiting anchor.old)) × (anchor.new ≡ anchor.old) }
            { !anchor.is_waiting() },
        );
    }
}
