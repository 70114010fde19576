//! The anchors of a secondary node.

ghost use Rattle.std.specs.Prelude.{◌≡◌, IfOk, OnOk, is_some};
ghost use Rattle.node_rules.specs.AnchorSending.{unlock};
ghost use Rattle.node_rules.specs.Choices.{by_policies};
ghost use Rattle.node_rules.specs.Effects.{in_turn};
ghost use Rattle.node_rules.specs.Held.{held, identities};
ghost use Rattle.node_rules.specs.SecondPlan.{with_fed};
ghost use Rattle.node_rules.specs.Secondary.{SecondNode, active_at, is_fed_of, on_fed, on_fed_of};
ghost use Rattle.second_core.specs.Steps.{anchor_does};
ghost use Rattle.split_leg.specs.Stored.{margins};

use super::Second;
use crate::effects::second_effects;
use crate::feed::FedAnchor;
use crate::steps::AnchorStep;
use dc_base::{DrbId, Gen, Memory, Seq};
use node_parts::{add, quiet};
use node_rules::Effects;
use split_leg::Policies;

impl Second {
    /// Whether the node has the active anchor of the bearer.
    pub(super) fn has_active(&self, id: DrbId) -> bool
        ensures { result ≡ is_some (active_at self.now id) }
    {
        match self.anchors.get(&id) {
            Some(fed) => !fed.is_waiting(),
            None => false,
        }
    }

    /// Whether the node has an anchor of the bearer in this generation.
    pub(super) fn has_anchor_of(&self, id: DrbId, g: Gen) -> bool
        ensures { result ≡ is_fed_of g (held id self.now.anchors) }
    {
        match self.anchors.get(&id) {
            Some(fed) => fed.generation() == g,
            None => false,
        }
    }

    /// The node has this anchor of the bearer from now on, or none.
    pub(super) fn set_anchor(&mut self, id: DrbId, fed: Option<FedAnchor>) -> Result<(), Memory>
        ensures { OnOk result (self.new ≡ with_fed self.old id fed) }
    {
        match fed {
            Some(fed) => {
                self.anchors.insert(id, fed)?;
                Ok(())
            }
            None => {
                self.anchors.remove(&id);
                Ok(())
            }
        }
    }

    /// A step of the anchor of a bearer, where the node has it.
    pub(super) fn anchor_does(
        &mut self,
        id: DrbId,
        step: AnchorStep,
        policies: &Policies,
    ) -> Result<Effects, Memory>
        ensures { IfOk result (λ out. (self.new, out) ≡ on_fed self.old id (anchor_does (by_policies (margins policies.now)) step) (held id self.old.anchors)) }
    {
        let me = self.proc.me();
        let Some(fed) = self.anchors.get_mut(&id) else {
            return Ok(quiet(self.alloc));
        };
        let out = fed.does(step, policies)?;
        let g = fed.generation();
        Ok(second_effects(self.alloc, me, id, g, out)?)
    }

    /// A step of the anchor of a bearer in this generation alone.
    pub(super) fn anchor_of_does(
        &mut self,
        id: DrbId,
        g: Gen,
        step: AnchorStep,
        policies: &Policies,
    ) -> Result<Effects, Memory>
        ensures { IfOk result (λ out. (self.new, out) ≡ on_fed_of self.old g (anchor_does (by_policies (margins policies.now)) step) id (held id self.old.anchors)) }
    {
        if self.has_anchor_of(id, g) {
            self.anchor_does(id, step, policies)
        } else {
            Ok(quiet(self.alloc))
        }
    }

    /// The anchors of a generation are opened.
    pub(super) fn unlock_all(&mut self, g: Gen, policies: &Policies) -> Result<Effects, Memory>
        ensures { IfOk result (λ out. (self.new, out) ≡ in_turn (λ n id. on_fed_of n g (unlock (by_policies (margins policies.now))) id (held id n.anchors)) self.old (identities self.old.anchors)) }
    {
        let ids = self.identities()?;
        self.unlock_each(ids.as_slice(), g, policies)
    }

    // The bearers of which the node has an anchor.
    fn identities(&self) -> Result<Seq<DrbId>, Memory>
        ensures { IfOk result (λ ids. ids ≡ identities self.now.anchors) }
    {
        let mut ids = Seq::new(self.alloc);
        for (id, _) in &self.anchors {
            ids.push(*id)?;
        }
        Ok(ids)
    }

    // The anchors of these bearers are opened, one after another, where they are of a generation.
    fn unlock_each(&mut self, ids: &[DrbId], g: Gen, policies: &Policies) -> Result<Effects, Memory>
        ensures { IfOk result (λ out. (self.new, out) ≡ in_turn (λ n id. on_fed_of n g (unlock (by_policies (margins policies.now))) id (held id n.anchors)) self.old ids.now) }
    {
        let mut effects = quiet(self.alloc);
        for id in ids {
            let done = self.anchor_of_does(*id, g, AnchorStep::Unlock, policies)?;
            add(&mut effects, done)?;
        }
        Ok(effects)
    }
}
