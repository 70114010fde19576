//! What the procedures have a secondary node do.

ghost use Rattle.std.specs.Prelude.{◌≡◌, IfOk};
ghost use Rattle.node_rules.specs.Choices.{by_policies};
ghost use Rattle.node_rules.specs.Effects.{in_turn};
ghost use Rattle.node_rules.specs.SecondPlan.{second_act};
ghost use Rattle.node_rules.specs.Secondary.{within};
ghost use Rattle.split_leg.specs.Stored.{margins};

use super::Second;
use crate::steps::AnchorStep;
use dc_base::{Memory, Seq};
use node_parts::{add, noted, quiet, told};
use node_rules::{Act, Effects, Membership};
use split_leg::Policies;

impl Second {
    /// What the procedures have the node do after their step, with the octets of the K_SN that came, if one did.
    pub(super) fn does(
        &mut self,
        acts: Seq<Act>,
        key: &[u8],
        policies: &Policies,
    ) -> Result<Effects, Memory>
        ensures { IfOk result (λ out. (self.new, out) ≡ in_turn (second_act (by_policies (margins policies.now)) key.now) (within self.old.proc.membership self.old) acts) }
    {
        self.keep_within();
        self.act_in_turn(acts, key, policies)
    }

    // Without a context of the terminal the node holds nothing.
    fn keep_within(&mut self)
        ensures { self.new ≡ within self.old.proc.membership self.old }
    {
        match self.proc.membership() {
            Membership::Outside => {
                self.anchors.clear();
                self.frozen.clear();
                self.hosts.clear();
            }
            Membership::Joined => {}
            Membership::Left => {}
        }
    }

    // The acts, one after another.
    fn act_in_turn(
        &mut self,
        acts: Seq<Act>,
        key: &[u8],
        policies: &Policies,
    ) -> Result<Effects, Memory>
        ensures { IfOk result (λ out. (self.new, out) ≡ in_turn (second_act (by_policies (margins policies.now)) key.now) self.old acts) }
    {
        let mut effects = quiet(self.alloc);
        for act in acts.into_vec() {
            let done = self.act(act, key, policies)?;
            add(&mut effects, done)?;
        }
        Ok(effects)
    }

    // One act. Only the master prepares anchors.
    fn act(&mut self, act: Act, key: &[u8], policies: &Policies) -> Result<Effects, Memory>
        ensures { IfOk result (λ out. (self.new, out) ≡ second_act (by_policies (margins policies.now)) key.now self.old act) }
    {
        match act {
            Act::Send { to, record_sent } => told(self.alloc, self.proc.me(), to, record_sent),
            Act::Prepare { .. } => Ok(quiet(self.alloc)),
            Act::Go { plan } => self.carry_out(&plan, key),
            Act::UnlockAll { g } => self.unlock_all(g, policies),
            Act::Say { note } => noted(self.alloc, note),
            Act::RecoverOne { id } => self.anchor_does(id, AnchorStep::Recover, policies),
            Act::FailOne { id, g } => self.anchor_of_does(id, g, AnchorStep::FailScg, policies),
            Act::Pass { status } => {
                let id = status.id;
                self.anchor_does(id, AnchorStep::Pass(status), policies)
            }
        }
    }
}
