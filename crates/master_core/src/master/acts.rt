//! What the procedures have the master do.

ghost use Rattle.std.specs.Prelude.{◌≡◌, IfOk};
ghost use Rattle.node_rules.specs.Choices.{by_policies};
ghost use Rattle.node_rules.specs.Effects.{in_turn};
ghost use Rattle.node_rules.specs.MasterPlan.{is_rejection, master_act, says};
ghost use Rattle.split_leg.specs.Stored.{margins};

use super::Master;
use crate::steps::AnchorStep;
use dc_base::{Memory, Node, Note, Seq};
use node_parts::{add, noted, quiet, told};
use node_rules::{Act, Effects};
use split_leg::Policies;

impl Master {
    /// What the procedures have the master do, one after another.
    pub(super) fn act_in_turn(
        &mut self,
        acts: Seq<Act>,
        policies: &Policies,
    ) -> Result<Effects, Memory>
        ensures { IfOk result (λ out. (self.new, out) ≡ in_turn (master_act (by_policies (margins policies.now))) self.old acts) }
    {
        let mut effects = quiet(self.alloc);
        for act in acts.into_vec() {
            let done = self.act(act, policies)?;
            add(&mut effects, done)?;
        }
        Ok(effects)
    }

    /// One act. A status transfer is only given to an anchor where a record brought it.
    pub(super) fn act(&mut self, act: Act, policies: &Policies) -> Result<Effects, Memory>
        ensures { IfOk result (λ out. (self.new, out) ≡ master_act (by_policies (margins policies.now)) self.old act) }
    {
        match act {
            Act::Send { to, record_sent } => told(self.alloc, Node::M, to, record_sent),
            Act::Prepare { plan } => self.prepare(&plan),
            Act::Go { plan } => self.carry_out(&plan),
            Act::UnlockAll { g } => self.unlock_all(g, policies),
            Act::Say { note } => self.say(note),
            Act::RecoverOne { id } => self.anchor_does(id, AnchorStep::Recover, policies),
            Act::FailOne { id, g } => self.anchor_of_does(id, g, AnchorStep::FailScg, policies),
            Act::Pass { .. } => Ok(quiet(self.alloc)),
        }
    }

    // A line of the procedures; where the command was rejected, the anchors that wait go.
    fn say(&mut self, note: Note) -> Result<Effects, Memory>
        ensures { IfOk result (λ out. (self.new, out) ≡ says self.old note) }
    {
        if is_rejection(&note) {
            self.drop_waiting();
        }
        noted(self.alloc, note)
    }
}

// Whether the line says that the command was rejected.
fn is_rejection(note: &Note) -> bool
    ensures { result ≡ is_rejection note.now }
{
    match note {
        Note::Rejected => true,
        _ => false,
    }
}
