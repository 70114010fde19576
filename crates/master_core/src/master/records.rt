//! The records that the master takes, and bearers that its own anchors adopt (TS 37.340, 10.2 to 10.5; TS 38.423, 8.2 and 8.3).

ghost use Rattle.std.specs.Prelude.{◌≡◌, IfOk, true};
ghost use Rattle.node_rules.specs.Choices.{by_policies};
ghost use Rattle.node_rules.specs.Effects.{in_turn};
ghost use Rattle.node_rules.specs.Held.{held};
ghost use Rattle.node_rules.specs.MasterPlan.{adopts_if, master_did, on_waiting};
ghost use Rattle.node_rules.specs.MasterStep.{record_taken};
ghost use Rattle.node_rules.specs.MasterTaking.{master_take};
ghost use Rattle.master_core.specs.Steps.{anchor_does, stepped_out};
ghost use Rattle.split_leg.specs.Stored.{margins};

use super::Master;
use crate::steps::AnchorStep;
use dc_base::{DrbId, Gen, Memory, Node, Note, Rec, Seq};
use node_parts::{add, noted, quiet};
use node_rules::{Act, AnchorOut, Effects};
use split_leg::Policies;
use xn_procs::ProcErr;

impl Master {
    /// A record comes from a node. One that has no place in the state is taken without effect.
    pub(super) fn take_record(
        &mut self,
        from: Node,
        record_come: &Rec,
        policies: &Policies,
    ) -> Result<Effects, Memory>
        ensures { IfOk result (λ out. (self.new, out) ≡ record_taken (by_policies (margins policies.now)) self.old (master_take from self.old.proc record_come.now)) }
    {
        match self.proc.take(from, record_come) {
            Ok(acts) => self.do_in_turn(acts, policies),
            Err(ProcErr::Refused(_)) => Ok(quiet(self.alloc)),
            Err(ProcErr::Unexpected(_)) => Ok(quiet(self.alloc)),
            Err(ProcErr::Memory) => Err(Memory),
        }
    }

    // What a record has the master do, one after another.
    fn do_in_turn(&mut self, acts: Seq<Act>, policies: &Policies) -> Result<Effects, Memory>
        ensures { IfOk result (λ out. (self.new, out) ≡ in_turn (master_did (by_policies (margins policies.now))) self.old acts) }
    {
        let mut effects = quiet(self.alloc);
        for act in acts.into_vec() {
            let done = self.do_one(act, policies)?;
            add(&mut effects, done)?;
        }
        Ok(effects)
    }

    // One act. A status transfer may lead to an adoption.
    fn do_one(&mut self, act: Act, policies: &Policies) -> Result<Effects, Memory>
        ensures { IfOk result (λ out. (self.new, out) ≡ master_did (by_policies (margins policies.now)) self.old act) }
    {
        match act {
            Act::Pass { status } => {
                let id = status.id;
                self.waiting_does(id, AnchorStep::Pass(status), policies)
            }
            act => self.act(act, policies),
        }
    }

    /// A step of the anchor of a bearer, where the master has it, by which it may adopt the bearer.
    pub(super) fn waiting_does(
        &mut self,
        id: DrbId,
        step: AnchorStep,
        policies: &Policies,
    ) -> Result<Effects, Memory>
        ensures { IfOk result (λ out. (self.new, out) ≡ on_waiting (by_policies (margins policies.now)) self.old id (anchor_does (by_policies (margins policies.now)) step) (held id self.old.anchors)) }
    {
        match self.anchor_steps(id, step, policies)? {
            Some((g, out)) => self.take_step(id, g, out, policies),
            None => Ok(quiet(self.alloc)),
        }
    }

    // What comes of such a step of an anchor of this generation.
    fn take_step(
        &mut self,
        id: DrbId,
        g: Gen,
        out: AnchorOut,
        policies: &Policies,
    ) -> Result<Effects, Memory>
        ensures { IfOk result (λ made. (self.new, made) ≡ adopts_if (by_policies (margins policies.now)) id g out.adopted (stepped_out self.old id out)) }
    {
        let adopted = out.adopted;
        let effects = self.stepped_out(id, out)?;
        if adopted {
            self.adopt(id, g, effects, policies)
        } else {
            Ok(effects)
        }
    }

    // The anchor adopted the bearer, and this came of it: the anchor is active in its generation, and the procedures hear of it.
    fn adopt(
        &mut self,
        id: DrbId,
        g: Gen,
        came: Effects,
        policies: &Policies,
    ) -> Result<Effects, Memory>
        ensures { IfOk result (λ out. (self.new, out) ≡ adopts_if (by_policies (margins policies.now)) id g true (self.old, came)) }
    {
        let node = Node::M;
        let mut effects = noted(self.alloc, Note::Own { node, id, g })?;
        add(&mut effects, came)?;
        let acts = self.proc.adopted(id)?;
        add(&mut effects, self.act_in_turn(acts, policies)?)?;
        Ok(effects)
    }
}
