//! The events of a secondary node.

ghost use Rattle.std.specs.Prelude.{◌≡◌, IfOk};
ghost use Rattle.node_rules.specs.Choices.{by_policies};
ghost use Rattle.node_rules.specs.SecondState.{second_command};
ghost use Rattle.node_rules.specs.SecondStep.{second_commanded, second_event, second_report};
ghost use Rattle.node_rules.specs.Secondary.{active_at};
ghost use Rattle.split_leg.specs.Stored.{margins};

use super::Second;
use crate::steps::AnchorStep;
use dc_base::{DrbId, Event, Memory, Refusal};
use node_parts::{accepted, quiet, turned_down};
use node_rules::Outcome;
use split_leg::Policies;
use xn_procs::ProcErr;

impl Second {
    /// An event that a secondary node takes; any other one does nothing there.
    pub(super) fn take_event(
        &mut self,
        event: Event,
        policies: &Policies,
    ) -> Result<Outcome, Memory>
        ensures { IfOk result (λ out. (self.new, out) ≡ second_event (by_policies (margins policies.now)) self.old event) }
    {
        match &event {
            Event::Report { id, .. } => self.report(*id, policies),
            Event::Deny { .. } => self.command(&event, policies),
            Event::Ask { .. } => self.command(&event, policies),
            _ => Ok(accepted(quiet(self.alloc))),
        }
    }

    // A status report is asked for; a node that only waits for a bearer does not have it.
    fn report(&mut self, id: DrbId, policies: &Policies) -> Result<Outcome, Memory>
        ensures { IfOk result (λ out. (self.new, out) ≡ second_report (by_policies (margins policies.now)) self.old id (active_at self.old id)) }
    {
        if !self.has_active(id) {
            return Ok(turned_down(self.alloc, Refusal::NoBearer));
        }
        let effects = self.anchor_does(id, AnchorStep::Report, policies)?;
        Ok(accepted(effects))
    }

    // A command is carried on, or refused.
    fn command(&mut self, event: &Event, policies: &Policies) -> Result<Outcome, Memory>
        ensures { IfOk result (λ out. (self.new, out) ≡ second_commanded (by_policies (margins policies.now)) self.old (second_command self.old.proc event.now)) }
    {
        match self.proc.command(self.alloc, event) {
            Ok(acts) => {
                let effects = self.does(acts, &[], policies)?;
                Ok(accepted(effects))
            }
            Err(ProcErr::Refused(why)) => Ok(turned_down(self.alloc, why)),
            Err(ProcErr::Unexpected(_)) => Ok(accepted(quiet(self.alloc))),
            Err(ProcErr::Memory) => Err(Memory),
        }
    }
}
