//! The events of the master.

ghost use Rattle.std.specs.Prelude.{◌≡◌, IfOk};
ghost use Rattle.node_rules.specs.Choices.{by_policies};
ghost use Rattle.node_rules.specs.MasterState.{has_bearer};
ghost use Rattle.node_rules.specs.MasterStep.{command_taken, master_event, report_asked};
ghost use Rattle.split_leg.specs.Stored.{margins};

use super::Master;
use crate::steps::AnchorStep;
use dc_base::{DrbId, Event, Memory, Refusal};
use node_parts::{accepted, quiet, turned_down};
use node_rules::Outcome;
use split_leg::Policies;
use xn_procs::ProcErr;

impl Master {
    /// An event that the master takes; any other one does nothing there.
    pub(super) fn take_event(
        &mut self,
        event: Event,
        policies: &Policies,
    ) -> Result<Outcome, Memory>
        ensures { IfOk result (λ out. (self.new, out) ≡ master_event (by_policies (margins policies.now)) self.old event) }
    {
        match event {
            Event::Submit { id, sdu, .. } => self.submit(id, sdu, policies),
            Event::Report { id, .. } => self.report(id, policies),
            Event::Bearer { .. } => self.command(&event, policies),
            Event::Reshape { .. } => self.command(&event, policies),
            Event::Remove { .. } => self.command(&event, policies),
            Event::Add { .. } => self.command(&event, policies),
            Event::Change => self.command(&event, policies),
            Event::Release => self.command(&event, policies),
            Event::RekeySecond => self.command(&event, policies),
            Event::RekeyMaster { .. } => self.command(&event, policies),
            Event::Recover { .. } => self.command(&event, policies),
            _ => Ok(accepted(quiet(self.alloc))),
        }
    }

    // A status report is asked for: where the anchor is elsewhere, waiting or closed, nothing is sent.
    fn report(&mut self, id: DrbId, policies: &Policies) -> Result<Outcome, Memory>
        ensures { IfOk result (λ out. (self.new, out) ≡ report_asked (by_policies (margins policies.now)) self.old id (has_bearer self.old.proc id)) }
    {
        if !self.proc.has_bearer(id) {
            return Ok(turned_down(self.alloc, Refusal::NoBearer));
        }
        let effects = self.anchor_does(id, AnchorStep::Report, policies)?;
        Ok(accepted(effects))
    }

    // A command is carried on, or refused.
    fn command(&mut self, event: &Event, policies: &Policies) -> Result<Outcome, Memory>
        ensures { IfOk result (λ out. (self.new, out) ≡ command_taken (by_policies (margins policies.now)) self.old event.now) }
    {
        match self.proc.command(event, policies.len()) {
            Ok(acts) => {
                let effects = self.act_in_turn(acts, policies)?;
                Ok(accepted(effects))
            }
            Err(ProcErr::Refused(why)) => Ok(turned_down(self.alloc, why)),
            Err(ProcErr::Unexpected(_)) => Ok(accepted(quiet(self.alloc))),
            Err(ProcErr::Memory) => Err(Memory),
        }
    }
}
