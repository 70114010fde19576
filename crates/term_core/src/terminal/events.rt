//! The terminal's own events: submissions, reports and the failure of the SCG.

ghost use Rattle.std.specs.Prelude.{◌≡◌, ℕ, IfOk, map, true};
ghost use Rattle.std.specs.List.{flat_map};
ghost use Rattle.node_rules.specs.Choices.{by_policies};
ghost use Rattle.node_rules.specs.Entity.{Entity};
ghost use Rattle.node_rules.specs.Held.{held};
ghost use Rattle.node_rules.specs.Terminal.{failing_half, reported_there, scg_fails, submitted_there, terminal_event};
ghost use Rattle.node_rules.specs.TerminalHalf.{terminal_fail};
ghost use Rattle.split_leg.specs.Stored.{margins};

use super::Terminal;
use dc_base::{DrbId, Event, Gen, Memory, Node, Octets, Rec, Refusal, Seq};
use node_parts::{accepted, quiet, sends_alone, told, turned_down};
use node_rules::Outcome;
use split_leg::Policies;

impl Terminal {
    /// An event that the terminal takes; any other one does nothing there.
    pub(crate) fn take_event(
        &mut self,
        event: Event,
        policies: &Policies,
    ) -> Result<Outcome, Memory>
        ensures { IfOk result (λ out. (self.new, out) ≡ terminal_event (by_policies (margins policies.now)) self.old event) }
    {
        match event {
            Event::Submit { id, sdu, .. } => self.submit(id, sdu, policies),
            Event::Report { id, .. } => self.report(id, policies),
            Event::ScgFail => self.scg_fails(),
            _ => Ok(accepted(quiet(self.alloc))),
        }
    }

    // A payload is submitted in uplink.
    fn submit(&mut self, id: DrbId, payload: Octets, policies: &Policies) -> Result<Outcome, Memory>
        ensures { IfOk result (λ out. (self.new, out) ≡ submitted_there (by_policies (margins policies.now)) self.old id payload (held id self.old.halves)) }
    {
        let Some(half) = self.halves.get_mut(&id) else {
            return Ok(turned_down(self.alloc, Refusal::NoBearer));
        };
        let (answer, sends) = half.submit(payload, policies)?;
        Ok(Outcome {
            answer,
            notes: Seq::new(self.alloc),
            sends,
        })
    }

    // A status report is asked for.
    fn report(&mut self, id: DrbId, policies: &Policies) -> Result<Outcome, Memory>
        ensures { IfOk result (λ out. (self.new, out) ≡ reported_there (by_policies (margins policies.now)) self.old id (held id self.old.halves)) }
    {
        let Some(half) = self.halves.get_mut(&id) else {
            return Ok(turned_down(self.alloc, Refusal::NoBearer));
        };
        let sends = half.report(policies)?;
        Ok(accepted(sends_alone(self.alloc, sends)))
    }

    // The secondary cell group fails (TS 37.340, 7.7): the legs are marked, and the master is told.
    fn scg_fails(&mut self) -> Result<Outcome, Memory>
        ensures { IfOk result (λ out. (self.new, out) ≡ scg_fails self.old self.old.sec) }
    {
        if self.sec.is_none() {
            return Ok(turned_down(self.alloc, Refusal::NoSecondary));
        }
        let failed = self.failing()?;
        self.fail_legs();
        Ok(accepted(told(self.alloc, Node::T, Node::M, Rec::Scgf { failed })?))
    }

    // The bearers whose SCG leg fails now, with their generations.
    fn failing(&self) -> Result<Seq<(DrbId, Gen)>, Memory>
        ensures { IfOk result (λ failed. failed ≡ flat_map failing_half self.now.halves) }
    {
        let mut failed = Seq::new(self.alloc);
        for (id, half) in &self.halves {
            if half.has_live_scg() {
                failed.push((*id, half.setup().g()))?;
            }
        }
        Ok(failed)
    }

    // The SCG legs of all bearers are marked.
    fn fail_legs(&mut self)
        ensures { self.new ≡ record self.old { halves = map (λ (x : ℕ × Entity). (x.0, terminal_fail x.1)) self.old.halves } }
    {
        // All are kept: each is written in its place.
        self.halves.retain(
            |_, half| -> bool
                ensures { (result ≡ true) × (half.new ≡ terminal_fail half.old) }
            {
                half.fail();
                true
            },
        );
    }
}
