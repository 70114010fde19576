//! A run, event by event and line by line, with what its transcript comes to.

ghost use Rattle.std.specs.Prelude.{◌≡◌, ◌++◌, IfOk, IsErrOf, OnOk};
ghost use Rattle.split_leg.specs.Stored.{margins};
ghost use Rattle.node_rules.specs.Choices.{by_policies};
ghost use Rattle.dc_network.specs.Counting.{IsWithin};
ghost use Rattle.made_scripts.specs.Scripts.{drain_steps, enough, line_events, script_events};
ghost use Rattle.summary.specs.Texts.{summary_text};
ghost use Rattle.made_runs.specs.Running.{HasRun, PassesLimit, one, run_after, run_start};

use crate::halt::Halt;
use counted_network::CountedNetwork;
use dc_base::{Event, Memory, Octets};
use dc_network::Network;
use made_scripts::made_header;
use script_text::Scripted;
use split_leg::Policies;
use std::alloc::Global;
use std::marker::Model;
use summary::Summary;

/// The nodes and the links between them, with what a run counts, and what its transcript comes to so far. After a call that
/// answers an error it is not used again.
#[derive(Drop)]
pub(crate) struct MadeRun {
    network: CountedNetwork,
    summary: Summary,
}

impl Model for MadeRun {
    ghost use Rattle.made_runs.specs.Running.{Running};

    ghost Value = { Running };

    ghost view = { λ a. record { counting = a.network; totals = a.summary } };
}

impl MadeRun {
    /// Under the header of a made script, before the first event.
    pub(crate) fn new(alloc: Global) -> Result<MadeRun, Memory>
        ensures { IfOk result (λ made. made ≡ run_start) }
    {
        let network = CountedNetwork::new(alloc, &made_header())?;
        Ok(MadeRun {
            network,
            summary: Summary::new(alloc),
        })
    }

    /// The nodes and the links between them.
    pub(crate) fn network(&self) -> &Network
        ensures { result.now ≡ self.now.counting.world }
    {
        self.network.network()
    }

    /// Writes what the transcript comes to.
    pub(crate) fn write_summary(&self, out: &mut Octets) -> Result<(), Memory>
        ensures { OnOk result (out.new ≡ out.old ++ summary_text self.now.totals) }
    {
        self.summary.write(out)
    }

    /// An event happens, and its lines are summed up.
    fn happen(&mut self, event: Event, policies: &Policies) -> Result<(), Memory>
        ensures { OnOk result (self.new ≡ run_after (by_policies (margins policies.now)) self.old event) }
    {
        self.summary.add_event(&event)?;
        let happened = self.network.event(event, policies)?;
        self.summary.add_answer(happened.answer)?;
        self.summary.add_all(happened.lines.as_slice())?;
        Ok(())
    }

    /// One event, within the limits.
    pub(crate) fn event(&mut self, event: Event, policies: &Policies) -> Result<(), Halt>
        ensures ran { OnOk result (HasRun (by_policies (margins policies.now)) self.old (one event) self.new) }
        ensures past { IsErrOf result Halt.TooLong → PassesLimit (by_policies (margins policies.now)) self.old (one event) }
    {
        self.happen(event, policies)?;
        if !self.network.is_within() {
            return Err(Halt::TooLong);
        }
        Ok(())
    }

    /// Steps of the first flight on the first link on which one stands, until none stands on any.
    fn drain(&mut self, policies: &Policies) -> Result<(), Halt>
        requires { IsWithin self.old.counting.counts }
        ensures ran { OnOk result (HasRun (by_policies (margins policies.now)) self.old
            (drain_steps (by_policies (margins policies.now)) enough self.old.counting.world) self.new) }
        ensures past { IsErrOf result Halt.TooLong → PassesLimit (by_policies (margins policies.now)) self.old
            (drain_steps (by_policies (margins policies.now)) enough self.old.counting.world) }
    {
        while let Some(link) = self.network.first_loaded() {
            self.event(Event::Step { link, index: 0 }, policies)?;
        }
        Ok(())
    }

    /// A line of a script, run to its end.
    fn line(&mut self, line: &Scripted, policies: &Policies) -> Result<(), Halt>
        requires { IsWithin self.old.counting.counts }
        ensures ran { OnOk result (HasRun (by_policies (margins policies.now)) self.old
            (line_events (by_policies (margins policies.now)) self.old.counting.world line.now) self.new) }
        ensures past { IsErrOf result Halt.TooLong → PassesLimit (by_policies (margins policies.now)) self.old
            (line_events (by_policies (margins policies.now)) self.old.counting.world line.now) }
    {
        match line {
            Scripted::One(event) => self.event(event.copy()?, policies),
            Scripted::Drain => self.drain(policies),
        }
    }

    /// Lines of a script, one after another.
    pub(crate) fn lines(&mut self, lines: &[Scripted], policies: &Policies) -> Result<(), Halt>
        requires { IsWithin self.old.counting.counts }
        ensures ran { OnOk result (HasRun (by_policies (margins policies.now)) self.old
            (script_events (by_policies (margins policies.now)) self.old.counting.world lines.now) self.new) }
        ensures past { IsErrOf result Halt.TooLong → PassesLimit (by_policies (margins policies.now)) self.old
            (script_events (by_policies (margins policies.now)) self.old.counting.world lines.now) }
    {
        for line in lines {
            self.line(line, policies)?;
        }
        Ok(())
    }
}
