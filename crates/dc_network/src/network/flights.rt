//! What happens to a flight under way: it is given to the receiver, lost or repeated.

ghost use Rattle.std.specs.Prelude.{◌≡◌, slice_get, IfOk};
ghost use Rattle.dc_network.specs.Events.{IsOfFlight, taken};
ghost use Rattle.node_rules.specs.Choices.{by_policies, Choices};
ghost use Rattle.node_rules.specs.Run.{carried_on, copy_of, happening, in_tunnel, loss_of, step_of};
ghost use Rattle.node_rules.specs.World.{flights_on};
ghost use Rattle.split_leg.specs.Stored.{margins};

use super::Network;
use dc_base::{Event, LinkId, Memory, Refusal};
use node_parts::{accepted, quiet, sent, turned_down};
use node_rules::{Input, Outcome};
use split_leg::Policies;
use xn_packets::weight;

impl Network {
    /// What happens to a flight.
    pub(super) fn take_from_link(
        &mut self,
        event: Event,
        policies: &Policies,
    ) -> Result<Outcome, Memory>
        requires { IsOfFlight event }
        ensures { IfOk result (λ out. (self.new, out) ≡ taken event (carried_on (by_policies (margins policies.now)) self.old (happening self.old event))) }
    {
        match event {
            Event::Step { link, index } => self.step(link, index, policies),
            Event::Lose { link, index } => Ok(self.lose(link, index)),
            Event::Again { link, index } => self.repeat(link, index),
            _ => unreachable!(),
        }
    }

    // A flight is given to the receiver of its link, unless the link keeps its order and it is not the first, or it is aged; an
    // aged one is taken away too.
    fn step(&mut self, link: LinkId, index: u32, policies: &Policies) -> Result<Outcome, Memory>
        ensures { IfOk result (λ out. (self.new, out) ≡ taken (Event.Step link index) (carried_on (by_policies (margins policies.now)) self.old (step_of self.old link index (slice_get (flights_on link self.old.links) index)))) }
    {
        if self.links.len(link) <= index as usize {
            return Ok(turned_down(self.alloc, Refusal::NoFlight));
        }
        if link.class.is_ordered() && 0 < index {
            return Ok(turned_down(self.alloc, Refusal::NotFirst));
        }
        let flight = self.links.take(link, index as usize);
        let weight = weight(self.alloc, &flight)?;
        if self.is_aged_for(link.to, weight) {
            return Ok(turned_down(self.alloc, Refusal::Aged));
        }
        self.give(link.to, Input::Come(link, flight), policies)
    }

    // A flight is lost, if its link is a tunnel.
    fn lose(&mut self, link: LinkId, index: u32) -> Outcome
        ensures { (c : Choices) → (self.new, result) ≡ taken (Event.Lose link index) (carried_on c self.old (in_tunnel link.class (loss_of (slice_get (flights_on link self.old.links) index)))) }
    {
        if !link.class.is_tunnel() {
            return turned_down(self.alloc, Refusal::NotTunnel);
        }
        if self.links.len(link) <= index as usize {
            return turned_down(self.alloc, Refusal::NoFlight);
        }
        let _lost = self.links.take(link, index as usize);
        accepted(quiet(self.alloc))
    }

    // A copy of a flight is sent on its link, if that is a tunnel; the flight stays.
    fn repeat(&self, link: LinkId, index: u32) -> Result<Outcome, Memory>
        ensures { (c : Choices) → IfOk result (λ out. (self.now, out) ≡ carried_on c self.now (in_tunnel link.class (copy_of link (slice_get (flights_on link self.now.links) index)))) }
    {
        if !link.class.is_tunnel() {
            return Ok(turned_down(self.alloc, Refusal::NotTunnel));
        }
        match self.links.flight(link, index as usize) {
            Some(flight) => Ok(accepted(sent(self.alloc, link, flight.copy()?)?)),
            None => Ok(turned_down(self.alloc, Refusal::NoFlight)),
        }
    }
}
