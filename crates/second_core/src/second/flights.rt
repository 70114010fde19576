//! Flights to a secondary node.

ghost use Rattle.std.specs.Prelude.{◌≡◌, IfOk};
ghost use Rattle.node_rules.specs.Choices.{by_policies};
ghost use Rattle.node_rules.specs.Held.{held};
ghost use Rattle.node_rules.specs.SecondStep.{on_second_host, second_control, second_data, second_takes};
ghost use Rattle.second_core.specs.Steps.{anchor_takes, host_takes};
ghost use Rattle.split_leg.specs.Stored.{margins};

use super::Second;
use crate::steps::{AnchorStep, UserFlight, host_takes};
use dc_base::{Class, DrbId, Flight, Gen, Memory};
use node_parts::{quiet, sends_alone};
use node_rules::Effects;
use split_leg::Policies;
use xn_packets::flight_named;

impl Second {
    /// A flight comes on a link of this class.
    pub(super) fn take_flight(
        &mut self,
        class: Class,
        flight: Flight,
        policies: &Policies,
    ) -> Result<Effects, Memory>
        ensures { IfOk result (λ out. (self.new, out) ≡ second_takes (by_policies (margins policies.now)) self.old flight class) }
    {
        match class {
            Class::Ctl => self.take_control(flight, policies),
            Class::Feed => self.take_line(flight, policies),
            Class::Air => {
                let named = flight_named(self.alloc, &flight)?;
                self.take_data(UserFlight::OverAir(flight), named, policies)
            }
            Class::Tun => {
                let named = flight_named(self.alloc, &flight)?;
                self.take_data(UserFlight::ThroughTunnel(flight), named, policies)
            }
        }
    }

    // A flight comes on a control link: only records do.
    fn take_control(&mut self, flight: Flight, policies: &Policies) -> Result<Effects, Memory>
        ensures { IfOk result (λ out. (self.new, out) ≡ second_control (by_policies (margins policies.now)) self.old flight) }
    {
        match flight {
            Flight::Ctl(record_come) => self.take_record(&record_come, policies),
            _ => Ok(quiet(self.alloc)),
        }
    }

    // A flight of user data: for the anchor of its bearer and generation, or else for the leg host.
    fn take_data(
        &mut self,
        flight: UserFlight,
        named: Option<(DrbId, Gen)>,
        policies: &Policies,
    ) -> Result<Effects, Memory>
        ensures { IfOk result (λ out. (self.new, out) ≡ second_data self.old (anchor_takes (by_policies (margins policies.now)) flight) (host_takes flight) named) }
    {
        let Some((id, g)) = named else {
            return Ok(quiet(self.alloc));
        };
        if self.has_anchor_of(id, g) {
            self.anchor_does(id, AnchorStep::Take(flight), policies)
        } else {
            self.host_takes(id, &flight)
        }
    }

    // The leg host of a bearer takes a flight, where the node has it.
    fn host_takes(&mut self, id: DrbId, flight: &UserFlight) -> Result<Effects, Memory>
        ensures { IfOk result (λ out. (self.new, out) ≡ on_second_host self.old id (host_takes flight.now) (held id self.old.hosts)) }
    {
        let Some(host) = self.hosts.get_mut(&id) else {
            return Ok(quiet(self.alloc));
        };
        let sends = host_takes(host, flight)?;
        Ok(sends_alone(self.alloc, sends))
    }
}
