//! Flights to the master.

ghost use Rattle.std.specs.Prelude.{◌≡◌, IfOk};
ghost use Rattle.node_rules.specs.Choices.{by_policies};
ghost use Rattle.node_rules.specs.Held.{held};
ghost use Rattle.node_rules.specs.MasterStep.{control_taken, data_taken, line_taken, master_takes, on_host};
ghost use Rattle.master_core.specs.Steps.{anchor_takes, host_takes};
ghost use Rattle.split_leg.specs.Stored.{margins};

use super::Master;
use crate::steps::{AnchorStep, UserFlight, host_takes};
use dc_base::{Class, DrbId, Flight, Gen, Memory, Node};
use node_parts::{quiet, sends_alone};
use node_rules::Effects;
use split_leg::Policies;
use xn_packets::flight_named;

impl Master {
    /// A flight comes from a node, on a link of this class.
    pub(super) fn take_flight(
        &mut self,
        from: Node,
        class: Class,
        flight: Flight,
        policies: &Policies,
    ) -> Result<Effects, Memory>
        ensures { IfOk result (λ out. (self.new, out) ≡ master_takes (by_policies (margins policies.now)) self.old from flight class) }
    {
        match class {
            Class::Ctl => self.take_control(from, flight, policies),
            Class::Feed => self.take_line(flight),
            Class::Air => {
                let named = flight_named(self.alloc, &flight)?;
                self.take_data(UserFlight::OverAir(flight), named, policies)
            }
            Class::Tun => {
                let named = flight_named(self.alloc, &flight)?;
                self.take_data(UserFlight::ThroughTunnel(flight), named, policies)
            }
        }
    }

    // A flight comes on a control link: only records do.
    fn take_control(
        &mut self,
        from: Node,
        flight: Flight,
        policies: &Policies,
    ) -> Result<Effects, Memory>
        ensures { IfOk result (λ out. (self.new, out) ≡ control_taken (by_policies (margins policies.now)) self.old from flight) }
    {
        match flight {
            Flight::Ctl(record_come) => self.take_record(from, &record_come, policies),
            _ => Ok(quiet(self.alloc)),
        }
    }

    // A flight comes on the line from a secondary anchor: only Low is told there.
    fn take_line(&mut self, flight: Flight) -> Result<Effects, Memory>
        ensures { IfOk result (λ out. (self.new, out) ≡ line_taken self.old flight) }
    {
        match flight {
            Flight::Told { id, g, count } => self.take_low(id, g, count),
            _ => Ok(quiet(self.alloc)),
        }
    }

    // A flight of user data: for the anchor of its bearer and generation, or else for the leg host.
    fn take_data(
        &mut self,
        flight: UserFlight,
        named: Option<(DrbId, Gen)>,
        policies: &Policies,
    ) -> Result<Effects, Memory>
        ensures { IfOk result (λ out. (self.new, out) ≡ data_taken (by_policies (margins policies.now)) self.old (anchor_takes (by_policies (margins policies.now)) flight) (host_takes flight) named) }
    {
        let Some((id, g)) = named else {
            return Ok(quiet(self.alloc));
        };
        if self.has_anchor_of(id, g) {
            self.waiting_does(id, AnchorStep::Take(flight), policies)
        } else {
            self.host_takes(id, &flight)
        }
    }

    // The leg host of a bearer takes a flight, where the master has it.
    fn host_takes(&mut self, id: DrbId, flight: &UserFlight) -> Result<Effects, Memory>
        ensures { IfOk result (λ out. (self.new, out) ≡ on_host self.old id (host_takes flight.now) (held id self.old.hosts)) }
    {
        let Some(host) = self.hosts.get_mut(&id) else {
            return Ok(quiet(self.alloc));
        };
        let sends = host_takes(host, flight)?;
        Ok(sends_alone(self.alloc, sends))
    }
}
