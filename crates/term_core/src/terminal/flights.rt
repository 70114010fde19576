//! Flights to the terminal: over the air, and records from the master.

ghost use Rattle.std.specs.Prelude.{◌≡◌, ◌++◌, ℕ, Some, IfOk};
ghost use Rattle.dc_base.specs.declared.nodes.Dir.TheVariants.{Dl};
ghost use Rattle.dc_base.specs.declared.nodes.Node.TheVariants.{T};
ghost use Rattle.node_rules.specs.Choices.{by_policies};
ghost use Rattle.node_rules.specs.Effects.{quiet};
ghost use Rattle.node_rules.specs.Entity.{Entity};
ghost use Rattle.node_rules.specs.Flights.{flight_named};
ghost use Rattle.node_rules.specs.Held.{held};
ghost use Rattle.node_rules.specs.Master.{handed_up};
ghost use Rattle.node_rules.specs.Terminal.{air_taken, air_taken_by, recovered_half, terminal_control, terminal_record, terminal_takes, uplink_freed, with_half};
ghost use Rattle.split_leg.specs.Stored.{margins};

use super::Terminal;
use dc_base::{Class, Dir, DrbId, Flight, LinkId, Memory, Node, Note, Octets, Rec, Seq};
use node_parts::{add, handed_up, quiet, sends_alone, told};
use node_rules::{Effects, HalfOut};
use split_leg::Policies;
use std::alloc::Global;

impl Terminal {
    /// A flight comes from a node on a link.
    pub(crate) fn take_flight(
        &mut self,
        link: LinkId,
        flight: Flight,
        policies: &Policies,
    ) -> Result<Effects, Memory>
        ensures { IfOk result (λ out. (self.new, out) ≡ terminal_takes (by_policies (margins policies.now)) self.old link.from flight link.class) }
    {
        match link.class {
            Class::Ctl => self.take_control(flight, policies),
            Class::Air => self.take_air(link.from, flight),
            Class::Feed => Ok(quiet(self.alloc)),
            Class::Tun => Ok(quiet(self.alloc)),
        }
    }

    // A flight comes on a control link: only records do.
    fn take_control(&mut self, flight: Flight, policies: &Policies) -> Result<Effects, Memory>
        ensures { IfOk result (λ out. (self.new, out) ≡ terminal_control (by_policies (margins policies.now)) self.old flight) }
    {
        match flight {
            Flight::Ctl(record_come) => self.take_record(record_come, policies),
            _ => Ok(quiet(self.alloc)),
        }
    }

    // A record from the master: the terminal takes plans and orders to recover.
    fn take_record(&mut self, record_come: Rec, policies: &Policies) -> Result<Effects, Memory>
        ensures { IfOk result (λ out. (self.new, out) ≡ terminal_record (by_policies (margins policies.now)) self.old record_come) }
    {
        match record_come {
            Rec::Reconf { plan, key } => self.take_plan(&plan, &key, policies),
            Rec::Recov { id } => self.recover(id, policies),
            _ => Ok(quiet(self.alloc)),
        }
    }

    // The uplink of a bearer is recovered.
    fn recover(&mut self, id: DrbId, policies: &Policies) -> Result<Effects, Memory>
        ensures { IfOk result (λ out. (self.new, out) ≡ recovered_half (by_policies (margins policies.now)) self.old id (held id self.old.halves)) }
    {
        let Some(half) = self.halves.get_mut(&id) else {
            return Ok(quiet(self.alloc));
        };
        let sends = half.recover(policies)?;
        let mut effects = told(self.alloc, Node::T, Node::M, Rec::Recovd { id })?;
        add(&mut effects, sends_alone(self.alloc, sends))?;
        Ok(effects)
    }

    // A flight over the air is for the bearer that it names: only PDUs and their confirms do anything.
    fn take_air(&mut self, from: Node, flight: Flight) -> Result<Effects, Memory>
        ensures { IfOk result (λ out. (self.new, out) ≡ air_taken self.old from flight (flight_named flight)) }
    {
        match &flight {
            Flight::Air { id, .. } => {
                let id = *id;
                self.half_takes(id, from, flight)
            }
            Flight::Ack { id, .. } => {
                let id = *id;
                self.half_takes(id, from, flight)
            }
            _ => Ok(self.unmoved()),
        }
    }

    // The bearer takes a flight over the air, where the terminal has it.
    fn half_takes(&mut self, id: DrbId, from: Node, flight: Flight) -> Result<Effects, Memory>
        ensures { IfOk result (λ out. (self.new, out) ≡ air_taken_by self.old from flight id (held id self.old.halves)) }
    {
        let Some(half) = self.halves.get_mut(&id) else {
            return Ok(quiet(self.alloc));
        };
        let HalfOut { ups, low, sends } = half.air_in(from, flight)?;
        Ok(Effects {
            notes: half_notes(self.alloc, id, ups, low)?,
            sends,
        })
    }

    // Nothing comes of it, and what is held of a bearer is put back as it was.
    fn unmoved(&self) -> Effects
        ensures value { result ≡ quiet }
        ensures same { (id : ℕ) (h : Entity) → held id self.now.halves ≡ Some h → with_half self.now id (Some h) ≡ self.now }
    {
        // The length says that the bearers stand in order.
        let _bearers = self.halves.len();
        quiet(self.alloc)
    }
}

// The notes of what is handed up, and of Low where it rose: there the window of the uplink begins.
fn half_notes(
    alloc: Global,
    id: DrbId,
    ups: Seq<(u32, Octets)>,
    low: Option<u32>,
) -> Result<Seq<Note>, Memory>
    ensures { IfOk result (λ notes. notes ≡ handed_up T id Dl ups ++ uplink_freed id low) }
{
    let mut notes = handed_up(alloc, Node::T, id, Dir::Dl, ups)?;
    if let Some(count) = low {
        notes.push(Note::Freed {
            id,
            dir: Dir::Ul,
            count,
        })?;
    }
    Ok(notes)
}
