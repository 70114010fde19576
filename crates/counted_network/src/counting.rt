//! The nodes and the links between them, with what a run counts.

ghost use Rattle.std.specs.Prelude.{◌≡◌, ◌↔◌, ◌≤◌, IfOk, IsTrue, OnOk};
ghost use Rattle.split_leg.specs.Stored.{margins};
ghost use Rattle.node_rules.specs.Choices.{by_policies};
ghost use Rattle.node_rules.specs.Run.{world_step};
ghost use Rattle.node_rules.specs.World.{first_loaded};
ghost use Rattle.dc_network.specs.Counting.{IsWithin};
ghost use Rattle.counted_network.specs.Counted.{counting_after, start};

use dc_base::{Event, Header, LinkId, Memory};
use dc_network::{Counts, Happened, Network};
use split_leg::Policies;
use std::alloc::Global;
use std::marker::Model;

/// The most events of a run.
const MAX_EVENTS: u64 = 1 << 20;

/// The most flights of a run.
const MAX_FLIGHTS: u64 = 1 << 22;

/// The most octets of its flights: 256 MiB.
const MAX_FLIGHT_OCTETS: u64 = 1 << 28;

/// The nodes and the links between them, and how many events, flights and octets of flights there were so far. After a call
/// that answers `Memory` it is not used again.
#[derive(Drop)]
pub struct CountedNetwork {
    network: Network,
    counts: Counts,
}

impl Model for CountedNetwork {
    ghost use Rattle.std.specs.Prelude.{◌≡◌, List};
    ghost use Rattle.dc_base.specs.declared.events.Line.{Line};
    ghost use Rattle.dc_network.specs.Counting.{counted};
    ghost use Rattle.counted_network.specs.Counted.{Counting};

    ghost Value = { Counting };

    ghost view = { λ a. record { world = a.network; counts = a.counts } };

    // They are the counts of some lines.
    ghost invariant = { λ a. (lines : List Line) × (counted lines ≡ a.counts) };
}

impl CountedNetwork {
    /// The nodes before the first event, and nothing counted.
    pub fn new(alloc: Global, header: &Header) -> Result<CountedNetwork, Memory>
        requires { header.now.used ≤ 65536 }
        ensures { IfOk result (λ made. made ≡ start header.now) }
    {
        Ok(CountedNetwork {
            network: Network::new(alloc, header)?,
            counts: Counts::none(),
        })
    }

    /// The nodes and the links between them.
    pub fn network(&self) -> &Network
        ensures { result.now ≡ self.now.world }
    {
        &self.network
    }

    /// One event, which is counted with its lines.
    pub fn event(&mut self, event: Event, policies: &Policies) -> Result<Happened, Memory>
        ensures after { OnOk result (self.new ≡ counting_after (by_policies (margins policies.now)) self.old event) }
        ensures happened { IfOk result (λ h. (world_step (by_policies (margins policies.now)) self.old.world event).1
            ≡ record { event = event; answer = h.answer; lines = h.lines }) }
    {
        let happened = self.network.event(event, policies)?;
        self.counts = self.counts.with_event(happened.lines.as_slice())?;
        Ok(happened)
    }

    /// The first link, in their order, on which a flight stands: `None` where all are empty.
    pub fn first_loaded(&self) -> Option<LinkId>
        ensures { result ≡ first_loaded self.now.world.links }
    {
        self.network.first_loaded()
    }

    /// Whether the counts are within the limits of a run.
    pub fn is_within(&self) -> bool
        ensures { IsTrue result ↔ IsWithin self.now.counts }
    {
        self.counts.events <= MAX_EVENTS
            && self.counts.flights <= MAX_FLIGHTS
            && self.counts.octets <= MAX_FLIGHT_OCTETS
    }
}
