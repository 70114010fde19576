//! Some flights next to one another.

ghost use Rattle.std.specs.Prelude.{◌≡◌, ◌<◌, ◌++◌, ◌∷◌, [], length, remove, slice_get, OnErr, OnOk, Some};
ghost use Rattle.std.specs.Option.{option_copied};

use dc_base::{Flight, Memory};
use std::alloc::Global;
use std::collections::VecDeque;
use std::marker::Model;

/// Flights next to one another, in order.
#[derive(Drop)]
pub(crate) struct Run {
    flights: VecDeque<Flight>,
}

impl Model for Run {
    ghost use Rattle.std.specs.Prelude.{List};
    ghost use Rattle.dc_base.specs.declared.flights.Flight.{Flight};

    ghost Value = { List Flight };

    ghost view = { λ a. a.flights.items };
}

impl Run {
    /// None yet.
    pub(crate) fn new(alloc: Global) -> Run
        ensures { result ≡ [] }
    {
        Run {
            flights: VecDeque::new(alloc),
        }
    }

    pub(crate) fn len(&self) -> usize
        ensures { result ≡ length self.now }
    {
        self.flights.len()
    }

    /// The flight at this place, from 0: `None` exactly where there is no such place.
    pub(crate) fn flight(&self, place: usize) -> Option<&Flight>
        ensures { option_copied result ≡ slice_get self.now place }
    {
        self.flights.get(place)
    }

    /// The flight at this place is taken away.
    pub(crate) fn take(&mut self, place: usize) -> Flight
        requires { place < length self.old }
        ensures flight { slice_get self.old place ≡ Some result }
        ensures rest { self.new ≡ remove self.old place }
    {
        match self.flights.remove(place) {
            Some(flight) => flight,
            None => unreachable!(),
        }
    }

    /// Puts a flight at the end. After `Memory` all is as before.
    pub(crate) fn put(&mut self, flight: Flight) -> Result<(), Memory>
        ensures put { OnOk result (self.new ≡ self.old ++ flight ∷ []) }
        ensures same { OnErr result (self.new ≡ self.old) }
    {
        match self.flights.push_back(flight) {
            Ok(()) => Ok(()),
            Err(_) => Err(Memory),
        }
    }
}
