//! Flights in order, as runs of a few hundred.

ghost use Rattle.std.specs.Prelude.{◌≡◌, ◌<◌, ◌++◌, ◌∷◌, [], length, remove, slice_get, slice_index_or, slice_set, OnErr, OnOk, Some};
ghost use Rattle.std.specs.Option.{option_copied};
ghost use Rattle.flight_queue.specs.Runs.{joined, place_in};

use crate::run::Run;
use dc_base::{Flight, Memory};
use std::alloc::Global;
use std::marker::Model;

/// The most flights of a run to which more are put.
const MOST: usize = 256;

/// Flights in order. What is taken out at any place moves a few hundred others at most, and one word for each few hundred.
#[derive(Drop)]
pub struct FlightQueue {
    alloc: Global,
    runs: Vec<Run>,
    len: usize,
}

impl Model for FlightQueue {
    ghost use Rattle.std.specs.Prelude.{◌≡◌, List, length};
    ghost use Rattle.dc_base.specs.declared.flights.Flight.{Flight};
    ghost use Rattle.flight_queue.specs.Runs.{joined};

    ghost Value = { List Flight };

    ghost view = { λ a. joined a.runs.items };

    ghost invariant = { λ a. a.len ≡ length (joined a.runs.items) };
}

/// The run that has the flight at this place, and its place there.
fn place_in(runs: &[Run], position: usize) -> Option<(usize, usize)>
    ensures { result ≡ place_in runs.now position }
{
    let mut rest = position;
    for index in 0..runs.len() {
        let len = runs[index].len();
        if rest < len {
            return Some((index, rest));
        }
        rest -= len;
    }
    None
}

/// Puts a flight at the end of the last run, or of a new one where that is full. After `Memory` all is as before.
fn put_in(alloc: Global, runs: &mut Vec<Run>, flight: Flight) -> Result<(), Memory>
    ensures put { OnOk result (joined runs.new.items ≡ joined runs.old.items ++ flight ∷ []) }
    ensures same { OnErr result (joined runs.new.items ≡ joined runs.old.items) }
{
    let count = runs.as_slice().len();
    if count > 0 && runs[count - 1].len() < MOST {
        return runs[count - 1].put(flight);
    }
    let mut run = Run::new(alloc);
    run.put(flight)?;
    runs.push(run)?;
    Ok(())
}

/// The flight at this place of a run is taken away, and so is the run if it has no other.
fn take_in(runs: &mut Vec<Run>, run: usize, place: usize) -> Flight
    requires run { run < length runs.old.items }
    requires place { place < length (slice_index_or runs.old.items run []) }
    ensures flight { slice_get (slice_index_or runs.old.items run []) place ≡ Some result }
    ensures rest { joined runs.new.items ≡ joined (slice_set runs.old.items run (remove (slice_index_or runs.old.items run []) place)) }
{
    let flight = runs[run].take(place);
    if runs[run].len() == 0 {
        let _empty = runs.remove(run);
    }
    flight
}

impl FlightQueue {
    /// None.
    pub fn new(alloc: Global) -> FlightQueue
        ensures { result ≡ [] }
    {
        FlightQueue {
            alloc,
            runs: Vec::new(alloc),
            len: 0,
        }
    }

    /// How many there are.
    pub fn len(&self) -> usize
        ensures { result ≡ length self.now }
    {
        self.len
    }

    /// The flight at this place, from 0: `None` exactly where there is no such place.
    pub fn flight(&self, position: usize) -> Option<&Flight>
        ensures { option_copied result ≡ slice_get self.now position }
    {
        match place_in(self.runs.as_slice(), position) {
            Some((run, place)) => self.runs[run].flight(place),
            None => None,
        }
    }

    /// The flight at this place is taken away.
    pub fn take(&mut self, position: usize) -> Flight
        requires { position < length self.old }
        ensures flight { slice_get self.old position ≡ Some result }
        ensures rest { self.new ≡ remove self.old position }
    {
        match place_in(self.runs.as_slice(), position) {
            Some((run, place)) => {
                let flight = take_in(&mut self.runs, run, place);
                self.len -= 1;
                flight
            }
            None => unreachable!(),
        }
    }

    /// Puts a flight at the end. After `Memory` all is as before.
    pub fn put(&mut self, flight: Flight) -> Result<(), Memory>
        ensures put { OnOk result (self.new ≡ self.old ++ flight ∷ []) }
        ensures same { OnErr result (self.new ≡ self.old) }
    {
        let Some(len) = self.len.checked_add(1) else {
            return Err(Memory);
        };
        put_in(self.alloc, &mut self.runs, flight)?;
        self.len = len;
        Ok(())
    }
}
