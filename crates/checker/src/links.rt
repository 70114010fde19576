//! The flights that stand on the links, in order.

ghost use Rattle.std.specs.Prelude.{◌≡◌, ◌<◌, ◌++◌, ◌∷◌, [], length, remove, slice_get, IfOk, OnOk, Some};
ghost use Rattle.std.specs.Option.{option_copied};
ghost use Rattle.dc_base.specs.declared.answers.Answer.{Answer};
ghost use Rattle.dc_base.specs.declared.nodes.LinkId.{LinkId};
ghost use Rattle.transcript.specs.Content.{place_taken, put_on, without_taken};
ghost use Rattle.checker.specs.Parts.{flights_on};

use dc_base::{Answer, Event, Flight, Line, LinkId, Memory, Refusal};
use std::alloc::Global;
use std::collections::VecDeque;
use std::marker::Model;

/// What stands on one link, in order.
#[derive(Drop)]
struct Queue {
    flights: VecDeque<Flight>,
}

impl Model for Queue {
    ghost use Rattle.std.specs.Prelude.{List};
    ghost use Rattle.dc_base.specs.declared.flights.Flight.{Flight};

    ghost Value = { List Flight };

    ghost view = { λ a. a.flights.items };
}

impl Queue {
    fn new(alloc: Global) -> Queue
        ensures { result ≡ [] }
    {
        Queue {
            flights: VecDeque::new(alloc),
        }
    }

    fn len(&self) -> usize
        ensures { result ≡ length self.now }
    {
        self.flights.len()
    }

    /// The flight at this place.
    fn get(&self, place: usize) -> Option<&Flight>
        ensures { option_copied result ≡ slice_get self.now place }
    {
        self.flights.get(place)
    }

    /// The flight at this place is taken away, if there is such a place.
    fn take(&mut self, place: usize)
        ensures { self.new ≡ remove self.old place }
    {
        let _taken = self.flights.remove(place);
    }

    fn put(&mut self, flight: Flight) -> Result<(), Memory>
        ensures { OnOk result (self.new ≡ self.old ++ flight ∷ []) }
    {
        self.flights.push_back(flight)?;
        Ok(())
    }
}

/// All links by their numbers. A step at the front of a link, however long, takes the same time.
#[derive(Drop)]
pub struct LinkQueues {
    queues: Vec<Queue>,
}

impl Model for LinkQueues {
    ghost use Rattle.std.specs.Prelude.{◌≡◌, length};
    ghost use Rattle.checker.specs.Parts.{Queues};

    ghost Value = { Queues };

    ghost view = { λ a. a.queues.items };

    ghost invariant = { λ a. length a.queues.items ≡ 64 };
}

impl LinkQueues {
    /// All links, with no flight on any.
    pub fn new(alloc: Global) -> Result<LinkQueues, Memory>
        ensures { IfOk result (λ made. (l : LinkId) → flights_on l made ≡ []) }
    {
        let mut queues = Vec::new(alloc);
        for _place in 0..64usize {
            queues.push(Queue::new(alloc))?;
        }
        Ok(LinkQueues { queues })
    }

    /// How many flights stand on a link.
    pub fn len(&self, link: LinkId) -> usize
        ensures { result ≡ length (flights_on link self.now) }
    {
        self.queues[link.number()].len()
    }

    /// The flight at a place of a link.
    pub fn get(&self, link: LinkId, place: usize) -> Option<&Flight>
        ensures { option_copied result ≡ slice_get (flights_on link self.now) place }
    {
        self.queues[link.number()].get(place)
    }

    /// The flight that an event takes is taken away, if it takes one and it is there.
    pub fn take(&mut self, event: &Event, answer: Answer)
        ensures { (l : LinkId) → flights_on l self.new ≡ without_taken l (place_taken event.now answer) (flights_on l self.old) }
    {
        if let Some((link, index)) = taken_place(event, answer) {
            self.queues[link.number()].take(index as usize);
        }
    }

    /// A copy of the flight that a line sends is put at the end of its link.
    pub fn put(&mut self, line: &Line) -> Result<(), Memory>
        ensures { OnOk result ((l : LinkId) → flights_on l self.new ≡ flights_on l self.old ++ put_on l (line.now ∷ [])) }
    {
        if let Line::Send(link, flight) = line {
            self.queues[link.number()].put(flight.copy()?)?;
        }
        Ok(())
    }
}

/// The place from which an event takes a flight: a step gives it or finds it aged, a loss loses it.
fn taken_place(event: &Event, answer: Answer) -> Option<(LinkId, u32)>
    ensures { result ≡ place_taken event.now answer }
{
    match (event, answer) {
        (Event::Step { link, index }, Answer::Ok) => Some((*link, *index)),
        (Event::Step { link, index }, Answer::No(Refusal::Aged)) => Some((*link, *index)),
        (Event::Lose { link, index }, Answer::Ok) => Some((*link, *index)),
        _ => None,
    }
}
