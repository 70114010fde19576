//! The links, each with its flights in order.

ghost use Rattle.std.specs.Prelude.{◌≡◌, ◌<◌, ◌++◌, ◌∷◌, [], length, fold, remove, slice_get, nat_lt, IfOk, OnOk, Some};
ghost use Rattle.std.specs.List.{find};
ghost use Rattle.std.specs.Option.{option_copied};
ghost use Rattle.node_rules.specs.World.{first_loaded, flights_on, no_links, with_send, without};
ghost use Rattle.transcript.specs.Transcript.{sends};

use dc_base::{Flight, Line, LinkId, Memory};
use flight_queue::FlightQueue;
use std::alloc::Global;
use std::marker::Model;

/// All links by their numbers. A step at any place of a link takes a time that hardly grows with the flights on it.
#[derive(Drop)]
pub struct LinkSet {
    links: Vec<FlightQueue>,
}

impl Model for LinkSet {
    ghost use Rattle.std.specs.Prelude.{◌≡◌, length};
    ghost use Rattle.node_rules.specs.World.{Links};

    ghost Value = { Links };

    ghost view = { λ a. a.links.items };

    ghost invariant = { λ a. length a.links.items ≡ 64 };
}

impl LinkSet {
    /// All links, with no flight on any.
    pub fn new(alloc: Global) -> Result<LinkSet, Memory>
        ensures { IfOk result (λ links. links ≡ no_links) }
    {
        let mut links = Vec::new(alloc);
        for _place in 0..64usize {
            links.push(FlightQueue::new(alloc))?;
        }
        Ok(LinkSet { links })
    }

    /// How many flights stand on a link.
    pub fn len(&self, link: LinkId) -> usize
        ensures { result ≡ length (flights_on link self.now) }
    {
        self.links[link.number()].len()
    }

    /// The flight at this place of a link, from 0: `None` exactly where there is no such place.
    pub fn flight(&self, link: LinkId, position: usize) -> Option<&Flight>
        ensures { option_copied result ≡ slice_get (flights_on link self.now) position }
    {
        self.links[link.number()].flight(position)
    }

    /// The flight at this place of a link is taken away.
    pub fn take(&mut self, link: LinkId, position: usize) -> Flight
        requires { position < length (flights_on link self.old) }
        ensures flight { slice_get (flights_on link self.old) position ≡ Some result }
        ensures rest { self.new ≡ without (Some (link, position)) self.old }
    {
        self.links[link.number()].take(position)
    }

    /// Puts a flight at the end of a link. After `Memory` the links are not used again.
    fn put(&mut self, link: LinkId, flight: Flight) -> Result<(), Memory>
        ensures { OnOk result (self.new ≡ with_send self.old (link, flight)) }
    {
        self.links[link.number()].put(flight)
    }

    /// Copies of the sends of these lines are put on their links, in order. After `Memory` the links are not used again.
    pub fn put_sends(&mut self, lines: &[Line]) -> Result<(), Memory>
        ensures { OnOk result (self.new ≡ fold with_send self.old (sends lines.now)) }
    {
        for line in lines {
            if let Line::Send(link, flight) = line {
                self.put(*link, flight.copy()?)?;
            }
        }
        Ok(())
    }

    // The first of these links on which a flight stands.
    fn first_of(&self, links: &[LinkId]) -> Option<LinkId>
        ensures { result ≡ find (λ l. nat_lt 0 (length (flights_on l self.now))) links.now }
    {
        for link in links {
            if self.len(*link) > 0 {
                return Some(*link);
            }
        }
        None
    }

    /// The first link, in their order, on which a flight stands: `None` where all are empty.
    pub fn first_loaded(&self) -> Option<LinkId>
        ensures { result ≡ first_loaded self.now }
    {
        self.first_of(&LinkId::all())
    }
}
