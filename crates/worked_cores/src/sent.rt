//! What the cores put on the links.

ghost use Rattle.std.specs.Prelude.{◌≡◌, ◌++◌, [], OnOk};
ghost use Rattle.transcript.specs.Transcript.{sends};

use dc_base::{Flight, Line, LinkId, Memory, Seq};
use std::alloc::Global;
use std::marker::Model;

/// All that was put on the links so far, in order.
#[derive(Drop)]
pub(crate) struct Sent {
    flights: Vec<(LinkId, Flight)>,
}

impl Model for Sent {
    ghost use Rattle.std.specs.Prelude.{List};
    ghost use Rattle.dc_base.specs.declared.flights.Flight.{Flight};
    ghost use Rattle.dc_base.specs.declared.nodes.LinkId.{LinkId};

    ghost Value = { List (LinkId × Flight) };

    ghost view = { λ a. a.flights.items };
}

impl Sent {
    /// Nothing yet.
    pub(crate) fn new(alloc: Global) -> Sent
        ensures { result ≡ [] }
    {
        Sent {
            flights: Vec::new(alloc),
        }
    }

    /// The flight of this number, from 0, of all that were put on the link.
    pub(crate) fn flight(&self, link: LinkId, number: u32) -> Option<&Flight> {
        let mut left = number;
        for (on, flight) in self.flights.as_slice() {
            if *on == link {
                if left == 0 {
                    return Some(flight);
                }
                left = left.saturating_sub(1);
            }
        }
        None
    }

    /// The sends of these lines were put on their links.
    pub(crate) fn put(&mut self, lines: Seq<Line>) -> Result<(), Memory>
        ensures { OnOk result (self.new ≡ self.old ++ sends lines) }
    {
        for line in lines.into_vec() {
            if let Line::Send(link, flight) = line {
                self.flights.push((link, flight))?;
            }
        }
        Ok(())
    }
}
