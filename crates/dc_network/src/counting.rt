//! How many events, flights and octets of flights a run has had.

ghost use Rattle.std.specs.Prelude.{◌≡◌, ◌+◌, ◌∷◌, ◌++◌, [], List, IfOk, OnErr, OnOk};
ghost use Rattle.dc_base.specs.declared.events.Line.{Line};
ghost use Rattle.dc_base.specs.declared.nodes.LinkId.{LinkId};
ghost use Rattle.dc_network.specs.Counting.{counted, counts_of_both, octets_of};
ghost use Rattle.transcript.specs.Transcript.{Entry, entry_lines};

use dc_base::{Flight, Line, Memory, Seq};
use std::alloc::Global;
use std::marker::Model;

/// How many events, flights and octets of flights lines have.
#[derive(Clone, Copy, Debug, PartialEq, Eq)]
pub struct Counts {
    pub events: u64,
    pub flights: u64,
    /// The octets of PDUs, packets and payloads, as sent.
    pub octets: u64,
}

// The octets that a flight counts.
fn octets_of(flight: &Flight) -> usize
    ensures { (l : LinkId) → result ≡ octets_of (l, flight.now) }
{
    match flight {
        Flight::Air { pdu, .. } => pdu.len(),
        Flight::Tun { packet, .. } => packet.len(),
        Flight::Sdu { sdu, .. } => sdu.len(),
        _ => 0,
    }
}

// What one line counts.
fn counts_of(line: &Line) -> Counts
    ensures { result ≡ counted (line.now ∷ []) }
{
    match line {
        Line::Event(_) => Counts {
            events: 1,
            flights: 0,
            octets: 0,
        },
        Line::Send(_, flight) => Counts {
            events: 0,
            flights: 1,
            octets: octets_of(flight) as u64,
        },
        _ => Counts::none(),
    }
}

impl Counts {
    /// Those of no lines.
    pub fn none() -> Counts
        ensures { result ≡ counted [] }
    {
        Counts {
            events: 0,
            flights: 0,
            octets: 0,
        }
    }

    // Both together. More than 2^64 - 1 of anything has no room in memory.
    fn with(self, other: Counts) -> Result<Counts, Memory>
        ensures { IfOk result (λ sum. sum ≡ counts_of_both self other) }
    {
        let events = self.events.checked_add(other.events).ok_or(Memory)?;
        let flights = self.flights.checked_add(other.flights).ok_or(Memory)?;
        let octets = self.octets.checked_add(other.octets).ok_or(Memory)?;
        Ok(Counts {
            events,
            flights,
            octets,
        })
    }

    // These with those of some more lines.
    fn with_lines(self, lines: &[Line]) -> Result<Counts, Memory>
        ensures { IfOk result (λ counts. counts ≡ counts_of_both self (counted lines.now)) }
    {
        let mut counts = self;
        for line in lines {
            counts = counts.with(counts_of(line))?;
        }
        Ok(counts)
    }

    /// The counts of all lines so far, where these are those before an event that gave the lines: its own line and its answer
    /// are counted with them. It answers `Memory` where a count passes 2^64 - 1, which no lines in memory come to.
    pub fn with_event(self, lines: &[Line]) -> Result<Counts, Memory>
        ensures { IfOk result (λ counts. (before : List Line) (x : Entry) → x.lines ≡ lines.now → counted before ≡ self → counted (before ++ entry_lines x) ≡ counts) }
    {
        let counts = self.with_lines(lines)?;
        counts.with(Counts {
            events: 1,
            flights: 0,
            octets: 0,
        })
    }
}

/// Lines, with their counts.
#[derive(Drop)]
pub struct CountedLines {
    lines: Seq<Line>,
    counts: Counts,
}

impl Model for CountedLines {
    ghost use Rattle.std.specs.Prelude.{◌≡◌, List};
    ghost use Rattle.dc_base.specs.declared.events.Line.{Line};
    ghost use Rattle.dc_network.specs.Counting.{counted};

    ghost Value = { List Line };

    ghost view = { λ a. a.lines };

    ghost invariant = { λ a. a.counts ≡ counted a.lines };
}

impl CountedLines {
    /// No lines.
    pub fn new(alloc: Global) -> CountedLines
        ensures { result ≡ [] }
    {
        CountedLines {
            lines: Seq::new(alloc),
            counts: Counts::none(),
        }
    }

    /// Adds a line at the end. After `Memory` the lines are as before.
    pub fn push(&mut self, line: Line) -> Result<(), Memory>
        ensures ok { OnOk result (self.new ≡ self.old ++ line ∷ []) }
        ensures err { OnErr result (self.new ≡ self.old) }
    {
        let counts = self.counts.with(counts_of(&line))?;
        self.lines.push(line)?;
        self.counts = counts;
        Ok(())
    }

    /// Adds lines at the end. After `Memory` there are some of them.
    pub fn append(&mut self, lines: Seq<Line>) -> Result<(), Memory>
        ensures { OnOk result (self.new ≡ self.old ++ lines) }
    {
        for line in lines.into_vec() {
            self.push(line)?;
        }
        Ok(())
    }

    /// The lines.
    pub fn lines(&self) -> &Seq<Line>
        ensures { result.now ≡ self.now }
    {
        &self.lines
    }

    /// The lines, handed out.
    pub fn into_lines(self) -> Seq<Line>
        ensures { result ≡ self }
    {
        self.lines
    }

    /// Their counts.
    pub fn counts(&self) -> Counts
        ensures { result ≡ counted self.now }
    {
        self.counts
    }
}
