//! The lines of a transcript, counted one by one.

ghost use Rattle.std.specs.Prelude.{◌≡◌, ◌++◌, false, MatchOption, OnOk};
ghost use Rattle.dc_base.specs.declared.events.Line.TheVariants as line;
ghost use Rattle.summary.specs.Summed.{nothing, with_answer, with_line, with_lines, with_note};
ghost use Rattle.summary.specs.Texts.{bearers_text, summary_text};
ghost use Rattle.summary.specs.Totals.{IsLatest, is_there, with_concern, with_handed, with_latest, with_submitted};

use crate::tallies::{Concern, Tally, one_more};
use crate::writing::{write_count, write_tally};
use dc_base::{Answer, Dir, DrbId, Event, Line, Memory, Note, Octets};
use std::alloc::Global;
use std::marker::Model;

/// What the lines of a transcript so far come to. After a call that answers `Memory` it is not used again.
#[derive(Drop)]
pub struct Summary {
    /// The oldest establishment first.
    bearers: Vec<Tally>,
    events: u64,
    flights: u64,
    refused: u64,
    /// What the event just read may add.
    concern: Concern,
}

impl Model for Summary {
    ghost use Rattle.summary.specs.Summed.{Totals};

    ghost Value = { Totals };

    ghost view = { λ a. record { bearers = a.bearers.items; events = a.events; flights = a.flights; refused = a.refused; concern = a.concern } };
}

/// The place of the latest establishment of an identity.
fn latest(bearers: &[Tally], id: DrbId) -> Option<usize>
    ensures { MatchOption result (is_there id bearers.now ≡ false) (λ place. IsLatest id bearers.now place) }
{
    let mut place = bearers.len();
    while place > 0 {
        place -= 1;
        if bearers[place].id == id {
            return Some(place);
        }
    }
    None
}

/// One more payload of an identity was handed up.
#[tactic(auto, using(crate::proofs::Latest::none_changed, crate::proofs::Latest::latest_changed))]
fn hand_up(bearers: &mut Vec<Tally>, id: DrbId, dir: Dir) -> Result<(), Memory>
    ensures { OnOk result (bearers.new.items ≡ with_latest id (with_handed dir) bearers.old.items) }
{
    if let Some(place) = latest(bearers.as_slice(), id) {
        bearers[place] = bearers[place].with_handed(dir)?;
    }
    Ok(())
}

/// One more submission to an identity was answered ok.
#[tactic(auto, using(crate::proofs::Latest::none_changed, crate::proofs::Latest::latest_changed))]
fn submit(bearers: &mut Vec<Tally>, id: DrbId, dir: Dir) -> Result<(), Memory>
    ensures { OnOk result (bearers.new.items ≡ with_latest id (with_submitted dir) bearers.old.items) }
{
    if let Some(place) = latest(bearers.as_slice(), id) {
        bearers[place] = bearers[place].with_submitted(dir)?;
    }
    Ok(())
}

/// What an event adds that is answered ok.
fn accept(bearers: &mut Vec<Tally>, concern: Concern) -> Result<(), Memory>
    ensures { OnOk result (bearers.new.items ≡ with_concern concern bearers.old.items) }
{
    match concern {
        Concern::SetUp(id) => {
            bearers.push(Tally::new(id))?;
            Ok(())
        }
        Concern::Submission(id, dir) => submit(bearers, id, dir),
        Concern::Nothing => Ok(()),
    }
}

impl Summary {
    /// Of no lines.
    pub fn new(alloc: Global) -> Summary
        ensures { result ≡ nothing }
    {
        Summary {
            bearers: Vec::new(alloc),
            events: 0,
            flights: 0,
            refused: 0,
            concern: Concern::Nothing,
        }
    }

    /// Counts an event.
    pub fn add_event(&mut self, event: &Event) -> Result<(), Memory>
        ensures { OnOk result (self.new ≡ with_line self.old (line.Event event.now)) }
    {
        self.events = one_more(self.events)?;
        self.concern = Concern::of(event);
        Ok(())
    }

    /// Counts its answer.
    pub fn add_answer(&mut self, answer: Answer) -> Result<(), Memory>
        ensures { OnOk result (self.new ≡ with_answer self.old answer) }
    {
        match answer {
            Answer::Ok => accept(&mut self.bearers, self.concern),
            Answer::No(_) => {
                self.refused = one_more(self.refused)?;
                Ok(())
            }
        }
    }

    /// Counts a consequence that is no send.
    fn add_note(&mut self, note: &Note) -> Result<(), Memory>
        ensures { OnOk result (self.new ≡ with_note self.old note.now) }
    {
        match note {
            Note::Up { id, dir, .. } => hand_up(&mut self.bearers, *id, *dir),
            _ => Ok(()),
        }
    }

    /// Counts a line.
    pub fn add(&mut self, line: &Line) -> Result<(), Memory>
        ensures { OnOk result (self.new ≡ with_line self.old line.now) }
    {
        match line {
            Line::Event(event) => self.add_event(event),
            Line::Answer(answer) => self.add_answer(*answer),
            Line::Note(note) => self.add_note(note),
            Line::Send(_, _) => {
                self.flights = one_more(self.flights)?;
                Ok(())
            }
        }
    }

    /// Counts lines.
    pub fn add_all(&mut self, lines: &[Line]) -> Result<(), Memory>
        ensures { OnOk result (self.new ≡ with_lines self.old lines.now) }
    {
        for line in lines {
            self.add(line)?;
        }
        Ok(())
    }

    /// Writes the lines of all bearers, the oldest establishment first.
    pub fn write_bearers(&self, out: &mut Octets) -> Result<(), Memory>
        ensures { OnOk result (out.new ≡ out.old ++ bearers_text self.now.bearers) }
    {
        for tally in &self.bearers {
            write_tally(out, tally)?;
        }
        Ok(())
    }

    /// Writes the summary: the lines of all bearers, and how many events, flights and refusals there were.
    pub fn write(&self, out: &mut Octets) -> Result<(), Memory>
        ensures { OnOk result (out.new ≡ out.old ++ summary_text self.now) }
    {
        self.write_bearers(out)?;
        write_count(out, "events ", self.events)?;
        write_count(out, " flights ", self.flights)?;
        write_count(out, " refused ", self.refused)?;
        out.push(b'\n')
    }
}
