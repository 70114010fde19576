//! A transcript, read entry by entry.

ghost use Rattle.std.specs.Prelude.{◌≡◌, ◌+◌, ◌≤◌, ◌++◌, ◌∷◌, [], length, IfErr, IfNone, IfOk, IfSome, IsErrOf, IsSome, None, OnErr, OnOk};
ghost use Rattle.std.specs.List.{AllByRecursion};
ghost use Rattle.dc_base.specs.declared.events.Line.TheVariants as line;
ghost use Rattle.dc_outside.specs.Faults.{Rose};
ghost use Rattle.transcript_entries.specs.declared.fault.EntryFault.{EntryFault};
ghost use Rattle.transcript_entries.specs.Lines.{IsSettled, texts};
ghost use Rattle.transcript_entries.specs.Places.{IsRead, answering, within};
ghost use Rattle.transcript_entries.specs.Read.{GivesEntry, HaveReadUp, IsNoEvent, IsOpened, IsUnopened, IsUnread, ahead, event_line};

use crate::entry::ReadEntry;
use crate::fault::EntryFault;
use crate::lines::{next_line, take_answer, take_event, take_header};
use crate::sorts::event_of;
use dc_base::{Event, Header, Line, Seq};
use dc_outside::Source;
use dc_text::LineReader;
use std::alloc::Global;
use std::marker::Model;

/// Reads a transcript from a source, one entry at a time. It has taken the line of the event of the next entry, and no line
/// after it.
#[derive(Drop)]
pub struct EntryReader {
    alloc: Global,
    reader: LineReader,
    event: Option<Event>,
    taken: u32,
}

/// Contracts see how many lines were taken, the event of the next entry, and the reader of lines.
impl Model for EntryReader {
    ghost use Rattle.transcript_entries.specs.Read.{Entries};

    ghost Value = { Entries };

    ghost view = { λ r. record { taken = r.taken; event = r.event; reader = r.reader } };
}

/// The lines of an entry after its answer, the event after them, if there is one, and how many lines are taken then.
#[derive(Drop)]
struct Rest {
    lines: Seq<Line>,
    event: Option<Event>,
    taken: u32,
}

impl EntryReader {
    /// Reads the header and the line of the first event.
    pub fn open<S: Source>(
        alloc: Global,
        source: &mut S,
    ) -> Result<(Header, EntryReader), EntryFault>
        ensures opened { IfOk result (λ made. IsOpened (S.left source.old) (S.left source.new) made.0 made.1) }
        ensures few { IfOk result (λ made. made.1.taken ≤ 4294967295) }
        ensures unopened { IfErr result (λ f. IsUnopened f (S.left source.old)) }
        ensures kept { OnOk result (S.fault_count source.new ≡ S.fault_count source.old) }
        ensures fault { IsErrOf result EntryFault.ReadFault → Rose (S.fault_count source.old) (S.fault_count source.new) }
    {
        let mut reader = LineReader::new(alloc);
        let header = take_header(&mut reader, source)?;
        let event = take_event(alloc, &mut reader, source, 1)?;
        let taken = taken_with(&event);
        Ok((
            header,
            EntryReader {
                alloc,
                reader,
                event,
                taken,
            },
        ))
    }

    /// The next entry, from the same source: `None` at the end of the transcript.
    pub fn next<S: Source>(&mut self, source: &mut S) -> Result<Option<ReadEntry>, EntryFault>
        ensures entry { IsSettled (ahead self.old.reader (S.left source.old)) → IfOk result (λ found. IfSome found (GivesEntry self.old self.new (S.left source.old) (S.left source.new))) }
        ensures end { IfOk result (λ found. IfNone found (self.old.event ≡ None)) }
        ensures due { OnErr result (IsSome self.old.event) }
        ensures few { self.new.taken ≤ 4294967295 }
        ensures unread { IsSettled (ahead self.old.reader (S.left source.old)) → IfErr result (λ f. IsUnread f answering self.old.taken (ahead self.old.reader (S.left source.old))) }
        ensures kept { OnOk result (S.fault_count source.new ≡ S.fault_count source.old) }
        ensures fault { IsErrOf result EntryFault.ReadFault → Rose (S.fault_count source.old) (S.fault_count source.new) }
    {
        let number = self.taken;
        let Some(event) = self.event.take() else {
            return Ok(None);
        };
        if number == u32::MAX {
            return Err(EntryFault::TooLong);
        }
        let answer = take_answer(self.alloc, &mut self.reader, source, number)?;
        let rest = take_lines(self.alloc, &mut self.reader, source, number + 1)?;
        self.event = rest.event;
        self.taken = rest.taken;
        Ok(Some(ReadEntry {
            event,
            answer,
            lines: rest.lines,
            number,
        }))
    }
}

/// How many lines are taken with the header and the line of this event, if there is one.
fn taken_with(event: &Option<Event>) -> u32
    ensures { result ≡ 1 + length (event_line event.now) }
{
    match event {
        Some(_) => 2,
        None => 1,
    }
}

/// The lines up to the next event's, which is taken too, or to the end, after so many lines.
fn take_lines<S: Source>(
    alloc: Global,
    reader: &mut LineReader,
    source: &mut S,
    taken: u32,
) -> Result<Rest, EntryFault>
    ensures read { IsSettled (ahead reader.old (S.left source.old)) → IfOk result (λ r. HaveReadUp r.event (ahead reader.old (S.left source.old))
        (texts (r.lines ++ event_line r.event)) (ahead reader.new (S.left source.new))) }
    ensures good { IfOk result (λ r. AllByRecursion IsRead (r.lines ++ event_line r.event)) }
    ensures no_event { IfOk result (λ r. AllByRecursion IsNoEvent r.lines) }
    ensures taken { IfOk result (λ r. r.taken ≡ taken + length r.lines + length (event_line r.event)) }
    ensures unread { IsSettled (ahead reader.old (S.left source.old)) → IfErr result (λ f. IsUnread f within taken (ahead reader.old (S.left source.old))) }
    ensures kept { OnOk result (S.fault_count source.new ≡ S.fault_count source.old) }
    ensures fault { IsErrOf result EntryFault.ReadFault → Rose (S.fault_count source.old) (S.fault_count source.new) }
{
    let mut lines = Seq::new(alloc);
    for before in taken..u32::MAX {
        let number = before + 1;
        let Some(line) = next_line(alloc, reader, source, number)? else {
            return Ok(Rest {
                lines,
                event: None,
                taken: before,
            });
        };
        match event_of(line) {
            Ok(event) => {
                return Ok(Rest {
                    lines,
                    event: Some(event),
                    taken: number,
                });
            }
            Err(other) => lines.push(other)?,
        }
    }
    Err(EntryFault::TooLong)
}
