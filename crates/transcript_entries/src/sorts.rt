//! The sorts of lines.

ghost use Rattle.std.specs.Prelude.{◌≡◌, IfErr, MatchResult, None};
ghost use Rattle.dc_base.specs.declared.events.Line.TheVariants as line;
ghost use Rattle.transcript_entries.specs.Places.{answering, opening, place_after_line};
ghost use Rattle.transcript_entries.specs.Read.{IsNoEvent};

use dc_base::{Answer, Event, Line};

/// The event of a line, or the line where it is none: then it may not stand where an event is due.
pub fn event_of(read: Line) -> Result<Event, Line>
    ensures event { MatchResult result (λ e. read ≡ line.Event e) (λ l. (l ≡ read) × IsNoEvent l) }
    ensures misplaced { IfErr result (λ l. place_after_line opening l ≡ None) }
{
    match read {
        Line::Event(event) => Ok(event),
        Line::Answer(answer) => Err(Line::Answer(answer)),
        Line::Note(note) => Err(Line::Note(note)),
        Line::Send(link, flight) => Err(Line::Send(link, flight)),
    }
}

/// The answer of a line, or the line where it is none: then it may not stand where an answer is due.
pub fn answer_of(read: Line) -> Result<Answer, Line>
    ensures answer { MatchResult result (λ a. read ≡ line.Answer a) (λ l. l ≡ read) }
    ensures misplaced { IfErr result (λ l. place_after_line answering l ≡ None) }
{
    match read {
        Line::Answer(answer) => Ok(answer),
        Line::Event(event) => Err(Line::Event(event)),
        Line::Note(note) => Err(Line::Note(note)),
        Line::Send(link, flight) => Err(Line::Send(link, flight)),
    }
}
