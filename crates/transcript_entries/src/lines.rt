//! The lines of a transcript, read one by one.

ghost use Rattle.std.specs.Prelude.{◌≡◌, ◌+◌, ◌<◌, ◌≤◌, ◌∷◌, [], length, IfErr, IfNone, IfOk, IfSome, IsErrOf, OnOk};
ghost use Rattle.std.specs.Io.KnownBytes.{IsAtEnd};
ghost use Rattle.std.specs.List.{AllByRecursion};
ghost use Rattle.dc_base.specs.declared.events.Line.TheVariants as line;
ghost use Rattle.dc_outside.specs.Faults.{Rose};
ghost use Rattle.dc_text.specs.Lines.{input};
ghost use Rattle.transcript.specs.Text.{header_text};
ghost use Rattle.script_text.specs.Scripts.{IsScriptHeader};
ghost use Rattle.transcript_entries.specs.declared.fault.EntryFault.{EntryFault};
ghost use Rattle.transcript_entries.specs.Lines.{HaveRead, IsSettled, text_of, texts};
ghost use Rattle.transcript_entries.specs.Places.{IsRead, answering, opening};
ghost use Rattle.transcript_entries.specs.Read.{HaveReadUp, IsNoHeader, IsNoLineNext, IsUncut, IsUnread, ahead, event_line};

use crate::fault::EntryFault;
use crate::sorts::{answer_of, event_of};
use dc_base::{Answer, Event, Header, Line, Octets};
use dc_outside::Source;
use dc_text::{LineErr, LineReader};
use std::alloc::Global;

/// The next line of a source as it stands: `None` at the end.
fn next_text<S: Source>(
    reader: &mut LineReader,
    source: &mut S,
) -> Result<Option<Octets>, EntryFault>
    ensures line { IfOk result (λ found. IfSome found (λ line.
        HaveRead (ahead reader.old (S.left source.old)) (line ∷ []) (ahead reader.new (S.left source.new)))) }
    ensures short { IfOk result (λ found. IfSome found (λ line. length line ≤ 20000)) }
    ensures end { IsSettled (ahead reader.old (S.left source.old)) → IfOk result (λ found. IfNone found
        (IsAtEnd (input reader.old (S.left source.old)) × IsAtEnd (input reader.new (S.left source.new)))) }
    ensures uncut { IfErr result (λ f. IsUncut f (ahead reader.old (S.left source.old))) }
    ensures kept { OnOk result (S.fault_count source.new ≡ S.fault_count source.old) }
    ensures fault { IsErrOf result EntryFault.ReadFault → Rose (S.fault_count source.old) (S.fault_count source.new) }
{
    match reader.next(source) {
        Ok(found) => Ok(found),
        Err(LineErr::ReadFault) => Err(EntryFault::ReadFault),
        Err(LineErr::LineTooLong) => Err(EntryFault::TooLong),
        Err(LineErr::TotalTooLong) => Err(EntryFault::TooLong),
        Err(LineErr::Memory) => Err(EntryFault::Memory),
    }
}

/// The header. An input without a line is bad at line 1, column 1.
pub fn take_header<S: Source>(reader: &mut LineReader, source: &mut S) -> Result<Header, EntryFault>
    ensures header { IfOk result IsScriptHeader }
    ensures read { IfOk result (λ h.
        HaveRead (ahead reader.old (S.left source.old)) (header_text h ∷ []) (ahead reader.new (S.left source.new))) }
    ensures unread { IsSettled (ahead reader.old (S.left source.old)) → reader.old.passed ≡ 0 → IfErr result (λ f. IsNoHeader f (input reader.old (S.left source.old))) }
    ensures kept { OnOk result (S.fault_count source.new ≡ S.fault_count source.old) }
    ensures fault { IsErrOf result EntryFault.ReadFault → Rose (S.fault_count source.old) (S.fault_count source.new) }
{
    let Some(line) = next_text(reader, source)? else {
        return Err(EntryFault::BadLine { line: 1, column: 1 });
    };
    match script_text::read_header(line.as_slice()) {
        Ok(header) => Ok(header),
        Err(script_text::LineFault::Column(column)) => Err(EntryFault::BadLine {
            line: 1,
            column: column as usize,
        }),
        Err(script_text::LineFault::Memory) => Err(EntryFault::Memory),
    }
}

/// The next line, which has this number: `None` at the end.
pub fn next_line<S: Source>(
    alloc: Global,
    reader: &mut LineReader,
    source: &mut S,
    number: u32,
) -> Result<Option<Line>, EntryFault>
    ensures read { IfOk result (λ found. IfSome found (λ l.
        HaveRead (ahead reader.old (S.left source.old)) (text_of l ∷ []) (ahead reader.new (S.left source.new)))) }
    ensures good { IfOk result (λ found. IfSome found IsRead) }
    ensures end { IsSettled (ahead reader.old (S.left source.old)) → IfOk result (λ found. IfNone found
        (IsAtEnd (input reader.old (S.left source.old)) × IsAtEnd (input reader.new (S.left source.new)))) }
    ensures unread { IfErr result (λ f. IsNoLineNext f number (ahead reader.old (S.left source.old))) }
    ensures kept { OnOk result (S.fault_count source.new ≡ S.fault_count source.old) }
    ensures fault { IsErrOf result EntryFault.ReadFault → Rose (S.fault_count source.old) (S.fault_count source.new) }
{
    let Some(text) = next_text(reader, source)? else {
        return Ok(None);
    };
    match transcript_text::read_line(alloc, text.as_slice()) {
        Ok(line) => Ok(Some(line)),
        Err(transcript_text::LineFault::Column(column)) => Err(EntryFault::BadLine {
            line: number,
            column,
        }),
        Err(transcript_text::LineFault::Memory) => Err(EntryFault::Memory),
    }
}

/// The first event, after so many lines: `None` at the end.
pub fn take_event<S: Source>(
    alloc: Global,
    reader: &mut LineReader,
    source: &mut S,
    taken: u32,
) -> Result<Option<Event>, EntryFault>
    requires { taken < 4294967295 }
    ensures read { IsSettled (ahead reader.old (S.left source.old)) → IfOk result (λ event.
        HaveReadUp event (ahead reader.old (S.left source.old)) (texts (event_line event)) (ahead reader.new (S.left source.new))) }
    ensures good { IfOk result (λ event. AllByRecursion IsRead (event_line event)) }
    ensures unread { IfErr result (λ f. IsUnread f opening taken (ahead reader.old (S.left source.old))) }
    ensures kept { OnOk result (S.fault_count source.new ≡ S.fault_count source.old) }
    ensures fault { IsErrOf result EntryFault.ReadFault → Rose (S.fault_count source.old) (S.fault_count source.new) }
{
    let number = taken + 1;
    let Some(line) = next_line(alloc, reader, source, number)? else {
        return Ok(None);
    };
    match event_of(line) {
        Ok(event) => Ok(Some(event)),
        Err(_other) => Err(misplaced(number)),
    }
}

/// The answer of an event, after so many lines.
pub fn take_answer<S: Source>(
    alloc: Global,
    reader: &mut LineReader,
    source: &mut S,
    taken: u32,
) -> Result<Answer, EntryFault>
    requires { taken < 4294967295 }
    ensures read { IfOk result (λ answer.
        HaveRead (ahead reader.old (S.left source.old)) (text_of (line.Answer answer) ∷ []) (ahead reader.new (S.left source.new))) }
    ensures unread { IsSettled (ahead reader.old (S.left source.old)) → IfErr result (λ f. IsUnread f answering taken (ahead reader.old (S.left source.old))) }
    ensures kept { OnOk result (S.fault_count source.new ≡ S.fault_count source.old) }
    ensures fault { IsErrOf result EntryFault.ReadFault → Rose (S.fault_count source.old) (S.fault_count source.new) }
{
    let number = taken + 1;
    let Some(line) = next_line(alloc, reader, source, number)? else {
        return Err(misplaced(number));
    };
    match answer_of(line) {
        Ok(answer) => Ok(answer),
        Err(_other) => Err(misplaced(number)),
    }
}

/// A line of the wrong sort, or none where an answer is due.
fn misplaced(number: u32) -> EntryFault
    ensures { result ≡ EntryFault.BadLine number 1 }
{
    EntryFault::BadLine {
        line: number,
        column: 1,
    }
}
