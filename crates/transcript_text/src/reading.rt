//! The lines of a transcript, read.

ghost use Rattle.std.specs.Prelude.{◌≡◌, ◌∷◌, IfOk, IfErr};
ghost use Rattle.transcript_text.specs.Fields.{answer_fields, fields_after_mark, mark_of};
ghost use Rattle.transcript_text.specs.Grammar.{AfterMark, AfterVerdict, IsColumn, IsEventFault};
ghost use Rattle.transcript_text.specs.Places.{FaultAt, ForColumn};
ghost use Rattle.transcript_text.specs.Ranges.{IsLine};
ghost use Rattle.transcript_text.specs.Spelling.{IsShown, IsTextOf};
ghost use Rattle.transcript_text.specs.Words.{verdict_word};
ghost use Rattle.transcript_text.specs.declared.words.Mark.TheVariants as mark;

use crate::fault::LineFault;
use crate::field_reader::FieldReader;
use crate::notes::read_consequence;
use crate::words::{Consequence, Mark, Verdict};
use dc_base::{Answer, Line, Refusal};
use script_text::Scripted;
use std::alloc::Global;

/// The most octets of an event's line in a script.
const MAX_EVENT: usize = 20_000;

/// Reads a line of a transcript, without its end: an event with its mark, an answer, a note, or a send.
///
/// With `Ok` the octets are exactly the text of the line, and what no text shows of it is not there: keys have octets 0,
/// control PDUs have no COUNT beside them. `Column` exactly where the octets are the text of no line: the column, from 1,
/// of the first field that is not allowed at its place after the fields before it. A missing field has the column after
/// the line's end; the items of a plan, and keys in them, are each one place. `Memory` where there was none.
pub fn read_line(alloc: Global, octets: &[u8]) -> Result<Line, LineFault>
    ensures read { IfOk result (λ l. IsTextOf l octets.now) }
    ensures shown { IfOk result IsShown }
    ensures column { IfErr result (λ f. ForColumn f (IsColumn octets.now)) }
    ensures outside { IfErr result (λ f. ForColumn f (λ _. (l : Line) → IsTextOf l octets.now → ⊥)) }
{
    let mut fields = FieldReader::new(octets, b' ');
    let mark: Mark = fields.keyword()?;
    read_marked(alloc, mark, &mut fields)
}

/// The fields after the mark of a line.
fn read_marked(alloc: Global, mark: Mark, fields: &mut FieldReader) -> Result<Line, LineFault>
    requires { fields.old.separator ≡ 32 }
    ensures read { IfOk result (λ l. fields_after_mark l ≡ fields.old.fields) }
    ensures mark { IfOk result (λ l. mark_of l ≡ mark) }
    ensures range { IfOk result IsLine }
    ensures shown { IfOk result IsShown }
    ensures fault { IfErr result (λ f. FaultAt (AfterMark mark) fields.old f) }
{
    match mark {
        Mark::Event => read_event(alloc, fields),
        Mark::Answer => read_verdict(alloc, fields),
        Mark::Consequence => read_dashed(alloc, fields),
    }
}

/// The fields of an answer, with its first word.
fn read_verdict(alloc: Global, fields: &mut FieldReader) -> Result<Line, LineFault>
    ensures read { IfOk result (λ l. fields_after_mark l ≡ fields.old.fields) }
    ensures mark { IfOk result (λ l. mark_of l ≡ mark.Answer) }
    ensures range { IfOk result IsLine }
    ensures shown { IfOk result IsShown }
    ensures fault { IfErr result (λ f. FaultAt (AfterMark mark.Answer) fields.old f) }
{
    let verdict: Verdict = fields.keyword()?;
    let answer = read_answer(alloc, verdict, fields)?;
    Ok(Line::Answer(answer))
}

/// The fields of a consequence, with its first word.
fn read_dashed(alloc: Global, fields: &mut FieldReader) -> Result<Line, LineFault>
    ensures read { IfOk result (λ l. fields_after_mark l ≡ fields.old.fields) }
    ensures mark { IfOk result (λ l. mark_of l ≡ mark.Consequence) }
    ensures range { IfOk result IsLine }
    ensures shown { IfOk result IsShown }
    ensures fault { IfErr result (λ f. FaultAt (AfterMark mark.Consequence) fields.old f) }
{
    let consequence: Consequence = fields.keyword()?;
    read_consequence(alloc, consequence, fields)
}

/// The fields of an event.
fn read_event(alloc: Global, fields: &FieldReader) -> Result<Line, LineFault>
    requires { fields.now.separator ≡ 32 }
    ensures read { IfOk result (λ l. fields_after_mark l ≡ fields.now.fields) }
    ensures mark { IfOk result (λ l. mark_of l ≡ mark.Event) }
    ensures range { IfOk result IsLine }
    ensures shown { IfOk result IsShown }
    ensures fault { IfErr result (λ f. FaultAt IsEventFault fields.now f) }
{
    let at = fields.at();
    let Some(text) = fields.rest() else {
        return Err(LineFault::Column(at));
    };
    if text.len() > MAX_EVENT {
        return Err(LineFault::Column(at + MAX_EVENT + 1));
    }
    match script_text::read_line(alloc, text) {
        Ok(Scripted::One(event)) => Ok(Line::Event(event)),
        Ok(Scripted::Drain) => Err(LineFault::Column(at + 1)),
        Err(script_text::LineFault::Column(column)) => Err(LineFault::Column(at + column as usize)),
        Err(script_text::LineFault::Memory) => Err(LineFault::Memory),
    }
}

/// The fields after the first word of an answer.
fn read_answer(
    alloc: Global,
    verdict: Verdict,
    fields: &mut FieldReader,
) -> Result<Answer, LineFault>
    ensures read { IfOk result (λ a. answer_fields a ≡ verdict_word verdict ∷ fields.old.fields) }
    ensures fault { IfErr result (λ f. FaultAt (AfterVerdict verdict) fields.old f) }
{
    match verdict {
        Verdict::Ok => {
            fields.end()?;
            Ok(Answer::Ok)
        }
        Verdict::No => {
            let why: Refusal = fields.one(alloc)?;
            Ok(Answer::No(why))
        }
    }
}
