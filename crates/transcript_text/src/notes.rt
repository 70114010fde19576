//! Consequences, read: notes and sends.

ghost use Rattle.std.specs.Prelude.{◌≡◌, ◌∷◌, codes, IfOk, IfErr};
ghost use Rattle.transcript_text.specs.Fields.{fields_after_mark, mark_of};
ghost use Rattle.transcript_text.specs.Grammar.{AfterConsequence, IsSendFault};
ghost use Rattle.transcript_text.specs.Places.{FaultAt};
ghost use Rattle.transcript_text.specs.Ranges.{IsLine};
ghost use Rattle.transcript_text.specs.Spelling.{IsShown};
ghost use Rattle.transcript_text.specs.Words.{consequence_word};
ghost use Rattle.transcript_text.specs.declared.words.Mark.TheVariants as mark;

use crate::fault::LineFault;
use crate::field_reader::FieldReader;
use crate::flights::read_flight;
use crate::words::{Carried, Consequence};
use dc_base::{Dir, DrbId, Gen, Line, LinkId, Node, Note, Octets, Want, Word};
use std::alloc::Global;

/// The fields after the first word of a consequence.
pub fn read_consequence(
    alloc: Global,
    consequence: Consequence,
    fields: &mut FieldReader,
) -> Result<Line, LineFault>
    ensures read { IfOk result (λ l. fields_after_mark l ≡ consequence_word consequence ∷ fields.old.fields) }
    ensures mark { IfOk result (λ l. mark_of l ≡ mark.Consequence) }
    ensures range { IfOk result IsLine }
    ensures shown { IfOk result IsShown }
    ensures fault { IfErr result (λ f. FaultAt (AfterConsequence consequence) fields.old f) }
{
    match consequence {
        Consequence::Send => read_send(alloc, fields),
        Consequence::Begin => {
            let what: Want = fields.one(alloc)?;
            Ok(Line::Note(Note::Begin { what }))
        }
        Consequence::Join => {
            let (node, g): (Node, Gen) = fields.two(alloc)?;
            Ok(Line::Note(Note::Join { node, g }))
        }
        Consequence::Leave => {
            let (node, g): (Node, Gen) = fields.two(alloc)?;
            Ok(Line::Note(Note::Leave { node, g }))
        }
        Consequence::Give => {
            let (node, id, g): (Node, DrbId, Gen) = fields.three(alloc)?;
            Ok(Line::Note(Note::Give { node, id, g }))
        }
        Consequence::Own => {
            let (node, id, g): (Node, DrbId, Gen) = fields.three(alloc)?;
            Ok(Line::Note(Note::Own { node, id, g }))
        }
        Consequence::Set => {
            let (id, g): (DrbId, Gen) = fields.two(alloc)?;
            Ok(Line::Note(Note::Set { id, g }))
        }
        Consequence::Unset => {
            let id: DrbId = fields.one(alloc)?;
            Ok(Line::Note(Note::Unset { id }))
        }
        Consequence::Up => {
            let row: (Node, DrbId, Dir, u32, Octets) = fields.five(alloc)?;
            Ok(Line::Note(Note::Up {
                node: row.0,
                id: row.1,
                dir: row.2,
                count: row.3,
                sdu: row.4,
            }))
        }
        Consequence::Freed => {
            let (id, dir, count): (DrbId, Dir, u32) = fields.three(alloc)?;
            Ok(Line::Note(Note::Freed { id, dir, count }))
        }
        Consequence::Confirmed => {
            let node: Node = fields.one(alloc)?;
            Ok(Line::Note(Note::Confirmed { node }))
        }
        Consequence::Refused => {
            let (node, word): (Node, Word) = fields.two(alloc)?;
            Ok(Line::Note(Note::Refused { node, word }))
        }
        Consequence::Done => {
            fields.end()?;
            Ok(Line::Note(Note::Done))
        }
        Consequence::Rejected => {
            fields.end()?;
            Ok(Line::Note(Note::Rejected))
        }
    }
}

/// A link, and what is put on it.
fn read_send(alloc: Global, fields: &mut FieldReader) -> Result<Line, LineFault>
    ensures read { IfOk result (λ l. fields_after_mark l ≡ codes "send" ∷ fields.old.fields) }
    ensures mark { IfOk result (λ l. mark_of l ≡ mark.Consequence) }
    ensures range { IfOk result IsLine }
    ensures shown { IfOk result IsShown }
    ensures fault { IfErr result (λ f. FaultAt IsSendFault fields.old f) }
{
    let link: LinkId = fields.take(alloc)?;
    let carried: Carried = fields.keyword()?;
    let flight = read_flight(alloc, carried, fields)?;
    Ok(Line::Send(link, flight))
}
