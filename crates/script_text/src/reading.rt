//! The lines of a script, read.

ghost use Rattle.std.specs.Prelude.{◌≡◌, ◌≢◌, ◌≤◌, ℕ, List, [], ◌∷◌, length, codes, IfOk, IfErr, IsTrue};
ghost use Rattle.std.specs.Fmt.{decimal};
ghost use Rattle.transcript.specs.Words.{dir_word, link_word};
ghost use Rattle.transcript.specs.Text.{header_text};
ghost use Rattle.dc_base.specs.Links.{is_link};
ghost use Rattle.script_text.specs.Grammar.{Kind, kinds, header_kinds, command_word, identity, payload, Linked, word_32, IsColumn, IsHeaderColumn};
ghost use Rattle.transcript.specs.Text.{event_text};
ghost use Rattle.script_text.specs.Scripts.{IsScripted, IsScriptHeader, IsIdentity, IsLineOf, IsFieldsOf};
ghost use Rattle.script_text.specs.declared.spelling.Command.TheVariants as command;
ghost use Rattle.script_text.specs.declared.scripted.Scripted.TheVariants.{One};
ghost use Rattle.script_text.specs.Places.{IsFaultAt, ForColumn};

use crate::field_reader::FieldReader;
use crate::scripted::{LineFault, Scripted};
use crate::spelling::{Command, SecondaryNode, command_of};
use dc_base::{Alg, Dir, DrbId, Event, Header, LinkId, Node, Shape, SnLen, Want};
use std::alloc::Global;

/// Reads the first line of a script, without its end. The line has at most 20,000 octets; it takes no memory.
///
/// `Column` exactly where the line is no header: the column, from 1, of the first field that is not allowed at its place
/// after the fields before it. A missing field has the column after the line's end.
pub fn read_header(line: &[u8]) -> Result<Header, LineFault>
    requires { length line.now ≤ 20000 }
    ensures read { IfOk result (λ h. IsScriptHeader h × (line.now ≡ header_text h)) }
    ensures column { IfErr result (λ f. ForColumn f (IsHeaderColumn line.now)) }
    ensures outside { IfErr result (λ f. ForColumn f (λ _. (h : Header) → IsScriptHeader h → line.now ≢ header_text h)) }
{
    let mut fields = FieldReader::new(line);
    fields.take_word("dcs1")?;
    let alg: Alg = fields.take()?;
    let used = fields.take_number(0, 65_536)?;
    let root: [u8; 32] = fields.take()?;
    fields.take_end()?;
    Ok(Header { alg, used, root })
}

/// Reads a line of a script after its first, without its end. The line has at most 20,000 octets.
///
/// `Column` exactly where the line is neither an event nor `drain`: the column, from 1, of the first field that is not
/// allowed at its place after the fields before it. A missing field has the column after the line's end. `Memory`
/// where there was none for a payload.
pub fn read_line(alloc: Global, line: &[u8]) -> Result<Scripted, LineFault>
    requires { length line.now ≤ 20000 }
    ensures read { IfOk result (λ s. IsLineOf s line.now) }
    ensures column { IfErr result (λ f. ForColumn f (IsColumn line.now)) }
    ensures event { (e : Event) → IsScripted e → line.now ≡ event_text e → IfOk result (λ s. s ≡ One e) }
    ensures outside { IfErr result (λ f. ForColumn f (λ _. (s : Scripted) → IsLineOf s line.now → ⊥)) }
{
    let mut fields = FieldReader::new(line);
    let word = fields.next_field()?;
    match command_of(word) {
        Some(command) => read_rest(alloc, command, &mut fields),
        None => Err(LineFault::Column(1)),
    }
}

/// The fields after the first word.
fn read_rest(
    alloc: Global,
    command: Command,
    fields: &mut FieldReader,
) -> Result<Scripted, LineFault>
    ensures read { IfOk result (λ s. IsFieldsOf s (command_word command ∷ fields.old.fields)) }
    ensures fault { IfErr result (λ f. IsFaultAt (kinds command fields.old.fields) fields.old f) }
{
    match command {
        Command::Bearer => bearer(fields),
        Command::Shape => reshape(fields),
        Command::Drop => {
            let id = only_identity(fields)?;
            Ok(Scripted::One(Event::Remove { id }))
        }
        Command::Add => add(fields),
        Command::Change => alone(fields, Event::Change),
        Command::Release => alone(fields, Event::Release),
        Command::Rekey => rekey(fields),
        Command::Recover => {
            let id = only_identity(fields)?;
            Ok(Scripted::One(Event::Recover { id }))
        }
        Command::Report => report(fields),
        Command::Deny => deny(fields),
        Command::Want => want(fields),
        Command::ScgFail => alone(fields, Event::ScgFail),
        Command::Ul => submit(alloc, fields, Dir::Ul),
        Command::Dl => submit(alloc, fields, Dir::Dl),
        Command::Step => {
            let (link, index) = flight(fields)?;
            Ok(Scripted::One(Event::Step { link, index }))
        }
        Command::Lose => {
            let (link, index) = flight(fields)?;
            Ok(Scripted::One(Event::Lose { link, index }))
        }
        Command::Again => {
            let (link, index) = flight(fields)?;
            Ok(Scripted::One(Event::Again { link, index }))
        }
        Command::Drain => {
            fields.take_end()?;
            Ok(Scripted::Drain)
        }
    }
}

/// The fields of a new bearer.
fn bearer(fields: &mut FieldReader) -> Result<Scripted, LineFault>
    ensures read { IfOk result (λ s. IsFieldsOf s (codes "bearer" ∷ fields.old.fields)) }
    ensures fault { IfErr result (λ f. IsFaultAt (kinds command.Bearer fields.old.fields) fields.old f) }
{
    let id: DrbId = fields.take()?;
    let n: SnLen = fields.take()?;
    let first = fields.take_number(0, u32::MAX - 1)?;
    let shape: Shape = fields.take()?;
    let threshold = fields.take_number(0, u32::MAX)?;
    let policy = fields.take_number(0, 255)?;
    fields.take_end()?;
    let policy = policy as u8;
    Ok(Scripted::One(Event::Bearer {
        id,
        n,
        first,
        shape,
        threshold,
        policy,
    }))
}

/// The fields of a change of shape.
fn reshape(fields: &mut FieldReader) -> Result<Scripted, LineFault>
    ensures read { IfOk result (λ s. IsFieldsOf s (codes "shape" ∷ fields.old.fields)) }
    ensures fault { IfErr result (λ f. IsFaultAt (kinds command.Shape fields.old.fields) fields.old f) }
{
    let id: DrbId = fields.take()?;
    let shape: Shape = fields.take()?;
    fields.take_end()?;
    Ok(Scripted::One(Event::Reshape { id, shape }))
}

/// The field of an addition.
fn add(fields: &mut FieldReader) -> Result<Scripted, LineFault>
    ensures read { IfOk result (λ s. IsFieldsOf s (codes "add" ∷ fields.old.fields)) }
    ensures fault { IfErr result (λ f. IsFaultAt (kinds command.Add fields.old.fields) fields.old f) }
{
    let secondary: SecondaryNode = fields.take()?;
    fields.take_end()?;
    Ok(Scripted::One(Event::Add { node: secondary.0 }))
}

/// The fields of a report.
fn report(fields: &mut FieldReader) -> Result<Scripted, LineFault>
    ensures read { IfOk result (λ s. IsFieldsOf s (codes "report" ∷ fields.old.fields)) }
    ensures fault { IfErr result (λ f. IsFaultAt (kinds command.Report fields.old.fields) fields.old f) }
{
    let node: Node = fields.take()?;
    let id: DrbId = fields.take()?;
    fields.take_end()?;
    Ok(Scripted::One(Event::Report { node, id }))
}

/// The fields of a denial.
fn deny(fields: &mut FieldReader) -> Result<Scripted, LineFault>
    ensures read { IfOk result (λ s. IsFieldsOf s (codes "deny" ∷ fields.old.fields)) }
    ensures fault { IfErr result (λ f. IsFaultAt (kinds command.Deny fields.old.fields) fields.old f) }
{
    let secondary: SecondaryNode = fields.take()?;
    let on: bool = fields.take()?;
    fields.take_end()?;
    Ok(Scripted::One(Event::Deny {
        node: secondary.0,
        on,
    }))
}

/// The fields of a secondary node's request.
fn want(fields: &mut FieldReader) -> Result<Scripted, LineFault>
    ensures read { IfOk result (λ s. IsFieldsOf s (codes "want" ∷ fields.old.fields)) }
    ensures fault { IfErr result (λ f. IsFaultAt (kinds command.Want fields.old.fields) fields.old f) }
{
    let secondary: SecondaryNode = fields.take()?;
    let what: Want = fields.take()?;
    fields.take_end()?;
    Ok(Scripted::One(Event::Ask {
        node: secondary.0,
        what,
    }))
}

/// No field: the event has none.
fn alone(fields: &mut FieldReader, event: Event) -> Result<Scripted, LineFault>
    ensures read { IfOk result (λ s. s ≡ One event) }
    ensures none { IfOk result (λ s. fields.old.fields ≡ []) }
    ensures fault { IfErr result (λ f. IsFaultAt [] fields.old f) }
{
    fields.take_end()?;
    Ok(Scripted::One(event))
}

/// An identity and no more.
fn only_identity(fields: &mut FieldReader) -> Result<DrbId, LineFault>
    ensures read { IfOk result (λ id. fields.old.fields ≡ decimal id ∷ []) }
    ensures range { IfOk result (λ id. IsIdentity id) }
    ensures fault { IfErr result (λ f. IsFaultAt (identity ∷ []) fields.old f) }
{
    let id: DrbId = fields.take()?;
    fields.take_end()?;
    Ok(id)
}

/// A link and a place on it.
fn flight(fields: &mut FieldReader) -> Result<(LinkId, u32), LineFault>
    ensures read { IfOk result (λ p. fields.old.fields ≡ link_word p.0 ∷ decimal p.1 ∷ []) }
    ensures range { IfOk result (λ p. IsTrue (is_link p.0) × (p.1 ≤ 4294967295)) }
    ensures fault { IfErr result (λ f. IsFaultAt (Linked ∷ word_32 ∷ []) fields.old f) }
{
    let link: LinkId = fields.take()?;
    let index = fields.take_number(0, u32::MAX)?;
    fields.take_end()?;
    Ok((link, index))
}

/// The fields of a submission.
fn submit(alloc: Global, fields: &mut FieldReader, dir: Dir) -> Result<Scripted, LineFault>
    ensures read { IfOk result (λ s. IsFieldsOf s (dir_word dir ∷ fields.old.fields)) }
    ensures fault { IfErr result (λ f. IsFaultAt (identity ∷ payload ∷ []) fields.old f) }
{
    let id: DrbId = fields.take()?;
    let sdu = fields.take_payload(alloc)?;
    fields.take_end()?;
    Ok(Scripted::One(Event::Submit { id, dir, sdu }))
}

/// The fields of a new key: `s`, or `m` and a root key.
fn rekey(fields: &mut FieldReader) -> Result<Scripted, LineFault>
    ensures read { IfOk result (λ s. IsFieldsOf s (codes "rekey" ∷ fields.old.fields)) }
    ensures fault { IfErr result (λ f. IsFaultAt (kinds command.Rekey fields.old.fields) fields.old f) }
{
    let column = fields.column();
    let side = fields.next_field()?;
    if side == b"m".as_slice() {
        let root: [u8; 32] = fields.take()?;
        fields.take_end()?;
        Ok(Scripted::One(Event::RekeyMaster { root }))
    } else if side == b"s".as_slice() {
        fields.take_end()?;
        Ok(Scripted::One(Event::RekeySecond))
    } else {
        Err(LineFault::Column(column))
    }
}
