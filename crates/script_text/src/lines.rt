//! Lines, written. After want of memory what was written is not used.

ghost use Rattle.std.specs.Prelude.{◌≡◌, ◌++◌, ◌∷◌, [], OnOk, IfOk};
ghost use Rattle.std.specs.Fmt.{decimal};
ghost use Rattle.transcript.specs.Text.{header_text, event_text, answer_text, note_text, line_text, lines_text, ended, mark};
ghost use Rattle.transcript.specs.Words.{spaced, link_word, node_word};
ghost use Rattle.dc_base.specs.declared.events.Event.TheVariants.{Bearer};
ghost use Rattle.dc_base.specs.declared.events.Line.TheVariants.{Send};
ghost use Rattle.dc_base.specs.declared.events.Note.TheVariants.{Up};
ghost use Rattle.script_text.specs.Fields.{field_text};

use crate::fields::{Field, write_field, write_spaced};
use crate::flights::write_flight;
use crate::words::write_link;
use dc_base::{
    Answer, Dir, DrbId, Event, Flight, Gen, Header, Line, LinkId, Memory, Node, Note, Octets,
    Shape, SnLen,
};
use dc_text::write_text;
use std::alloc::Global;

/// Writes the first line of a transcript: the header as a script has it, with its end. The only error is want of
/// memory.
pub fn write_first(out: &mut Octets, header: &Header) -> Result<(), Memory>
    ensures { OnOk result (out.new ≡ out.old ++ ended (header_text header.now)) }
{
    let fields = [
        Field::Text("dcs1"),
        Field::Alg(header.alg),
        Field::Number(header.used),
        Field::Root(&header.root),
    ];
    write_spaced(out, &fields)?;
    out.push(b'\n')
}

/// Writes lines of a transcript, each with its mark and its end.
pub fn write_lines(out: &mut Octets, lines: &[Line]) -> Result<(), Memory>
    ensures { OnOk result (out.new ≡ out.old ++ lines_text lines.now) }
{
    for line in lines {
        write_ended(out, line)?;
    }
    Ok(())
}

/// Writes a line of a transcript with its mark and its end.
fn write_ended(out: &mut Octets, line: &Line) -> Result<(), Memory>
    ensures { OnOk result (out.new ≡ out.old ++ ended (mark line.now ++ line_text line.now)) }
{
    if let Line::Event(_) = line {
        write_text(out, "> ")?;
    }
    write_bare(out, line)?;
    out.push(b'\n')
}

/// A line of a transcript without its end, and an event without its mark `> `, as a script has it. The only error
/// is want of memory.
pub fn write_line(alloc: Global, line: &Line) -> Result<Octets, Memory>
    ensures { IfOk result (λ text. text ≡ line_text line.now) }
{
    let mut out = Octets::new(alloc);
    write_bare(&mut out, line)?;
    Ok(out)
}

/// Writes a line without its end, and an event without its mark.
fn write_bare(out: &mut Octets, line: &Line) -> Result<(), Memory>
    ensures { OnOk result (out.new ≡ out.old ++ line_text line.now) }
{
    match line {
        Line::Event(event) => write_event(out, event),
        Line::Answer(answer) => {
            write_text(out, "= ")?;
            write_answer(out, *answer)
        }
        Line::Note(note) => {
            write_text(out, "- ")?;
            write_note(out, note)
        }
        Line::Send(link, flight) => write_send(out, *link, flight),
    }
}

/// Writes an event as a script has it, without its mark and its end. The only error is want of memory.
pub fn write_event(out: &mut Octets, event: &Event) -> Result<(), Memory>
    ensures { OnOk result (out.new ≡ out.old ++ event_text event.now) }
{
    match event {
        Event::Bearer {
            id,
            n,
            first,
            shape,
            threshold,
            policy,
        } => write_bearer(out, *id, *n, *first, *shape, *threshold, *policy),
        Event::Reshape { id, shape } => {
            write_with_two(out, "shape", &Field::Id(*id), &Field::Shape(*shape))
        }
        Event::Remove { id } => write_spaced(out, &[Field::Text("drop"), Field::Id(*id)]),
        Event::Add { node } => write_spaced(out, &[Field::Text("add"), Field::Node(*node)]),
        Event::Change => write_text(out, "change"),
        Event::Release => write_text(out, "release"),
        Event::RekeySecond => write_text(out, "rekey s"),
        Event::RekeyMaster { root } => {
            write_with_two(out, "rekey", &Field::Text("m"), &Field::Root(root))
        }
        Event::Recover { id } => write_spaced(out, &[Field::Text("recover"), Field::Id(*id)]),
        Event::Report { node, id } => write_with_node(out, "report", *node, &Field::Id(*id)),
        Event::Deny { node, on } => write_with_node(out, "deny", *node, &Field::State(*on)),
        Event::Ask { node, what } => write_with_node(out, "want", *node, &Field::Want(*what)),
        Event::ScgFail => write_text(out, "scgfail"),
        Event::Submit { id, dir, sdu } => {
            write_spaced(
                out,
                &[Field::Dir(*dir), Field::Id(*id), Field::Payload(sdu)],
            )
        }
        Event::Step { link, index } => write_at_link(out, "step", *link, *index),
        Event::Lose { link, index } => write_at_link(out, "lose", *link, *index),
        Event::Again { link, index } => write_at_link(out, "again", *link, *index),
    }
}

/// Writes a bearer: what it is set up with.
fn write_bearer(
    out: &mut Octets,
    id: DrbId,
    n: SnLen,
    first: u32,
    shape: Shape,
    threshold: u32,
    policy: u8,
) -> Result<(), Memory>
    ensures { OnOk result (out.new ≡ out.old ++ event_text (Bearer id n first shape threshold policy)) }
{
    write_spaced(
        out,
        &[
            Field::Text("bearer"),
            Field::Id(id),
            Field::Sn(n),
            Field::Number(first),
            Field::Shape(shape),
            Field::Number(threshold),
            Field::Number(u32::from(policy)),
        ],
    )
}

/// Writes a word and two fields.
fn write_with_two(out: &mut Octets, word: &str, first: &Field, second: &Field) -> Result<(), Memory>
    ensures { OnOk result (out.new ≡ out.old ++ spaced (word.now ∷ field_text first.now ∷ field_text second.now ∷ [])) }
{
    write_text(out, word)?;
    out.push(b' ')?;
    write_field(out, first)?;
    out.push(b' ')?;
    write_field(out, second)
}

/// Writes a word, a node and a field.
fn write_with_node(out: &mut Octets, word: &str, node: Node, field: &Field) -> Result<(), Memory>
    ensures { OnOk result (out.new ≡ out.old ++ spaced (word.now ∷ node_word node ∷ field_text field.now ∷ [])) }
{
    write_with_two(out, word, &Field::Node(node), field)
}

/// Writes what happens to a flight: the word, the link, the place on it.
fn write_at_link(out: &mut Octets, word: &str, link: LinkId, index: u32) -> Result<(), Memory>
    ensures { OnOk result (out.new ≡ out.old ++ spaced (word.now ∷ link_word link ∷ decimal index ∷ [])) }
{
    write_with_two(out, word, &Field::Link(link), &Field::Number(index))
}

/// Writes an answer.
fn write_answer(out: &mut Octets, answer: Answer) -> Result<(), Memory>
    ensures { OnOk result (out.new ≡ out.old ++ answer_text answer) }
{
    match answer {
        Answer::Ok => write_text(out, "ok"),
        Answer::No(why) => write_spaced(out, &[Field::Text("no"), Field::Refusal(why)]),
    }
}

/// Writes a note.
fn write_note(out: &mut Octets, note: &Note) -> Result<(), Memory>
    ensures { OnOk result (out.new ≡ out.old ++ note_text note.now) }
{
    match note {
        Note::Begin { what } => write_spaced(out, &[Field::Text("begin"), Field::Want(*what)]),
        Note::Join { node, g } => write_with_node(out, "join", *node, &Field::Number(*g)),
        Note::Leave { node, g } => write_with_node(out, "leave", *node, &Field::Number(*g)),
        Note::Give { node, id, g } => write_held(out, "give", *node, *id, *g),
        Note::Own { node, id, g } => write_held(out, "own", *node, *id, *g),
        Note::Set { id, g } => write_with_two(out, "set", &Field::Id(*id), &Field::Number(*g)),
        Note::Unset { id } => write_spaced(out, &[Field::Text("unset"), Field::Id(*id)]),
        Note::Up {
            node,
            id,
            dir,
            count,
            sdu,
        } => write_up(out, *node, *id, *dir, *count, sdu),
        Note::Freed { id, dir, count } => write_spaced(
            out,
            &[
                Field::Text("freed"),
                Field::Id(*id),
                Field::Dir(*dir),
                Field::Number(*count),
            ],
        ),
        Note::Confirmed { node } => {
            write_spaced(out, &[Field::Text("confirmed"), Field::Node(*node)])
        }
        Note::Refused { node, word } => {
            write_with_node(out, "refused", *node, &Field::Cause(*word))
        }
        Note::Done => write_text(out, "done"),
        Note::Rejected => write_text(out, "rejected"),
    }
}

/// Writes what a node holds of a bearer from now on: the word, the node, the bearer, the generation.
fn write_held(out: &mut Octets, word: &str, node: Node, id: DrbId, g: Gen) -> Result<(), Memory>
    ensures { OnOk result (out.new ≡ out.old ++ spaced (word.now ∷ node_word node ∷ decimal id ∷ decimal g ∷ [])) }
{
    write_spaced(
        out,
        &[
            Field::Text(word),
            Field::Node(node),
            Field::Id(id),
            Field::Number(g),
        ],
    )
}

/// Writes an SDU that is delivered.
fn write_up(
    out: &mut Octets,
    node: Node,
    id: DrbId,
    dir: Dir,
    count: u32,
    sdu: &Octets,
) -> Result<(), Memory>
    ensures { OnOk result (out.new ≡ out.old ++ note_text (Up node id dir count sdu.now)) }
{
    write_spaced(
        out,
        &[
            Field::Text("up"),
            Field::Node(node),
            Field::Id(id),
            Field::Dir(dir),
            Field::Number(count),
            Field::Payload(sdu),
        ],
    )
}

/// Writes a flight that is put at the end of a link.
fn write_send(out: &mut Octets, link: LinkId, flight: &Flight) -> Result<(), Memory>
    ensures { OnOk result (out.new ≡ out.old ++ line_text (Send link flight.now)) }
{
    write_text(out, "- send ")?;
    write_link(out, link)?;
    out.push(b' ')?;
    write_flight(out, flight)
}
