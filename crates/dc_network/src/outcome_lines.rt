//! The lines of an outcome, in their order.

ghost use Rattle.std.specs.Prelude.{◌≡◌, ◌==◌, ◌++◌, ◌||◌, IfOk, OnOk, false, filter, map, not};
ghost use Rattle.std.specs.List.{flat_map, list_any};
ghost use Rattle.dc_base.specs.Links.{is_same_link};
ghost use Rattle.dc_network.specs.Apart.{AreApart};
ghost use Rattle.node_rules.specs.Lines.{ended, is_end, is_idle_release, lines_of, notes_after, notes_at, notes_before, opens_release, ordered, place, sends_after, sends_before, sends_on};

use dc_base::{Flight, Line, LinkId, Memory, Note, Rec, Seq};
use node_rules::Outcome;
use std::alloc::Global;

/// Where a note stands among the notes of an event; the sends stand after place 4.
fn place(note: &Note) -> u8
    ensures { result ≡ place note.now }
{
    match note {
        Note::Begin { .. } => 0,
        Note::Join { .. } => 1,
        Note::Leave { .. } => 1,
        Note::Give { .. } => 2,
        Note::Own { .. } => 2,
        Note::Set { .. } => 2,
        Note::Unset { .. } => 2,
        Note::Up { .. } => 3,
        Note::Freed { .. } => 4,
        Note::Confirmed { .. } => 5,
        Note::Refused { .. } => 5,
        Note::Done => 6,
        Note::Rejected => 6,
    }
}

/// Whether a note says that the open command ended.
fn is_end(note: &Note) -> bool
    ensures { result ≡ is_end note.now }
{
    match note {
        Note::Done => true,
        Note::Rejected => true,
        _ => false,
    }
}

/// Whether a send tells a secondary that nothing has to be released.
fn is_idle_release(flight: &Flight) -> bool
    ensures { (l : LinkId) → result ≡ is_idle_release (l, flight.now) }
{
    match flight {
        Flight::Ctl(Rec::Relcnf { plan }) => plan.g == 0,
        _ => false,
    }
}

/// Whether the sends of a release begin with this one.
fn opens_release(flight: &Flight) -> bool
    ensures value { (l : LinkId) → result ≡ opens_release (l, flight.now) }
    ensures idle { (l : LinkId) → result ≡ false → is_idle_release (l, flight.now) ≡ false }
{
    match flight {
        Flight::Ctl(Rec::Reconf { .. }) => true,
        Flight::Ctl(Rec::Relcnf { plan }) => plan.g == 0,
        _ => false,
    }
}

/// Whether the sends of a release have begun, with this one.
fn has_begun(begun: bool, flight: &Flight) -> bool
    ensures value { (l : LinkId) → result ≡ (begun || opens_release (l, flight.now)) }
    ensures idle { (l : LinkId) → result ≡ false → is_idle_release (l, flight.now) ≡ false }
{
    begun || opens_release(flight)
}

/// Whether one of the notes stands at this place.
fn has_note_at(notes: &[Note], at: u8) -> bool
    ensures { result ≡ list_any (λ x. place x == at) notes.now }
{
    notes.iter().any(|note| place(note) == at)
}

/// Whether one of the sends is on this link.
fn has_send_on(sends: &[(LinkId, Flight)], link: LinkId) -> bool
    ensures { result ≡ list_any (λ s. is_same_link link s.0) sends.now }
{
    sends
        .iter()
        .any(|(on, _flight)| link.number() == on.number())
}

/// Writes the notes of a place, and gives the others back, each in their order. Where none stands there, none moves.
fn write_place(
    alloc: Global,
    notes: Vec<Note>,
    at: u8,
    lines: &mut Seq<Line>,
) -> Result<Vec<Note>, Memory>
    ensures others { IfOk result (λ others. others.items ≡ filter (λ x. not (place x == at)) notes.items) }
    ensures written { OnOk result (lines.new ≡ lines.old ++ notes_at notes.items at) }
{
    if !has_note_at(notes.as_slice(), at) {
        return Ok(notes);
    }
    let mut others = Vec::new(alloc);
    for note in notes {
        if place(&note) == at {
            lines.push(Line::Note(note))?;
        } else {
            others.push(note)?;
        }
    }
    Ok(others)
}

/// Writes the sends on a link, and gives the others back, each in their order. Where none is on it, none moves.
fn write_link(
    alloc: Global,
    sends: Vec<(LinkId, Flight)>,
    link: LinkId,
    lines: &mut Seq<Line>,
) -> Result<Vec<(LinkId, Flight)>, Memory>
    ensures others { IfOk result (λ others. others.items ≡ filter (λ s. not (is_same_link link s.0)) sends.items) }
    ensures written { OnOk result (lines.new ≡ lines.old ++ sends_on sends.items link) }
{
    if !has_send_on(sends.as_slice(), link) {
        return Ok(sends);
    }
    let mut others = Vec::new(alloc);
    for (on, flight) in sends {
        if link.number() == on.number() {
            lines.push(Line::Send(on, flight))?;
        } else {
            others.push((on, flight))?;
        }
    }
    Ok(others)
}

/// Writes the sends on these links, in the order of the links.
fn write_links(
    alloc: Global,
    sends: Vec<(LinkId, Flight)>,
    links: &[LinkId],
    lines: &mut Seq<Line>,
) -> Result<(), Memory>
    requires { AreApart links.now }
    ensures { OnOk result (lines.new ≡ lines.old ++ flat_map (sends_on sends.items) links.now) }
{
    let mut left = sends;
    for link in links {
        left = write_link(alloc, left, *link, lines)?;
    }
    Ok(())
}

/// Writes notes and sends, where no second command begins among them.
fn write_ordered(
    alloc: Global,
    notes: Vec<Note>,
    sends: Vec<(LinkId, Flight)>,
    lines: &mut Seq<Line>,
) -> Result<(), Memory>
    ensures { OnOk result (lines.new ≡ lines.old ++ ordered notes.items sends.items) }
{
    let notes = write_place(alloc, notes, 0, lines)?;
    let notes = write_place(alloc, notes, 1, lines)?;
    let notes = write_place(alloc, notes, 2, lines)?;
    let notes = write_place(alloc, notes, 3, lines)?;
    let notes = write_place(alloc, notes, 4, lines)?;
    write_links(alloc, sends, &LinkId::all(), lines)?;
    let notes = write_place(alloc, notes, 5, lines)?;
    write_place(alloc, notes, 6, lines)?;
    Ok(())
}

/// The notes up to the first end of a command, with it, and the notes after it.
fn notes_apart(alloc: Global, notes: Vec<Note>) -> Result<(Vec<Note>, Vec<Note>), Memory>
    ensures before { IfOk result (λ x. x.0.items ≡ notes_before notes.items) }
    ensures after { IfOk result (λ x. x.1.items ≡ notes_after notes.items) }
{
    let mut before = Vec::new(alloc);
    let mut after = Vec::new(alloc);
    let mut ended = false;
    for note in notes {
        if ended {
            after.push(note)?;
        } else {
            ended = is_end(&note);
            before.push(note)?;
        }
    }
    Ok((before, after))
}

/// Sends in which a release begins: those before it, the answers that nothing has to be released, and those of the release.
#[derive(Drop)]
struct Sends {
    before: Vec<(LinkId, Flight)>,
    idle: Vec<(LinkId, Flight)>,
    after: Vec<(LinkId, Flight)>,
}

/// The sends before the first of a release, the answers that nothing has to be released, and the others from that one on.
fn sends_apart(alloc: Global, sends: Vec<(LinkId, Flight)>) -> Result<Sends, Memory>
    ensures before { IfOk result (λ x. x.before.items ≡ sends_before sends.items) }
    ensures idle { IfOk result (λ x. x.idle.items ≡ filter is_idle_release sends.items) }
    ensures after { IfOk result (λ x. x.after.items ≡ sends_after sends.items) }
{
    let mut apart = Sends {
        before: Vec::new(alloc),
        idle: Vec::new(alloc),
        after: Vec::new(alloc),
    };
    let mut begun = false;
    for (link, flight) in sends {
        begun = has_begun(begun, &flight);
        if !begun {
            apart.before.push((link, flight))?;
        } else if is_idle_release(&flight) {
            apart.idle.push((link, flight))?;
        } else {
            apart.after.push((link, flight))?;
        }
    }
    Ok(apart)
}

/// Writes these sends.
fn write_sends(sends: Vec<(LinkId, Flight)>, lines: &mut Seq<Line>) -> Result<(), Memory>
    ensures { OnOk result (lines.new ≡ lines.old ++ map (λ s. Line.Send s.0 s.1) sends.items) }
{
    for (link, flight) in sends {
        lines.push(Line::Send(link, flight))?;
    }
    Ok(())
}

/// Writes notes and sends of an event in which a command ends: those of the command; then each answer that nothing has to be
/// released; then those of the release that begins.
fn write_ended(
    alloc: Global,
    notes: Vec<Note>,
    sends: Vec<(LinkId, Flight)>,
    lines: &mut Seq<Line>,
) -> Result<(), Memory>
    ensures { OnOk result (lines.new ≡ lines.old ++ ended notes.items sends.items) }
{
    let (notes_before, notes_after) = notes_apart(alloc, notes)?;
    let sends = sends_apart(alloc, sends)?;
    let Sends {
        before,
        idle,
        after,
    } = sends;
    write_ordered(alloc, notes_before, before, lines)?;
    write_sends(idle, lines)?;
    write_ordered(alloc, notes_after, after, lines)?;
    Ok(())
}

/// Whether a command ends by one of these notes.
fn has_end(notes: &[Note]) -> bool
    ensures { result ≡ list_any is_end notes.now }
{
    notes.iter().any(is_end)
}

/// The lines of an outcome after its answer, in their order.
pub fn lines_of(alloc: Global, outcome: Outcome) -> Result<Seq<Line>, Memory>
    ensures { IfOk result (λ lines. lines ≡ lines_of outcome) }
{
    let Outcome {
        answer: _,
        notes,
        sends,
    } = outcome;
    let notes = notes.into_vec();
    let sends = sends.into_vec();
    let mut lines = Seq::new(alloc);
    if has_end(notes.as_slice()) {
        write_ended(alloc, notes, sends, &mut lines)?;
        return Ok(lines);
    }
    write_ordered(alloc, notes, sends, &mut lines)?;
    Ok(lines)
}
