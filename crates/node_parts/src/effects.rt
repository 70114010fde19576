//! What comes of a step of a node: notes and sends.

ghost use Rattle.std.specs.Prelude.{◌≡◌, ◌++◌, [], IfOk, OnOk};
ghost use Rattle.node_rules.specs.Effects.{both, noted, quiet, sent, told};
ghost use Rattle.node_rules.specs.Master.{handed_up};

use dc_base::{
    Answer, Class, Dir, DrbId, Flight, LinkId, Memory, Node, Note, Octets, Rec, Refusal, Seq,
};
use node_rules::{Effects, Outcome};
use std::alloc::Global;

/// Nothing comes of it.
pub fn quiet(alloc: Global) -> Effects
    ensures { result ≡ quiet }
{
    Effects {
        notes: Seq::new(alloc),
        sends: Seq::new(alloc),
    }
}

/// A note.
pub fn noted(alloc: Global, note: Note) -> Result<Effects, Memory>
    ensures { IfOk result (λ made. made ≡ noted note) }
{
    let mut notes = Seq::new(alloc);
    notes.push(note)?;
    Ok(Effects {
        notes,
        sends: Seq::new(alloc),
    })
}

/// A flight that is put on a link.
pub fn sent(alloc: Global, link: LinkId, flight: Flight) -> Result<Effects, Memory>
    ensures { IfOk result (λ made. made ≡ sent link flight) }
{
    let mut sends = Seq::new(alloc);
    sends.push((link, flight))?;
    Ok(sends_alone(alloc, sends))
}

/// A record for another node.
pub fn told(alloc: Global, from: Node, to: Node, record_sent: Rec) -> Result<Effects, Memory>
    ensures { IfOk result (λ made. made ≡ told from to record_sent) }
{
    sent(
        alloc,
        LinkId::new(from, to, Class::Ctl),
        Flight::Ctl(record_sent),
    )
}

/// Sends alone.
pub fn sends_alone(alloc: Global, sends: Seq<(LinkId, Flight)>) -> Effects
    ensures { result ≡ record { notes = []; sends = sends } }
{
    Effects {
        notes: Seq::new(alloc),
        sends,
    }
}

/// What comes later is added at the end.
pub fn add(effects: &mut Effects, later: Effects) -> Result<(), Memory>
    ensures { OnOk result (effects.new ≡ both effects.old later) }
{
    let Effects { notes, sends } = later;
    append(&mut effects.notes, notes)?;
    append(&mut effects.sends, sends)
}

// Adds a list at the end of another.
fn append<T: Drop>(list: &mut Seq<T>, more: Seq<T>) -> Result<(), Memory>
    ensures { OnOk result (list.new ≡ list.old ++ more) }
{
    for item in more.into_vec() {
        list.push(item)?;
    }
    Ok(())
}

/// The outcome of an input that is answered ok.
pub fn accepted(effects: Effects) -> Outcome
    ensures { result ≡ record { answer = Answer.Ok; notes = effects.notes; sends = effects.sends } }
{
    let Effects { notes, sends } = effects;
    Outcome {
        answer: Answer::Ok,
        notes,
        sends,
    }
}

/// The outcome of one that is refused.
pub fn turned_down(alloc: Global, why: Refusal) -> Outcome
    ensures { result ≡ record { answer = Answer.No why; notes = []; sends = [] } }
{
    Outcome {
        answer: Answer::No(why),
        notes: Seq::new(alloc),
        sends: Seq::new(alloc),
    }
}

/// The notes of what is handed up at a node.
pub fn handed_up(
    alloc: Global,
    node: Node,
    id: DrbId,
    dir: Dir,
    ups: Seq<(u32, Octets)>,
) -> Result<Seq<Note>, Memory>
    ensures { IfOk result (λ notes. notes ≡ handed_up node id dir ups) }
{
    let mut notes = Seq::new(alloc);
    for (count, sdu) in ups.into_vec() {
        notes.push(Note::Up {
            node,
            id,
            dir,
            count,
            sdu,
        })?;
    }
    Ok(notes)
}
