//! Of `summary`: transcripts worked by hand.

use dc_base::{
    Answer, Class, Dir, DrbId, Event, Flight, LegSet, Line, LinkId, Node, Note, Octets, Refusal,
    Shape, SnLen,
};
use std::alloc::Global;
use std::process::Abort;
use std::test::Fail;
use summary::{Concern, Summary, bearer_lines};

/// A line that sets up a bearer at the master.
fn set_up(id: DrbId) -> Line {
    Line::Event(Event::Bearer {
        id,
        n: SnLen::S12,
        first: 0,
        shape: Shape {
            at_second: false,
            legs: LegSet::Mcg,
            dup: false,
        },
        threshold: 0,
        policy: 0,
    })
}

/// A line that submits a payload.
fn submit(id: DrbId, dir: Dir, sdu: Octets) -> Line {
    Line::Event(Event::Submit { id, dir, sdu })
}

/// A line that hands one up.
fn hand_up(node: Node, id: DrbId, dir: Dir, sdu: Octets) -> Line {
    Line::Note(Note::Up {
        node,
        id,
        dir,
        count: 0,
        sdu,
    })
}

/// Three payloads.
fn payloads(alloc: Global) -> Result<[Octets; 3], Fail> {
    let one = Octets::from_slice(alloc, b"hi")?;
    let two = Octets::from_slice(alloc, b"yo")?;
    let three = Octets::from_slice(alloc, b"so")?;
    Ok([one, two, three])
}

/// A line that sends a confirm.
fn confirm(id: DrbId) -> Line {
    Line::Send(
        LinkId::new(Node::T, Node::M, Class::Air),
        Flight::Ack { id, g: 1, num: 0 },
    )
}

/// Whether the summary is this text after each further line.
fn are_counted(rt: &impl Abort, alloc: Global, rows: &[(Line, &str)]) -> Result<(), Fail> {
    let mut summary = Summary::new(alloc);
    for (line, text) in rows {
        summary.add(line)?;
        let mut written = Octets::new(alloc);
        summary.write(&mut written)?;
        assert_eq!(rt; written.as_slice(), text.as_bytes(), "{text}");
    }
    Ok(())
}

/// Lines of a bearer, and the summary after each of them.
fn counted_lines(id: DrbId, sdus: [Octets; 3]) -> [(Line, &'static str); 9] {
    let [dl, up, ul] = sdus;
    [
        (set_up(id), "events 1 flights 0 refused 0\n"),
        (
            Line::Answer(Answer::Ok),
            "1 dl 0/0\n1 ul 0/0\nevents 1 flights 0 refused 0\n",
        ),
        (
            submit(id, Dir::Dl, dl),
            "1 dl 0/0\n1 ul 0/0\nevents 2 flights 0 refused 0\n",
        ),
        (
            Line::Answer(Answer::Ok),
            "1 dl 0/1\n1 ul 0/0\nevents 2 flights 0 refused 0\n",
        ),
        (
            confirm(id),
            "1 dl 0/1\n1 ul 0/0\nevents 2 flights 1 refused 0\n",
        ),
        (
            hand_up(Node::T, id, Dir::Dl, up),
            "1 dl 1/1\n1 ul 0/0\nevents 2 flights 1 refused 0\n",
        ),
        (
            submit(id, Dir::Ul, ul),
            "1 dl 1/1\n1 ul 0/0\nevents 3 flights 1 refused 0\n",
        ),
        (
            Line::Answer(Answer::No(Refusal::Full)),
            "1 dl 1/1\n1 ul 0/0\nevents 3 flights 1 refused 1\n",
        ),
        (
            Line::Note(Note::Done),
            "1 dl 1/1\n1 ul 0/0\nevents 3 flights 1 refused 1\n",
        ),
    ]
}

#[test]
fn each_line_counts(rt: HostRuntime) -> Result<(), Fail> {
    let id = DrbId::new(1).ok_or("1 is an identity")?;
    let rows = counted_lines(id, payloads(rt.alloc())?);
    are_counted(&rt, rt.alloc(), &rows)
}

/// Lines of two establishments of a bearer; another one is refused.
fn lines_of_two(id: DrbId, other: DrbId, sdus: [Octets; 3]) -> [Line; 10] {
    let [up, ul, other_up] = sdus;
    [
        set_up(id),
        Line::Answer(Answer::Ok),
        hand_up(Node::M, id, Dir::Ul, up),
        set_up(other),
        Line::Answer(Answer::No(Refusal::Busy)),
        set_up(id),
        Line::Answer(Answer::Ok),
        submit(id, Dir::Ul, ul),
        Line::Answer(Answer::Ok),
        hand_up(Node::M, other, Dir::Ul, other_up),
    ]
}

#[test]
fn a_payload_counts_for_the_latest_establishment(rt: HostRuntime) -> Result<(), Fail> {
    let id = DrbId::new(1).ok_or("1 is an identity")?;
    let other = DrbId::new(32).ok_or("32 is an identity")?;
    let lines = lines_of_two(id, other, payloads(rt.alloc())?);
    let written = bearer_lines(rt.alloc(), &lines)?;
    assert_eq!(rt;
        written.as_slice(),
        b"1 dl 0/0\n1 ul 1/0\n1 dl 0/0\n1 ul 0/1\n".as_slice()
    );
    Ok(())
}

#[test]
fn an_event_and_its_answer_count(rt: HostRuntime) -> Result<(), Fail> {
    let alloc = rt.alloc();
    assert_eq!(rt; Concern::of(&Event::Change), Concern::Nothing);
    let mut summary = Summary::new(alloc);
    summary.add_event(&Event::Change)?;
    summary.add_answer(Answer::No(Refusal::NoSecondary))?;
    summary.add_all(&[Line::Event(Event::Release), Line::Answer(Answer::Ok)])?;
    let mut written = Octets::new(alloc);
    summary.write_bearers(&mut written)?;
    summary.write(&mut written)?;
    assert_eq!(rt;
        written.as_slice(),
        b"events 2 flights 0 refused 1\n".as_slice()
    );
    Ok(())
}
