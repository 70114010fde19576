//! Of `checker`: entries worked by hand.

use checker::{Broken, Checker, Claim};
use dc_base::{
    Alg, Answer, Class, DrbId, Event, Flight, Header, Line, LinkId, Node, Note, Octets, Rec,
    Refusal, Tag,
};
use std::alloc::Global;
use std::process::Abort;
use std::test::Fail;

/// Of the header no claim reads more than the root and its SN Counters.
const HEADER: Header = Header {
    alg: Alg::Nea0,
    used: 65536,
    root: [7; 32],
};

/// A tunnel of the master to a secondary node.
fn tunnel() -> LinkId {
    LinkId::new(Node::M, Node::A, Class::Tun)
}

/// A line that sends a packet there.
fn packet(alloc: Global) -> Result<Line, Fail> {
    let packet = Octets::from_slice(alloc, &[0x30, 0xff])?;
    let tag = Tag::none();
    Ok(Line::Send(tunnel(), Flight::Tun { tag, packet }))
}

/// Whether each event with its answer holds, and sends so many packets into the tunnel.
fn hold(
    rt: &impl Abort,
    alloc: Global,
    checker: &mut Checker,
    rows: &[(Event, Answer, usize)],
) -> Result<(), Fail> {
    for (event, answer, sends) in rows {
        let lines = [packet(alloc)?, packet(alloc)?];
        let count = (*sends).min(2);
        let broken = checker.entry(event, *answer, &lines[..count])?;
        assert_eq!(rt; broken, None, "{event:?}");
    }
    Ok(())
}

/// Events after which one packet stands in the tunnel.
fn lossy_run() -> [(Event, Answer, usize); 8] {
    let link = tunnel();
    let control = LinkId::new(Node::M, Node::T, Class::Ctl);
    let none = Answer::No(Refusal::NoFlight);
    [
        (Event::Lose { link, index: 0 }, none, 0),
        (
            Event::Deny {
                node: Node::A,
                on: true,
            },
            Answer::Ok,
            2,
        ),
        (Event::Again { link, index: 1 }, Answer::Ok, 1),
        (Event::Lose { link, index: 2 }, Answer::Ok, 0),
        (Event::Again { link, index: 2 }, none, 0),
        (Event::Step { link, index: 0 }, Answer::Ok, 0),
        (Event::Lose { link, index: 1 }, none, 0),
        (
            Event::Lose {
                link: control,
                index: 0,
            },
            Answer::No(Refusal::NotTunnel),
            0,
        ),
    ]
}

#[test]
fn losses_and_copies(rt: HostRuntime) -> Result<(), Fail> {
    let link = tunnel();
    let none = Answer::No(Refusal::NoFlight);
    let broken = Broken {
        claim: Claim::Cause,
        line: None,
    };
    let rows = [
        (Event::Lose { link, index: 0 }, none),
        (Event::Again { link, index: 1 }, Answer::Ok),
    ];
    for (event, answer) in rows {
        let mut checker = Checker::new(rt.alloc(), &HEADER)?;
        hold(&rt, rt.alloc(), &mut checker, &lossy_run())?;
        let found = checker.entry(&event, answer, &[])?;
        assert_eq!(rt; found, Some(broken), "{event:?}");
    }
    Ok(())
}

/// The first claim that an event breaks that is answered ok, with these lines.
fn broken_by(alloc: Global, lines: &[Line]) -> Result<Option<Broken>, Fail> {
    let mut checker = Checker::new(alloc, &HEADER)?;
    let event = Event::Deny {
        node: Node::A,
        on: true,
    };
    Ok(checker.entry(&event, Answer::Ok, lines)?)
}

/// A note, a further line, and the claim that this one breaks.
fn rows(id: DrbId) -> [([Line; 2], Option<Claim>); 8] {
    let up = LinkId::new(Node::A, Node::M, Class::Feed);
    let down = LinkId::new(Node::M, Node::T, Class::Ctl);
    let told = Flight::Told { id, g: 1, count: 0 };
    let end = Flight::End { id, g: 1 };
    let confirm = Flight::Ack { id, g: 1, num: 0 };
    let recover = Flight::Ctl(Rec::Recov { id });
    let complete = Flight::Ctl(Rec::Rcomp { g: 1 });
    [
        (
            after_note(Line::Answer(Answer::Ok)),
            Some(Claim::Consequence),
        ),
        (
            after_note(Line::Event(Event::Change)),
            Some(Claim::Consequence),
        ),
        (after_note(Line::Note(Note::Rejected)), None),
        (after_note(Line::Send(up, told)), None),
        (after_note(Line::Send(up, end)), Some(Claim::OnLink)),
        (after_note(Line::Send(down, confirm)), Some(Claim::OnLink)),
        (after_note(Line::Send(down, recover)), None),
        (after_note(Line::Send(down, complete)), Some(Claim::OnLink)),
    ]
}

/// A note, and then this line.
fn after_note(line: Line) -> [Line; 2] {
    [Line::Note(Note::Done), line]
}

#[test]
fn lines_that_may_not_stand(rt: HostRuntime) -> Result<(), Fail> {
    let id = DrbId::new(1).ok_or("1 is an identity")?;
    for (lines, claim) in &rows(id) {
        let broken = claim.map(|claim| Broken {
            claim,
            line: Some(1),
        });
        assert_eq!(rt; broken_by(rt.alloc(), lines)?, broken);
    }
    Ok(())
}

/// The first claim that the send of a PDU breaks on an air leg of the master.
fn broken_on_air(alloc: Global, tag: Tag, first: u8) -> Result<Option<Broken>, Fail> {
    let id = DrbId::new(1).ok_or("1 is an identity")?;
    let pdu = Octets::from_slice(alloc, &[first, 0, 1, 2, 3])?;
    let flight = Flight::Air {
        id,
        g: 1,
        num: 0,
        tag,
        pdu,
    };
    let link = LinkId::new(Node::M, Node::T, Class::Air);
    broken_by(alloc, &[Line::Send(link, flight)])
}

#[test]
fn a_data_pdu_has_a_count_beside_it(rt: HostRuntime) -> Result<(), Fail> {
    let rows = [
        (Tag::count(0), 0x80, false),
        (Tag::none(), 0x80, true),
        (Tag::count(0), 0, true),
        (Tag::none(), 0, false),
    ];
    for (tag, first, is_broken) in rows {
        let broken = broken_on_air(rt.alloc(), tag, first)?;
        assert_eq!(rt; broken.is_some(), is_broken, "{first}");
    }
    Ok(())
}

#[test]
fn commands(rt: HostRuntime) -> Result<(), Fail> {
    let busy = Answer::No(Refusal::Busy);
    let none = Answer::No(Refusal::NoSecondary);
    let spent = Answer::No(Refusal::CounterSpent);
    let root = [8; 32];
    let rows = [
        (Event::Change, none, Answer::Ok),
        (Event::Add { node: Node::A }, spent, Answer::Ok),
        (
            Event::RekeyMaster { root: [7; 32] },
            Answer::No(Refusal::RootUsed),
            Answer::Ok,
        ),
        (Event::RekeyMaster { root }, Answer::Ok, none),
        (Event::Add { node: Node::A }, busy, Answer::Ok),
        (Event::ScgFail, none, Answer::Ok),
    ];
    let broken = Broken {
        claim: Claim::Cause,
        line: None,
    };
    let mut checker = Checker::new(rt.alloc(), &HEADER)?;
    for (event, due, other) in rows {
        let mut wrong = Checker::new(rt.alloc(), &HEADER)?;
        let found = checker.entry(&event, due, &[])?;
        assert_eq!(rt; found, None, "{event:?}");
        let found = wrong.entry(&event, other, &[])?;
        assert_eq!(rt; found, Some(broken), "{event:?}");
    }
    Ok(())
}
