//! Rows worked by hand.

use dc_base::{
    Alg, Answer, Cell, Class, Dir, DrbId, Event, Flight, Header, Item, KeyName, LegSet, Line,
    LinkId, Memory, Node, Note, Octets, Plan, Rec, Refusal, Seq, Shape, Side, SnLen,
    StatusTransfer, Tag, Want, Word,
};
use script_text::{LineFault, Scripted, read_header, read_line, write_first, write_line};
use std::alloc::Global;
use std::process::Abort;
use std::test::Fail;

fn first_bearer() -> Result<DrbId, Fail> {
    Ok(DrbId::new(1).ok_or("1 is an identity")?)
}

fn link(from: Node, to: Node, class: Class) -> LinkId {
    LinkId { from, to, class }
}

fn shape(at_second: bool, legs: LegSet, dup: bool) -> Shape {
    Shape {
        at_second,
        legs,
        dup,
    }
}

/// A record that is put at the end of a link.
fn record(link: LinkId, rec: Rec) -> Line {
    Line::Send(link, Flight::Ctl(rec))
}

/// A plan of generation `g` that sets bearer 1 with 12-bit sequence numbers.
fn plan(
    alloc: Global,
    g: u32,
    sec: Option<Node>,
    shape: Shape,
    side: Side,
    old: Option<Node>,
) -> Result<Plan, Fail> {
    let mut items = Seq::new(alloc);
    items.push(Item::Set {
        id: first_bearer()?,
        n: SnLen::S12,
        first: 0,
        shape,
        threshold: 0,
        policy: 0,
        key: KeyName { root: 0, side },
        old,
    })?;
    Ok(Plan { g, sec, items })
}

/// Whether the lines are written as the texts.
fn are_written(rt: &impl Abort, alloc: Global, rows: &[(Line, &str)]) -> Result<(), Fail> {
    for (line, text) in rows {
        let written = write_line(alloc, line)?;
        assert_eq!(rt; written.as_slice(), text.as_bytes(), "{text}");
    }
    Ok(())
}

#[test]
fn events_of_a_bearer_are_written(rt: HostRuntime) -> Result<(), Fail> {
    let id = first_bearer()?;
    let sdu = Octets::from_slice(rt.alloc(), b"hi")?;
    let bearer = Event::Bearer {
        id,
        n: SnLen::S18,
        first: 5,
        shape: shape(false, LegSet::Split(Cell::Mcg), true),
        threshold: 1400,
        policy: 2,
    };
    let rows = [
        (Line::Event(bearer), "bearer 1 18 5 mxmd 1400 2"),
        (Line::Event(Event::RekeySecond), "rekey s"),
        (
            Line::Event(Event::Submit {
                id,
                dir: Dir::Dl,
                sdu,
            }),
            "dl 1 6869",
        ),
    ];
    are_written(&rt, rt.alloc(), &rows)
}

#[test]
fn events_at_nodes_and_answers_are_written(rt: HostRuntime) -> Result<(), Fail> {
    let rows = [
        (
            Line::Event(Event::Step {
                link: link(Node::M, Node::T, Class::Air),
                index: 0,
            }),
            "step mt.air 0",
        ),
        (
            Line::Event(Event::Deny {
                node: Node::A,
                on: true,
            }),
            "deny a on",
        ),
        (
            Line::Event(Event::Ask {
                node: Node::A,
                what: Want::Rekey,
            }),
            "want a rekey",
        ),
        (Line::Answer(Answer::Ok), "= ok"),
        (Line::Answer(Answer::No(Refusal::NoFlight)), "= no noflight"),
    ];
    are_written(&rt, rt.alloc(), &rows)
}

#[test]
fn notes_are_written(rt: HostRuntime) -> Result<(), Fail> {
    let id = first_bearer()?;
    let sdu = Octets::from_slice(rt.alloc(), b"hi")?;
    let rows = [
        (
            Line::Note(Note::Own {
                node: Node::M,
                id,
                g: 1,
            }),
            "- own m 1 1",
        ),
        (
            Line::Note(Note::Up {
                node: Node::T,
                id,
                dir: Dir::Dl,
                count: 0,
                sdu,
            }),
            "- up t 1 dl 0 6869",
        ),
        (
            Line::Note(Note::Freed {
                id,
                dir: Dir::Dl,
                count: 2,
            }),
            "- freed 1 dl 2",
        ),
        (
            Line::Note(Note::Refused {
                node: Node::A,
                word: Word::Busy,
            }),
            "- refused a busy",
        ),
        (Line::Note(Note::Done), "- done"),
    ];
    are_written(&rt, rt.alloc(), &rows)
}

#[test]
fn pdus_are_written(rt: HostRuntime) -> Result<(), Fail> {
    let id = first_bearer()?;
    let pdu = Octets::from_slice(rt.alloc(), &[0x80, 0, 0x68, 0x69])?;
    let report = Octets::from_slice(rt.alloc(), &[0, 0, 0, 0, 2])?;
    let rows = [
        (
            Line::Send(
                link(Node::M, Node::T, Class::Air),
                Flight::Air {
                    id,
                    g: 1,
                    num: 0,
                    tag: Tag::count(0),
                    pdu,
                },
            ),
            "- send mt.air pdu 1 1 0 0 80006869",
        ),
        (
            Line::Send(
                link(Node::T, Node::A, Class::Air),
                Flight::Air {
                    id,
                    g: 3,
                    num: 0,
                    tag: Tag::none(),
                    pdu: report,
                },
            ),
            "- send ta.air ctl 1 3 0 0000000002",
        ),
    ];
    are_written(&rt, rt.alloc(), &rows)
}

#[test]
fn packets_and_acks_are_written(rt: HostRuntime) -> Result<(), Fail> {
    let id = first_bearer()?;
    let packet = Octets::from_slice(
        rt.alloc(),
        &[0x30, 0xff, 0, 5, 0, 0, 1, 0x80, 0, 0, 0, 0, 2],
    )?;
    let rows = [
        (
            Line::Send(
                link(Node::A, Node::M, Class::Tun),
                Flight::Tun {
                    tag: Tag::none(),
                    packet,
                },
            ),
            "- send am.tun gtp - 30ff0005000001800000000002",
        ),
        (
            Line::Send(
                link(Node::T, Node::M, Class::Air),
                Flight::Ack { id, g: 1, num: 1 },
            ),
            "- send tm.air ack 1 1 1",
        ),
    ];
    are_written(&rt, rt.alloc(), &rows)
}

#[test]
fn records_with_plans_are_written(rt: HostRuntime) -> Result<(), Fail> {
    let set_up = plan(
        rt.alloc(),
        1,
        None,
        shape(false, LegSet::Mcg, false),
        Side::Master,
        None,
    )?;
    let moved = plan(
        rt.alloc(),
        3,
        Some(Node::A),
        shape(true, LegSet::Scg, false),
        Side::Second(0),
        Some(Node::M),
    )?;
    let rows = [
        (
            record(
                link(Node::M, Node::T, Class::Ctl),
                Rec::Reconf {
                    plan: set_up,
                    key: [0; 32],
                },
            ),
            "- send mt.ctl reconf 1 - 1/12/0/mm/0/0/m0/-",
        ),
        (
            record(
                link(Node::M, Node::A, Class::Ctl),
                Rec::Modreq {
                    plan: moved,
                    key: [0; 32],
                },
            ),
            "- send ma.ctl modreq 3 a 1/12/0/ss/0/0/s0.0/m",
        ),
    ];
    are_written(&rt, rt.alloc(), &rows)
}

#[test]
fn records_without_plans_are_written(rt: HostRuntime) -> Result<(), Fail> {
    let id = first_bearer()?;
    let bits = Octets::from_slice(rt.alloc(), &[0x80])?;
    let mut failed = Seq::new(rt.alloc());
    failed.push((id, 3))?;
    let (down, up) = (
        link(Node::M, Node::A, Class::Ctl),
        link(Node::T, Node::M, Class::Ctl),
    );
    let status = StatusTransfer {
        g: 3,
        id,
        ul: 0,
        bits,
        dl: 2,
    };
    let rows = [
        (
            record(down, Rec::Snst { status }),
            "- send ma.ctl snst 3 1 0 80 2",
        ),
        (record(up, Rec::Scgf { failed }), "- send tm.ctl scgf 1/3"),
        (record(up, Rec::Rcomp { g: 1 }), "- send tm.ctl rcomp 1"),
    ];
    are_written(&rt, rt.alloc(), &rows)
}

#[test]
fn a_header_is_written(rt: HostRuntime) -> Result<(), Fail> {
    let header = Header {
        alg: Alg::Nea0,
        used: 0,
        root: [0; 32],
    };
    let mut written = Octets::new(rt.alloc());
    write_first(&mut written, &header)?;
    assert_eq!(rt;
        written.as_slice(),
        b"dcs1 nea0 0 0000000000000000000000000000000000000000000000000000000000000000\n".as_slice()
    );
    Ok(())
}

/// Whether the lines are read as events that are written so.
fn are_read(rt: &impl Abort, alloc: Global, lines: &[&str]) -> Result<(), Fail> {
    for text in lines {
        assert!(rt; text.len() <= 20_000);
        match read_line(alloc, text.as_bytes())? {
            Scripted::One(event) => are_written(rt, alloc, &[(Line::Event(event), *text)])?,
            Scripted::Drain => assert_eq!(rt; text.as_bytes(), b"drain".as_slice()),
        }
    }
    Ok(())
}

#[test]
fn each_line_of_a_script_is_read(rt: HostRuntime) -> Result<(), Fail> {
    let lines = [
        "bearer 32 18 4294967294 mxsd 4294967295 255",
        "shape 1 sxm",
        "drop 1",
        "add a",
        "change",
        "release",
        "rekey s",
        "rekey m 1111111111111111111111111111111111111111111111111111111111111111",
        "recover 1",
        "report t 1",
        "deny b off",
        "want a release",
        "scgfail",
        "ul 1 00",
        "dl 1 6869",
        "step mt.air 0",
        "lose ma.tun 4294967295",
        "again ba.tun 1",
        "drain",
    ];
    are_read(&rt, rt.alloc(), &lines)
}

#[test]
fn the_column_of_a_bad_line(rt: HostRuntime) -> Result<(), Fail> {
    let rows = [
        ("step mt.air 01", 13),
        ("bearer 1 13 0 mm 0 0", 10),
        ("drain x", 7),
        ("add", 4),
        ("dl 1 ", 6),
        ("dl 33 00", 4),
        ("", 1),
        ("add t", 5),
        ("shape 1 mmd", 9),
        ("step ta.feed 0", 6),
        ("bearer 1 12 4294967295 mm 0 0", 13),
        ("bearer 1  0 mm 0 0", 10),
        ("rekey", 6),
        ("rekey x", 7),
        ("rekey m 11", 9),
    ];
    for (line, column) in rows {
        assert!(rt; line.len() <= 20_000);
        match read_line(rt.alloc(), line.as_bytes()) {
            Ok(_) => assert!(rt; false, "{line}"),
            Err(fault) => assert_eq!(rt; fault, LineFault::Column(column), "{line}"),
        }
    }
    Ok(())
}

#[test]
fn a_header_is_read(rt: HostRuntime) -> Result<(), Fail> {
    let header = read_header(
        b"dcs1 nea2 65536 1111111111111111111111111111111111111111111111111111111111111111",
    )?;
    let expected = Header {
        alg: Alg::Nea2,
        used: 65_536,
        root: [0x11; 32],
    };
    assert_eq!(rt; header, expected);
    assert_eq!(rt; read_header(b"dcs1 nea0 65537"), Err(LineFault::Column(11)));
    assert_eq!(rt; read_header(b"drain"), Err(LineFault::Column(1)));
    Ok(())
}
