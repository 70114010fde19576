//! One value of every variant of every type that is copied, compared with its copy.

use dc_base::{
    Answer, Cell, Class, Dir, DrbId, Event, Flight, Item, LegSet, Line, LinkId, Memory, Node, Note,
    Octets, Plan, Rec, Refusal, Seq, Shape, SnLen, StatusTransfer, Tag, Want, Word, infer, sn_of,
    teid_of, teid_parts,
};
use std::alloc::Global;
use std::test::Fail;

const KEY: [u8; 32] = [7; 32];

fn octets(alloc: Global) -> Result<Octets, Memory> {
    Octets::from_slice(alloc, &[1, 2, 3])
}

fn plan(alloc: Global, id: DrbId) -> Result<Plan, Memory> {
    let mut items = Seq::new(alloc);
    items.push(Item::Unset { id })?;
    Ok(Plan {
        g: 5,
        sec: Some(Node::B),
        items,
    })
}

/// The record of this number, from 0; the last for all further ones.
fn record(number: u8, alloc: Global, id: DrbId) -> Result<Rec, Memory> {
    let mut failed = Seq::new(alloc);
    failed.push((id, 4))?;
    let (plan, bits) = (plan(alloc, id)?, octets(alloc)?);
    Ok(match number {
        0 => Rec::Reconf { plan, key: KEY },
        1 => Rec::Addreq { plan, key: KEY },
        2 => Rec::Modreq { plan, key: KEY },
        3 => Rec::Relreq { plan },
        4 => Rec::Chgcnf { plan },
        5 => Rec::Relcnf { plan },
        6 => Rec::Scgf { failed },
        7 => Rec::Snst {
            status: StatusTransfer {
                g: 5,
                id,
                ul: 8,
                bits,
                dl: 9,
            },
        },
        _ => plain_record(number, id),
    })
}

/// The record of this number that takes no memory, from 8.
fn plain_record(number: u8, id: DrbId) -> Rec {
    match number {
        8 => Rec::Rcomp { g: 1 },
        9 => Rec::Recov { id },
        10 => Rec::Recovd { id },
        11 => Rec::Addack { g: 1 },
        12 => Rec::Addrej { g: 1 },
        13 => Rec::Modack { g: 1 },
        14 => Rec::Modrej { g: 1 },
        15 => Rec::Recfg { g: 1 },
        16 => Rec::Relack { g: 1 },
        17 => Rec::Relrej { g: 1 },
        18 => Rec::Uecr { g: 1 },
        19 => Rec::Moved { g: 1, id },
        20 => Rec::Scgn { id, g: 1 },
        21 => Rec::Modrqd,
        22 => Rec::Modcnf { g: 1 },
        23 => Rec::Modref { word: Word::Busy },
        24 => Rec::Chgrqd,
        25 => Rec::Chgref {
            word: Word::Rejected,
        },
        _ => Rec::Relrqd,
    }
}

/// The flight of this number, from 0; a record for all from 6 on.
fn flight(number: u8, alloc: Global, id: DrbId) -> Result<Flight, Memory> {
    let body = octets(alloc)?;
    Ok(match number {
        0 => Flight::Air {
            id,
            g: 1,
            num: 2,
            tag: Tag::count(3),
            pdu: body,
        },
        1 => Flight::Ack { id, g: 1, num: 2 },
        2 => Flight::Tun {
            tag: Tag::none(),
            packet: body,
        },
        3 => Flight::Sdu {
            id,
            g: 1,
            sdu: body,
        },
        4 => Flight::End { id, g: 1 },
        5 => Flight::Told { id, g: 1, count: 2 },
        _ => Flight::Ctl(record(number - 6, alloc, id)?),
    })
}

/// The event of this number, from 0.
fn event(number: u8, alloc: Global, id: DrbId) -> Result<Event, Memory> {
    let sdu = octets(alloc)?;
    let shape = Shape {
        at_second: true,
        legs: LegSet::Split(Cell::Scg),
        dup: true,
    };
    let link = LinkId::new(Node::M, Node::A, Class::Tun);
    Ok(match number {
        0 => Event::Bearer {
            id,
            n: SnLen::S18,
            first: 1,
            shape,
            threshold: 2,
            policy: 3,
        },
        1 => Event::Reshape { id, shape },
        2 => Event::Remove { id },
        3 => Event::Add { node: Node::A },
        4 => Event::Change,
        5 => Event::Release,
        6 => Event::RekeySecond,
        7 => Event::RekeyMaster { root: KEY },
        8 => Event::Recover { id },
        9 => Event::Report { node: Node::T, id },
        10 => Event::Deny {
            node: Node::B,
            on: true,
        },
        11 => Event::Ask {
            node: Node::A,
            what: Want::Change,
        },
        12 => Event::ScgFail,
        13 => Event::Submit {
            id,
            dir: Dir::Ul,
            sdu,
        },
        14 => Event::Step { link, index: 1 },
        15 => Event::Lose { link, index: 1 },
        _ => Event::Again { link, index: 1 },
    })
}

/// The note of this number, from 0.
fn note(number: u8, alloc: Global, id: DrbId) -> Result<Note, Memory> {
    let sdu = octets(alloc)?;
    let node = Node::A;
    Ok(match number {
        0 => Note::Begin { what: Want::Rekey },
        1 => Note::Join { node, g: 1 },
        2 => Note::Leave { node, g: 1 },
        3 => Note::Give { node, id, g: 1 },
        4 => Note::Own { node, id, g: 1 },
        5 => Note::Set { id, g: 1 },
        6 => Note::Unset { id },
        7 => Note::Up {
            node: Node::T,
            id,
            dir: Dir::Dl,
            count: 1,
            sdu,
        },
        8 => Note::Freed {
            id,
            dir: Dir::Ul,
            count: 1,
        },
        9 => Note::Confirmed { node },
        10 => Note::Refused {
            node,
            word: Word::NoSecondary,
        },
        11 => Note::Done,
        _ => Note::Rejected,
    })
}

/// A line with the event, the answer, the note or the flight of this number.
fn line(number: u8, alloc: Global, id: DrbId) -> Result<Line, Memory> {
    let link = LinkId::new(Node::M, Node::T, Class::Air);
    Ok(match number {
        0..=16 => Line::Event(event(number, alloc, id)?),
        17 => Line::Answer(Answer::No(Refusal::Full)),
        18..=30 => Line::Note(note(number - 18, alloc, id)?),
        _ => Line::Send(link, flight(number - 31, alloc, id)?),
    })
}

#[test]
fn every_line_is_copied(rt: HostRuntime) -> Result<(), Fail> {
    let id = DrbId::new(3).ok_or("3 is an identity")?;
    for number in 0..64 {
        let line = line(number, rt.alloc(), id)?;
        assert!(rt; line.copy()? == line);
    }
    Ok(())
}

#[test]
fn identities_and_tunnels(rt: HostRuntime) -> Result<(), Fail> {
    assert_eq!(rt; DrbId::new(0), None);
    assert_eq!(rt; DrbId::new(33), None);
    assert_eq!(rt; DrbId::new(1).ok_or("1 is an identity")?.get(), 1);
    let last = DrbId::new(32).ok_or("32 is an identity")?;
    assert_eq!(rt; last.get(), 32);
    let first = DrbId::new(1).ok_or("1 is an identity")?;
    assert_eq!(rt; teid_of(3, first, 1), 385);
    assert_eq!(rt; teid_parts(385), (3, first, 1));
    assert_eq!(rt; teid_of(16_777_215, last, 3), 2_147_483_647);
    assert_eq!(rt; teid_parts(2_147_483_647), (16_777_215, last, 3));
    Ok(())
}

#[test]
fn counts_near_a_window_edge(rt: HostRuntime) {
    let rows = [
        (SnLen::S12, 2048, 0, Some(0)),
        (SnLen::S12, 2049, 0, Some(4096)),
        (SnLen::S12, 0, 2048, None),
        (SnLen::S12, 2047, 4095, None),
        (SnLen::S12, 4_294_967_294, 4095, Some(4_294_967_295)),
        (SnLen::S18, 131_072, 0, Some(0)),
        (SnLen::S18, 131_073, 0, Some(262_144)),
        (SnLen::S18, 4_294_967_295, 0, None),
    ];
    for (n, reference, sn, count) in rows {
        assert_eq!(rt; infer(n, reference, sn_of(n, sn)), count);
    }
}
