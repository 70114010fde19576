//! Of `xn_procs`.

use dc_base::{DrbId, Event, LegSet, Node, Note, Rec, RecKind, Refusal, Seq, Shape, SnLen};
use node_rules::Act;
use std::alloc::Global;
use std::test::Fail;
use xn_procs::{MasterProc, ProcErr, SecondProc};

/// The master's machine and that of node A, before the first command.
fn machines(alloc: Global) -> Result<(MasterProc, SecondProc), Fail> {
    let master = MasterProc::new(alloc, &[7; 32], 0).ok().ok_or("memory")?;
    Ok((master, SecondProc::new(Node::A)))
}

fn commanded(master: &mut MasterProc, event: &Event) -> Result<Seq<Act>, Fail> {
    Ok(master.command(event, 2).ok().ok_or("command")?)
}

fn told(master: &mut MasterProc, from: Node, rec: &Rec) -> Result<Seq<Act>, Fail> {
    Ok(master.take(from, rec).ok().ok_or("record")?)
}

fn asked(alloc: Global, second: &mut SecondProc, rec: &Rec) -> Result<Seq<Act>, Fail> {
    Ok(second.take(alloc, rec).ok().ok_or("request")?)
}

/// Why the master refuses a command, if it does.
fn refused(master: &mut MasterProc, event: &Event) -> Option<Refusal> {
    match master.command(event, 2) {
        Err(ProcErr::Refused(why)) => Some(why),
        _ => None,
    }
}

/// The kind of a record, if the node does not expect it.
fn unexpected(alloc: Global, second: &mut SecondProc, rec: &Rec) -> Option<RecKind> {
    match second.take(alloc, rec) {
        Err(ProcErr::Unexpected(kind)) => Some(kind),
        _ => None,
    }
}

/// Node A rejects requests from now on.
fn rejects(alloc: Global, second: &mut SecondProc) -> Result<(), Fail> {
    let deny = Event::Deny {
        node: Node::A,
        on: true,
    };
    let _none = second.command(alloc, &deny).ok().ok_or("command")?;
    Ok(())
}

/// A bearer with its anchor and its leg at the master.
fn bearer(id: DrbId) -> Event {
    let _number = id.get();
    Event::Bearer {
        id,
        n: SnLen::S12,
        first: 0,
        shape: Shape {
            at_second: false,
            legs: LegSet::Mcg,
            dup: false,
        },
        threshold: 0,
        policy: 1,
    }
}

/// The kind of the record that the acts send to this node.
fn kind_to(acts: &Seq<Act>, to: Node) -> Result<RecKind, Fail> {
    Ok(sent_to(acts, to)?.kind())
}

/// Whether the bearer is established, and no command is open.
fn is_settled(master: &MasterProc, id: DrbId) -> bool {
    master.has_bearer(id) && !master.is_unsettled(id) && !master.is_busy()
}

/// The secondary node of the master's table.
fn sec(master: &MasterProc) -> Option<Node> {
    master.table().sec()
}

/// The record that the acts send to this node.
fn sent_to(acts: &Seq<Act>, to: Node) -> Result<Rec, Fail> {
    for act in acts.as_slice() {
        if let Act::Send {
            to: other,
            record_sent,
        } = act
        {
            if *other == to {
                return Ok(record_sent.copy().ok().ok_or("memory")?);
            }
        }
    }
    Err("no record".into())
}

/// Whether the acts write this line.
fn says(acts: &Seq<Act>, line: &Note) -> bool {
    for act in acts.as_slice() {
        if let Act::Say { note } = act {
            if note == line {
                return true;
            }
        }
    }
    false
}

/// Node A is added, and the terminal takes the plan.
fn adds(alloc: Global, master: &mut MasterProc, second: &mut SecondProc) -> Result<Seq<Act>, Fail> {
    let begun = commanded(master, &Event::Add { node: Node::A })?;
    let answer = asked(alloc, second, &sent_to(&begun, Node::A)?)?;
    let gone = told(master, Node::A, &sent_to(&answer, Node::M)?)?;
    let _plan = sent_to(&gone, Node::T)?;
    told(master, Node::T, &Rec::Rcomp { g: 1 })
}

/// A bearer is set up: the kind of the record to the terminal, and whether the bearer is established before and after its
/// answer.
fn sets_up(master: &mut MasterProc, id: DrbId) -> Result<(RecKind, bool, bool), Fail> {
    let begun = commanded(master, &bearer(id))?;
    let kind = kind_to(&begun, Node::T)?;
    let before = is_settled(master, id);
    let done = told(master, Node::T, &Rec::Rcomp { g: 1 })?;
    Ok((
        kind,
        before,
        is_settled(master, id) && says(&done, &Note::Done),
    ))
}

/// Node A rejects its release: whether the command ended by that.
fn is_rejected(
    alloc: Global,
    master: &mut MasterProc,
    second: &mut SecondProc,
) -> Result<bool, Fail> {
    rejects(alloc, second)?;
    let begun = commanded(master, &Event::Release)?;
    let answer = asked(alloc, second, &sent_to(&begun, Node::A)?)?;
    let ended = told(master, Node::A, &sent_to(&answer, Node::M)?)?;
    Ok(says(&ended, &Note::Rejected))
}

/// Node A is added: the kind of the last record to it, and whether the command is done.
fn addition(
    alloc: Global,
    master: &mut MasterProc,
    second: &mut SecondProc,
) -> Result<(RecKind, bool), Fail> {
    let done = adds(alloc, master, second)?;
    Ok((kind_to(&done, Node::A)?, says(&done, &Note::Done)))
}

#[test]
fn sets_a_bearer_up(rt: HostRuntime) -> Result<(), Fail> {
    let id = DrbId::new(1).ok_or("identity")?;
    let (mut master, _second) = machines(rt.alloc())?;
    let run = sets_up(&mut master, id)?;
    assert!(rt; run == (RecKind::Reconf, false, true));
    Ok(())
}

#[test]
fn adds_a_secondary_node(rt: HostRuntime) -> Result<(), Fail> {
    let (mut master, mut second) = machines(rt.alloc())?;
    let run = addition(rt.alloc(), &mut master, &mut second)?;
    assert!(rt; run == (RecKind::Recfg, true));
    assert!(rt; sec(&master) == Some(Node::A));
    Ok(())
}

#[test]
fn rejects_its_release(rt: HostRuntime) -> Result<(), Fail> {
    let (mut master, mut second) = machines(rt.alloc())?;
    let _run = addition(rt.alloc(), &mut master, &mut second)?;
    let ended = is_rejected(rt.alloc(), &mut master, &mut second)?;
    assert!(rt; ended);
    assert!(rt; sec(&master) == Some(Node::A));
    Ok(())
}

#[test]
fn refuses_what_has_no_place(rt: HostRuntime) -> Result<(), Fail> {
    let (mut master, mut second) = machines(rt.alloc())?;
    let release = refused(&mut master, &Event::Release);
    assert!(rt; release == Some(Refusal::NoSecondary));
    let late = unexpected(rt.alloc(), &mut second, &Rec::Uecr { g: 2 });
    assert!(rt; late == Some(RecKind::Uecr));
    Ok(())
}
