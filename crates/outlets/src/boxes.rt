//! The inboxes of all nodes, with all passes for them: made together, and given back together.

ghost use Rattle.std.specs.Prelude.{◌≡◌, [], true, List, IfOk, ℕ};
ghost use Rattle.crossbeam_queue.specs.Passes.{IsPassOf, view};
ghost use Rattle.dc_base.specs.Nodes.{node_number};
ghost use Rattle.inbox.specs.Inbox.{IsSender, put_of, view_of, whole};
ghost use Rattle.journals.specs.declared.entries.Message.{Message};
ghost use Rattle.outlets.specs.Boxes.{AllFirst, AreAllWays, AreReaders, AreTickets, IsSettled, ids, none_sent};
ghost use Rattle.outlets.specs.Ways.{id_of};

use crate::four::Four;
use crate::ways::Outlets;
use dc_base::{Memory, Node};
use inbox::{Inbox, Ticket, give_back, open, settle, ticket_of};
use std::alloc::Global;

/// The inbox of each node.
#[derive(Drop)]
pub struct Inboxes {
    pub t: Inbox,
    pub m: Inbox,
    pub a: Inbox,
    pub b: Inbox,
}

impl Inboxes {
    /// That of a node.
    pub fn at(&self, node: Node) -> &Inbox
        ensures { id_of result.now ≡ ids self.now (node_number node) }
    {
        match node {
            Node::T => &self.t,
            Node::M => &self.m,
            Node::A => &self.a,
            Node::B => &self.b,
        }
    }
}

// A pass of each sender.
fn tickets(inbox: &Inbox, ticket: &mut Ticket) -> Four<Ticket>
    requires { IsPassOf inbox.now ticket.old × (view ticket.old ≡ whole) }
    ensures reader { IsPassOf inbox.now ticket.new × (view ticket.new ≡ view_of true [] []) }
    ensures senders { AreTickets (id_of inbox.now) result }
{
    let t = ticket_of::<0>(inbox, ticket);
    let m = ticket_of::<1>(inbox, ticket);
    let a = ticket_of::<2>(inbox, ticket);
    let b = ticket_of::<3>(inbox, ticket);
    Four { t, m, a, b }
}

/// An empty inbox for each node, with the pass that takes from it, and the outlets of each node, which has sent nothing.
pub fn open_all(alloc: Global) -> Result<(Inboxes, Four<Ticket>, Four<Outlets>), Memory>
    ensures readers { IfOk result (λ r. AreReaders (ids r.0) (λ n. []) r.1) }
    ensures ways { IfOk result (λ r. AreAllWays (ids r.0) none_sent r.2) }
{
    let (inbox_t, mut reader_t) = open(alloc)?;
    let (inbox_m, mut reader_m) = open(alloc)?;
    let (inbox_a, mut reader_a) = open(alloc)?;
    let (inbox_b, mut reader_b) = open(alloc)?;
    let to_t = tickets(&inbox_t, &mut reader_t);
    let to_m = tickets(&inbox_m, &mut reader_m);
    let to_a = tickets(&inbox_a, &mut reader_a);
    let to_b = tickets(&inbox_b, &mut reader_b);
    let boxes = Inboxes {
        t: inbox_t,
        m: inbox_m,
        a: inbox_a,
        b: inbox_b,
    };
    let readers = Four {
        t: reader_t,
        m: reader_m,
        a: reader_a,
        b: reader_b,
    };
    let by_sender = transposed(Four {
        t: to_t,
        m: to_m,
        a: to_a,
        b: to_b,
    });
    let Four { t, m, a, b } = by_sender;
    let outlets = Four {
        t: Outlets::new(alloc, t),
        m: Outlets::new(alloc, m),
        a: Outlets::new(alloc, a),
        b: Outlets::new(alloc, b),
    };
    Ok((boxes, readers, outlets))
}

// By receiver and then by sender, or the other way.
fn transposed(passes: Four<Four<Ticket>>) -> Four<Four<Ticket>>
    ensures t { result.t ≡ record { t = passes.t.t; m = passes.m.t; a = passes.a.t; b = passes.b.t } }
    ensures m { result.m ≡ record { t = passes.t.m; m = passes.m.m; a = passes.a.m; b = passes.b.m } }
    ensures a { result.a ≡ record { t = passes.t.a; m = passes.m.a; a = passes.a.a; b = passes.b.a } }
    ensures b { result.b ≡ record { t = passes.t.b; m = passes.m.b; a = passes.a.b; b = passes.b.b } }
{
    let Four { t, m, a, b } = passes;
    let Four {
        t: tt,
        m: tm,
        a: ta,
        b: tb,
    } = t;
    let Four {
        t: mt,
        m: mm,
        a: ma,
        b: mb,
    } = m;
    let Four {
        t: at,
        m: am,
        a: aa,
        b: ab,
    } = a;
    let Four {
        t: bt,
        m: bm,
        a: ba,
        b: bb,
    } = b;
    Four {
        t: Four {
            t: tt,
            m: mt,
            a: at,
            b: bt,
        },
        m: Four {
            t: tm,
            m: mm,
            a: am,
            b: bm,
        },
        a: Four {
            t: ta,
            m: ma,
            a: aa,
            b: ba,
        },
        b: Four {
            t: tb,
            m: mb,
            a: ab,
            b: bb,
        },
    }
}

// All passes of an inbox come back, and what was taken is compared with what was pushed.
fn close(inbox: &Inbox, reader: Ticket, senders: Four<Ticket>)
    requires reader { IsPassOf inbox.now reader × (view reader ≡ view_of true (view reader).got []) }
    requires t { IsPassOf inbox.now senders.t × IsSender 0 (view senders.t) }
    requires m { IsPassOf inbox.now senders.m × IsSender 1 (view senders.m) }
    requires a { IsPassOf inbox.now senders.a × IsSender 2 (view senders.a) }
    requires b { IsPassOf inbox.now senders.b × IsSender 3 (view senders.b) }
    ensures { IsSettled (view reader).got (put_of (view senders.t)) (put_of (view senders.m)) (put_of (view senders.a)) (put_of (view senders.b)) }
{
    let mut ticket = reader;
    let Four { t, m, a, b } = senders;
    give_back(inbox, &mut ticket, t);
    give_back(inbox, &mut ticket, m);
    give_back(inbox, &mut ticket, a);
    give_back(inbox, &mut ticket, b);
    settle(inbox, &mut ticket);
}

/// All passes come back. Of each sender, what a node took is what was sent to it first, in order and none left out.
pub fn close_all(boxes: &Inboxes, readers: Four<Ticket>, outlets: Four<Outlets>)
    requires readers { (got : ℕ → List Message) × AreReaders (ids boxes.now) got readers }
    requires ways { (sent : ℕ → ℕ → List Message) × AreAllWays (ids boxes.now) sent outlets }
    ensures { (got : ℕ → List Message) (sent : ℕ → ℕ → List Message) → AreReaders (ids boxes.now) got readers → AreAllWays (ids boxes.now) sent outlets → AllFirst got sent }
{
    let Four { t, m, a, b } = outlets;
    let by_receiver = transposed(Four {
        t: t.into_tickets(),
        m: m.into_tickets(),
        a: a.into_tickets(),
        b: b.into_tickets(),
    });
    let Four {
        t: to_t,
        m: to_m,
        a: to_a,
        b: to_b,
    } = by_receiver;
    let Four {
        t: reader_t,
        m: reader_m,
        a: reader_a,
        b: reader_b,
    } = readers;
    close(&boxes.t, reader_t, to_t);
    close(&boxes.m, reader_m, to_m);
    close(&boxes.a, reader_a, to_a);
    close(&boxes.b, reader_b, to_b);
}
