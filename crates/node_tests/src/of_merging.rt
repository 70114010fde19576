//! Of `merging`.

ghost use Rattle.std.specs.Prelude.{◌≡◌, [], ◌∷◌, IfOk};

use dc_base::{Answer, Class, DrbId, Event, Flight, Line, LinkId, Node, Seq};
use journals::{JournalEntry, Message, What};
use merging::{merge, script};
use std::alloc::Global;
use std::test::*;

/// A list of one value.
fn of_one<X: Drop>(alloc: Global, value: X) -> Result<Seq<X>, Fail>
    ensures { IfOk result (λ list. list ≡ value ∷ []) }
{
    let mut list = Seq::new(alloc);
    list.push(value).ok().ok_or("memory")?;
    Ok(list)
}

#[test]
fn what_is_sent_comes_before_its_step(rt: HostRuntime) -> Result<(), Fail> {
    let alloc = rt.alloc();
    let id = DrbId::new(1).ok_or("an identity")?;
    let link = LinkId {
        from: Node::M,
        to: Node::T,
        class: Class::Air,
    };
    let sent = Line::Send(link, Flight::Ack { id, g: 1, num: 7 });
    let lines = of_one(alloc, sent)?;
    let none = Seq::new(alloc);
    let sends = JournalEntry {
        stamp: 1,
        turn: 0,
        what: What::Driver(Event::Change),
        answer: Answer::Ok,
        lines,
    };
    let takes = JournalEntry {
        stamp: 2,
        turn: 0,
        what: What::Step(Message {
            link,
            stamp: 1,
            flight: Flight::Ack { id, g: 1, num: 7 },
        }),
        answer: Answer::Ok,
        lines: none,
    };
    let t = of_one(alloc, takes)?;
    let m = of_one(alloc, sends)?;
    let all = merge(alloc, t, m, Seq::new(alloc), Seq::new(alloc));
    let events = script(alloc, all.ok().ok_or("memory")?);
    let events = events.ok().ok_or("memory")?;
    let wanted = [Event::Change, Event::Step { link, index: 0 }];
    assert_eq!(rt; events.as_slice(), &wanted[..]);
    Ok(())
}
