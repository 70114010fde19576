//! A bearer at the terminal: from its plan to an SDU each way, and the failure of the SCG.

use dc_base::{
    Alg, Class, Dir, DrbId, Event, Flight, Item, KeyName, LegSet, LinkId, Node, Octets, Plan, Rec,
    Seq, Shape, Side, SnLen, Tag,
};
use node_rules::Input;
use split_leg::Policies;
use std::alloc::Global;
use std::test::Fail;
use term_core::Terminal;

/// What the terminal answers to an input, as text.
fn outcome(
    alloc: Global,
    terminal: &mut Terminal,
    policies: &Policies,
    input: Input,
) -> Result<String, Fail> {
    let outcome = terminal.step(input, policies)?;
    Ok(format!(in alloc; "{outcome:?}")?)
}

/// A record from the master that sets a new bearer up over the MCG, in generation 3.
fn set_up(alloc: Global, id: DrbId) -> Result<Input, Fail> {
    let item = Item::Set {
        id,
        n: SnLen::S12,
        first: 0,
        shape: Shape {
            at_second: false,
            legs: LegSet::Mcg,
            dup: false,
        },
        threshold: 0,
        policy: 0,
        key: KeyName {
            root: 0,
            side: Side::Master,
        },
        old: None,
    };
    let mut items = Seq::new(alloc);
    items.push(item)?;
    let plan = Plan {
        g: 3,
        sec: Some(Node::A),
        items,
    };
    let link = LinkId::new(Node::M, Node::T, Class::Ctl);
    Ok(Input::Come(link, Flight::Ctl(Rec::Reconf { plan, key: [0; 32] })))
}

/// A submission of one octet.
fn submission(alloc: Global, id: DrbId, octet: u8) -> Result<Input, Fail> {
    Ok(Input::Cmd(Event::Submit {
        id,
        dir: Dir::Ul,
        sdu: Octets::from_slice(alloc, &[octet])?,
    }))
}

/// The first downlink PDU of the bearer, which carries one octet.
fn downlink(alloc: Global, id: DrbId, octet: u8) -> Result<Input, Fail> {
    let link = LinkId::new(Node::M, Node::T, Class::Air);
    let flight = Flight::Air {
        id,
        g: 3,
        num: 0,
        tag: Tag::count(0),
        pdu: Octets::from_slice(alloc, &[0x80, 0x00, octet])?,
    };
    Ok(Input::Come(link, flight))
}

#[test]
fn carries_an_sdu_each_way(rt: HostRuntime) -> Result<(), Fail> {
    let alloc = rt.alloc();
    let id = DrbId::new(1).ok_or("identity")?;
    let policies = Policies::new(Vec::new(alloc));
    let mut terminal = Terminal::new(alloc, Alg::Nea0);
    let early = outcome(
        alloc,
        &mut terminal,
        &policies,
        submission(alloc, id, 0xaa)?,
    )?;
    assert_eq!(rt;
        early.as_str(),
        "Outcome { answer: No(NoBearer), notes: Seq { items: [] }, sends: Seq { items: [] } }"
    );
    let set = outcome(alloc, &mut terminal, &policies, set_up(alloc, id)?)?;
    assert_eq!(rt;
        set.as_str(),
        "Outcome { answer: Ok, notes: Seq { items: [Set { id: DrbId { number: 1 }, g: 3 }] }, sends: Seq { items: [(LinkId { from: T, to: M, class: Ctl }, Ctl(Rcomp { g: 3 }))] } }"
    );
    assert!(rt; terminal.has(id));
    let up = outcome(
        alloc,
        &mut terminal,
        &policies,
        submission(alloc, id, 0xaa)?,
    )?;
    assert_eq!(rt;
        up.as_str(),
        "Outcome { answer: Ok, notes: Seq { items: [] }, sends: Seq { items: [(LinkId { from: T, to: M, class: Air }, Air { id: DrbId { number: 1 }, g: 3, num: 0, tag: Tag { count: Some(0) }, pdu: Octets { octets: [128, 0, 170] } })] } }"
    );
    let down = outcome(alloc, &mut terminal, &policies, downlink(alloc, id, 0xbb)?)?;
    assert_eq!(rt;
        down.as_str(),
        "Outcome { answer: Ok, notes: Seq { items: [Up { node: T, id: DrbId { number: 1 }, dir: Dl, count: 0, sdu: Octets { octets: [187] } }] }, sends: Seq { items: [(LinkId { from: T, to: M, class: Air }, Ack { id: DrbId { number: 1 }, g: 3, num: 0 })] } }"
    );
    assert_eq!(rt; terminal.edges(id, 3).ok_or("edges")?.deliv, 1);
    let failed = outcome(alloc, &mut terminal, &policies, Input::Cmd(Event::ScgFail))?;
    assert_eq!(rt;
        failed.as_str(),
        "Outcome { answer: Ok, notes: Seq { items: [] }, sends: Seq { items: [(LinkId { from: T, to: M, class: Ctl }, Ctl(Scgf { failed: Seq { items: [] } }))] } }"
    );
    Ok(())
}
