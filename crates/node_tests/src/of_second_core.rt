//! A bearer whose anchor is at a secondary node: from the addition to an SDU over the air.

use dc_base::{
    Alg, Class, DrbId, Flight, Item, KeyName, LegSet, LinkId, Node, Octets, Plan, Rec, Seq, Shape,
    Side, SnLen,
};
use node_rules::Input;
use second_core::Second;
use split_leg::Policies;
use std::alloc::Global;
use std::test::Fail;

/// What the node answers to an input, as text.
fn outcome(
    alloc: Global,
    second: &mut Second,
    policies: &Policies,
    input: Input,
) -> Result<String, Fail> {
    let outcome = second.step(input, policies)?;
    Ok(format!(in alloc; "{outcome:?}")?)
}

/// A record from the master.
fn record_come(record_come: Rec) -> Input {
    let link = LinkId::new(Node::M, Node::A, Class::Ctl);
    Input::Come(link, Flight::Ctl(record_come))
}

/// A request that adds the node, and sets a new bearer up with its anchor and its leg there, in generation 3.
fn addition(alloc: Global, id: DrbId) -> Result<Input, Fail> {
    let item = Item::Set {
        id,
        n: SnLen::S12,
        first: 0,
        shape: Shape {
            at_second: true,
            legs: LegSet::Scg,
            dup: false,
        },
        threshold: 0,
        policy: 0,
        key: KeyName {
            root: 0,
            side: Side::Second(0),
        },
        old: None,
    };
    let mut items = Seq::new(alloc);
    items.push(item)?;
    let plan = Plan {
        g: 3,
        sec: Some(Node::A),
        items,
    };
    Ok(record_come(Rec::Addreq { plan, key: [0; 32] }))
}

/// An SDU of one octet from the core, of the path of a generation.
fn downlink(alloc: Global, id: DrbId, g: u32, octet: u8) -> Result<Input, Fail> {
    let link = LinkId::new(Node::M, Node::A, Class::Feed);
    let sdu = Octets::from_slice(alloc, &[octet])?;
    Ok(Input::Come(link, Flight::Sdu { id, g, sdu }))
}

#[test]
fn sends_an_sdu_of_a_new_bearer(rt: HostRuntime) -> Result<(), Fail> {
    let alloc = rt.alloc();
    let id = DrbId::new(1).ok_or("identity")?;
    let policies = Policies::new(Vec::new(alloc));
    let mut second = Second::new(alloc, Alg::Nea0, Node::A);
    let added = outcome(alloc, &mut second, &policies, addition(alloc, id)?)?;
    assert_eq!(rt;
        added.as_str(),
        "Outcome { answer: Ok, notes: Seq { items: [Join { node: A, g: 3 }, Own { node: A, id: DrbId { number: 1 }, g: 3 }] }, sends: Seq { items: [(LinkId { from: A, to: M, class: Ctl }, Ctl(Addack { g: 3 }))] } }"
    );
    assert!(rt; second.has(id));
    let early = outcome(alloc, &mut second, &policies, downlink(alloc, id, 3, 0xaa)?)?;
    let nothing = "Outcome { answer: Ok, notes: Seq { items: [] }, sends: Seq { items: [] } }";
    assert_eq!(rt; early.as_str(), nothing);
    let of_another = outcome(alloc, &mut second, &policies, downlink(alloc, id, 2, 0xbb)?)?;
    assert_eq!(rt; of_another.as_str(), nothing);
    let complete = outcome(
        alloc,
        &mut second,
        &policies,
        record_come(Rec::Recfg { g: 3 }),
    )?;
    assert_eq!(rt;
        complete.as_str(),
        "Outcome { answer: Ok, notes: Seq { items: [] }, sends: Seq { items: [(LinkId { from: A, to: T, class: Air }, Air { id: DrbId { number: 1 }, g: 3, num: 0, tag: Tag { count: Some(0) }, pdu: Octets { octets: [128, 0, 170] } })] } }"
    );
    assert_eq!(rt; second.edges(id, 3).ok_or("edges")?.low, 0);
    Ok(())
}
