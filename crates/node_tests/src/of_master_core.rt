//! A secondary node that rejects its addition.

use dc_base::{Alg, Class, Event, Flight, LinkId, Node, Rec};
use master_core::Master;
use node_rules::Input;
use split_leg::Policies;
use std::alloc::Global;
use std::test::Fail;

/// What the master answers to a rejection of the addition by node A, as text, and whether the command is open before it.
fn rejection(
    alloc: Global,
    master: &mut Master,
    policies: &Policies,
) -> Result<(bool, String), Fail> {
    let _begun = master.step(Input::Cmd(Event::Add { node: Node::A }), policies)?;
    let is_busy = master.is_busy();
    let link = LinkId::new(Node::A, Node::M, Class::Ctl);
    let reject = Input::Come(link, Flight::Ctl(Rec::Addrej { g: 1 }));
    let outcome = master.step(reject, policies)?;
    Ok((is_busy, format!(in alloc; "{outcome:?}")?))
}

#[test]
fn ends_a_command_that_is_rejected(rt: HostRuntime) -> Result<(), Fail> {
    let alloc = rt.alloc();
    let policies = Policies::new(Vec::new(alloc));
    let mut master = Master::new(alloc, Alg::Nea0, &[0; 32], 0)?;
    let (was_busy, answer) = rejection(alloc, &mut master, &policies)?;
    assert!(rt; was_busy && !master.is_busy());
    assert_eq!(rt;
        answer.as_str(),
        "Outcome { answer: Ok, notes: Seq { items: [Rejected] }, sends: Seq { items: [] } }"
    );
    Ok(())
}
