//! A secondary node is added: the request goes out and cannot be lost, and the node joins.

use dc_base::{Alg, Class, Event, Header, LinkId, Node};
use dc_network::{Happened, Network};
use split_leg::Policies;
use std::alloc::Global;
use std::test::Fail;

/// The answer to an event and its lines, as text.
fn happens(
    alloc: Global,
    network: &mut Network,
    policies: &Policies,
    event: Event,
) -> Result<String, Fail> {
    let Happened { answer, lines } = network.event(event, policies)?;
    Ok(format!(in alloc; "{answer:?} {lines:?}")?)
}

/// Whether a command is open and the request alone stands on the link once the addition began; then what comes of a loss of
/// the request and of its delivery.
fn addition(
    alloc: Global,
    network: &mut Network,
    policies: &Policies,
) -> Result<(bool, String), Fail> {
    let link = LinkId::new(Node::M, Node::A, Class::Ctl);
    let _begun = network.event(Event::Add { node: Node::A }, policies)?;
    let stands = network.is_busy()
        && network.first_loaded() == Some(link)
        && network.len(link) == 1;
    let lost = happens(alloc, network, policies, Event::Lose { link, index: 0 })?;
    let joined = happens(alloc, network, policies, Event::Step { link, index: 0 })?;
    Ok((stands, format!(in alloc; "{lost}; {joined}")?))
}

#[test]
fn adds_a_secondary_node(rt: HostRuntime) -> Result<(), Fail> {
    let alloc = rt.alloc();
    let policies = Policies::new(Vec::new(alloc));
    let header = Header {
        alg: Alg::Nea2,
        used: 0,
        root: [0; 32],
    };
    let mut network = Network::new(alloc, &header)?;
    let (stands, text) = addition(alloc, &mut network, &policies)?;
    assert!(rt; stands);
    assert_eq!(rt;
        text.as_str(),
        "No(NotTunnel) Seq { items: [] }; Ok Seq { items: [Note(Join { node: A, g: 1 }), Send(LinkId { from: A, to: M, class: Ctl }, Ctl(Addack { g: 1 }))] }"
    );
    Ok(())
}
