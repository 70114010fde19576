//! How PDUs leave an anchor: over the leg of its own node, and through the tunnel to the host of the other.

ghost use Rattle.std.specs.Prelude.{◌≡◌, ◌++◌, ◌∷◌, [], Some, fold, IfOk, OnOk};
ghost use Rattle.std.specs.List.{flat_map};
ghost use Rattle.node_rules.specs.AnchorSending.{air_send, is_local, leg_send, tunnel_send, tunnelled};

use crate::host_tunnel::HostTunnel;
use dc_base::{Cell, Class, Flight, LinkId, Memory, Node, Seq};
use node_rules::OnLeg;
use pdcp_entity::Setup;
use std::alloc::Global;
use xn_packets::down_packet;

/// Whether a PDU is on the leg of the anchor's own node.
fn is_local(setup: &Setup, on_leg: &OnLeg) -> bool
    ensures { result ≡ is_local setup.now on_leg.now }
{
    match (on_leg.cell, setup.anchor_cell()) {
        (Cell::Mcg, Cell::Mcg) => true,
        (Cell::Mcg, Cell::Scg) => false,
        (Cell::Scg, Cell::Mcg) => false,
        (Cell::Scg, Cell::Scg) => true,
    }
}

/// A PDU on the leg of the anchor's own node.
fn air_send(setup: &Setup, on_leg: OnLeg) -> (LinkId, Flight)
    ensures { result ≡ air_send setup.now on_leg }
{
    let OnLeg { num, pdu, .. } = on_leg;
    let (tag, pdu) = pdu;
    let flight = Flight::Air {
        id: setup.id(),
        g: setup.g(),
        num,
        tag,
        pdu,
    };
    (LinkId::new(setup.node(), Node::T, Class::Air), flight)
}

/// A PDU on the other leg, to the host.
fn host_send(
    alloc: Global,
    setup: &Setup,
    on_leg: OnLeg,
    host: Node,
) -> Result<(LinkId, Flight), Memory>
    ensures { IfOk result (λ send. send ∷ [] ≡ tunnel_send setup.now on_leg (Some host)) }
{
    let OnLeg {
        num,
        repeat,
        pdu,
        ..
    } = on_leg;
    let (tag, pdu) = pdu;
    let packet = down_packet(alloc, setup.g(), setup.id(), num, repeat, pdu.as_slice())?;
    let link = LinkId::new(setup.node(), host, Class::Tun);
    Ok((link, Flight::Tun { tag, packet }))
}

/// A PDU on the other leg goes to the host, if there is one (TS 38.425, 5.4.1).
fn tunnel_send(
    alloc: Global,
    setup: &Setup,
    on_leg: OnLeg,
    host: Option<Node>,
    sends: &mut Seq<(LinkId, Flight)>,
) -> Result<(), Memory>
    ensures { OnOk result (sends.new ≡ sends.old ++ tunnel_send setup.now on_leg host) }
{
    let Some(host) = host else {
        return Ok(());
    };
    let send = host_send(alloc, setup, on_leg, host)?;
    sends.push(send)
}

/// A PDU that was put on a leg is sent.
fn leg_send(
    alloc: Global,
    tunnel: &mut HostTunnel,
    setup: &Setup,
    on_leg: OnLeg,
    sends: &mut Seq<(LinkId, Flight)>,
) -> Result<(), Memory>
    ensures tunnel { OnOk result (tunnel.new ≡ tunnelled tunnel.old on_leg (is_local setup.now on_leg)) }
    ensures sends { OnOk result (sends.new ≡ sends.old ++ leg_send setup.now on_leg (is_local setup.now on_leg)) }
{
    if is_local(setup, &on_leg) {
        return sends.push(air_send(setup, on_leg));
    }
    tunnel.sent(on_leg.pdu.0.get(), on_leg.repeat)?;
    tunnel_send(alloc, setup, on_leg, setup.host(), sends)
}

/// PDUs that were put on the legs are sent, one after another.
pub(crate) fn leg_sends(
    alloc: Global,
    tunnel: &mut HostTunnel,
    setup: &Setup,
    on_legs: Seq<OnLeg>,
) -> Result<Seq<(LinkId, Flight)>, Memory>
    ensures tunnel { OnOk result (tunnel.new ≡ fold (λ o p. tunnelled o p (is_local setup.now p)) tunnel.old on_legs) }
    ensures sends { IfOk result (λ sends. sends ≡ flat_map (λ p. leg_send setup.now p (is_local setup.now p)) on_legs) }
{
    let mut sends = Seq::new(alloc);
    for on_leg in on_legs.into_vec() {
        leg_send(alloc, tunnel, setup, on_leg, &mut sends)?;
    }
    Ok(sends)
}
