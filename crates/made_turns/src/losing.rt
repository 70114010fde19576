//! Losses of a made script: of the first packet of a bearer's own traffic in a tunnel.

ghost use Rattle.std.specs.Prelude.{◌≡◌, IfOk, Some, slice_get};
ghost use Rattle.dc_base.specs.declared.flights.Flight.{Flight};
ghost use Rattle.made_scripts.specs.Turns.{first_loss, is_own_traffic, loss, loss_on, own_place};
ghost use Rattle.node_rules.specs.World.{flights_on};

use dc_base::{Event, Flight, LinkId, Memory, teid_parts};
use dc_network::Network;
use gtpu::decode;

/// Whether a flight is a packet of a bearer's own traffic, by the kind of its TEID.
fn is_own_traffic(flight: &Flight) -> bool
    ensures { result ≡ is_own_traffic flight.now }
{
    match flight {
        Flight::Tun { packet, .. } => match decode(packet.as_slice()) {
            Ok(packet) => teid_parts(packet.teid).2 == 0,
            Err(_) => false,
        },
        _ => false,
    }
}

/// Whether the flight at a place of a link is one.
fn is_own_at(network: &Network, link: LinkId, place: usize) -> bool
    ensures { (flight : Flight) → slice_get (flights_on link network.now.links) place ≡ Some flight → result ≡ is_own_traffic flight }
{
    match network.flight(link, place) {
        Some(flight) => is_own_traffic(flight),
        None => false,
    }
}

/// The place of the first such flight on a link.
fn own_place(network: &Network, link: LinkId) -> Option<usize>
    ensures { result ≡ own_place (flights_on link network.now.links) }
{
    for place in 0..network.len(link) {
        if is_own_at(network, link, place) {
            return Some(place);
        }
    }
    None
}

/// Its loss, if the link is a tunnel. `Memory` where its place is 2^32 or more: no link of a run within its limits is so long.
fn loss_on(network: &Network, link: LinkId) -> Result<Option<Event>, Memory>
    ensures { IfOk result (λ event. event ≡ loss_on network.now.links link) }
{
    if !link.class.is_tunnel() {
        return Ok(None);
    }
    let Some(place) = own_place(network, link) else {
        return Ok(None);
    };
    let Ok(index) = u32::try_from(place) else {
        return Err(Memory);
    };
    Ok(Some(Event::Lose { link, index }))
}

/// The loss on the first of these links that has such a flight.
fn first_loss(network: &Network, links: &[LinkId]) -> Result<Option<Event>, Memory>
    ensures { IfOk result (λ event. event ≡ first_loss network.now.links links.now) }
{
    for link in links {
        if let Some(event) = loss_on(network, *link)? {
            return Ok(Some(event));
        }
    }
    Ok(None)
}

/// The loss of the first packet of a bearer's own traffic on the first tunnel that has one.
pub(crate) fn loss(network: &Network) -> Result<Option<Event>, Memory>
    ensures { IfOk result (λ event. event ≡ loss network.now.links) }
{
    first_loss(network, &LinkId::all())
}
