//! Steps of a made script: on a link that is drawn among those on which flights stand.

ghost use Rattle.std.specs.Prelude.{◌≡◌, ◌<◌, length, slice_get, IfSome, Some};
ghost use Rattle.made_scripts.specs.Turns.{drawn_step, loaded_count, loaded_of, step_on, turn};
ghost use Rattle.node_rules.specs.World.{flights_on};

use dc_base::{Event, LinkId};
use dc_network::Network;
use made_scripts::Draws;

/// On how many of these links flights stand.
#[tactic(auto, unfolding(made_scripts::specs::Turns::loaded_count))]
fn count_loaded(network: &Network, links: &[LinkId]) -> usize
    ensures { result ≡ loaded_count network.now.links links.now }
{
    links.iter().filter(|link| network.len(**link) > 0).count()
}

/// The link of this place, from 0, among those of these links on which flights stand.
fn loaded_at(network: &Network, links: &[LinkId], place: u32) -> Option<LinkId>
    ensures link { result ≡ slice_get (loaded_of network.now.links links.now) place }
    ensures loaded { IfSome result (λ link. 0 < length (flights_on link network.now.links)) }
{
    let mut before = place;
    for link in links {
        if network.len(*link) > 0 {
            if before == 0 {
                return Some(*link);
            }
            before -= 1;
        }
    }
    None
}

/// The step on a link: of its first flight where the link keeps its order, and else of one that is drawn.
fn step_on(network: &Network, draws: &mut Draws, link: LinkId) -> Event
    requires { 0 < length (flights_on link network.now.links) }
    ensures { turn (Some result) draws.new ≡ step_on network.now.links draws.old link }
{
    let index = if link.class.is_ordered() {
        0
    } else {
        draws.draw(network.len(link))
    };
    Event::Step { link, index }
}

/// The step that is drawn, if a flight stands on any link.
pub(crate) fn drawn_step(network: &Network, draws: &mut Draws) -> Option<Event>
    ensures { turn result draws.new ≡ drawn_step network.now.links draws.old }
{
    let links = LinkId::all();
    let loaded = count_loaded(network, &links);
    if loaded == 0 {
        return None;
    }
    let link = loaded_at(network, &links, draws.draw(loaded))?;
    Some(step_on(network, draws, link))
}
