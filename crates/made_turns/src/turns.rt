//! A turn of a made script.

ghost use Rattle.std.specs.Prelude.{◌≡◌, IfOk};
ghost use Rattle.made_scripts.specs.Turns.{turn, turn_of, turn_of_kind, unless_busy};

use crate::losing::loss;
use crate::stepping::drawn_step;
use dc_base::{Dir, Event, Memory};
use dc_network::Network;
use made_scripts::{Draws, command, submission};
use std::alloc::Global;

/// The event, unless a command is open.
fn unless_busy(network: &Network, event: Option<Event>) -> Option<Event>
    ensures { result ≡ unless_busy network.now event }
{
    if network.is_busy() { None } else { event }
}

/// What a turn does, by its first draw below 16.
#[tactic(auto, using(crate::proofs::TurnKinds::kind_dl, crate::proofs::TurnKinds::kind_ul, crate::proofs::TurnKinds::kind_step, crate::proofs::TurnKinds::kind_loss, crate::proofs::TurnKinds::kind_command))]
fn event_of_kind(
    alloc: Global,
    network: &Network,
    draws: &mut Draws,
    number: u32,
    kind: u32,
) -> Result<Option<Event>, Memory>
    ensures { IfOk result (λ event. turn event draws.new ≡ turn_of_kind network.now number draws.old kind) }
{
    match kind {
        0..=1 => Ok(Some(submission(alloc, Dir::Dl, number)?)),
        2 => Ok(Some(submission(alloc, Dir::Ul, number)?)),
        3..=13 => Ok(drawn_step(network, draws)),
        14 => Ok(unless_busy(network, loss(network)?)),
        _ => {
            let drawn = draws.draw(24);
            Ok(unless_busy(network, command(drawn)))
        }
    }
}

/// What the turn of this number, from 0, does to these nodes and links: its event, if it has one. By what it draws it submits a
/// payload, steps a flight, loses one, or begins a command.
pub fn turn_event(
    alloc: Global,
    network: &Network,
    draws: &mut Draws,
    number: u32,
) -> Result<Option<Event>, Memory>
    ensures { IfOk result (λ event. turn event draws.new ≡ turn_of network.now number draws.old) }
{
    let kind = draws.draw(16);
    event_of_kind(alloc, network, draws, number, kind)
}
