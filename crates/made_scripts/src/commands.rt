//! The events of a turn that look at no link.

ghost use Rattle.std.specs.Prelude.{◌≡◌, IfOk};
ghost use Rattle.dc_base.specs.declared.events.Event.TheVariants.{Submit};
ghost use Rattle.made_scripts.specs.Turns.{command_of, payload_of};

use crate::fixed_lines::{bearer, mxm, sxs};
use dc_base::{Dir, Event, Memory, Node, Octets};
use std::alloc::Global;

/// The submission of the turn of this number: its payload is the number, in four octets.
pub fn submission(alloc: Global, dir: Dir, number: u32) -> Result<Event, Memory>
    ensures { IfOk result (λ event. event ≡ Submit 1 dir (payload_of number)) }
{
    let sdu = Octets::from_slice(alloc, &number.to_be_bytes())?;
    Ok(Event::Submit {
        id: bearer(),
        dir,
        sdu,
    })
}

/// The command of a draw below 24, if it is one.
#[tactic(auto, unfolding(crate::specs::Turns::command_of))]
pub fn command(drawn: u32) -> Option<Event>
    ensures { result ≡ command_of drawn }
{
    let id = bearer();
    match drawn {
        0 => Some(Event::Reshape { id, shape: mxm() }),
        1 => Some(Event::Reshape { id, shape: sxs() }),
        2 => Some(Event::Change),
        3 => Some(Event::RekeySecond),
        4 => Some(Event::Report { node: Node::T, id }),
        5 => Some(Event::Recover { id }),
        _ => None,
    }
}
