//! Lists of what is sent.

ghost use Rattle.std.specs.Prelude.{◌≡◌, [], ◌∷◌, IfOk};

use dc_base::{Flight, LinkId, Memory, Seq};
use std::alloc::Global;

/// A send: the link and the flight.
pub type Send = (LinkId, Flight);

/// One send.
pub fn one(alloc: Global, send: Send) -> Result<Seq<Send>, Memory>
    ensures { IfOk result (λ sends. sends ≡ send ∷ []) }
{
    let mut sends = Seq::new(alloc);
    sends.push(send)?;
    Ok(sends)
}

/// Two sends, in their order.
pub fn two(alloc: Global, first: Send, second: Send) -> Result<Seq<Send>, Memory>
    ensures { IfOk result (λ sends. sends ≡ first ∷ second ∷ []) }
{
    let mut sends = Seq::new(alloc);
    sends.push(first)?;
    sends.push(second)?;
    Ok(sends)
}
