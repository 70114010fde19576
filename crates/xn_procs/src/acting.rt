//! Lists of what a node has to do.

ghost use Rattle.std.specs.Prelude.{◌≡◌, ◌∷◌, ◌++◌, [], IfOk};
ghost use Rattle.node_rules.specs.declared.acts.Act.TheVariants as act;

use dc_base::{Memory, Node, Rec, Seq};
use node_rules::Act;
use std::alloc::Global;

/// A record is sent to a node.
pub fn send(to: Node, record_sent: Rec) -> Act
    ensures { result ≡ act.Send to record_sent }
{
    Act::Send { to, record_sent }
}

/// These, in this order.
pub fn acts<const N: usize>(alloc: Global, acts: [Act; N]) -> Result<Seq<Act>, Memory>
    ensures { IfOk result (λ made. made ≡ acts.entry) }
{
    Ok(Seq::from_vec(Vec::from_array(alloc, acts)?))
}

/// These, and then those.
pub fn joined(first: Seq<Act>, rest: Seq<Act>) -> Result<Seq<Act>, Memory>
    ensures { IfOk result (λ made. made ≡ first ++ rest) }
{
    let mut all = first.into_vec();
    let mut rest = rest.into_vec();
    all.append(&mut rest)?;
    Ok(Seq::from_vec(all))
}
