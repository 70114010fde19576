//! What the cores of the four nodes have in common.

ghost use Rattle.std.specs.Prelude.{◌≡◌, IfOk};
ghost use Rattle.node_rules.specs.Choices.{by_policies};
ghost use Rattle.node_rules.specs.NodeRule.{NodeState, node_step};
ghost use Rattle.node_rules.specs.Readers.{edges_at, has};
ghost use Rattle.split_leg.specs.Stored.{margins};

use dc_base::{DrbId, Gen, Memory};
use node_rules::{Edges, Input, Outcome};
use split_leg::Policies;

/// The core of a node: an input in, an outcome out, with no clock, no thread and no other node. After a call that answers
/// `Memory` it is not used again.
pub trait NodeCore {
    ghost node: { Self → NodeState };

    /// Takes an input. Want of memory is answered too where a number passes what its field holds, which no run within its limits
    /// comes to: 2^24 generations, 2^24 PDUs in a tunnel, 2^32 PDUs on a leg; and for a payload that is not of 1 to 9000 octets.
    fn step(&mut self, input: Input, policies: &Policies) -> Result<Outcome, Memory>
        ensures { IfOk result (λ out. (node self.new, out) ≡ node_step (by_policies (margins policies.now)) (node self.old) input) };

    /// The SN length, RX_DELIV and Low of a bearer, where the node has its active entity in this generation.
    fn edges(&self, id: DrbId, g: Gen) -> Option<Edges>
        ensures { result ≡ edges_at (node self.now) id g };

    /// Whether a report of the bearer is not refused at the node.
    fn has(&self, id: DrbId) -> bool
        ensures { result ≡ has (node self.now) id };
}
