//! A secondary node at work.

ghost use Rattle.std.specs.Prelude.{◌≡◌};
ghost use Rattle.node_rules.specs.NodeRule.{second_node};
ghost use Rattle.node_rules.specs.Secondary.{new_second};

use dc_base::{Alg, DrbId, Gen, Line, Memory, Node, Seq};
use dc_network::lines_of;
use node_parts::NodeCore;
use node_rules::{Edges, Input, Outcome};
use second_core::Second;
use split_leg::Policies;
use std::alloc::Global;
use workers::LiveNode;

/// The core of a secondary node. It takes no commands.
#[derive(Drop)]
pub struct LiveSecond {
    pub core: Second,
}

impl LiveSecond {
    /// This node before the first event: it has no context of the terminal. It takes no memory.
    pub fn new(alloc: Global, alg: Alg, me: Node) -> LiveSecond
        ensures { result.core ≡ new_second alg me }
    {
        LiveSecond {
            core: Second::new(alloc, alg, me),
        }
    }
}

impl NodeCore for LiveSecond {
    ghost node = { λ s. second_node s.core };

    fn step(&mut self, input: Input, policies: &Policies) -> Result<Outcome, Memory> {
        let outcome = self.core.step(input, policies)?;
        Ok(outcome)
    }

    fn edges(&self, id: DrbId, g: Gen) -> Option<Edges> {
        self.core.edges(id, g)
    }

    fn has(&self, id: DrbId) -> bool {
        self.core.has(id)
    }
}

impl LiveNode for LiveSecond {
    fn is_busy(&self) -> bool {
        false
    }

    fn lines_of(&self, alloc: Global, outcome: Outcome) -> Result<Seq<Line>, Memory> {
        lines_of(alloc, outcome)
    }
}
