//! The terminal at work.

ghost use Rattle.std.specs.Prelude.{◌≡◌};
ghost use Rattle.node_rules.specs.NodeRule.{terminal_node};
ghost use Rattle.node_rules.specs.Terminal.{new_terminal};

use dc_base::{Alg, DrbId, Gen, Line, Memory, Seq};
use dc_network::lines_of;
use node_parts::NodeCore;
use node_rules::{Edges, Input, Outcome};
use split_leg::Policies;
use std::alloc::Global;
use term_core::Terminal;
use workers::LiveNode;

/// The core of the terminal. It takes no commands.
#[derive(Drop)]
pub struct LiveTerminal {
    pub core: Terminal,
}

impl LiveTerminal {
    /// The terminal before the first event: it has no bearer. It takes no memory.
    pub fn new(alloc: Global, alg: Alg) -> LiveTerminal
        ensures { result.core ≡ new_terminal alg }
    {
        LiveTerminal {
            core: Terminal::new(alloc, alg),
        }
    }
}

impl NodeCore for LiveTerminal {
    ghost node = { λ t. terminal_node t.core };

    fn step(&mut self, input: Input, policies: &Policies) -> Result<Outcome, Memory> {
        let outcome = self.core.step(input, policies)?;
        Ok(outcome)
    }

    fn edges(&self, id: DrbId, g: Gen) -> Option<Edges> {
        self.core.edges(id, g)
    }

    fn has(&self, id: DrbId) -> bool {
        self.core.has(id)
    }
}

impl LiveNode for LiveTerminal {
    fn is_busy(&self) -> bool {
        false
    }

    fn lines_of(&self, alloc: Global, outcome: Outcome) -> Result<Seq<Line>, Memory> {
        lines_of(alloc, outcome)
    }
}
