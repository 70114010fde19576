//! The master at work.

ghost use Rattle.std.specs.Prelude.{◌≡◌, ◌≤◌, IfOk};
ghost use Rattle.node_rules.specs.Master.{new_master};
ghost use Rattle.node_rules.specs.NodeRule.{master_node};

use dc_base::{Alg, DrbId, Gen, Line, Memory, Seq};
use dc_network::lines_of;
use master_core::Master;
use node_parts::NodeCore;
use node_rules::{Edges, Input, Outcome};
use split_leg::Policies;
use std::alloc::Global;
use workers::LiveNode;

/// The core of the master, which takes the commands.
#[derive(Drop)]
pub struct LiveMaster {
    pub core: Master,
}

impl LiveMaster {
    /// The master before the first event, with the first root key: it has no bearer and no secondary node. `used` SN Counters of
    /// that root, at most 65,536, were drawn before.
    pub fn new(alloc: Global, alg: Alg, root: &[u8; 32], used: u32) -> Result<LiveMaster, Memory>
        requires { used ≤ 65536 }
        ensures { IfOk result (λ made. made.core ≡ new_master alg used root.now) }
    {
        Ok(LiveMaster {
            core: Master::new(alloc, alg, root, used)?,
        })
    }
}

impl NodeCore for LiveMaster {
    ghost node = { λ m. master_node m.core };

    fn step(&mut self, input: Input, policies: &Policies) -> Result<Outcome, Memory> {
        let outcome = self.core.step(input, policies)?;
        Ok(outcome)
    }

    fn edges(&self, id: DrbId, g: Gen) -> Option<Edges> {
        self.core.edges(id, g)
    }

    fn has(&self, id: DrbId) -> bool {
        self.core.has(id)
    }
}

impl LiveNode for LiveMaster {
    fn is_busy(&self) -> bool {
        self.core.is_busy()
    }

    fn lines_of(&self, alloc: Global, outcome: Outcome) -> Result<Seq<Line>, Memory> {
        lines_of(alloc, outcome)
    }
}
