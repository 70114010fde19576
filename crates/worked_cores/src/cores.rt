//! The cores of the nodes, with no network between them.

ghost use Rattle.std.specs.Prelude.{◌≡◌, ◌≤◌, ℕ, IfOk};
ghost use Rattle.worked_cores.specs.declared.asking.Question.TheVariants as ask;
ghost use Rattle.worked_cores.specs.declared.asking.Reply.TheVariants as reply;
ghost use Rattle.node_rules.specs.Choices.{by_policies};
ghost use Rattle.node_rules.specs.NodeRule.{node_step};
ghost use Rattle.node_rules.specs.Readers.{edges_at, has};
ghost use Rattle.split_leg.specs.Stored.{margins};

use crate::asking::{Question, Reply};
use dc_base::{Header, Memory, Node};
use master_core::Master;
use node_parts::NodeCore;
use node_rules::{Input, Outcome};
use second_core::Second;
use split_leg::Policies;
use std::alloc::Global;
use term_core::Terminal;

/// A core of each node.
#[derive(Drop)]
pub(crate) struct Cores {
    terminal: Terminal,
    master: Master,
    a: Second,
    b: Second,
}

/// What a core answers to an input.
fn answered<N: NodeCore>(core: &mut N, input: Input, policies: &Policies) -> Result<Outcome, Memory>
    ensures { IfOk result (λ out. (N.node core.new, out) ≡ node_step (by_policies (margins policies.now)) (N.node core.old) input) }
{
    core.step(input, policies)
}

/// What a core says of a bearer.
fn reply_of<N: NodeCore>(core: &N, question: Question) -> Reply
    ensures has { (id : ℕ) → question ≡ ask.Has id → result ≡ reply.Has (has (N.node core.now) id) }
    ensures edges { (id g : ℕ) → question ≡ ask.Edges id g → result ≡ reply.Edges (edges_at (N.node core.now) id g) }
{
    match question {
        Question::Has(id) => Reply::Has(core.has(id)),
        Question::Edges(id, g) => Reply::Edges(core.edges(id, g)),
    }
}

impl Cores {
    /// The cores before the first input.
    pub(crate) fn new(alloc: Global, header: &Header) -> Result<Cores, Memory>
        requires { header.now.used ≤ 65536 }
    {
        Ok(Cores {
            terminal: Terminal::new(alloc, header.alg),
            master: Master::new(alloc, header.alg, &header.root, header.used)?,
            a: Second::new(alloc, header.alg, Node::A),
            b: Second::new(alloc, header.alg, Node::B),
        })
    }

    /// What the core of this node answers to an input.
    pub(crate) fn step(
        &mut self,
        node: Node,
        input: Input,
        policies: &Policies,
    ) -> Result<Outcome, Memory> {
        match node {
            Node::T => answered(&mut self.terminal, input, policies),
            Node::M => answered(&mut self.master, input, policies),
            Node::A => answered(&mut self.a, input, policies),
            Node::B => answered(&mut self.b, input, policies),
        }
    }

    /// What the core of this node says of a bearer.
    pub(crate) fn reply(&self, node: Node, question: Question) -> Reply {
        match node {
            Node::T => reply_of(&self.terminal, question),
            Node::M => reply_of(&self.master, question),
            Node::A => reply_of(&self.a, question),
            Node::B => reply_of(&self.b, question),
        }
    }
}
