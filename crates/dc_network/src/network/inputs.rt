//! What a node is given, and the age of flights there.

ghost use Rattle.std.specs.Prelude.{◌≡◌, ◌+◌, nat_lt, IfOk, MatchOption};
ghost use Rattle.node_rules.specs.Choices.{by_policies};
ghost use Rattle.node_rules.specs.Readers.{edges_at, is_aged_for};
ghost use Rattle.node_rules.specs.Run.{carried_on, happening, node_at, submitter, takes};
ghost use Rattle.dc_base.specs.Count.{window};
ghost use Rattle.dc_network.specs.Events.{IsFor, IsOfFlight, taken};
ghost use Rattle.split_leg.specs.Stored.{margins};

use super::Network;
use dc_base::{Dir, DrbId, Event, Gen, Memory, Node, SnLen, window};
use node_rules::{Edges, Input, Outcome, Weight};
use split_leg::Policies;

/// The node that a submission comes to.
fn submitter(dir: Dir) -> Node
    ensures { result ≡ submitter dir }
{
    match dir {
        Dir::Ul => Node::T,
        Dir::Dl => Node::M,
    }
}

/// The node that an event is for: commands are for the master, a submission for the sender of its direction, the rest for the
/// node that it names; and `None` of what happens to a flight.
fn node_of(event: &Event) -> Option<Node>
    ensures { MatchOption result (IsOfFlight event.now) (λ node. IsFor node event.now) }
{
    match event {
        Event::Bearer { .. } => Some(Node::M),
        Event::Reshape { .. } => Some(Node::M),
        Event::Remove { .. } => Some(Node::M),
        Event::Add { .. } => Some(Node::M),
        Event::Change => Some(Node::M),
        Event::Release => Some(Node::M),
        Event::RekeySecond => Some(Node::M),
        Event::RekeyMaster { .. } => Some(Node::M),
        Event::Recover { .. } => Some(Node::M),
        Event::Report { node, .. } => Some(*node),
        Event::Deny { node, .. } => Some(*node),
        Event::Ask { node, .. } => Some(*node),
        Event::ScgFail => Some(Node::T),
        Event::Submit { dir, .. } => Some(submitter(*dir)),
        Event::Step { .. } => None,
        Event::Lose { .. } => None,
        Event::Again { .. } => None,
    }
}

// Whether a COUNT lies more than a window behind an edge.
fn is_past(count: u32, n: SnLen, edge: u32) -> bool
    ensures { result ≡ nat_lt (count + window n) edge }
{
    u64::from(count) + u64::from(window(n)) < u64::from(edge)
}

impl Network {
    /// An event comes to its node, or happens to a flight, which is taken from its link if it is given, aged or lost. What it
    /// sends does not stand on the links yet.
    pub(super) fn take(&mut self, event: Event, policies: &Policies) -> Result<Outcome, Memory>
        ensures { IfOk result (λ out. (self.new, out) ≡ taken event (carried_on (by_policies (margins policies.now)) self.old (happening self.old event))) }
    {
        match node_of(&event) {
            Some(node) => self.give(node, Input::Cmd(event), policies),
            None => self.take_from_link(event, policies),
        }
    }

    // Gives an input to a node.
    pub(super) fn give(
        &mut self,
        node: Node,
        input: Input,
        policies: &Policies,
    ) -> Result<Outcome, Memory>
        ensures { IfOk result (λ out. (self.new, out) ≡ takes (by_policies (margins policies.now)) self.old input node) }
    {
        match node {
            Node::T => self.terminal.step(input, policies),
            Node::M => self.master.step(input, policies),
            Node::A => self.a.step(input, policies),
            Node::B => self.b.step(input, policies),
        }
    }

    // The edges of a bearer in a generation, where the node has its active entity.
    fn edges(&self, node: Node, id: DrbId, g: Gen) -> Option<Edges>
        ensures { result ≡ edges_at (node_at self.now node) id g }
    {
        match node {
            Node::T => self.terminal.edges(id, g),
            Node::M => self.master.edges(id, g),
            Node::A => self.a.edges(id, g),
            Node::B => self.b.edges(id, g),
        }
    }

    /// Whether a flight is aged for its receiver: a data PDU by RX_DELIV, a delivery status by Low.
    pub(super) fn is_aged_for(&self, node: Node, weight: Weight) -> bool
        ensures { result ≡ is_aged_for (node_at self.now node) weight }
    {
        match weight {
            Weight::DataPduOf { id, g, count } => match self.edges(node, id, g) {
                Some(edges) => is_past(count, edges.n, edges.deliv),
                None => false,
            },
            Weight::DeliveryOf { id, g, count } => match self.edges(node, id, g) {
                Some(edges) => is_past(count, edges.n, edges.low),
                None => false,
            },
            Weight::Weightless => false,
        }
    }
}
