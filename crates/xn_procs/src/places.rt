//! Nodes, and where a bearer has its anchor (TS 37.340, 4.2.2).

ghost use Rattle.std.specs.Prelude.{◌≡◌};
ghost use Rattle.dc_base.specs.Nodes.{is_same_node};
ghost use Rattle.node_rules.specs.Places.{anchor_at, is_at, other_second};

use dc_base::{Node, Shape};

/// Whether both are the same node.
pub fn is_same_node(x: Node, y: Node) -> bool
    ensures { result ≡ is_same_node x y }
{
    x.number() == y.number()
}

/// Whether the node that may be there is this one.
pub fn is_at(node: Node, there: Option<Node>) -> bool
    ensures { result ≡ is_at node there }
{
    match there {
        Some(other) => is_same_node(node, other),
        None => false,
    }
}

/// The secondary node that is not this one.
pub fn other_second(node: Node) -> Node
    ensures { result ≡ other_second node }
{
    match node {
        Node::A => Node::B,
        Node::B => Node::A,
        Node::M => Node::A,
        Node::T => Node::A,
    }
}

/// The node of the anchor of a bearer of this shape, where this is the secondary node.
pub fn anchor_at(sec: Option<Node>, shape: Shape) -> Node
    ensures { result ≡ anchor_at sec shape }
{
    match sec {
        Some(node) => { if shape.at_second { node } else { Node::M } }
        None => Node::M,
    }
}
