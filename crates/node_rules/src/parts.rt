//! The part that a node has in an item of a plan.

use dc_base::Node;

/// What a node is to do with a bearer, by an item of a plan (TS 37.340, 10.2 to 10.5).
#[derive(Clone, Copy, Debug, PartialEq, Eq)]
pub enum Part {
    /// A new bearer's anchor begins here.
    Establishes,
    /// The anchor stays here.
    Renews,
    /// It comes from another node.
    Awaits,
    /// It goes to another node.
    HandsOver { to: Node },
    /// The bearer is dropped.
    Drops,
    /// No anchor of it is here.
    HasNoAnchor,
}
