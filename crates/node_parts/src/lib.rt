//! What the cores of the nodes share: what comes of a step, where a bearer has its anchor and its legs, and what an item of a
//! plan asks of a node.
#![tactic(auto)]

mod effects;
mod node_core;
mod parts;
mod places;

pub use effects::{accepted, add, handed_up, noted, quiet, sends_alone, sent, told, turned_down};
pub use node_core::NodeCore;
pub use parts::{host_at, item_id, part_at};
pub use places::{anchor_at, is_at, is_host_at, is_same_node, other_second};
