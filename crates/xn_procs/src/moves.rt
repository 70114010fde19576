//! The bearers that a plan moves to another node (TS 37.340, 10.2 to 10.5).

ghost use Rattle.std.specs.Prelude.{◌≡◌, IfOk};
ghost use Rattle.std.specs.List.{list_any};
ghost use Rattle.std.specs.Option.{option_to_list};
ghost use Rattle.dc_base.specs.Nodes.{is_same_node};
ghost use Rattle.dc_base.specs.declared.nodes.Node.TheVariants.{M};
ghost use Rattle.node_rules.specs.MasterGo.{moving_by, moving_of, preparing};

use crate::acting::acts;
use crate::places::{anchor_at, is_same_node};
use dc_base::{DrbId, Item, Memory, Node, Plan, Seq};
use node_rules::Act;
use std::alloc::Global;

// The bearer that an item moves, with its new anchor.
fn moving_of(sec: Option<Node>, item: &Item) -> Option<(DrbId, Node)>
    ensures { option_to_list result ≡ moving_of sec item.now }
{
    match item {
        Item::Set {
            id,
            shape,
            old: Some(old),
            ..
        } => {
            let new = anchor_at(sec, *shape);
            if is_same_node(*old, new) {
                None
            } else {
                Some((*id, new))
            }
        }
        Item::Set { .. } => None,
        Item::Unset { .. } => None,
    }
}

/// The bearers that a plan moves, each with its new anchor.
pub fn moving_by(alloc: Global, plan: &Plan) -> Result<Seq<(DrbId, Node)>, Memory>
    ensures { IfOk result (λ made. made ≡ moving_by plan.now) }
{
    let mut moving = Seq::new(alloc);
    for item in plan.items.as_slice() {
        if let Some(moved) = moving_of(plan.sec, item) {
            moving.push(moved)?;
        }
    }
    Ok(moving)
}

// Whether one of these bearers moves to the master.
fn moves_here(moving: &[(DrbId, Node)]) -> bool
    ensures { result ≡ list_any (λ x. is_same_node M x.1) moving.now }
{
    moving.iter().any(|(_, node)| is_same_node(Node::M, *node))
}

/// The waiting anchors that the master makes where the command of a plan begins.
pub fn preparing(alloc: Global, plan: &Plan) -> Result<Seq<Act>, Memory>
    ensures { IfOk result (λ made. made ≡ preparing plan.now) }
{
    let moving = moving_by(alloc, plan)?;
    if !moves_here(moving.as_slice()) {
        return Ok(Seq::new(alloc));
    }
    Ok(acts(alloc, [Act::Prepare { plan: plan.copy()? }])?)
}
