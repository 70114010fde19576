//! The part that a node has in an item of a plan (TS 37.340, 10.2 to 10.5).

ghost use Rattle.std.specs.Prelude.{◌≡◌};
ghost use Rattle.dc_base.specs.Records.{item_id};
ghost use Rattle.node_rules.specs.Parts.{host_at, moved_part, part_at, set_part};

use crate::places::{anchor_at, is_host_at, is_same_node};
use dc_base::{DrbId, Item, Node, Plan};
use leg_host::LegHost;
use node_rules::Part;
use std::alloc::Global;

/// The identity that an item is about.
pub fn item_id(item: &Item) -> DrbId
    ensures { result ≡ item_id item.now }
{
    match item {
        Item::Set { id, .. } => *id,
        Item::Unset { id } => *id,
    }
}

/// The part of the node in an item of a plan with this secondary node.
pub fn part_at(me: Node, sec: Option<Node>, item: &Item) -> Part
    ensures { result ≡ part_at me sec item.now }
{
    match item {
        Item::Set { shape, old, .. } => set_part(me, anchor_at(sec, *shape), *old),
        Item::Unset { .. } => Part::Drops,
    }
}

// Of a bearer that is new or was there before.
fn set_part(me: Node, new: Node, old: Option<Node>) -> Part
    ensures { result ≡ set_part me new old }
{
    match old {
        None => {
            if is_same_node(me, new) {
                Part::Establishes
            } else {
                Part::HasNoAnchor
            }
        }
        Some(old) => moved_part(new, is_same_node(me, old), is_same_node(me, new)),
    }
}

// By whether the anchor is here before and after.
fn moved_part(new: Node, was_here: bool, is_here: bool) -> Part
    ensures { result ≡ moved_part new was_here is_here }
{
    match (was_here, is_here) {
        (true, true) => Part::Renews,
        (true, false) => Part::HandsOver { to: new },
        (false, true) => Part::Awaits,
        (false, false) => Part::HasNoAnchor,
    }
}

/// The host that the node has from an item on: there is one if the bearer has a leg at the node and its anchor elsewhere. It
/// takes no memory.
pub fn host_at(alloc: Global, me: Node, plan: &Plan, item: &Item) -> Option<LegHost>
    ensures { result ≡ host_at me plan.now item.now }
{
    match item {
        Item::Set { id, n, shape, .. } => {
            if is_host_at(plan.sec, *shape, me) {
                let anchor = anchor_at(plan.sec, *shape);
                Some(LegHost::new(alloc, me, anchor, plan.g, *id, *n))
            } else {
                None
            }
        }
        Item::Unset { .. } => None,
    }
}
