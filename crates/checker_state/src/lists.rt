//! Bearers in a list, the latest first.

ghost use Rattle.std.specs.Prelude.{◌≡◌, ◌==◌, ◌&&◌, OnOk, find, fold, if◌then◌else◌, map, nat_le, nat_lt};
ghost use Rattle.std.specs.List.{position};
ghost use Rattle.claims.specs.Carrying.{with_new};
ghost use Rattle.claims.specs.Reading.{on_bearer, on_latest};
ghost use Rattle.claims.specs.Table.{is_change};
ghost use Rattle.claims.specs.Taking.{drop_taken};
ghost use Rattle.checker_state.specs.Changes.{changed_by};
ghost use Rattle.checker_state.specs.Kinds.{kind_of};

use crate::bearers::{Bearer, Change};
use crate::table::Kind;
use dc_base::{DrbId, Gen, Item, Memory, Node};

/// The latest establishment of an identity.
pub(crate) fn latest_of(bearers: &[Bearer], id: DrbId) -> Option<Bearer>
    ensures { result ≡ find (λ b. b.id == id) bearers.now }
{
    bearers.iter().copied().find(|bearer| bearer.id() == id)
}

/// The latest of an identity that was drawn by a generation.
pub(crate) fn latest_by(bearers: &[Bearer], id: DrbId, g: Gen) -> Option<Bearer>
    ensures { result ≡ find (λ b. (b.id == id) && nat_le b.g g) bearers.now }
{
    bearers
        .iter()
        .copied()
        .find(|bearer| bearer.id() == id && bearer.g() <= g)
}

/// The place of the latest of an identity.
fn place_of(bearers: &[Bearer], id: DrbId) -> Option<usize>
    ensures { result ≡ position (λ b. b.id == id) bearers.now }
{
    bearers.iter().position(|bearer| bearer.id() == id)
}

/// The latest of an identity, changed.
pub(crate) fn change_latest(bearers: &mut Vec<Bearer>, id: DrbId, change: Change)
    ensures { bearers.new.items ≡ on_latest id (changed_by change) bearers.old.items }
{
    let Some(place) = place_of(bearers, id) else {
        return;
    };
    let changed = bearers[place].changed(change);
    bearers[place] = changed;
}

/// The establishment of this name, changed.
pub(crate) fn change_named(bearers: &mut Vec<Bearer>, g: Gen, change: Change) -> Result<(), Memory>
    ensures { OnOk result (bearers.new.items ≡ on_bearer g (changed_by change) bearers.old.items) }
{
    let changed = bearers.iter().map(|bearer| {
        if bearer.g() == g {
            bearer.changed(change)
        } else {
            *bearer
        }
    });
    *bearers = changed.collect(*bearers.allocator())?;
    Ok(())
}

/// Those of an identity that were set up before a generation, changed.
pub(crate) fn change_earlier(
    bearers: &mut Vec<Bearer>,
    id: DrbId,
    g: Gen,
    change: Change,
) -> Result<(), Memory>
    ensures { OnOk result (bearers.new.items ≡ map (λ b. if (b.id == id) && nat_lt b.g g then changed_by change b else b) bearers.old.items) }
{
    let changed = bearers.iter().map(|bearer| {
        if bearer.id() == id && bearer.g() < g {
            bearer.changed(change)
        } else {
            *bearer
        }
    });
    *bearers = changed.collect(*bearers.allocator())?;
    Ok(())
}

/// Those that a command set up, changed.
pub(crate) fn change_made(
    bearers: &mut Vec<Bearer>,
    kind: Kind,
    change: Change,
) -> Result<(), Memory>
    ensures { OnOk result (bearers.new.items ≡ map (λ b. if is_change b.g (kind_of kind) then changed_by change b else b) bearers.old.items) }
{
    let changed = bearers.iter().map(|bearer| {
        if kind.is_change(bearer.g()) {
            bearer.changed(change)
        } else {
            *bearer
        }
    });
    *bearers = changed.collect(*bearers.allocator())?;
    Ok(())
}

/// A bearer that an item establishes, and the earlier ones.
fn add_one(bearers: &mut Vec<Bearer>, g: Gen, item: &Item) -> Result<(), Memory>
    ensures { OnOk result (bearers.new.items ≡ with_new g bearers.old.items item.now) }
{
    match item {
        Item::Set {
            id,
            n,
            first,
            old: None,
            ..
        } => {
            bearers.insert(0, Bearer::new(g, *id, *n, *first))?;
            Ok(())
        }
        Item::Set { old: Some(_), .. } => Ok(()),
        Item::Unset { .. } => Ok(()),
    }
}

/// The bearers that items establish, and the earlier ones.
pub(crate) fn add_all(bearers: &mut Vec<Bearer>, g: Gen, items: &[Item]) -> Result<(), Memory>
    ensures { OnOk result (bearers.new.items ≡ fold (with_new g) bearers.old.items items.now) }
{
    for item in items {
        add_one(bearers, g, item)?;
    }
    Ok(())
}

/// The bearers with a drop taken at a secondary node.
fn drop_one(bearers: &mut Vec<Bearer>, node: Node, g: Gen, item: &Item) -> Result<(), Memory>
    ensures { OnOk result (bearers.new.items ≡ drop_taken node g bearers.old.items item.now) }
{
    match item {
        Item::Set { .. } => Ok(()),
        Item::Unset { id } => change_earlier(bearers, *id, g, Change::DroppedAt(node)),
    }
}

/// The same of all items of a plan.
pub(crate) fn drop_all(
    bearers: &mut Vec<Bearer>,
    node: Node,
    g: Gen,
    items: &[Item],
) -> Result<(), Memory>
    ensures { OnOk result (bearers.new.items ≡ fold (drop_taken node g) bearers.old.items items.now) }
{
    for item in items {
        drop_one(bearers, node, g, item)?;
    }
    Ok(())
}
