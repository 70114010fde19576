//! Bearers of the table that a command concerns, and the items that set them.

ghost use Rattle.std.specs.Prelude.{◌≡◌, ◌==◌, [], ◌∷◌, IfOk, filter, map, not};
ghost use Rattle.dc_base.specs.Nodes.{is_mm};
ghost use Rattle.node_rules.specs.Drafts.{key_for, set_to};

use dc_base::{DrbId, Item, KeyName, Memory, Shape, Side};
use node_rules::Row;
use std::alloc::Global;

/// The key of a shape: K_SN where the anchor is at the secondary node, else the master's (TS 33.501, 6.10.2.1).
pub(crate) fn key_for(shape: Shape, root: u32, second_key: KeyName) -> KeyName
    ensures { result ≡ key_for shape root second_key }
{
    if shape.at_second {
        second_key
    } else {
        KeyName {
            root,
            side: Side::Master,
        }
    }
}

// The item that sets a bearer of the table to a shape, under the key of that shape.
fn set_to(root: u32, second_key: KeyName, shape: Shape, row: &Row) -> Item
    ensures { result ≡ set_to root second_key (λ r. shape) row.now }
{
    Item::Set {
        id: row.id,
        n: row.n,
        first: row.first,
        shape,
        threshold: row.threshold,
        policy: row.policy,
        key: key_for(shape, root, second_key),
        old: Some(row.anchor),
    }
}

/// One item.
pub(crate) fn one(alloc: Global, item: Item) -> Result<Vec<Item>, Memory>
    ensures { IfOk result (λ made. made.items ≡ item ∷ []) }
{
    let mut items = Vec::new(alloc);
    items.push(item)?;
    Ok(items)
}

/// The items that set bearers to one shape.
pub(crate) fn items_to(
    alloc: Global,
    rows: &[Row],
    shape: Shape,
    root: u32,
    second_key: KeyName,
) -> Result<Vec<Item>, Memory>
    ensures { IfOk result (λ made. made.items ≡ map (set_to root second_key (λ r. shape)) rows.now) }
{
    let items = rows.iter().map(|row| set_to(root, second_key, shape, row));
    Ok(items.collect(alloc)?)
}

/// The items that set bearers to the shapes that they have.
pub(crate) fn items_as_is(
    alloc: Global,
    rows: &[Row],
    root: u32,
    second_key: KeyName,
) -> Result<Vec<Item>, Memory>
    ensures { IfOk result (λ made. made.items ≡ map (set_to root second_key (λ r. r.shape)) rows.now) }
{
    let items = rows
        .iter()
        .map(|row| set_to(root, second_key, row.shape, row));
    Ok(items.collect(alloc)?)
}

/// The bearers of an identity.
pub(crate) fn rows_of(alloc: Global, rows: &[Row], id: DrbId) -> Result<Vec<Row>, Memory>
    ensures { IfOk result (λ made. made.items ≡ filter (λ r. r.id == id) rows.now) }
{
    let rows = rows.iter().copied().filter(|row| row.id == id);
    Ok(rows.collect(alloc)?)
}

/// The bearers that the secondary node has a part in.
pub(crate) fn shared_rows(alloc: Global, rows: &[Row]) -> Result<Vec<Row>, Memory>
    ensures { IfOk result (λ made. made.items ≡ filter (λ r. not (is_mm r.shape)) rows.now) }
{
    let rows = rows.iter().copied().filter(|row| !row.shape.is_mm());
    Ok(rows.collect(alloc)?)
}

/// The bearers with their anchor at the secondary node.
pub(crate) fn second_rows(alloc: Global, rows: &[Row]) -> Result<Vec<Row>, Memory>
    ensures { IfOk result (λ made. made.items ≡ filter (λ r. r.shape.at_second) rows.now) }
{
    let rows = rows.iter().copied().filter(|row| row.shape.at_second);
    Ok(rows.collect(alloc)?)
}
