//! The bearers of the table, by ascending identity.

ghost use Rattle.std.specs.Prelude.{◌≡◌, ◌==◌, OnOk, filter, nat_le, not};
ghost use Rattle.std.specs.List.{position};
ghost use Rattle.node_rules.specs.CommandTable.{establishment, with_row};
ghost use Rattle.node_rules.specs.Places.{anchor_at};

use dc_base::{DrbId, Gen, Memory, Node, Shape};
use node_rules::Row;

/// The establishment that an item of a plan of generation `g` sets: a new one without an old anchor, else that of the table.
pub(crate) fn establishment(g: Gen, old: Option<Node>, row: Option<Row>) -> Gen
    ensures { result ≡ establishment g old row }
{
    match (old, row) {
        (None, _) => g,
        (Some(_), None) => g,
        (Some(_), Some(row)) => row.est,
    }
}

/// The node of the anchor of a bearer of this shape.
pub(crate) fn anchor_at(sec: Option<Node>, shape: Shape) -> Node
    ensures { result ≡ anchor_at sec shape }
{
    if !shape.at_second {
        return Node::M;
    }
    match sec {
        None => Node::M,
        Some(node) => node,
    }
}

// The place of the first bearer of this identity or a greater one.
fn place_of(rows: &[Row], id: DrbId) -> Option<usize>
    ensures { result ≡ position (λ r. nat_le id r.id) rows.now }
{
    rows.iter().position(|row| id.get() <= row.id.get())
}

/// Puts a bearer in its place by ascending identity, instead of one that was there.
pub(crate) fn put_row(rows: &mut Vec<Row>, row: Row) -> Result<(), Memory>
    ensures { OnOk result (rows.new.items ≡ with_row row rows.old.items) }
{
    let Some(place) = place_of(rows, row.id) else {
        rows.push(row)?;
        return Ok(());
    };
    if rows[place].id == row.id {
        rows[place] = row;
        return Ok(());
    }
    rows.insert(place, row)?;
    Ok(())
}

/// Drops the bearer of an identity.
pub(crate) fn drop_row(rows: &mut Vec<Row>, id: DrbId)
    ensures { rows.new.items ≡ filter (λ r. not (r.id == id)) rows.old.items }
{
    rows.retain(|row| row.id != id);
}
