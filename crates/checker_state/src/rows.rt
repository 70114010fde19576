//! The bearers of the command table, and the keys in use.

ghost use Rattle.std.specs.Prelude.{◌≡◌, ◌==◌, ◌&&◌, OnOk, filter, find, nat_le, not};
ghost use Rattle.std.specs.List.{list_any, position};
ghost use Rattle.claims.specs.Carrying.{with_row};
ghost use Rattle.claims.specs.Sameness.{is_number, is_same_key, side_number};

use dc_base::{DrbId, Gen, KeyName, Memory, Shape, Side, SnLen};
use std::marker::Model;

/// The table's row of a bearer, which is named by the generation that set it up.
#[derive(Clone, Copy)]
pub struct Row {
    pub(crate) id: DrbId,
    pub(crate) bearer: Gen,
    pub(crate) n: SnLen,
    pub(crate) first: u32,
    pub(crate) shape: Shape,
    pub(crate) threshold: u32,
    pub(crate) policy: u8,
    pub(crate) key: KeyName,
}

impl Model for Row {
    ghost use Rattle.claims.specs.Table as table;

    ghost Value = { table.Row };

    ghost view = { λ a. record { id = a.id; bearer = a.bearer; n = a.n; first = a.first; shape = a.shape; threshold = a.threshold; policy = a.policy; key = a.key } };

    ghost inverse = { λ v. record { id = v.id; bearer = v.bearer; n = v.n; first = v.first; shape = v.shape; threshold = v.threshold; policy = v.policy; key = v.key } };
}

/// An identity uses a key, for this establishment.
#[derive(Clone, Copy)]
pub struct Claimed {
    pub(crate) id: DrbId,
    pub(crate) key: KeyName,
    pub(crate) bearer: Gen,
}

impl Model for Claimed {
    ghost use Rattle.claims.specs.Table as table;

    ghost Value = { table.Claimed };

    ghost view = { λ a. record { id = a.id; key = a.key; bearer = a.bearer } };

    ghost inverse = { λ v. record { id = v.id; key = v.key; bearer = v.bearer } };
}

impl Row {
    /// Its identity.
    pub fn id(&self) -> DrbId
        ensures { result ≡ self.now.id }
    {
        self.id
    }

    /// Its shape.
    pub fn shape(&self) -> Shape
        ensures { result ≡ self.now.shape }
    {
        self.shape
    }

    /// The generation that set it up.
    pub fn bearer(&self) -> Gen
        ensures { result ≡ self.now.bearer }
    {
        self.bearer
    }
}

impl Claimed {
    /// Whether an identity uses this key for another establishment than this one.
    pub(crate) fn is_of_another(&self, id: DrbId, key: &KeyName, own: Option<Gen>) -> bool
        ensures { result ≡ (self.now.id == id) && is_same_key key.now self.now.key && not (is_number self.now.bearer own) }
    {
        self.id == id && is_same_key(key, &self.key) && !is_number(self.bearer, own)
    }
}

/// Whether two names are of the same key.
pub(crate) fn is_same_key(one: &KeyName, other: &KeyName) -> bool
    ensures { result ≡ is_same_key one.now other.now }
{
    one.root == other.root && side_number(one.side) == side_number(other.side)
}

/// Whose key it is, and under which SN Counter.
fn side_number(side: Side) -> u32
    ensures { result ≡ side_number side }
{
    match side {
        Side::Master => 0,
        Side::Second(counter) => 1 + counter as u32,
    }
}

/// Whether the number that may be there is this one.
fn is_number(number: u32, other: Option<u32>) -> bool
    ensures { result ≡ is_number number other }
{
    match other {
        None => false,
        Some(other) => number == other,
    }
}

/// The row of an identity.
pub fn row_of(rows: &[Row], id: DrbId) -> Option<Row>
    ensures { result ≡ find (λ r. r.id == id) rows.now }
{
    rows.iter().copied().find(|row| row.id() == id)
}

/// The place of the first row of this identity or a greater one.
fn place_of(rows: &[Row], id: DrbId) -> Option<usize>
    ensures { result ≡ position (λ r. nat_le id r.id) rows.now }
{
    rows.iter().position(|row| id.get() <= row.id().get())
}

/// Puts a row in its place by ascending identity, instead of one that was there.
pub(crate) fn put_row(rows: &mut Vec<Row>, row: Row) -> Result<(), Memory>
    ensures { OnOk result (rows.new.items ≡ with_row row rows.old.items) }
{
    let Some(place) = place_of(rows, row.id()) else {
        rows.push(row)?;
        return Ok(());
    };
    if rows[place].id() == row.id() {
        rows[place] = row;
        return Ok(());
    }
    rows.insert(place, row)?;
    Ok(())
}

/// Drops the row of an identity.
pub(crate) fn drop_row(rows: &mut Vec<Row>, id: DrbId)
    ensures { rows.new.items ≡ filter (λ r. not (r.id == id)) rows.old.items }
{
    rows.retain(|row| row.id() != id);
}
