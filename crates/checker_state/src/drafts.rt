//! What a command would change (TS 37.340, 10.2 to 10.5 and 10.7).

ghost use Rattle.std.specs.Prelude.{◌≡◌, ◌==◌, [], ◌∷◌, IfOk, None, Some, filter, map, not};
ghost use Rattle.std.specs.Option.{option_map};
ghost use Rattle.std.specs.List.{list_any};
ghost use Rattle.dc_base.specs.Nodes.{is_mm};
ghost use Rattle.dc_base.specs.declared.events.Event.TheVariants as event;
ghost use Rattle.claims.specs.Drafts.{bearer_draft, change_draft, draft, draft_of, is_mm_row, is_spent, own_bearer, rekey_master_draft, rekey_second_draft, release_draft, renewing, set_to, shape_draft, spends, unless};
ghost use Rattle.claims.specs.Shapes.{other_second};
ghost use Rattle.claims.specs.Table.{key_for, next_key};

use crate::rows::Row;
use crate::table::{Table, anchor_at};
use dc_base::{
    DrbId, Event, Gen, Item, KeyName, LegSet, Memory, Node, Plan, Seq, Shape, Side, SnLen,
};
use std::marker::Model;

/// The anchor and the only leg at the master.
const MM: Shape = Shape {
    at_second: false,
    legs: LegSet::Mcg,
    dup: false,
};

/// The secondary after the command, the root and the K_SN that are current then, whether that K_SN is new, the octets of a new
/// root, the items, and the secondary that is asked first, if one is.
#[derive(Drop)]
pub(crate) struct Draft {
    pub(crate) sec: Option<Node>,
    pub(crate) root: u32,
    pub(crate) second_key: KeyName,
    pub(crate) is_new: bool,
    pub(crate) named: Option<[u8; 32]>,
    pub(crate) items: Vec<Item>,
    pub(crate) target: Option<Node>,
}

impl Model for Draft {
    ghost use Rattle.claims.specs.Drafts as drafts;
    ghost use Rattle.checker_state.specs.Kinds.{named_roots};

    ghost Value = { drafts.Draft };

    ghost view = { λ a. record { sec = a.sec; root = a.root; second_key = a.second_key; is_new = a.is_new; named = named_roots a.named; items = a.items.items; target = a.target } };
}

impl Draft {
    /// Its plan, with this generation.
    pub(crate) fn plan(&self, g: Gen) -> Result<Plan, Memory>
        ensures { IfOk result (λ made. made ≡ record { g = g; sec = self.now.sec; items = self.now.items }) }
    {
        Ok(Plan {
            g,
            sec: self.sec,
            items: Seq::from_vec(self.items.clone()?),
        })
    }
}

impl Table {
    /// The draft of an event; none of one that draws no generation.
    pub(crate) fn draft(&self, event: &Event) -> Result<Option<Draft>, Memory>
        ensures { IfOk result (λ made. made ≡ draft self.now event.now) }
    {
        match event {
            Event::Bearer {
                id,
                n,
                first,
                shape,
                threshold,
                policy,
            } => Ok(Some(self.bearer_draft(*id, *n, *first, *shape, *threshold, *policy)?)),
            Event::Reshape { id, shape } => Ok(Some(self.shape_draft(*id, *shape)?)),
            Event::Remove { id } => Ok(Some(self.drop_draft(*id)?)),
            Event::Add { node } => Ok(Some(self.renewing(Some(*node), &[])?)),
            Event::Change => Ok(Some(self.change_draft()?)),
            Event::Release => Ok(Some(self.release_draft()?)),
            Event::RekeySecond => Ok(Some(self.rekey_second_draft()?)),
            Event::RekeyMaster { root } => Ok(Some(self.rekey_master_draft(root)?)),
            Event::Recover { .. } => Ok(None),
            Event::Report { .. } => Ok(None),
            Event::Deny { .. } => Ok(None),
            Event::Ask { .. } => Ok(None),
            Event::ScgFail => Ok(None),
            Event::Submit { .. } => Ok(None),
            Event::Step { .. } => Ok(None),
            Event::Lose { .. } => Ok(None),
            Event::Again { .. } => Ok(None),
        }
    }

    /// Whether an event would set a key that is in use for an identity by another establishment.
    pub fn spends(&self, event: &Event) -> Result<bool, Memory>
        ensures { IfOk result (λ is. is ≡ spends self.now event.now) }
    {
        match self.draft(event)? {
            None => Ok(false),
            Some(draft) => Ok(self.are_spent(&draft.items)),
        }
    }

    /// Whether one of the items would.
    fn are_spent(&self, items: &[Item]) -> bool
        ensures { result ≡ list_any (is_spent self.now) items.now }
    {
        items.iter().any(|item| self.is_spent(item))
    }

    /// Whether an item would.
    fn is_spent(&self, item: &Item) -> bool
        ensures { result ≡ is_spent self.now item.now }
    {
        match item {
            Item::Set { id, key, old, .. } => {
                let own = self.own_bearer(*id, *old);
                self.uses
                    .iter()
                    .any(|claimed| claimed.is_of_another(*id, key, own))
            }
            Item::Unset { .. } => false,
        }
    }

    /// The establishment that an item is of: none where it sets up a new one.
    fn own_bearer(&self, id: DrbId, old: Option<Node>) -> Option<u32>
        ensures { result ≡ own_bearer self.now id old }
    {
        match old {
            None => None,
            Some(_) => match self.row(id) {
                None => None,
                Some(row) => Some(row.bearer()),
            },
        }
    }

    /// An item that sets a bearer of the table to a shape.
    fn set_to(&self, root: u32, second_key: KeyName, shape: Shape, row: &Row) -> Item
        ensures { result ≡ set_to self.now root second_key (λ r. shape) row.now }
    {
        Item::Set {
            id: row.id,
            n: row.n,
            first: row.first,
            shape,
            threshold: row.threshold,
            policy: row.policy,
            key: key_for(shape, root, second_key),
            old: Some(anchor_at(self.sec, row.shape)),
        }
    }

    /// The items that set bearers to one shape.
    fn items_to(&self, rows: &[Row], shape: Shape) -> Result<Vec<Item>, Memory>
        ensures { IfOk result (λ made. made.items ≡ map (set_to self.now self.now.root self.now.second_key (λ r. shape)) rows.now) }
    {
        let root = self.root;
        let second_key = self.second_key;
        let items = rows
            .iter()
            .map(|row| self.set_to(root, second_key, shape, row));
        Ok(items.collect(self.allocator())?)
    }

    /// The items that set bearers to the shapes that they have.
    fn items_as_is(&self, rows: &[Row], root: u32, second_key: KeyName) -> Result<Vec<Item>, Memory>
        ensures { IfOk result (λ made. made.items ≡ map (set_to self.now root second_key (λ r. r.shape)) rows.now) }
    {
        let items = rows
            .iter()
            .map(|row| self.set_to(root, second_key, row.shape(), row));
        Ok(items.collect(self.allocator())?)
    }

    /// The rows of an identity.
    fn rows_of(&self, id: DrbId) -> Result<Vec<Row>, Memory>
        ensures { IfOk result (λ made. made.items ≡ filter (λ r. r.id == id) self.now.rows) }
    {
        let rows = self.rows.iter().copied().filter(|row| row.id() == id);
        Ok(rows.collect(self.allocator())?)
    }

    /// The rows that are not the master's alone.
    fn shared_rows(&self) -> Result<Vec<Row>, Memory>
        ensures { IfOk result (λ made. made.items ≡ filter (λ r. not (is_mm r.shape)) self.now.rows) }
    {
        let rows = self.rows.iter().copied().filter(|row| !row.shape().is_mm());
        Ok(rows.collect(self.allocator())?)
    }

    /// The rows with their anchor at the secondary.
    fn second_rows(&self) -> Result<Vec<Row>, Memory>
        ensures { IfOk result (λ made. made.items ≡ filter (λ r. r.shape.at_second) self.now.rows) }
    {
        let rows = self
            .rows
            .iter()
            .copied()
            .filter(|row| row.shape().at_second);
        Ok(rows.collect(self.allocator())?)
    }

    /// A draft that keeps secondary, root and K_SN.
    fn draft_of(&self, items: Vec<Item>, target: Option<Node>) -> Draft
        ensures { result ≡ draft_of self.now items.items target }
    {
        Draft {
            sec: self.sec,
            root: self.root,
            second_key: self.second_key,
            is_new: false,
            named: None,
            items,
            target,
        }
    }

    /// A draft that keeps secondary, root and K_SN, of one item.
    fn draft_of_one(&self, item: Item, target: Option<Node>) -> Result<Draft, Memory>
        ensures { IfOk result (λ made. made ≡ draft_of self.now (item ∷ []) target) }
    {
        let mut items = Vec::new(self.allocator());
        items.push(item)?;
        Ok(self.draft_of(items, target))
    }

    /// A draft that makes the next K_SN, for this secondary, which is asked, and sets these bearers.
    fn renewing(&self, sec: Option<Node>, rows: &[Row]) -> Result<Draft, Memory>
        ensures { IfOk result (λ made. made ≡ renewing self.now sec (map (set_to self.now self.now.root (next_key self.now) (λ r. r.shape)) rows.now)) }
    {
        let second_key = self.next_key()?;
        Ok(Draft {
            sec,
            root: self.root,
            second_key,
            is_new: true,
            named: None,
            items: self.items_as_is(rows, self.root, second_key)?,
            target: sec,
        })
    }

    /// Of a new bearer.
    fn bearer_draft(
        &self,
        id: DrbId,
        n: SnLen,
        first: u32,
        shape: Shape,
        threshold: u32,
        policy: u8,
    ) -> Result<Draft, Memory>
        ensures { IfOk result (λ made. made ≡ bearer_draft self.now id n first shape threshold policy) }
    {
        let item = Item::Set {
            id,
            n,
            first,
            shape,
            threshold,
            policy,
            key: key_for(shape, self.root, self.second_key),
            old: None,
        };
        self.draft_of_one(item, unless(shape.is_mm(), self.sec))
    }

    /// Of another shape.
    fn shape_draft(&self, id: DrbId, shape: Shape) -> Result<Draft, Memory>
        ensures { IfOk result (λ made. made ≡ shape_draft self.now id shape) }
    {
        let rows = self.rows_of(id)?;
        let items = self.items_to(&rows, shape)?;
        Ok(self.draft_of(items, self.sec))
    }

    /// Of a drop.
    fn drop_draft(&self, id: DrbId) -> Result<Draft, Memory>
        ensures { IfOk result (λ made. Some made ≡ draft self.now (event.Remove id)) }
    {
        let target = unless(is_mm_row(self.row(id)), self.sec);
        self.draft_of_one(Item::Unset { id }, target)
    }

    /// Of a change of the secondary.
    fn change_draft(&self) -> Result<Draft, Memory>
        ensures { IfOk result (λ made. made ≡ change_draft self.now) }
    {
        let rows = self.shared_rows()?;
        self.renewing(Some(other_second(self.sec)), &rows)
    }

    /// Of its release.
    fn release_draft(&self) -> Result<Draft, Memory>
        ensures { IfOk result (λ made. made ≡ release_draft self.now) }
    {
        let rows = self.shared_rows()?;
        Ok(Draft {
            sec: None,
            root: self.root,
            second_key: self.second_key,
            is_new: false,
            named: None,
            items: self.items_to(&rows, MM)?,
            target: self.sec,
        })
    }

    /// Of a new key for the secondary.
    fn rekey_second_draft(&self) -> Result<Draft, Memory>
        ensures { IfOk result (λ made. made ≡ rekey_second_draft self.now) }
    {
        let rows = self.second_rows()?;
        self.renewing(self.sec, &rows)
    }

    /// Of a new root.
    fn rekey_master_draft(&self, root: &[u8; 32]) -> Result<Draft, Memory>
        ensures { IfOk result (λ made. made ≡ rekey_master_draft self.now root.now) }
    {
        let number = self.next_root()?;
        let second_key = KeyName {
            root: number,
            side: Side::Second(0),
        };
        Ok(Draft {
            sec: self.sec,
            root: number,
            second_key,
            is_new: self.sec.is_some(),
            named: Some(*root),
            items: self.items_as_is(&self.rows, number, second_key)?,
            target: self.sec,
        })
    }
}

/// The key of a shape: that of the anchor's node.
fn key_for(shape: Shape, root: u32, second_key: KeyName) -> KeyName
    ensures { result ≡ key_for shape root second_key }
{
    if shape.at_second {
        second_key
    } else {
        KeyName {
            root,
            side: Side::Master,
        }
    }
}

/// The node, unless this holds.
fn unless(holds: bool, node: Option<Node>) -> Option<Node>
    ensures { result ≡ unless holds node }
{
    if holds { None } else { node }
}

/// Whether a bearer that may be there needs no secondary.
fn is_mm_row(row: Option<Row>) -> bool
    ensures { result ≡ is_mm_row row }
{
    match row {
        None => true,
        Some(row) => row.shape().is_mm(),
    }
}

/// The other secondary.
pub(crate) fn other_second(sec: Option<Node>) -> Node
    ensures { result ≡ other_second sec }
{
    match sec {
        None => Node::A,
        Some(Node::A) => Node::B,
        Some(Node::B) => Node::A,
        Some(Node::M) => Node::A,
        Some(Node::T) => Node::A,
    }
}
