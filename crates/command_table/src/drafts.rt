//! The drafts of commands (TS 37.340, 10.2 to 10.5 and 10.7).

ghost use Rattle.std.specs.Prelude.{◌≡◌, [], ◌∷◌, IfOk, map};
ghost use Rattle.std.specs.Option.{option_map};
ghost use Rattle.dc_base.specs.declared.events.Event.TheVariants as event;
ghost use Rattle.node_rules.specs.Drafts.{asking, asking_for, draft, next_plan, next_second, same_keys, set_to, shape_of, with_next_key, with_root, without_key};
ghost use Rattle.node_rules.specs.MasterEnds.{is_release_spent};
ghost use Rattle.command_table.specs.Drawing.{rule_draft};

use crate::items::{items_as_is, items_to, key_for, one, rows_of, second_rows, shared_rows};
use crate::table::CommandTable;
use dc_base::{
    DrbId, Event, Gen, Item, KeyName, LegSet, Memory, Node, Plan, Seq, Shape, Side, SnLen,
};
use node_rules::{Change, First, Row};

/// The greatest generation: a tunnel's identifier has room for 24 bits of it (TS 29.281, 5.1).
const LAST: Gen = (1 << 24) - 1;

/// The anchor and the only leg at the master.
const MM: Shape = Shape {
    at_second: false,
    legs: LegSet::Mcg,
    dup: false,
};

/// What a command draws of the book of keys.
#[derive(Clone, Copy, Debug, PartialEq, Eq)]
pub enum Draws {
    /// No key is new.
    Nothing,
    /// The next SN Counter of the current root (TS 33.501, 6.10.3.1).
    Counter,
    /// A new root, and its first SN Counter where there is a secondary node.
    Root([u8; 32]),
}

/// What a command would change, what it draws, and the first record with the node that it goes to; without one the change is
/// carried out at once.
#[derive(Debug, Drop)]
pub struct Draft {
    pub change: Change,
    pub draws: Draws,
    pub first: Option<(First, Node)>,
}

impl CommandTable {
    /// The draft of a command; an event that draws no plan has none. It draws nothing yet. A run draws far fewer than 2^24
    /// generations, and its commands that draw an SN Counter are refused once all are spent: of one more it says `Memory`.
    pub fn draft(&self, event: &Event) -> Result<Option<Draft>, Memory>
        ensures { IfOk result (λ made. option_map (rule_draft self.now) made ≡ draft self.now event.now) }
    {
        match event {
            Event::Bearer {
                id,
                n,
                first,
                shape,
                threshold,
                policy,
            } => Ok(Some(self.new_bearer(*id, *n, *first, *shape, *threshold, *policy)?)),
            Event::Reshape { id, shape } => Ok(Some(self.reshape(*id, *shape)?)),
            Event::Remove { id } => {
                let shape = shape_of(self.row(*id));
                Ok(Some(self.with_item(Item::Unset { id: *id }, shape)?))
            }
            Event::Add { node } => {
                Ok(Some(self.with_next_key(Some(*node), &[], First::Addition)?))
            }
            Event::Change => Ok(Some(self.change()?)),
            Event::Release => Ok(Some(self.release()?)),
            Event::RekeySecond => Ok(Some(self.rekey_second()?)),
            Event::RekeyMaster { root } => Ok(Some(self.with_root(root)?)),
            Event::Recover { .. } => Ok(None),
            Event::Report { .. } => Ok(None),
            Event::Deny { .. } => Ok(None),
            Event::Ask { .. } => Ok(None),
            Event::ScgFail => Ok(None),
            Event::Submit { .. } => Ok(None),
            Event::Step { .. } => Ok(None),
            Event::Lose { .. } => Ok(None),
            Event::Again { .. } => Ok(None),
        }
    }

    /// Whether a draft would set a key that another establishment of the identity claimed; where there is none, it would not.
    pub fn is_draft_spent(&self, draft: &Option<Draft>) -> bool
        ensures { result ≡ is_release_spent self.now (option_map (rule_draft self.now) draft.now) }
    {
        match draft {
            None => false,
            Some(draft) => self.is_spent_by(&draft.change.plan),
        }
    }

    // Sets a new bearer up (TS 37.340, 10.3).
    fn new_bearer(
        &self,
        id: DrbId,
        n: SnLen,
        first: u32,
        shape: Shape,
        threshold: u32,
        policy: u8,
    ) -> Result<Draft, Memory>
        ensures { IfOk result (λ made. Some (rule_draft self.now made) ≡ draft self.now (event.Bearer id n first shape threshold policy)) }
    {
        let item = Item::Set {
            id,
            n,
            first,
            shape,
            threshold,
            policy,
            key: key_for(shape, self.current_root(), self.second_key()),
            old: None,
        };
        Ok(self.with_item(item, shape)?)
    }

    // The draft of a command on one bearer, of this shape (TS 37.340, 10.3).
    fn with_item(&self, item: Item, shape: Shape) -> Result<Draft, Memory>
        ensures { IfOk result (λ made. rule_draft self.now made ≡ without_key self.now (same_keys self.now self.now.sec (item ∷ [])) (asking_for shape self.now.sec)) }
    {
        let items = one(self.allocator(), item)?;
        Ok(self.without_key(self.sec(), items, asking_for(shape, self.sec()))?)
    }

    // Gives a bearer another shape (TS 37.340, 10.3).
    fn reshape(&self, id: DrbId, shape: Shape) -> Result<Draft, Memory>
        ensures { IfOk result (λ made. Some (rule_draft self.now made) ≡ draft self.now (event.Reshape id shape)) }
    {
        let rows = rows_of(self.allocator(), self.rows(), id)?;
        let items = self.items_to(&rows, shape)?;
        Ok(self.without_key(self.sec(), items, asking(First::Modification, self.sec()))?)
    }

    // Changes to the other secondary node (TS 37.340, 10.5).
    fn change(&self) -> Result<Draft, Memory>
        ensures { IfOk result (λ made. Some (rule_draft self.now made) ≡ draft self.now event.Change) }
    {
        let rows = shared_rows(self.allocator(), self.rows())?;
        Ok(self.with_next_key(next_second(self.sec()), &rows, First::Addition)?)
    }

    // Releases the secondary node (TS 37.340, 10.4).
    fn release(&self) -> Result<Draft, Memory>
        ensures { IfOk result (λ made. Some (rule_draft self.now made) ≡ draft self.now event.Release) }
    {
        let rows = shared_rows(self.allocator(), self.rows())?;
        let items = self.items_to(&rows, MM)?;
        Ok(self.without_key(None, items, asking(First::Release, self.sec()))?)
    }

    // Gives the secondary node a new key (TS 33.501, 6.10.3.1).
    fn rekey_second(&self) -> Result<Draft, Memory>
        ensures { IfOk result (λ made. Some (rule_draft self.now made) ≡ draft self.now event.RekeySecond) }
    {
        let rows = second_rows(self.allocator(), self.rows())?;
        Ok(self.with_next_key(self.sec(), &rows, First::Modification)?)
    }

    // The items that set bearers to one shape, under the current keys.
    fn items_to(&self, rows: &[Row], shape: Shape) -> Result<Vec<Item>, Memory>
        ensures { IfOk result (λ made. made.items ≡ map (set_to self.now.book.current self.now.second_key (λ r. shape)) rows.now) }
    {
        items_to(
            self.allocator(),
            rows,
            shape,
            self.current_root(),
            self.second_key(),
        )
    }

    // The plan of the next generation.
    fn next_plan(&self, sec: Option<Node>, items: Vec<Item>) -> Result<Plan, Memory>
        ensures { IfOk result (λ made. made ≡ next_plan self.now sec items.items) }
    {
        let last = self.last();
        if last >= LAST {
            return Err(Memory);
        }
        Ok(Plan {
            g: last + 1,
            sec,
            items: Seq::from_vec(items),
        })
    }

    // The draft of a command that draws no key, and keeps the root and the K_SN.
    fn without_key(
        &self,
        sec: Option<Node>,
        items: Vec<Item>,
        first: Option<(First, Node)>,
    ) -> Result<Draft, Memory>
        ensures { IfOk result (λ made. rule_draft self.now made ≡ without_key self.now (same_keys self.now sec items.items) first) }
    {
        let plan = self.next_plan(sec, items)?;
        Ok(Draft {
            change: Change {
                plan,
                root: self.current_root(),
                second_key: self.second_key(),
            },
            draws: Draws::Nothing,
            first,
        })
    }

    // The draft that sets bearers of the table, with their shapes as they are, under a new K_SN of the current root.
    fn with_next_key(&self, sec: Option<Node>, rows: &[Row], first: First) -> Result<Draft, Memory>
        ensures { IfOk result (λ made. rule_draft self.now made ≡ with_next_key self.now sec rows.now first) }
    {
        let root = self.current_root();
        let second_key = self.next_second_key()?;
        let items = items_as_is(self.allocator(), rows, root, second_key)?;
        let plan = self.next_plan(sec, items)?;
        Ok(Draft {
            change: Change {
                plan,
                root,
                second_key,
            },
            draws: Draws::Counter,
            first: asking(first, sec),
        })
    }

    // The draft that sets every bearer under the keys of a new root.
    fn with_root(&self, root: &[u8; 32]) -> Result<Draft, Memory>
        ensures { IfOk result (λ made. rule_draft self.now made ≡ with_root self.now root.now) }
    {
        let number = self.next_root()?;
        let second_key = KeyName {
            root: number,
            side: Side::Second(0),
        };
        let items = items_as_is(self.allocator(), self.rows(), number, second_key)?;
        let plan = self.next_plan(self.sec(), items)?;
        Ok(Draft {
            change: Change {
                plan,
                root: number,
                second_key,
            },
            draws: Draws::Root(*root),
            first: asking(First::Modification, self.sec()),
        })
    }
}

// The first record, to the node that there may be.
fn asking(first: First, node: Option<Node>) -> Option<(First, Node)>
    ensures { result ≡ asking first node }
{
    match node {
        None => None,
        Some(node) => Some((first, node)),
    }
}

// The record goes to the secondary node unless only the master has the bearer.
fn asking_for(shape: Shape, sec: Option<Node>) -> Option<(First, Node)>
    ensures { result ≡ asking_for shape sec }
{
    if shape.is_mm() {
        None
    } else {
        asking(First::Modification, sec)
    }
}

// The shape that a bearer has; that of none is the master's.
fn shape_of(row: Option<Row>) -> Shape
    ensures { result ≡ shape_of row }
{
    match row {
        None => MM,
        Some(row) => row.shape,
    }
}

// The other secondary node, where there is one now.
fn next_second(sec: Option<Node>) -> Option<Node>
    ensures { result ≡ next_second sec }
{
    match sec {
        None => None,
        Some(Node::A) => Some(Node::B),
        Some(Node::B) => Some(Node::A),
        Some(Node::M) => Some(Node::A),
        Some(Node::T) => Some(Node::A),
    }
}
