//! The command table.

ghost use Rattle.std.specs.Prelude.{◌≡◌, ◌&&◌, ℕ, IfOk, OnOk, Some, None, false, fold, is_some, length, nat_le, not, true};
ghost use Rattle.std.specs.Option.{option_map};
ghost use Rattle.std.specs.List.{list_any};
ghost use Rattle.claims.specs.Causes.{has_shape};
ghost use Rattle.claims.specs.Carrying.{bearer_in_row, with_command, with_counter, with_item};
ghost use Rattle.claims.specs.Sameness.{is_same_octets, is_some_and};
ghost use Rattle.claims.specs.Shapes.{anchor_at};
ghost use Rattle.claims.specs.Table.{Command, drawn, is_change, new_table, next_key, recovery, row};
ghost use Rattle.dc_base.specs.declared.events.Event.TheVariants as event;
ghost use Rattle.checker_state.specs.Kinds.{kind_of};

use crate::answers::shape_number;
use crate::drafts::Draft;
use crate::rows::{Claimed, Row, drop_row, put_row, row_of};
use dc_base::{DrbId, Event, Gen, Header, Item, KeyName, Memory, Node, Plan, Shape, Side};
use std::alloc::Global;
use std::marker::Model;

/// What a command is: a change under this generation, or the recovery of this identity.
#[derive(Clone, Copy)]
pub enum Kind {
    Change(Gen),
    Recovery(DrbId),
}

impl Kind {
    /// Whether it is a change under this generation.
    pub(crate) fn is_change(&self, g: Gen) -> bool
        ensures { result ≡ is_change g (kind_of self.now) }
    {
        match self {
            Kind::Change(other) => g == *other,
            Kind::Recovery(_) => false,
        }
    }
}

/// The command that is open: its event, the secondary that asked for it, the one that the first record goes to, and the root and
/// the K_SN that are current once it is carried out.
#[derive(Drop)]
pub struct Command {
    pub(crate) kind: Kind,
    pub(crate) event: Event,
    pub(crate) asker: Option<Node>,
    pub(crate) target: Option<Node>,
    pub(crate) root: u32,
    pub(crate) second_key: KeyName,
    pub(crate) is_carried: bool,
}

impl Model for Command {
    ghost use Rattle.std.specs.Prelude.{false};
    ghost use Rattle.claims.specs.Table as table;
    ghost use Rattle.checker_state.specs.Kinds.{kind_of};

    ghost Value = { table.Command };

    ghost view = { λ a. record { kind = kind_of a.kind; event = a.event; asker = a.asker; target = a.target; root = a.root; second_key = a.second_key; is_carried = a.is_carried; is_lost = false } };
}

/// Secondary, root, roots in the order named, how many SN Counters of each were drawn, the current K_SN, the bearers, the keys in
/// use, the last generation drawn, and the command that is open.
#[derive(Drop)]
pub struct Table {
    pub(crate) sec: Option<Node>,
    pub(crate) root: u32,
    pub(crate) roots: Vec<[u8; 32]>,
    pub(crate) counters: Vec<u32>,
    pub(crate) second_key: KeyName,
    pub(crate) rows: Vec<Row>,
    pub(crate) uses: Vec<Claimed>,
    pub(crate) last: Gen,
    pub(crate) command: Option<Command>,
}

impl Model for Table {
    ghost use Rattle.claims.specs.Table as table;

    ghost Value = { table.Table };

    ghost view = { λ a. record { sec = a.sec; root = a.root; roots = a.roots.items; counters = a.counters.items; second_key = a.second_key; rows = a.rows.items; uses = a.uses.items; last = a.last; command = a.command } };
}

impl Table {
    /// The table before anything happened.
    pub fn new(alloc: Global, header: &Header) -> Result<Table, Memory>
        ensures { IfOk result (λ made. made ≡ new_table header.now) }
    {
        let mut roots = Vec::new(alloc);
        roots.push(header.root)?;
        let mut counters = Vec::new(alloc);
        counters.push(header.used)?;
        Ok(Table {
            sec: None,
            root: 0,
            roots,
            counters,
            second_key: KeyName {
                root: 0,
                side: Side::Second(0),
            },
            rows: Vec::new(alloc),
            uses: Vec::new(alloc),
            last: 0,
            command: None,
        })
    }

    /// The row of an identity.
    pub fn row(&self, id: DrbId) -> Option<Row>
        ensures { result ≡ row self.now id }
    {
        row_of(&self.rows, id)
    }

    /// Whether a command is open.
    pub fn is_busy(&self) -> bool
        ensures { result ≡ is_some self.now.command }
    {
        self.command.is_some()
    }

    /// The secondary node.
    pub fn sec(&self) -> Option<Node>
        ensures { result ≡ self.now.sec }
    {
        self.sec
    }

    /// The last generation drawn.
    pub(crate) fn last(&self) -> Gen
        ensures { result ≡ self.now.last }
    {
        self.last
    }

    /// How many SN Counters of a root were drawn.
    pub(crate) fn drawn(&self, root: u32) -> u32
        ensures { result ≡ drawn self.now root }
    {
        match self.counters.get(root as usize) {
            None => 0,
            Some(drawn) => *drawn,
        }
    }

    /// The next K_SN of the current root (TS 33.501, 6.10.3.1). Where all are spent there is none: a command for one more is refused
    /// before.
    pub(crate) fn next_key(&self) -> Result<KeyName, Memory>
        ensures { IfOk result (λ key. key ≡ next_key self.now) }
    {
        let Ok(counter) = u16::try_from(self.drawn(self.root)) else {
            return Err(Memory);
        };
        Ok(KeyName {
            root: self.root,
            side: Side::Second(counter),
        })
    }

    /// The number of the next root.
    pub(crate) fn next_root(&self) -> Result<u32, Memory>
        ensures { IfOk result (λ number. number ≡ length self.now.roots) }
    {
        let Ok(number) = u32::try_from(self.roots.len()) else {
            return Err(Memory);
        };
        Ok(number)
    }

    /// Whether a root of these octets was named.
    pub fn is_root_used(&self, root: &[u8; 32]) -> bool
        ensures { result ≡ list_any (is_same_octets root.now) self.now.roots }
    {
        self.roots.iter().any(|other| is_same_octets(root, other))
    }

    /// Where the table takes its memory from.
    pub(crate) fn allocator(&self) -> Global {
        *self.rows.allocator()
    }

    /// Opens a command: generation, counter and root are drawn.
    pub(crate) fn open(
        &mut self,
        event: Event,
        asker: Option<Node>,
        draft: &Draft,
    ) -> Result<(), Memory>
        ensures { OnOk result (self.new ≡ with_command self.old event asker draft.now) }
    {
        let Some(g) = self.last.checked_add(1) else {
            return Err(Memory);
        };
        if let Some(root) = draft.named {
            self.roots.push(root)?;
            self.counters.push(0)?;
        }
        if draft.is_new {
            count_one(&mut self.counters, draft.root)?;
        }
        self.last = g;
        self.command = Some(Command {
            kind: Kind::Change(g),
            event,
            asker,
            target: draft.target,
            root: draft.root,
            second_key: draft.second_key,
            is_carried: false,
        });
        Ok(())
    }

    /// Carries an item out.
    fn set_item(&mut self, g: Gen, item: &Item) -> Result<(), Memory>
        ensures { OnOk result (self.new ≡ with_item g self.old item.now) }
    {
        match item {
            Item::Set {
                id,
                n,
                first,
                shape,
                threshold,
                policy,
                key,
                old,
            } => {
                let row = Row {
                    id: *id,
                    bearer: bearer_in_row(g, *old, row_of(&self.rows, *id)),
                    n: *n,
                    first: *first,
                    shape: *shape,
                    threshold: *threshold,
                    policy: *policy,
                    key: *key,
                };
                let claimed = Claimed {
                    id: *id,
                    key: *key,
                    bearer: row.bearer(),
                };
                put_row(&mut self.rows, row)?;
                self.uses.insert(0, claimed)?;
                Ok(())
            }
            Item::Unset { id } => {
                drop_row(&mut self.rows, *id);
                Ok(())
            }
        }
    }

    /// Carries the items of a plan out.
    pub(crate) fn set_items(&mut self, g: Gen, items: &[Item]) -> Result<(), Memory>
        ensures { OnOk result (self.new ≡ fold (with_item g) self.old items.now) }
    {
        for item in items {
            self.set_item(g, item)?;
        }
        Ok(())
    }
}

impl Table {
    /// The SN Counters of the current root are used up (TS 33.501, 6.10.3.1).
    pub(crate) fn is_counter_spent(&self) -> bool
        ensures { result ≡ nat_le 65536 (drawn self.now self.now.root) }
    {
        self.drawn(self.root) >= 65536
    }

    /// The bearer of an identity has this shape already.
    pub(crate) fn has_shape(&self, id: DrbId, shape: Shape) -> bool
        ensures { result ≡ has_shape shape (row self.now id) }
    {
        match self.row(id) {
            None => false,
            Some(row) => shape_number(shape) == shape_number(row.shape()),
        }
    }

    /// What the open command is.
    pub(crate) fn kind(&self) -> Option<Kind>
        ensures { option_map kind_of result ≡ option_map (λ c. c.kind) self.now.command }
    {
        match &self.command {
            None => None,
            Some(command) => Some(command.kind),
        }
    }

    /// The recovery of an identity is open.
    pub(crate) fn recover(&mut self, id: DrbId)
        ensures { self.new ≡ record self.old { command = Some (record { kind = recovery id; event = event.Recover id; asker = None; target = None; root = self.old.root; second_key = self.old.second_key; is_carried = true; is_lost = false }) } }
    {
        self.command = Some(Command {
            kind: Kind::Recovery(id),
            event: Event::Recover { id },
            asker: None,
            target: None,
            root: self.root,
            second_key: self.second_key,
            is_carried: true,
        });
    }

    /// No command is open.
    pub(crate) fn close(&mut self)
        ensures { self.new ≡ record self.old { command = None } }
    {
        self.command = None;
    }

    /// Whether the open command is a change under this generation that is not carried out.
    pub(crate) fn is_to_carry(&self, g: Gen) -> bool
        ensures { result ≡ is_some_and (λ c. is_change g c.kind && not c.is_carried) self.now.command }
    {
        match &self.command {
            None => false,
            Some(command) => command.is_to_carry(g),
        }
    }

    /// The plan of the open command is carried out.
    pub(crate) fn carry(&mut self, g: Gen, plan: &Plan) -> Result<(), Memory>
        ensures { (c : Command) → self.old.command ≡ Some c → OnOk result (self.new ≡ record (fold (with_item g) self.old plan.now.items) { sec = plan.now.sec; root = c.root; second_key = c.second_key; command = Some (record c { is_carried = true }) }) }
    {
        self.set_items(g, plan.items.as_slice())?;
        self.take_keys(plan.sec);
        Ok(())
    }

    /// The secondary of the plan, and root and K_SN of the open command, are current.
    fn take_keys(&mut self, sec: Option<Node>)
        ensures { (c : Command) → self.old.command ≡ Some c → self.new ≡ record self.old { sec = sec; root = c.root; second_key = c.second_key; command = Some (record c { is_carried = true }) } }
    {
        if let Some(command) = &mut self.command {
            command.is_carried = true;
            self.root = command.root;
            self.second_key = command.second_key;
        }
        self.sec = sec;
    }
}

impl Command {
    /// Whether it is a change under this generation that is not carried out.
    fn is_to_carry(&self, g: Gen) -> bool
        ensures { result ≡ is_change g self.now.kind && not self.now.is_carried }
    {
        self.kind.is_change(g) && !self.is_carried
    }
}

/// One more counter of a root.
fn count_one(counters: &mut Vec<u32>, root: u32) -> Result<(), Memory>
    ensures { OnOk result (counters.new.items ≡ with_counter counters.old.items root) }
{
    let place = root as usize;
    if place < counters.len() {
        let Some(more) = counters[place].checked_add(1) else {
            return Err(Memory);
        };
        counters[place] = more;
    }
    Ok(())
}

/// The establishment that a row names: this generation, where there was no anchor.
fn bearer_in_row(g: Gen, old: Option<Node>, row: Option<Row>) -> Gen
    ensures { result ≡ bearer_in_row g old row }
{
    match (old, row) {
        (None, _) => g,
        (Some(_), None) => g,
        (Some(_), Some(row)) => row.bearer(),
    }
}

/// Where a bearer of this shape has its anchor.
pub(crate) fn anchor_at(sec: Option<Node>, shape: Shape) -> Node
    ensures { result ≡ anchor_at sec shape }
{
    if !shape.at_second {
        return Node::M;
    }
    match sec {
        None => Node::M,
        Some(node) => node,
    }
}

/// Whether two lists of octets are the same.
pub fn is_same_octets(one: &[u8], other: &[u8]) -> bool
    ensures { result ≡ is_same_octets one.now other.now }
{
    one == other
}
