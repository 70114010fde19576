//! The table.

ghost use Rattle.std.specs.Prelude.{◌≡◌, ◌<◌, ◌≤◌, IfOk, OnOk, flat_map, fold, length};
ghost use Rattle.std.specs.List.{list_any};
ghost use Rattle.key_chain.specs.Book.{is_noted, is_spent};
ghost use Rattle.key_chain.specs.KeyNames.{octets};
ghost use Rattle.node_rules.specs.CommandTable.{carried, claimed, claims_of, establishment, is_counter_spent, is_spent_by, new_table, row, rows_after, with_counter};
ghost use Rattle.node_rules.specs.Drafts.{book_with_root, next_second_key};
ghost use Rattle.command_table.specs.Drawing.{book_after};

use crate::drafts::{Draft, Draws};
use crate::rows::{anchor_at, drop_row, establishment, put_row};
use dc_base::{DrbId, Gen, Item, KeyName, Memory, Node, Plan, Side};
use key_chain::KeyBook;
use node_rules::{Change, Row};
use std::alloc::Global;
use std::marker::Model;

/// The secondary node, the book of root keys, SN Counters and claims, the current K_SN, the bearers by ascending identity, and
/// the generation drawn last. After a call that answers `Memory` it is not used again.
#[derive(Debug, Drop)]
pub struct CommandTable {
    sec: Option<Node>,
    book: KeyBook,
    second_key: KeyName,
    rows: Vec<Row>,
    last: Gen,
}

impl Model for CommandTable {
    ghost use Rattle.node_rules.specs.CommandTable.{Table};

    ghost Value = { Table };

    ghost view = { λ a. record { sec = a.sec; book = a.book; second_key = a.second_key; rows = a.rows.items; last = a.last } };
}

impl CommandTable {
    /// The table before the first command. `used` SN Counters of the first root, at most 65,536, were drawn before.
    pub fn new(alloc: Global, root: &[u8; 32], used: u32) -> Result<CommandTable, Memory>
        requires { used ≤ 65536 }
        ensures { IfOk result (λ made. made ≡ new_table used root.now) }
    {
        let Ok(book) = KeyBook::new(alloc, root, used) else {
            return Err(Memory);
        };
        Ok(CommandTable {
            sec: None,
            book,
            second_key: KeyName {
                root: 0,
                side: Side::Second(0),
            },
            rows: Vec::new(alloc),
            last: 0,
        })
    }

    /// The secondary node.
    pub fn sec(&self) -> Option<Node>
        ensures { result ≡ self.now.sec }
    {
        self.sec
    }

    /// The name of the current K_SN.
    pub fn second_key(&self) -> KeyName
        ensures { result ≡ self.now.second_key }
    {
        self.second_key
    }

    /// The generation drawn last, 0 before the first one.
    pub fn last(&self) -> Gen
        ensures { result ≡ self.now.last }
    {
        self.last
    }

    /// The bearers.
    pub fn rows(&self) -> &[Row]
        ensures { result.now ≡ self.now.rows }
    {
        self.rows.as_slice()
    }

    /// The bearer of an identity.
    pub fn row(&self, id: DrbId) -> Option<Row>
        ensures { result ≡ row self.now id }
    {
        self.rows.iter().copied().find(|row| row.id == id)
    }

    /// The number of the current root.
    pub fn current_root(&self) -> u32
        ensures { result ≡ self.now.book.current }
    {
        self.book.current()
    }

    /// Whether a root of these octets was noted.
    pub fn is_noted(&self, root: &[u8; 32]) -> bool
        ensures { result ≡ is_noted self.now.book.roots root.now }
    {
        self.book.is_noted(root)
    }

    /// Whether SN Counter 65,535 of the current root was drawn (TS 33.501, 6.10.3.1).
    pub fn is_counter_spent(&self) -> bool
        ensures { result ≡ is_counter_spent self.now }
    {
        self.book.counters_drawn() > 65535
    }

    // The name of the next K_SN of the current root (TS 33.501, 6.10.3.1).
    pub(crate) fn next_second_key(&self) -> Result<KeyName, Memory>
        ensures { IfOk result (λ name. name ≡ next_second_key self.now) }
    {
        let Ok(counter) = u16::try_from(self.book.counters_drawn()) else {
            return Err(Memory);
        };
        Ok(KeyName {
            root: self.book.current(),
            side: Side::Second(counter),
        })
    }

    // The number of the next root.
    pub(crate) fn next_root(&self) -> Result<u32, Memory>
        ensures { IfOk result (λ number. number ≡ length self.now.book.roots) }
    {
        let Ok(number) = u32::try_from(self.book.roots_noted()) else {
            return Err(Memory);
        };
        Ok(number)
    }

    // Where the table takes its memory from.
    pub(crate) fn allocator(&self) -> Global {
        *self.rows.allocator()
    }

    /// The octets of a key. Of a root that was not noted it says `Memory`.
    pub fn octets(&self, key: &KeyName) -> Result<[u8; 32], Memory>
        ensures { IfOk result (λ made. made ≡ octets self.now.book.roots key.now) }
    {
        if key.root as usize >= self.book.roots_noted() {
            return Err(Memory);
        }
        Ok(self.book.octets(key))
    }

    /// Whether another establishment of an identity claimed the key that the plan would set for it (TS 38.331, 5.3.1.2; TS
    /// 33.501, 6.10.2.1).
    pub fn is_spent_by(&self, plan: &Plan) -> bool
        ensures { result ≡ is_spent_by self.now plan.now }
    {
        let items = plan.items.as_slice();
        items.iter().any(|item| self.is_item_spent(plan.g, item))
    }

    // Whether another establishment claimed the key that an item of a plan of generation `g` sets.
    fn is_item_spent(&self, g: Gen, item: &Item) -> bool
        ensures { result ≡ list_any (λ c. is_spent self.now.book.claims c.id c.est c.key) (claims_of self.now g item.now) }
    {
        match item {
            Item::Set { id, key, old, .. } => {
                let est = establishment(g, *old, self.row(*id));
                !self.book.may_claim(*id, est, key)
            }
            Item::Unset { .. } => false,
        }
    }

    /// Draws what a draft of this table draws, and its generation. Of a root that was noted before, and of an SN Counter where
    /// all are spent, it says `Memory`: a command for it is refused before.
    pub fn draw(&mut self, draft: &Draft) -> Result<(), Memory>
        ensures { OnOk result (self.new ≡ record self.old { book = book_after self.old draft.now.draws; last = draft.now.change.plan.g }) }
    {
        match draft.draws {
            Draws::Nothing => {}
            Draws::Counter => self.draw_counter()?,
            Draws::Root(root) => self.draw_root(&root)?,
        }
        self.last = draft.change.plan.g;
        Ok(())
    }

    // Draws the next SN Counter of the current root.
    fn draw_counter(&mut self) -> Result<(), Memory>
        ensures { OnOk result (self.new ≡ record self.old { book = with_counter self.old.book self.old.book.current }) }
    {
        match self.book.next_sn() {
            Ok(_) => Ok(()),
            Err(_) => Err(Memory),
        }
    }

    // Notes a root, and draws its first SN Counter where there is a secondary node.
    fn draw_root(&mut self, root: &[u8; 32]) -> Result<(), Memory>
        ensures { OnOk result (self.new ≡ record self.old { book = book_with_root self.old root.now self.old.sec }) }
    {
        if self.book.roots_noted() >= u32::MAX as usize {
            return Err(Memory);
        }
        let Ok(number) = self.book.refresh(root) else {
            return Err(Memory);
        };
        match self.sec {
            None => Ok(()),
            Some(_) => self.draw_counter_of(number),
        }
    }

    // Draws the next SN Counter of a root.
    fn draw_counter_of(&mut self, root: u32) -> Result<(), Memory>
        requires { root < length self.old.book.roots }
        ensures { OnOk result (self.new ≡ record self.old { book = with_counter self.old.book root }) }
    {
        let current = self.book.current();
        self.book.set_current(root);
        match self.book.next_sn() {
            Ok(_) => {
                self.book.set_current(current);
                Ok(())
            }
            Err(_) => Err(Memory),
        }
    }

    /// Carries a change out: the bearers of its plan are set and dropped, and their keys claimed. Of a root that was not noted,
    /// and of a key that another establishment of the identity claimed, it says `Memory`: such a command is refused before.
    pub fn carry(&mut self, change: &Change) -> Result<(), Memory>
        ensures { OnOk result (self.new ≡ carried self.old change.now) }
    {
        let plan = &change.plan;
        if change.root as usize >= self.book.roots_noted() {
            return Err(Memory);
        }
        let rows = self.rows_after(plan)?;
        self.book.set_current(change.root);
        self.claim_all(plan)?;
        self.sec = plan.sec;
        self.second_key = change.second_key;
        self.rows = rows;
        Ok(())
    }

    // The bearers once a plan is carried out.
    fn rows_after(&self, plan: &Plan) -> Result<Vec<Row>, Memory>
        ensures { IfOk result (λ made. made.items ≡ fold (rows_after self.now plan.now.g plan.now.sec) self.now.rows plan.now.items) }
    {
        let mut rows = Vec::from_slice(self.allocator(), self.rows())?;
        for item in plan.items.as_slice() {
            self.apply(&mut rows, plan, item)?;
        }
        Ok(rows)
    }

    // Sets or drops the bearer of an item of a plan.
    fn apply(&self, rows: &mut Vec<Row>, plan: &Plan, item: &Item) -> Result<(), Memory>
        ensures { OnOk result (rows.new.items ≡ rows_after self.now plan.now.g plan.now.sec rows.old.items item.now) }
    {
        match *item {
            Item::Set {
                id,
                n,
                first,
                shape,
                threshold,
                policy,
                key,
                old,
            } => {
                let row = Row {
                    id,
                    est: establishment(plan.g, old, self.row(id)),
                    n,
                    first,
                    shape,
                    threshold,
                    policy,
                    key,
                    anchor: anchor_at(plan.sec, shape),
                    g: plan.g,
                };
                put_row(rows, row)
            }
            Item::Unset { id } => {
                drop_row(rows, id);
                Ok(())
            }
        }
    }

    // Claims the key of each bearer that a plan sets (TS 38.331, 5.3.5.6.5: a key is not used again for an identity).
    fn claim_all(&mut self, plan: &Plan) -> Result<(), Memory>
        ensures { OnOk result (self.new ≡ record self.old { book = claimed self.old.book (flat_map (claims_of self.old plan.now.g) plan.now.items) }) }
    {
        for item in plan.items.as_slice() {
            self.claim(plan.g, item)?;
        }
        Ok(())
    }

    // Claims the key of the bearer that an item of a plan of generation `g` sets.
    fn claim(&mut self, g: Gen, item: &Item) -> Result<(), Memory>
        ensures { OnOk result (self.new ≡ record self.old { book = claimed self.old.book (claims_of self.old g item.now) }) }
    {
        match item {
            Item::Set { id, key, old, .. } => {
                let est = establishment(g, *old, self.row(*id));
                match self.book.claim(*id, est, key) {
                    Ok(()) => Ok(()),
                    Err(_) => Err(Memory),
                }
            }
            Item::Unset { .. } => Ok(()),
        }
    }
}
