//! What is kept of the past.

ghost use Rattle.std.specs.Prelude.{◌≡◌, IfOk, OnOk, find};
ghost use Rattle.std.specs.Option.{option_copied};
ghost use Rattle.claims.specs.Past.{new_past};
ghost use Rattle.claims.specs.Reading.{bearer_of, latest, plan, second, setting, setting_of, sets, with_second};
ghost use Rattle.checker_state.specs.Steps.{kept_drawn};

use crate::bearers::{Bearer, Second};
use crate::lists::{add_all, latest_by, latest_of};
use crate::table::Table;
use dc_base::{
    DrbId, Event, Flight, Gen, Header, Item, KeyName, LinkId, Memory, Node, Plan, Shape,
};
use std::alloc::Global;
use std::marker::Model;

/// The command table, the plans drawn, the latest first, the bearers, the latest first, the secondary nodes, the secondary of the
/// last plan that the terminal took, the generations that were completed and those that a secondary was told of, and the flight
/// that the event gives.
#[derive(Drop)]
pub struct State {
    pub(crate) header: Header,
    pub(crate) table: Table,
    pub(crate) plans: Vec<Plan>,
    pub(crate) bearers: Vec<Bearer>,
    pub(crate) a: Second,
    pub(crate) b: Second,
    pub(crate) seen: Option<Node>,
    pub(crate) completed: Vec<Gen>,
    pub(crate) configured: Vec<(Node, Gen)>,
    pub(crate) given: Option<(LinkId, Flight)>,
}

impl Model for State {
    ghost use Rattle.claims.specs.Past as past;

    ghost Value = { past.Past };

    ghost view = { λ s. record (past.new_past s.header 0) { table = s.table; plans = s.plans.items; bearers = s.bearers.items; a = s.a; b = s.b; seen = s.seen; completed = s.completed.items; configured = s.configured.items; given = s.given } };
}

/// What a plan sets of an identity, with the secondary of the plan.
#[derive(Clone, Copy)]
pub(crate) struct Setting {
    pub(crate) sec: Option<Node>,
    pub(crate) shape: Shape,
    pub(crate) key: KeyName,
    pub(crate) old: Option<Node>,
}

impl Model for Setting {
    ghost use Rattle.claims.specs.Reading as reading;

    ghost Value = { reading.Setting };

    ghost view = { λ a. record { sec = a.sec; shape = a.shape; key = a.key; old = a.old } };

    ghost inverse = { λ v. record { sec = v.sec; shape = v.shape; key = v.key; old = v.old } };
}

impl State {
    /// Nothing happened yet.
    pub fn new(alloc: Global, header: &Header) -> Result<State, Memory>
        ensures { IfOk result (λ made. made ≡ new_past header.now 0) }
    {
        Ok(State {
            header: *header,
            table: Table::new(alloc, header)?,
            plans: Vec::new(alloc),
            bearers: Vec::new(alloc),
            a: Second::new(),
            b: Second::new(),
            seen: None,
            completed: Vec::new(alloc),
            configured: Vec::new(alloc),
            given: None,
        })
    }

    /// The plan that was drawn with a generation.
    pub(crate) fn plan(&self, g: Gen) -> Option<&Plan>
        ensures { option_copied result ≡ plan self.now g }
    {
        self.plans.iter().find(|plan| plan.g == g)
    }

    /// What the plan of a generation sets of an identity.
    pub(crate) fn setting(&self, id: DrbId, g: Gen) -> Option<Setting>
        ensures { result ≡ setting self.now id g }
    {
        match self.plan(g) {
            None => None,
            Some(plan) => setting_of(plan.sec, item_of(plan.items.as_slice(), id)),
        }
    }

    /// The establishment that a generation's plan sets for an identity.
    pub(crate) fn bearer_of(&self, id: DrbId, g: Gen) -> Option<Bearer>
        ensures { result ≡ bearer_of self.now id g }
    {
        match self.setting(id, g) {
            None => None,
            Some(_) => latest_by(&self.bearers, id, g),
        }
    }

    /// The latest establishment of an identity.
    pub(crate) fn latest(&self, id: DrbId) -> Option<Bearer>
        ensures { result ≡ latest self.now id }
    {
        latest_of(&self.bearers, id)
    }

    /// The one secondary or the other.
    pub(crate) fn second(&self, node: Node) -> Second
        ensures { result ≡ second node self.now }
    {
        match node {
            Node::T => Second::new(),
            Node::M => Second::new(),
            Node::A => self.a,
            Node::B => self.b,
        }
    }

    /// The same with that secondary in its place.
    pub(crate) fn set_second(&mut self, node: Node, second: Second)
        ensures { self.new ≡ with_second node second self.old }
    {
        match node {
            Node::T => {}
            Node::M => {}
            Node::A => self.a = second,
            Node::B => self.b = second,
        }
    }

    /// An event draws its command, for a secondary that asked or for none.
    pub(crate) fn draw(&mut self, event: &Event, asker: Option<Node>) -> Result<(), Memory>
        ensures { OnOk result (self.new ≡ kept_drawn event.now asker self.old) }
    {
        let Some(draft) = self.table.draft(event)? else {
            return Ok(());
        };
        let Some(g) = self.table.last().checked_add(1) else {
            return Err(Memory);
        };
        add_all(&mut self.bearers, g, &draft.items)?;
        let plan = draft.plan(g)?;
        self.plans.insert(0, plan)?;
        self.table.open(event.copy()?, asker, &draft)?;
        Ok(())
    }
}

/// The setting of an item.
fn setting_of(sec: Option<Node>, item: Option<Item>) -> Option<Setting>
    ensures { result ≡ setting_of sec item }
{
    match item {
        None => None,
        Some(
            Item::Set {
                shape,
                key,
                old,
                ..
            },
        ) => Some(Setting {
            sec,
            shape,
            key,
            old,
        }),
        Some(Item::Unset { .. }) => None,
    }
}

/// The item that sets an identity.
fn item_of(items: &[Item], id: DrbId) -> Option<Item>
    ensures { result ≡ find (sets id) items.now }
{
    items.iter().copied().find(|item| sets(id, item))
}

/// Whether an item sets an identity.
pub(crate) fn sets(id: DrbId, item: &Item) -> bool
    ensures { result ≡ sets id item.now }
{
    match item {
        Item::Set { id: other, .. } => *other == id,
        Item::Unset { .. } => false,
    }
}
