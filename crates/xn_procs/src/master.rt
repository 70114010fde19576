//! The procedures of the master (TS 38.423, 8.2 and 8.3; TS 37.340, 10.2 to 10.7).

ghost use Rattle.std.specs.Prelude.{◌≡◌, ◌≤◌, IfOk, is_some};
ghost use Rattle.std.specs.List.{list_any};
ghost use Rattle.node_rules.specs.MasterState.{has_bearer, is_unsettled, is_unsettled_by, new_master_proc, waits_at, with_waits};

mod answers;
mod begins;
mod commands;
mod ends;
mod moves;
mod requests;
mod taking;

use command_table::CommandTable;
use dc_base::{DrbId, Item, Memory, Node};
use node_rules::Command;
use std::alloc::Global;
use std::marker::Model;

/// The state of the master's procedures: the command table, the command that is open, and the releases that were asked for.
/// After a call that answers `Memory` it is not used again.
#[derive(Drop)]
pub struct MasterProc {
    alloc: Global,
    table: CommandTable,
    command: Option<Command>,
    /// Whether node A asked for its release, and has no answer.
    a_waits: bool,
    /// Whether node B did.
    b_waits: bool,
}

impl Model for MasterProc {
    ghost use Rattle.node_rules.specs.MasterState.{MasterProc as Machine};

    ghost Value = { Machine };

    ghost view = { λ a. record { table = a.table; command = a.command; a_waits = a.a_waits; b_waits = a.b_waits } };
}

// Whether an item sets up or drops the bearer of this identity.
fn is_unsettled_by(id: DrbId, item: &Item) -> bool
    ensures { result ≡ is_unsettled_by id item.now }
{
    match item {
        Item::Set {
            id: other,
            old: None,
            ..
        } => other.get() == id.get(),
        Item::Set { .. } => false,
        Item::Unset { id: other } => other.get() == id.get(),
    }
}

// Whether one of the items does.
fn is_unsettled_by_any(id: DrbId, items: &[Item]) -> bool
    ensures { result ≡ list_any (is_unsettled_by id) items.now }
{
    items.iter().any(|item| is_unsettled_by(id, item))
}

impl MasterProc {
    /// The state before the first command. `used` SN Counters of the first root, at most 65,536, were drawn before.
    pub fn new(alloc: Global, root: &[u8; 32], used: u32) -> Result<MasterProc, Memory>
        requires { used ≤ 65536 }
        ensures { IfOk result (λ made. made ≡ new_master_proc used root.now) }
    {
        Ok(MasterProc {
            alloc,
            table: CommandTable::new(alloc, root, used)?,
            command: None,
            a_waits: false,
            b_waits: false,
        })
    }

    /// The command table.
    pub fn table(&self) -> &CommandTable
        ensures { result.now ≡ self.now.table }
    {
        &self.table
    }

    /// Whether a command is open.
    pub fn is_busy(&self) -> bool
        ensures { result ≡ is_some self.now.command }
    {
        self.command.is_some()
    }

    /// Whether the open command sets the bearer up or drops it.
    pub fn is_unsettled(&self, id: DrbId) -> bool
        ensures { result ≡ is_unsettled id self.now.command }
    {
        match &self.command {
            None => false,
            Some(Command::Asked { change, .. }) => {
                is_unsettled_by_any(id, change.plan.items.as_slice())
            }
            Some(Command::Gone { plan, .. }) => is_unsettled_by_any(id, plan.items.as_slice()),
            Some(Command::Recovering { .. }) => false,
        }
    }

    /// Whether the bearer is established, and no command drops it.
    pub fn has_bearer(&self, id: DrbId) -> bool
        ensures { result ≡ has_bearer self.now id }
    {
        self.table.row(id).is_some() && !self.is_unsettled(id)
    }

    // Whether the release that a node asked for waits.
    fn waits_at(&self, node: Node) -> bool
        ensures { result ≡ waits_at self.now node }
    {
        match node {
            Node::A => self.a_waits,
            Node::B => self.b_waits,
            Node::M => false,
            Node::T => false,
        }
    }

    // A node's request for its release waits from now on, or does no longer.
    fn set_waits(&mut self, waits: bool, node: Node)
        ensures after { self.new ≡ with_waits waits node self.old }
        ensures table { self.new.table ≡ self.old.table }
    {
        match node {
            Node::A => self.a_waits = waits,
            Node::B => self.b_waits = waits,
            Node::M => {}
            Node::T => {}
        }
    }
}
