//! The end of a command, and the releases that waited for it.

ghost use Rattle.std.specs.Prelude.{◌≡◌, ◌++◌, ◌∷◌, [], Some, IfOk, OnOk};
ghost use Rattle.command_table.specs.Drawing.{rule_draft};
ghost use Rattle.node_rules.specs.declared.commands.Command.TheVariants as command;
ghost use Rattle.node_rules.specs.Places.{is_at};
ghost use Rattle.node_rules.specs.MasterEnds.{ends, forgetting, nothing_to_release, retries, tried_first, tries, tries_now, waits_for};
ghost use Rattle.node_rules.specs.declared.acts.Act.TheVariants as act;

use super::MasterProc;
use crate::acting::{acts, joined, send};
use crate::places::{is_at, other_second};
use dc_base::{DrbId, Event, Gen, Memory, Node, Note, Plan, Rec, Seq};
use node_rules::{Act, Command, Going};
use std::alloc::Global;

// The answer to a node that asked for its release and is not the secondary node any more.
fn nothing_to_release(alloc: Global) -> Rec
    ensures { result ≡ nothing_to_release }
{
    Rec::Relcnf {
        plan: Plan {
            g: 0,
            sec: None,
            items: Seq::new(alloc),
        },
    }
}

// The node whose request is tried first: one that is not the secondary node, and a before b.
fn tried_first(sec: Option<Node>) -> Node
    ensures { result ≡ tried_first sec }
{
    match sec {
        None => Node::A,
        Some(Node::A) => Node::B,
        Some(Node::B) => Node::A,
        Some(Node::M) => Node::A,
        Some(Node::T) => Node::A,
    }
}

// The context at the secondary node that leaves ends (TS 38.423, 8.2.7).
fn forgetting(alloc: Global, leaving: Option<Node>, g: Gen) -> Result<Seq<Act>, Memory>
    ensures { IfOk result (λ made. made ≡ forgetting leaving g) }
{
    match leaving {
        Some(node) => acts(alloc, [send(node, Rec::Uecr { g })]),
        None => Ok(Seq::new(alloc)),
    }
}

impl MasterProc {
    // Where no command is open, the release that a node asked for is tried: it is begun, unless an identity would be spent, or
    // there is nothing to release.
    fn try_now(&mut self, node: Node) -> Result<Seq<Act>, Memory>
        ensures { IfOk result (λ made. tries_now self.old node (is_at node self.old.table.sec) ≡ (self.new, made)) }
    {
        if !is_at(node, self.table.sec()) {
            self.set_waits(false, node);
            return acts(self.alloc, [send(node, nothing_to_release(self.alloc))]);
        }
        let Some(draft) = self.table.draft(&Event::Release)? else {
            return Ok(Seq::new(self.alloc));
        };
        if self.table.is_spent_by(&draft.change.plan) {
            return Ok(Seq::new(self.alloc));
        }
        self.set_waits(false, node);
        self.let_go(node, draft)
    }

    // The release that this node asked for is tried, if it waits and no command is open.
    pub(super) fn try_release(&mut self, node: Node) -> Result<Seq<Act>, Memory>
        ensures { IfOk result (λ made. tries node self.old ≡ (self.new, made)) }
    {
        if !self.waits_at(node) {
            return Ok(Seq::new(self.alloc));
        }
        if self.is_busy() {
            return Ok(Seq::new(self.alloc));
        }
        self.try_now(node)
    }

    // What waits is tried.
    fn retry(&mut self) -> Result<Seq<Act>, Memory>
        ensures { IfOk result (λ made. retries self.old ≡ (self.new, made)) }
    {
        let node = tried_first(self.table.sec());
        let begun = self.try_release(node)?;
        let rest = self.try_release(other_second(node))?;
        joined(begun, rest)
    }

    // The open command ends with this line, after these acts.
    pub(super) fn end(&mut self, before: Seq<Act>, how: Note) -> Result<Seq<Act>, Memory>
        ensures { IfOk result (λ made. ends self.old before how ≡ (self.new, made)) }
    {
        let mut made = before;
        made.push(Act::Say { note: how })?;
        self.command = None;
        let rest = self.retry()?;
        joined(made, rest)
    }

    // A plan is carried out as far as this. The command ends if nothing is awaited any more: the terminal has answered, and
    // every moved bearer is adopted.
    pub(super) fn wait_for_plan(&mut self, plan: Plan, going: Going) -> Result<Seq<Act>, Memory>
        ensures { IfOk result (λ made. waits_for self.old (command.Gone plan going) ≡ (self.new, made)) }
    {
        if going.complete && going.moving.is_empty() {
            let forgot = forgetting(self.alloc, going.leaving, plan.g)?;
            return self.end(forgot, Note::Done);
        }
        self.command = Some(Command::Gone { plan, going });
        Ok(Seq::new(self.alloc))
    }

    // A bearer recovers, and the terminal and maybe a secondary node still have to say so. The command ends once all did.
    pub(super) fn wait_for_recovery(
        &mut self,
        id: DrbId,
        terminal: bool,
        second: Option<Node>,
    ) -> Result<Seq<Act>, Memory>
        ensures { IfOk result (λ made. waits_for self.old (command.Recovering id terminal second) ≡ (self.new, made)) }
    {
        if !terminal && second.is_none() {
            return self.end(Seq::new(self.alloc), Note::Done);
        }
        self.command = Some(Command::Recovering {
            id,
            terminal,
            second,
        });
        Ok(Seq::new(self.alloc))
    }
}
