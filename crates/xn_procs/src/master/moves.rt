//! Bearers that move, and the SCG legs that fail (TS 37.340, 7.7 and 10.2 to 10.5; TS 38.423, 8.2.2).

ghost use Rattle.std.specs.Prelude.{◌≡◌, ◌==◌, Ok, IfOk, IfErr, filter, find, not};
ghost use Rattle.std.specs.List.{list_any};
ghost use Rattle.std.specs.Option.{option_to_list};
ghost use Rattle.dc_base.specs.declared.nodes.Node.TheVariants.{M};
ghost use Rattle.node_rules.specs.CommandTable.{row};
ghost use Rattle.node_rules.specs.MasterRecords.{failed_legs, failing, failing_at, is_moving, moved, passed_to, transferred};
ghost use Rattle.node_rules.specs.MasterTaking.{master_adopted};
ghost use Rattle.xn_procs.specs.Faults.{FailsAs};
ghost use Rattle.xn_procs.specs.Passing.{passed_on};

use super::MasterProc;
use crate::acting::{acts, send};
use crate::faults::ProcErr;
use crate::places::is_same_node;
use dc_base::{DrbId, Gen, Memory, Node, Rec, RecKind, Seq, StatusTransfer};
use node_rules::{Act, Command, Going};
use std::alloc::Global;

// Whether the bearer moves, and this node has not adopted it.
fn is_moving(id: DrbId, node: Node, moved: &(DrbId, Node)) -> bool
    ensures { result ≡ is_moving id node moved.now }
{
    moved.0.get() == id.get() && is_same_node(node, moved.1)
}

// Whether one of them is so.
fn is_any_moving(id: DrbId, node: Node, moving: &[(DrbId, Node)]) -> bool
    ensures { result ≡ list_any (is_moving id node) moving.now }
{
    moving.iter().any(|moved| is_moving(id, node, moved))
}

// The bearers that still move once this node has adopted this one.
fn still_moving(
    alloc: Global,
    id: DrbId,
    node: Node,
    moving: &[(DrbId, Node)],
) -> Result<Seq<(DrbId, Node)>, Memory>
    ensures { IfOk result (λ made. made ≡ filter (λ y. not (is_moving id node y)) moving.now) }
{
    let mut still = Seq::new(alloc);
    for moved in moving {
        if !is_moving(id, node, moved) {
            still.push(*moved)?;
        }
    }
    Ok(still)
}

// The bearer of this identity among those that move, with its new anchor.
fn moving_at(id: DrbId, moving: &[(DrbId, Node)]) -> Option<(DrbId, Node)>
    ensures { result ≡ find (λ x. x.0 == id) moving.now }
{
    moving
        .iter()
        .copied()
        .find(|(other, _)| other.get() == id.get())
}

// The anchor of a bearer learns that its SCG leg failed: at the master at once, else by a record.
fn failing_at(id: DrbId, g: Gen, anchor: Node) -> Option<Act>
    ensures { option_to_list result ≡ failing_at id g anchor }
{
    match anchor {
        Node::M => Some(Act::FailOne { id, g }),
        Node::A => Some(send(Node::A, Rec::Scgn { id, g })),
        Node::B => Some(send(Node::B, Rec::Scgn { id, g })),
        Node::T => None,
    }
}

// The same, with these bearers that move.
fn with_moving(going: &Going, moving: Seq<(DrbId, Node)>) -> Going
    ensures { result ≡ record going.now { moving = moving } }
{
    Going {
        complete: going.complete,
        due: going.due,
        confirms: going.confirms,
        leaving: going.leaving,
        moving,
    }
}

impl MasterProc {
    /// The master's own anchor adopted a bearer. If the open plan moves it to the master, it moves no longer.
    pub fn adopted(&mut self, id: DrbId) -> Result<Seq<Act>, Memory>
        ensures { IfOk result (λ made. master_adopted self.old id ≡ (self.new, made)) }
    {
        let Some(Command::Gone { plan, going }) = &self.command else {
            return Ok(Seq::new(self.alloc));
        };
        let moving = still_moving(self.alloc, id, Node::M, going.moving.as_slice())?;
        let going = with_moving(going, moving);
        let plan = plan.copy()?;
        self.wait_for_plan(plan, going)
    }

    // A secondary node adopted a bearer that moves to it.
    pub(super) fn take_moved(&mut self, from: Node, g: Gen, id: DrbId) -> Result<Seq<Act>, ProcErr>
        ensures ok { IfOk result (λ made. moved from g id self.old self.old.command ≡ Ok (self.new, made)) }
        ensures err { IfErr result (FailsAs (moved from g id self.old self.old.command) self.old self.new) }
    {
        let Some(Command::Gone { plan, going }) = &self.command else {
            return Err(ProcErr::Unexpected(RecKind::Moved));
        };
        if plan.g != g || !is_any_moving(id, from, going.moving.as_slice()) {
            return Err(ProcErr::Unexpected(RecKind::Moved));
        }
        let moving = still_moving(self.alloc, id, from, going.moving.as_slice())?;
        let going = with_moving(going, moving);
        let plan = plan.copy()?;
        Ok(self.wait_for_plan(plan, going)?)
    }

    // A status transfer comes from the old anchor of a bearer that moves.
    pub(super) fn take_transfer(
        &mut self,
        from: Node,
        status: &StatusTransfer,
    ) -> Result<Seq<Act>, ProcErr>
        ensures ok { IfOk result (λ made. transferred from status.now self.old self.old.command ≡ Ok (self.new, made)) }
        ensures err { IfErr result (FailsAs (transferred from status.now self.old self.old.command) self.old self.new) }
    {
        let Some(Command::Gone { plan, going }) = &self.command else {
            return Err(ProcErr::Unexpected(RecKind::Snst));
        };
        if plan.g != status.g {
            return Err(ProcErr::Unexpected(RecKind::Snst));
        }
        let moved = moving_at(status.id, going.moving.as_slice());
        self.pass_to(status, from, moved)
    }

    // The status transfer is for the master's own anchor, or is passed on to the new anchor at the other secondary node.
    fn pass_to(
        &self,
        status: &StatusTransfer,
        from: Node,
        moved: Option<(DrbId, Node)>,
    ) -> Result<Seq<Act>, ProcErr>
        ensures ok { IfOk result (λ made. passed_to self.now status.now from moved ≡ Ok (self.now, made)) }
        ensures err { IfErr result (FailsAs (passed_to self.now status.now from moved) self.now self.now) }
    {
        let Some((_, to)) = moved else {
            return Err(ProcErr::Unexpected(RecKind::Snst));
        };
        match to {
            Node::M => {
                let status = status.copy()?;
                Ok(acts(self.alloc, [Act::Pass { status }])?)
            }
            Node::A => self.pass_on(status, from, Node::A),
            Node::B => self.pass_on(status, from, Node::B),
            Node::T => Err(ProcErr::Unexpected(RecKind::Snst)),
        }
    }

    // The status transfer is passed on to a secondary node, which did not send it.
    fn pass_on(&self, status: &StatusTransfer, from: Node, to: Node) -> Result<Seq<Act>, ProcErr>
        ensures ok { IfOk result (λ made. passed_on self.now status.now from to ≡ Ok (self.now, made)) }
        ensures err { IfErr result (FailsAs (passed_on self.now status.now from to) self.now self.now) }
    {
        if is_same_node(from, to) {
            return Err(ProcErr::Unexpected(RecKind::Snst));
        }
        let status = status.copy()?;
        Ok(acts(self.alloc, [send(to, Rec::Snst { status })])?)
    }

    // What a bearer's anchor learns of the SCG leg of this generation, which failed: nothing, unless it is the current one.
    fn failing(&self, id: DrbId, g: Gen) -> Option<Act>
        ensures { option_to_list result ≡ failing id g (row self.now.table id) }
    {
        match self.table.row(id) {
            Some(row) => {
                if row.g == g {
                    failing_at(id, g, row.anchor)
                } else {
                    None
                }
            }
            None => None,
        }
    }

    // The terminal reports the SCG legs that failed (TS 37.340, 7.7).
    pub(super) fn take_failed_legs(&self, failed: &[(DrbId, Gen)]) -> Result<Seq<Act>, Memory>
        ensures { IfOk result (λ made. failed_legs self.now failed.now ≡ (self.now, made)) }
    {
        let mut made = Seq::new(self.alloc);
        for (id, g) in failed {
            if let Some(told) = self.failing(*id, *g) {
                made.push(told)?;
            }
        }
        Ok(made)
    }
}
