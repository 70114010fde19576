//! The answers to what the master sent: to a first record, to a plan, and to the order to recover (TS 38.423, 8.3; TS 38.331,
//! 5.3.5).

ghost use Rattle.std.specs.Prelude.{◌≡◌, Ok, IfOk, IfErr};
ghost use Rattle.node_rules.specs.MasterRecords.{agreed, completed, completing, is_answer, is_same_first, moved, recovered, recovered_second, rejected, rejecting, released};
ghost use Rattle.node_rules.specs.Places.{is_at};
ghost use Rattle.xn_procs.specs.Faults.{FailsAs};

use super::MasterProc;
use crate::acting::{acts, joined, send};
use crate::faults::ProcErr;
use crate::places::{is_at, is_same_node, other_second};
use crate::ways::way;
use dc_base::{DrbId, Gen, Memory, Node, Note, Rec, RecKind, Seq, Word};
use node_rules::{Act, Change, Command, First, Going};
use std::alloc::Global;

// Whether both are the same first record.
fn is_same_first(x: First, y: First) -> bool
    ensures { result ≡ is_same_first x y }
{
    match x {
        First::Addition => match y {
            First::Addition => true,
            First::Modification => false,
            First::Release => false,
        },
        First::Modification => match y {
            First::Addition => false,
            First::Modification => true,
            First::Release => false,
        },
        First::Release => match y {
            First::Addition => false,
            First::Modification => false,
            First::Release => true,
        },
    }
}

// Whether this node answers the first record of this kind and generation, where that one was sent to `who`.
fn is_answer(first: First, from: Node, g: Gen, asked: First, who: Node, sent: Gen) -> bool
    ensures { result ≡ is_answer first from g asked who sent }
{
    is_same_first(first, asked) && is_same_node(from, who) && g == sent
}

// An equal change.
fn copy_of(change: &Change) -> Result<Change, Memory>
    ensures { IfOk result (λ made. made ≡ change.now) }
{
    Ok(Change {
        plan: change.plan.copy()?,
        root: change.root,
        second_key: change.second_key,
    })
}

// The node that asked for a command hears that it was rejected (TS 38.423, 8.3.4 and 8.3.5).
fn rejecting(alloc: Global, first: First, who: Node, wanted: bool) -> Result<Seq<Act>, Memory>
    ensures { IfOk result (λ made. made ≡ rejecting first who wanted) }
{
    if !wanted {
        return Ok(Seq::new(alloc));
    }
    let word = Word::Rejected;
    match first {
        First::Addition => acts(alloc, [send(other_second(who), Rec::Chgref { word })]),
        First::Modification => acts(alloc, [send(who, Rec::Modref { word })]),
        First::Release => Ok(Seq::new(alloc)),
    }
}

// The node that agreed hears that the reconfiguration is complete, or has its request confirmed by that (TS 38.423, 8.3.2 and
// 8.3.4).
fn completing(alloc: Global, due: Option<Node>, confirms: bool, g: Gen) -> Result<Seq<Act>, Memory>
    ensures { IfOk result (λ made. made ≡ completing due confirms g) }
{
    let Some(node) = due else {
        return Ok(Seq::new(alloc));
    };
    if confirms {
        acts(alloc, [send(node, Rec::Modcnf { g })])
    } else {
        acts(alloc, [send(node, Rec::Recfg { g })])
    }
}

impl MasterProc {
    // A node agrees to the plan of this generation, by the answer to this first record: it is carried out.
    pub(super) fn agree(
        &mut self,
        kind: RecKind,
        first: First,
        from: Node,
        g: Gen,
    ) -> Result<Seq<Act>, ProcErr>
        ensures ok { IfOk result (λ made. agreed kind first from g self.old self.old.command ≡ Ok (self.new, made)) }
        ensures err { IfErr result (FailsAs (agreed kind first from g self.old self.old.command) self.old self.new) }
    {
        let Some(
            Command::Asked {
                change,
                first: asked,
                who,
                wanted,
            },
        ) = &self.command
        else {
            return Err(ProcErr::Unexpected(kind));
        };
        if !is_answer(first, from, g, *asked, *who, change.plan.g) {
            return Err(ProcErr::Unexpected(kind));
        }
        let way = way(*asked, *who, *wanted, self.table.sec());
        let change = copy_of(change)?;
        Ok(self.go(change, way)?)
    }

    // A node agrees to its release. The answer of one that leaves by a change comes when it likes, and says nothing.
    pub(super) fn take_release_ack(&mut self, from: Node, g: Gen) -> Result<Seq<Act>, Memory>
        ensures { IfOk result (λ made. released (agreed RecKind.Relack First.Release from g self.old self.old.command) self.old ≡ Ok (self.new, made)) }
    {
        match self.agree(RecKind::Relack, First::Release, from, g) {
            Ok(made) => Ok(made),
            Err(ProcErr::Memory) => Err(Memory),
            Err(ProcErr::Unexpected(_)) => Ok(Seq::new(self.alloc)),
            Err(ProcErr::Refused(_)) => Ok(Seq::new(self.alloc)),
        }
    }

    // A node rejects the plan of this generation, by the answer to this first record: the command ends.
    pub(super) fn reject(
        &mut self,
        kind: RecKind,
        first: First,
        from: Node,
        g: Gen,
    ) -> Result<Seq<Act>, ProcErr>
        ensures ok { IfOk result (λ made. rejected kind first from g self.old self.old.command ≡ Ok (self.new, made)) }
        ensures err { IfErr result (FailsAs (rejected kind first from g self.old self.old.command) self.old self.new) }
    {
        let Some(
            Command::Asked {
                change,
                first: asked,
                who,
                wanted,
            },
        ) = &self.command
        else {
            return Err(ProcErr::Unexpected(kind));
        };
        if !is_answer(first, from, g, *asked, *who, change.plan.g) {
            return Err(ProcErr::Unexpected(kind));
        }
        let told = rejecting(self.alloc, *asked, *who, *wanted)?;
        Ok(self.end(told, Note::Rejected)?)
    }

    // The terminal took the plan of this generation: its anchors open.
    pub(super) fn complete(&mut self, g: Gen) -> Result<Seq<Act>, ProcErr>
        ensures ok { IfOk result (λ made. completed g self.old self.old.command ≡ Ok (self.new, made)) }
        ensures err { IfErr result (FailsAs (completed g self.old self.old.command) self.old self.new) }
    {
        let Some(Command::Gone { plan, going }) = &self.command else {
            return Err(ProcErr::Unexpected(RecKind::Rcomp));
        };
        if plan.g != g || going.complete {
            return Err(ProcErr::Unexpected(RecKind::Rcomp));
        }
        let mut told = completing(self.alloc, going.due, going.confirms, plan.g)?;
        told.push(Act::UnlockAll { g: plan.g })?;
        let going = Going {
            complete: true,
            due: going.due,
            confirms: going.confirms,
            leaving: going.leaving,
            moving: going.moving.copy()?,
        };
        let plan = plan.copy()?;
        let rest = self.wait_for_plan(plan, going)?;
        Ok(joined(told, rest)?)
    }

    // A node says that it recovered the bearer.
    pub(super) fn take_recovered(&mut self, from: Node, id: DrbId) -> Result<Seq<Act>, ProcErr>
        ensures ok { IfOk result (λ made. recovered from id self.old self.old.command ≡ Ok (self.new, made)) }
        ensures err { IfErr result (FailsAs (recovered from id self.old self.old.command) self.old self.new) }
    {
        let Some(
            Command::Recovering {
                id: recovering,
                terminal,
                second,
            },
        ) = &self.command
        else {
            return Err(ProcErr::Unexpected(RecKind::Recovd));
        };
        let (terminal, second) = (*terminal, *second);
        if recovering.get() != id.get() {
            return Err(ProcErr::Unexpected(RecKind::Recovd));
        }
        match from {
            Node::T => {
                if !terminal {
                    return Err(ProcErr::Unexpected(RecKind::Recovd));
                }
                Ok(self.wait_for_recovery(id, false, second)?)
            }
            Node::A => self.recovered_second(Node::A, id, terminal, second),
            Node::B => self.recovered_second(Node::B, id, terminal, second),
            Node::M => Err(ProcErr::Unexpected(RecKind::Recovd)),
        }
    }

    // This secondary node recovered the bearer, which this one was to do.
    fn recovered_second(
        &mut self,
        from: Node,
        id: DrbId,
        terminal: bool,
        second: Option<Node>,
    ) -> Result<Seq<Act>, ProcErr>
        ensures ok { IfOk result (λ made. recovered_second self.old id terminal (is_at from second) ≡ Ok (self.new, made)) }
        ensures err { IfErr result (FailsAs (recovered_second self.old id terminal (is_at from second)) self.old self.new) }
    {
        if !is_at(from, second) {
            return Err(ProcErr::Unexpected(RecKind::Recovd));
        }
        Ok(self.wait_for_recovery(id, terminal, None)?)
    }
}
