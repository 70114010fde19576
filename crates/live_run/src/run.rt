//! All nodes together, from their cores to their journals.

ghost use Rattle.std.specs.Prelude.{◌≡◌, IfOk};
ghost use Rattle.journals.specs.Journals.{Legal, taken};
ghost use Rattle.journals.specs.Merging.{numbered};
ghost use Rattle.live_run.specs.Ran.{Ran};
ghost use Rattle.node_rules.specs.Choices.{Choices, by_policies};
ghost use Rattle.outlets.specs.Boxes.{ids};
ghost use Rattle.split_leg.specs.Stored.{margins};
ghost use Rattle.workers.specs.Working.{AreDrivenAt, Sound, around, opening};

use crate::ends::gather;
use crate::nodes::{Finished, Nodes};
use crate::together::run_all;
use dc_base::{Event, Memory, Node, Seq};
use outlets::{Four, Inboxes, open_all};
use split_leg::Policies;
use std::alloc::Global;
use std::thread::Threads;
use workers::{Gate, LiveNode, Parts, Shaper, Worker};

// All inboxes, and all workers before their first turn.
fn prepare<C: LiveNode, D: LiveNode, E: LiveNode, G: Gate, S: Shaper>(
    alloc: Global,
    parts: Nodes<Parts<C, G, S>, Parts<D, G, S>, Parts<E, G, S>>,
    plan: Four<Seq<Event>>,
) -> Result<
    (
        Inboxes,
        Nodes<Worker<C, G, S>, Worker<D, G, S>, Worker<E, G, S>>,
    ),
    Memory,
>
    requires t { AreDrivenAt Node.T plan.t }
    requires m { AreDrivenAt Node.M plan.m }
    requires a { AreDrivenAt Node.A plan.a }
    requires b { AreDrivenAt Node.B plan.b }
    ensures t { IfOk result (λ r. (c : Choices) → Sound C.node S.is_lossless (around (ids r.0) c) (opening Node.T (C.node parts.t.core) plan.t (S.is_lossless parts.t.shaper)) 0 (taken r.1.t.journal) r.1.t) }
    ensures m { IfOk result (λ r. (c : Choices) → Sound D.node S.is_lossless (around (ids r.0) c) (opening Node.M (D.node parts.m.core) plan.m (S.is_lossless parts.m.shaper)) 0 (taken r.1.m.journal) r.1.m) }
    ensures a { IfOk result (λ r. (c : Choices) → Sound E.node S.is_lossless (around (ids r.0) c) (opening Node.A (E.node parts.a.core) plan.a (S.is_lossless parts.a.shaper)) 0 (taken r.1.a.journal) r.1.a) }
    ensures b { IfOk result (λ r. (c : Choices) → Sound E.node S.is_lossless (around (ids r.0) c) (opening Node.B (E.node parts.b.core) plan.b (S.is_lossless parts.b.shaper)) 0 (taken r.1.b.journal) r.1.b) }
{
    let (boxes, readers, outlets) = open_all(alloc)?;
    let workers = Nodes {
        t: Worker::new(alloc, Node::T, parts.t, readers.t, outlets.t, plan.t),
        m: Worker::new(alloc, Node::M, parts.m, readers.m, outlets.m, plan.m),
        a: Worker::new(alloc, Node::A, parts.a, readers.a, outlets.a, plan.a),
        b: Worker::new(alloc, Node::B, parts.b, readers.b, outlets.b, plan.b),
    };
    Ok((boxes, workers))
}

/// Runs four nodes for so many turns, each on a thread of its own, with the lines of the plan that are for it. The journals may
/// stand beside one another: each message that was taken was sent, and of each sender all that it sent to a node is taken in
/// order, none left out and none twice. The entries of each journal are steps of its node.
pub fn run_nodes<
    C: LiveNode + Send,
    D: LiveNode + Send,
    E: LiveNode + Send,
    G: Gate + Send,
    S: Shaper + Send,
    R: Threads + Sync,
>(
    rt: &R,
    alloc: Global,
    turns: u64,
    parts: Nodes<Parts<C, G, S>, Parts<D, G, S>, Parts<E, G, S>>,
    plan: Four<Seq<Event>>,
    policies: Four<Policies>,
) -> Result<Four<Finished>, Memory>
    requires t { AreDrivenAt Node.T plan.t }
    requires m { AreDrivenAt Node.M plan.m }
    requires a { AreDrivenAt Node.A plan.a }
    requires b { AreDrivenAt Node.B plan.b }
    ensures legal { IfOk result (λ r. Legal (numbered r.t.journal r.m.journal r.a.journal r.b.journal)) }
    ensures t { IfOk result (λ r. Ran (by_policies (margins policies.t)) (opening Node.T (C.node parts.t.core) plan.t (S.is_lossless parts.t.shaper)) turns r.t.journal r.t.left) }
    ensures m { IfOk result (λ r. Ran (by_policies (margins policies.m)) (opening Node.M (D.node parts.m.core) plan.m (S.is_lossless parts.m.shaper)) turns r.m.journal r.m.left) }
    ensures a { IfOk result (λ r. Ran (by_policies (margins policies.a)) (opening Node.A (E.node parts.a.core) plan.a (S.is_lossless parts.a.shaper)) turns r.a.journal r.a.left) }
    ensures b { IfOk result (λ r. Ran (by_policies (margins policies.b)) (opening Node.B (E.node parts.b.core) plan.b (S.is_lossless parts.b.shaper)) turns r.b.journal r.b.left) }
{
    let (boxes, workers) = prepare(alloc, parts, plan)?;
    let workers = run_all(rt, &boxes, turns, workers, policies)?;
    Ok(gather(&boxes, workers))
}
