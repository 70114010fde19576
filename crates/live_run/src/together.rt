//! Workers side by side.

ghost use Rattle.std.specs.Prelude.{◌≡◌, IfOk};
ghost use Rattle.node_rules.specs.Choices.{by_policies};
ghost use Rattle.outlets.specs.Boxes.{ids};
ghost use Rattle.split_leg.specs.Stored.{margins};
ghost use Rattle.workers.specs.Working.{HasRun, MayRun, around};

use crate::nodes::Nodes;
use dc_base::Memory;
use outlets::{Four, Inboxes};
use split_leg::Policies;
use std::thread::{Threads, join};
use workers::{Gate, LiveNode, Shaper, Worker};

// Two workers side by side, each with policies of its own.
fn two<C: LiveNode + Send, D: LiveNode + Send, G: Gate + Send, S: Shaper + Send, R: Threads + Sync>(
    rt: &R,
    boxes: &Inboxes,
    turns: u64,
    first: Worker<C, G, S>,
    first_policies: Policies,
    second: Worker<D, G, S>,
    second_policies: Policies,
) -> (
    Result<Worker<C, G, S>, Memory>,
    Result<Worker<D, G, S>, Memory>,
)
    requires first { MayRun C.node S.is_lossless (around (ids boxes.now) (by_policies (margins first_policies))) first }
    requires second { MayRun D.node S.is_lossless (around (ids boxes.now) (by_policies (margins second_policies))) second }
    ensures first { IfOk result.0 (λ w. HasRun C.node S.is_lossless (around (ids boxes.now) (by_policies (margins first_policies))) turns first w) }
    ensures second { IfOk result.1 (λ w. HasRun D.node S.is_lossless (around (ids boxes.now) (by_policies (margins second_policies))) turns second w) }
{
    join(
        rt,
        move || -> Result<Worker<C, G, S>, Memory>
            requires { MayRun C.node S.is_lossless (around (ids boxes.now) (by_policies (margins first_policies))) first }
            ensures { IfOk result (λ w. HasRun C.node S.is_lossless (around (ids boxes.entry.now) (by_policies (margins first_policies))) turns first w) }
        { first.run(boxes, turns, &first_policies) },
        move || -> Result<Worker<D, G, S>, Memory>
            requires { MayRun D.node S.is_lossless (around (ids boxes.now) (by_policies (margins second_policies))) second }
            ensures { IfOk result (λ w. HasRun D.node S.is_lossless (around (ids boxes.entry.now) (by_policies (margins second_policies))) turns second w) }
        { second.run(boxes, turns, &second_policies) },
    )
}

/// All workers side by side, two and two, each with policies of its own.
pub fn run_all<
    C: LiveNode + Send,
    D: LiveNode + Send,
    E: LiveNode + Send,
    G: Gate + Send,
    S: Shaper + Send,
    R: Threads + Sync,
>(
    rt: &R,
    boxes: &Inboxes,
    turns: u64,
    workers: Nodes<Worker<C, G, S>, Worker<D, G, S>, Worker<E, G, S>>,
    policies: Four<Policies>,
) -> Result<Nodes<Worker<C, G, S>, Worker<D, G, S>, Worker<E, G, S>>, Memory>
    requires t { MayRun C.node S.is_lossless (around (ids boxes.now) (by_policies (margins policies.t))) workers.t }
    requires m { MayRun D.node S.is_lossless (around (ids boxes.now) (by_policies (margins policies.m))) workers.m }
    requires a { MayRun E.node S.is_lossless (around (ids boxes.now) (by_policies (margins policies.a))) workers.a }
    requires b { MayRun E.node S.is_lossless (around (ids boxes.now) (by_policies (margins policies.b))) workers.b }
    ensures t { IfOk result (λ ws. HasRun C.node S.is_lossless (around (ids boxes.now) (by_policies (margins policies.t))) turns workers.t ws.t) }
    ensures m { IfOk result (λ ws. HasRun D.node S.is_lossless (around (ids boxes.now) (by_policies (margins policies.m))) turns workers.m ws.m) }
    ensures a { IfOk result (λ ws. HasRun E.node S.is_lossless (around (ids boxes.now) (by_policies (margins policies.a))) turns workers.a ws.a) }
    ensures b { IfOk result (λ ws. HasRun E.node S.is_lossless (around (ids boxes.now) (by_policies (margins policies.b))) turns workers.b ws.b) }
{
    let Nodes { t, m, a, b } = workers;
    let Four {
        t: for_t,
        m: for_m,
        a: for_a,
        b: for_b,
    } = policies;
    let ((t, m), (a, b)) = join(
        rt,
        move || -> (
            Result<Worker<C, G, S>, Memory>,
            Result<Worker<D, G, S>, Memory>,
        )
            requires { MayRun C.node S.is_lossless (around (ids boxes.now) (by_policies (margins for_t))) t × MayRun D.node S.is_lossless (around (ids boxes.now) (by_policies (margins for_m))) m }
            ensures { IfOk result.0 (λ w. HasRun C.node S.is_lossless (around (ids boxes.entry.now) (by_policies (margins for_t))) turns t w) × IfOk result.1 (λ w. HasRun D.node S.is_lossless (around (ids boxes.entry.now) (by_policies (margins for_m))) turns m w) }
        { two(rt, boxes, turns, t, for_t, m, for_m) },
        move || -> (
            Result<Worker<E, G, S>, Memory>,
            Result<Worker<E, G, S>, Memory>,
        )
            requires { MayRun E.node S.is_lossless (around (ids boxes.now) (by_policies (margins for_a))) a × MayRun E.node S.is_lossless (around (ids boxes.now) (by_policies (margins for_b))) b }
            ensures { IfOk result.0 (λ w. HasRun E.node S.is_lossless (around (ids boxes.entry.now) (by_policies (margins for_a))) turns a w) × IfOk result.1 (λ w. HasRun E.node S.is_lossless (around (ids boxes.entry.now) (by_policies (margins for_b))) turns b w) }
        { two(rt, boxes, turns, a, for_a, b, for_b) },
    );
    Ok(Nodes {
        t: t?,
        m: m?,
        a: a?,
        b: b?,
    })
}
