//! What a node does with what its worker took.

ghost use Rattle.std.specs.Prelude.{◌≡◌, IfOk};
ghost use Rattle.journal_runs.specs.OwnSteps.{given, own_step};
ghost use Rattle.node_rules.specs.Choices.{by_policies};
ghost use Rattle.split_leg.specs.Stored.{margins};
ghost use Rattle.workers.specs.Working.{Done};

use crate::live_node::{LiveNode, is_aged_for};
use dc_base::{Answer, Line, Memory, Refusal, Seq};
use journals::{Message, What};
use node_parts::{accepted, quiet, turned_down};
use node_rules::{Input, Outcome};
use split_leg::Policies;
use std::alloc::Global;
use xn_packets::weight;

// A message is given to the node, unless it is aged for it.
fn step_given<C: LiveNode>(
    alloc: Global,
    core: &mut C,
    message: &Message,
    policies: &Policies,
) -> Result<Outcome, Memory>
    ensures { IfOk result (λ out. (C.node core.new, out) ≡ given (by_policies (margins policies.now)) (C.node core.old) message.now) }
{
    let weight = weight(alloc, &message.flight)?;
    if is_aged_for(core, weight) {
        return Ok(turned_down(alloc, Refusal::Aged));
    }
    let flight = message.flight.copy()?;
    core.step(Input::Come(message.link, flight), policies)
}

// What comes of it.
fn outcome_of<C: LiveNode>(
    alloc: Global,
    core: &mut C,
    what: &What,
    policies: &Policies,
) -> Result<Outcome, Memory>
    ensures { IfOk result (λ out. (C.node core.new, out) ≡ own_step (by_policies (margins policies.now)) (C.node core.old) what.now) }
{
    match what {
        What::Driver(event) => {
            let event = event.copy()?;
            core.step(Input::Cmd(event), policies)
        }
        What::Step(message) => step_given(alloc, core, message, policies),
        What::Loss(_) => Ok(accepted(quiet(alloc))),
    }
}

/// The node takes it: its answer, and the lines after it. After `Memory` the node is not used again.
pub fn step<C: LiveNode>(
    alloc: Global,
    core: &mut C,
    what: &What,
    policies: &Policies,
) -> Result<(Answer, Seq<Line>), Memory>
    ensures { IfOk result (λ r. Done (by_policies (margins policies.now)) (C.node core.old) what.now (C.node core.new) r.0 r.1) }
{
    let outcome = outcome_of(alloc, core, what, policies)?;
    let answer = outcome.answer;
    let lines = core.lines_of(alloc, outcome)?;
    Ok((answer, lines))
}
