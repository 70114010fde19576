//! The events of a line, given to the nodes one after another, each with its text written as it happens.

ghost use Rattle.std.specs.Prelude.{◌≡◌, List, [], ◌∷◌, IfErr, IsErrOf, None, OnOk};
ghost use Rattle.dc_base.specs.declared.answers.Status.{Status};
ghost use Rattle.dc_base.specs.declared.events.Event.{Event};
ghost use Rattle.dc_outside.specs.Faults.{Rose};
ghost use Rattle.split_leg.specs.Stored.{margins};
ghost use Rattle.node_rules.specs.Choices.{by_policies};
ghost use Rattle.node_rules.specs.World.{first_loaded};
ghost use Rattle.dc_network.specs.Counting.{IsWithin};
ghost use Rattle.counted_network.specs.Counted.{counting_after};
ghost use Rattle.dc_top.specs.Steps.{AreEventsOf, AreFirstSteps, HasRun, HasStopped, HasStoppedDraining, HasStoppedIn, events_text};

use crate::writing::{add_event, add_happened, write_text};
use counted_network::CountedNetwork;
use dc_base::{Event, Memory, Octets, Status};
use dc_outside::Sink;
use script_text::Scripted;
use split_leg::Policies;

/// An event happens, and its text stands in the buffer.
fn happen(
    network: &mut CountedNetwork,
    event: Event,
    policies: &Policies,
    text: &mut Octets,
) -> Result<(), Memory>
    ensures after { OnOk result (network.new ≡ counting_after (by_policies (margins policies.now)) network.old event) }
    ensures text { OnOk result (text.new ≡ events_text (by_policies (margins policies.now)) network.old.world (event ∷ [])) }
{
    text.clear();
    add_event(text, &event)?;
    let happened = network.event(event, policies)?;
    add_happened(text, &happened)
}

/// One event, with its text, which is made in the buffer. Past a limit nothing is written.
fn run_event<K: Sink>(
    network: &mut CountedNetwork,
    event: Event,
    policies: &Policies,
    text: &mut Octets,
    out: &mut K,
) -> Result<(), Status>
    requires within { IsWithin network.old.counts }
    ensures ran { OnOk result (HasRun (by_policies (margins policies.now)) network.old (event ∷ []) network.new (K.put_out out.old) (K.put_out out.new)) }
    ensures stopped { IfErr result (λ s. HasStopped (by_policies (margins policies.now)) s network.old [] event (K.put_out out.old) (K.put_out out.new)) }
    ensures kept { OnOk result (K.fault_count out.new ≡ K.fault_count out.old) }
    ensures fault { IsErrOf result Status.WriteFault → Rose (K.fault_count out.old) (K.fault_count out.new) }
{
    let Ok(()) = happen(network, event, policies, text) else {
        return Err(Status::Memory);
    };
    if !network.is_within() {
        return Err(Status::TooLong);
    }
    write_text(text.as_slice(), out)
}

/// Steps of the first flight on the first link on which one stands, until none stands on any.
fn drain<K: Sink>(
    network: &mut CountedNetwork,
    policies: &Policies,
    text: &mut Octets,
    out: &mut K,
) -> Result<(), Status>
    requires { IsWithin network.old.counts }
    ensures ran { OnOk result ((es : List Event) × AreFirstSteps (by_policies (margins policies.now)) network.old.world es
        × HasRun (by_policies (margins policies.now)) network.old es network.new (K.put_out out.old) (K.put_out out.new)) }
    ensures empty { OnOk result (first_loaded network.new.world.links ≡ None) }
    ensures stopped { IfErr result (λ s. HasStoppedDraining (by_policies (margins policies.now)) s network.old (K.put_out out.old) (K.put_out out.new)) }
    ensures kept { OnOk result (K.fault_count out.new ≡ K.fault_count out.old) }
    ensures fault { IsErrOf result Status.WriteFault → Rose (K.fault_count out.old) (K.fault_count out.new) }
{
    while let Some(link) = network.first_loaded() {
        run_event(network, Event::Step { link, index: 0 }, policies, text, out)?;
    }
    Ok(())
}

/// A line, run to its end.
pub fn run_line<K: Sink>(
    network: &mut CountedNetwork,
    line: Scripted,
    policies: &Policies,
    text: &mut Octets,
    out: &mut K,
) -> Result<(), Status>
    requires { IsWithin network.old.counts }
    ensures ran { OnOk result ((es : List Event) × AreEventsOf (by_policies (margins policies.now)) line network.old es
        × HasRun (by_policies (margins policies.now)) network.old es network.new (K.put_out out.old) (K.put_out out.new)) }
    ensures stopped { IfErr result (λ s. HasStoppedIn (by_policies (margins policies.now)) s line network.old (K.put_out out.old) (K.put_out out.new)) }
    ensures kept { OnOk result (K.fault_count out.new ≡ K.fault_count out.old) }
    ensures fault { IsErrOf result Status.WriteFault → Rose (K.fault_count out.old) (K.fault_count out.new) }
{
    match line {
        Scripted::Drain => drain(network, policies, text, out),
        Scripted::One(event) => run_event(network, event, policies, text, out),
    }
}
