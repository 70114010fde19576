//! A node as a worker sees it.

ghost use Rattle.std.specs.Prelude.{◌≡◌, ◌+◌, IfOk, nat_lt};
ghost use Rattle.dc_base.specs.Count.{window};
ghost use Rattle.node_rules.specs.Lines.{lines_of};
ghost use Rattle.node_rules.specs.Readers.{is_aged_for};
ghost use Rattle.workers.specs.Plans.{is_open, is_ready};

use dc_base::{Event, Line, Memory, Seq, SnLen, window};
use node_parts::NodeCore;
use node_rules::{Outcome, Weight};
use std::alloc::Global;

/// The core of a node, with what a worker asks of it besides.
pub trait LiveNode: NodeCore + Drop {
    /// Whether a command is open at the node.
    fn is_busy(&self) -> bool
        ensures { result ≡ is_open (Self.node self.now) };

    /// The lines of an outcome, in their order.
    fn lines_of(&self, alloc: Global, outcome: Outcome) -> Result<Seq<Line>, Memory>
        ensures { IfOk result (λ lines. lines ≡ lines_of outcome) };
}

/// Whether the node may take this line of its plan now: a command if none is open, a payload or a report if the node has the
/// bearer, and any other line always.
pub fn is_ready<C: LiveNode>(core: &C, event: &Event) -> bool
    ensures { result ≡ is_ready (C.node core.now) event.now }
{
    match event {
        Event::Bearer { .. } => !core.is_busy(),
        Event::Reshape { .. } => !core.is_busy(),
        Event::Remove { .. } => !core.is_busy(),
        Event::Add { .. } => !core.is_busy(),
        Event::Change => !core.is_busy(),
        Event::Release => !core.is_busy(),
        Event::RekeySecond => !core.is_busy(),
        Event::RekeyMaster { .. } => !core.is_busy(),
        Event::Recover { .. } => !core.is_busy(),
        Event::Report { id, .. } => core.has(*id),
        Event::Submit { id, .. } => core.has(*id),
        _ => true,
    }
}

// Whether a COUNT lies more than a window behind an edge.
fn is_past(count: u32, n: SnLen, edge: u32) -> bool
    ensures { result ≡ nat_lt (count + window n) edge }
{
    u64::from(count) + u64::from(window(n)) < u64::from(edge)
}

/// Whether a flight is aged for the node: a data PDU by RX_DELIV, a delivery status by Low.
pub fn is_aged_for<C: LiveNode>(core: &C, weight: Weight) -> bool
    ensures { result ≡ is_aged_for (C.node core.now) weight }
{
    match weight {
        Weight::DataPduOf { id, g, count } => match core.edges(id, g) {
            Some(edges) => is_past(count, edges.n, edges.deliv),
            None => false,
        },
        Weight::DeliveryOf { id, g, count } => match core.edges(id, g) {
            Some(edges) => is_past(count, edges.n, edges.low),
            None => false,
        },
        Weight::Weightless => false,
    }
}
