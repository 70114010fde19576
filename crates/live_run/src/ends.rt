//! What workers leave.

ghost use Rattle.std.specs.Prelude.{◌≡◌};
ghost use Rattle.dc_base.specs.declared.nodes.Node.TheVariants as node;
ghost use Rattle.journals.specs.Journals.{Legal};
ghost use Rattle.journals.specs.Merging.{numbered};
ghost use Rattle.live_run.specs.Ran.{IsDone};
ghost use Rattle.outlets.specs.Boxes.{ids};

use crate::nodes::{Finished, Nodes};
use dc_base::Seq;
use inbox::Ticket;
use outlets::{Four, Inboxes, Outlets, close_all};
use workers::{Gate, LiveNode, Shaper, Worker};

// A worker taken apart: its pass, its outlets, and what it leaves.
fn parted<C: LiveNode, G: Gate, S: Shaper>(worker: Worker<C, G, S>) -> (Ticket, Outlets, Finished)
    ensures ticket { result.0 ≡ worker.ticket }
    ensures outlets { result.1 ≡ worker.outlets }
    ensures finished { result.2 ≡ record { journal = worker.journal; left = worker.lines.items } }
{
    let Worker {
        ticket,
        outlets,
        lines,
        journal,
        ..
    } = worker;
    let left = Seq::from_vec(Vec::from(lines));
    (ticket, outlets, Finished { journal, left })
}

/// What workers leave that have ended: of each sender, what a node took is what was sent to it first, in order and none left out.
pub fn gather<C: LiveNode, D: LiveNode, E: LiveNode, G: Gate, S: Shaper>(
    boxes: &Inboxes,
    workers: Nodes<Worker<C, G, S>, Worker<D, G, S>, Worker<E, G, S>>,
) -> Four<Finished>
    requires t { IsDone (ids boxes.now) node.T workers.t }
    requires m { IsDone (ids boxes.now) node.M workers.m }
    requires a { IsDone (ids boxes.now) node.A workers.a }
    requires b { IsDone (ids boxes.now) node.B workers.b }
    ensures legal { Legal (numbered workers.t.journal workers.m.journal workers.a.journal workers.b.journal) }
    ensures t { result.t ≡ record { journal = workers.t.journal; left = workers.t.lines.items } }
    ensures m { result.m ≡ record { journal = workers.m.journal; left = workers.m.lines.items } }
    ensures a { result.a ≡ record { journal = workers.a.journal; left = workers.a.lines.items } }
    ensures b { result.b ≡ record { journal = workers.b.journal; left = workers.b.lines.items } }
{
    let Nodes { t, m, a, b } = workers;
    let (reader_t, outlets_t, t) = parted(t);
    let (reader_m, outlets_m, m) = parted(m);
    let (reader_a, outlets_a, a) = parted(a);
    let (reader_b, outlets_b, b) = parted(b);
    let readers = Four {
        t: reader_t,
        m: reader_m,
        a: reader_a,
        b: reader_b,
    };
    let outlets = Four {
        t: outlets_t,
        m: outlets_m,
        a: outlets_a,
        b: outlets_b,
    };
    close_all(boxes, readers, outlets);
    Four { t, m, a, b }
}
