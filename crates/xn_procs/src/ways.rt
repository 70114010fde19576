//! Whom a plan concerns besides the terminal, and by which records (TS 37.340, 10.2 to 10.5).

ghost use Rattle.std.specs.Prelude.{◌≡◌, IfOk};
ghost use Rattle.node_rules.specs.MasterGo.{alone, change_told, leave_acts, leave_record, let_go, way};

use crate::acting::{acts, send};
use dc_base::{Memory, Node, Plan, Rec, Seq};
use node_rules::{Act, First, Leaving, Way};
use std::alloc::Global;

/// Of a plan that concerns the master and the terminal alone.
pub fn alone() -> Way
    ensures { result ≡ alone }
{
    Way {
        due: None,
        confirms: false,
        leaving: None,
        told: None,
    }
}

/// Of a release that the secondary node asked for.
pub fn let_go(node: Node) -> Way
    ensures { result ≡ let_go node }
{
    Way {
        due: None,
        confirms: false,
        leaving: Some(node),
        told: Some(Leaving::ByReleaseConfirm),
    }
}

/// Of a plan that this node agreed to by its answer to the first record. With an addition the secondary node of before
/// leaves, by a confirm if it asked for that.
pub fn way(first: First, who: Node, wanted: bool, sec: Option<Node>) -> Way
    ensures { result ≡ way first who wanted sec }
{
    match first {
        First::Addition => Way {
            due: Some(who),
            confirms: false,
            leaving: sec,
            told: Some(change_told(wanted)),
        },
        First::Modification => Way {
            due: Some(who),
            confirms: wanted,
            leaving: None,
            told: None,
        },
        First::Release => Way {
            due: None,
            confirms: false,
            leaving: Some(who),
            told: None,
        },
    }
}

// How the secondary node hears of a change away from it.
fn change_told(wanted: bool) -> Leaving
    ensures { result ≡ change_told wanted }
{
    if wanted {
        Leaving::ByChangeConfirm
    } else {
        Leaving::ByRequest
    }
}

// The record for the node that leaves.
fn leave_record(told: Leaving, plan: Plan) -> Rec
    ensures { result ≡ leave_record told plan }
{
    match told {
        Leaving::ByRequest => Rec::Relreq { plan },
        Leaving::ByChangeConfirm => Rec::Chgcnf { plan },
        Leaving::ByReleaseConfirm => Rec::Relcnf { plan },
    }
}

/// The record by which the node that leaves hears of it, where there is such a node and it was not asked itself.
pub fn leave_acts(alloc: Global, way: Way, plan: &Plan) -> Result<Seq<Act>, Memory>
    ensures { IfOk result (λ made. made ≡ leave_acts way.leaving way.told plan.now) }
{
    match (way.leaving, way.told) {
        (Some(node), Some(told)) => {
            let record_sent = leave_record(told, plan.copy()?);
            acts(alloc, [send(node, record_sent)])
        }
        _ => Ok(Seq::new(alloc)),
    }
}
