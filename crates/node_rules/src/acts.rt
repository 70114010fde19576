//! What a procedure has its node do.

use dc_base::{DrbId, Gen, Node, Note, Plan, Rec, StatusTransfer};

/// One thing that a procedure has its node do.
#[derive(Debug, Drop)]
pub enum Act {
    /// A record is sent to a node.
    Send { to: Node, record_sent: Rec },
    /// Waiting anchors are made for a plan.
    Prepare { plan: Plan },
    /// A plan is carried out.
    Go { plan: Plan },
    /// The node's anchors of a generation are opened.
    UnlockAll { g: Gen },
    /// A line is written.
    Say { note: Note },
    /// The node's anchor of an identity is recovered.
    RecoverOne { id: DrbId },
    /// The SCG leg of the node's anchor of an identity and generation failed.
    FailOne { id: DrbId, g: Gen },
    /// A status transfer is given to the node's own anchor.
    Pass { status: StatusTransfer },
}
