//! What the procedures hold of bearers and commands.

use dc_base::{DrbId, Gen, KeyName, Node, Plan, Seq, Shape, SnLen};

/// A bearer of the command table: its identity, its establishment (named by the generation that set it up), what it was set
/// up with, its key, the node of its anchor, and the generation of the last plan that set it.
#[derive(Clone, Copy, Debug, PartialEq, Eq)]
pub struct Row {
    pub id: DrbId,
    pub est: Gen,
    pub n: SnLen,
    pub first: u32,
    pub shape: Shape,
    pub threshold: u32,
    pub policy: u8,
    pub key: KeyName,
    pub anchor: Node,
    pub g: Gen,
}

/// A plan with the root and the K_SN that are current once it is carried out.
#[derive(Debug, Drop)]
pub struct Change {
    pub plan: Plan,
    pub root: u32,
    pub second_key: KeyName,
}

/// The first record of a command: S-NODE ADDITION, MODIFICATION or RELEASE REQUEST (TS 38.423, 8.3).
#[derive(Clone, Copy, Debug, PartialEq, Eq)]
pub enum First {
    Addition,
    Modification,
    Release,
}

/// A command that is carried out.
#[derive(Debug, Drop)]
pub struct Going {
    /// Whether the terminal answered.
    pub complete: bool,
    /// The secondary node that is to hear of that.
    pub due: Option<Node>,
    /// Whether it hears of it as the confirm of what it asked for.
    pub confirms: bool,
    /// The secondary node that leaves.
    pub leaving: Option<Node>,
    /// The bearers that move, each with its new anchor, as long as that has not adopted it.
    pub moving: Seq<(DrbId, Node)>,
}

/// The command that is open.
#[derive(Debug, Drop)]
pub enum Command {
    /// The first record was sent to a node, which has not answered; `wanted`: a secondary node asked for the command.
    Asked {
        change: Change,
        first: First,
        who: Node,
        wanted: bool,
    },
    /// It is carried out.
    Gone {
        plan: Plan,
        going: Going,
    },
    /// A bearer recovers, and the terminal and maybe a secondary node still have to say so.
    Recovering {
        id: DrbId,
        terminal: bool,
        second: Option<Node>,
    },
}

/// Whom a plan concerns besides the terminal, once it is carried out.
#[derive(Clone, Copy, Debug, PartialEq, Eq)]
pub struct Way {
    /// Who is to hear that it is complete.
    pub due: Option<Node>,
    /// Whether as a confirm.
    pub confirms: bool,
    /// Who leaves.
    pub leaving: Option<Node>,
    /// How that one hears of it, unless it was asked itself.
    pub told: Option<Leaving>,
}

/// The record by which a secondary node that leaves hears of it.
#[derive(Clone, Copy, Debug, PartialEq, Eq)]
pub enum Leaving {
    ByRequest,
    ByChangeConfirm,
    ByReleaseConfirm,
}

/// The context of the terminal at a secondary node.
#[derive(Clone, Copy, Debug, PartialEq, Eq)]
pub enum Membership {
    /// None.
    Outside,
    /// One, as the secondary node that serves the terminal.
    Joined,
    /// One from which the node was released.
    Left,
}
