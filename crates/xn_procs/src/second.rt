//! The procedures of a secondary node (TS 38.423, 8.3; TS 37.340, 10.2 to 10.5).

ghost use Rattle.std.specs.Prelude.{◌≡◌, ◌∷◌, [], Ok, IfOk, IfErr};
ghost use Rattle.node_rules.specs.SecondState.{is_joined, new_second_proc, request, second_command};
ghost use Rattle.dc_base.specs.declared.nodes.Node.TheVariants.{M};
ghost use Rattle.node_rules.specs.declared.acts.Act.TheVariants as act;
ghost use Rattle.xn_procs.specs.Faults.{FailsAs};

mod records;

use crate::acting::{acts, send};
use crate::faults::ProcErr;
use dc_base::{Event, Memory, Node, Rec, Refusal, Seq, Want};
use node_rules::{Act, Membership};
use std::alloc::Global;
use std::marker::Model;

/// The state of a secondary node's procedures for the terminal.
#[derive(Debug, Drop)]
pub struct SecondProc {
    /// The node.
    me: Node,
    /// Whether it has a context of the terminal.
    membership: Membership,
    /// Whether it rejects requests.
    denies: bool,
    /// What it asked the master for, until that is answered.
    want: Option<Want>,
}

impl Model for SecondProc {
    ghost use Rattle.node_rules.specs.SecondState.{SecondProc as Machine};

    ghost Value = { Machine };

    ghost view = { λ a. record { me = a.me; membership = a.membership; denies = a.denies; want = a.want } };
}

// Sends the master a record.
fn to_master(alloc: Global, record_sent: Rec) -> Result<Seq<Act>, Memory>
    ensures { IfOk result (λ made. made ≡ act.Send M record_sent ∷ []) }
{
    acts(alloc, [send(Node::M, record_sent)])
}

// The request for a new K_SN, for a change away, or for the release.
fn request(what: Want) -> Rec
    ensures { result ≡ request what }
{
    match what {
        Want::Rekey => Rec::Modrqd,
        Want::Change => Rec::Chgrqd,
        Want::Release => Rec::Relrqd,
    }
}

impl SecondProc {
    /// The state before the first record. It takes no memory.
    pub fn new(me: Node) -> SecondProc
        ensures { result ≡ new_second_proc me }
    {
        SecondProc {
            me,
            membership: Membership::Outside,
            denies: false,
            want: None,
        }
    }

    /// The node.
    pub fn me(&self) -> Node
        ensures { result ≡ self.now.me }
    {
        self.me
    }

    /// Whether the node has a context of the terminal.
    pub fn membership(&self) -> Membership
        ensures { result ≡ self.now.membership }
    {
        self.membership
    }

    /// Whether the node serves the terminal.
    pub fn is_joined(&self) -> bool
        ensures { result ≡ is_joined self.now.membership }
    {
        match self.membership {
            Membership::Outside => false,
            Membership::Joined => true,
            Membership::Left => false,
        }
    }

    /// Whether the node rejects requests.
    pub fn denies(&self) -> bool
        ensures { result ≡ self.now.denies }
    {
        self.denies
    }

    /// What the node asked the master for, until that is answered.
    pub fn want(&self) -> Option<Want>
        ensures { result ≡ self.now.want }
    {
        self.want
    }

    /// Takes a command: to ask the master for something, or to reject requests from now on. It refuses to ask where the node
    /// does not serve the terminal, and where it has no answer to what it asked for before. Other events do nothing.
    pub fn command(&mut self, alloc: Global, event: &Event) -> Result<Seq<Act>, ProcErr>
        ensures ok { IfOk result (λ acts. second_command self.old event.now ≡ Ok (self.new, acts)) }
        ensures err { IfErr result (FailsAs (second_command self.old event.now) self.old self.new) }
    {
        match event {
            Event::Ask { what, .. } => {
                if !self.is_joined() {
                    return Err(ProcErr::Refused(Refusal::NoSecondary));
                }
                if self.want.is_some() {
                    return Err(ProcErr::Refused(Refusal::Busy));
                }
                let asked = to_master(alloc, request(*what))?;
                self.want = Some(*what);
                Ok(asked)
            }
            Event::Deny { on, .. } => {
                self.denies = *on;
                Ok(Seq::new(alloc))
            }
            _ => Ok(Seq::new(alloc)),
        }
    }
}
