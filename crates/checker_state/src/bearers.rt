//! The bearers and the secondary nodes.

ghost use Rattle.std.specs.Prelude.{◌≡◌, None, if◌then◌else◌};
ghost use Rattle.claims.specs.Past.{new_bearer, new_second};
ghost use Rattle.claims.specs.Reading.{holds_any};
ghost use Rattle.checker_state.specs.Changes.{changed_by};

use dc_base::{DrbId, Gen, Node, SnLen, Want};
use std::marker::Model;

/// What happens to one bearer.
#[derive(Clone, Copy)]
pub enum Change {
    Own(Node, Gen),
    Give(Node, Gen),
    Set(Gen),
    Unset,
    Drop,
    Done,
    Carried(Gen),
    Gone,
    DroppedAt(Node),
}

/// An establishment, named by the generation that set it up.
#[derive(Clone, Copy)]
pub struct Bearer {
    pub(crate) g: Gen,
    pub(crate) id: DrbId,
    pub(crate) n: SnLen,
    pub(crate) first: u32,
    /// Where its anchor is active, in which generation.
    pub(crate) holder: Option<(Node, Gen)>,
    /// The generation of the last `own`.
    pub(crate) owned: Gen,
    /// The node of the last `give`, and the generation of that change.
    pub(crate) gave: Option<(Node, Gen)>,
    /// The generation that the terminal has.
    pub(crate) terminal: Option<Gen>,
    /// The generation carried out last.
    pub(crate) carried: Gen,
    pub(crate) is_done: bool,
    pub(crate) is_dropped: bool,
    pub(crate) is_gone: bool,
}

impl Model for Bearer {
    ghost use Rattle.claims.specs.Past as past;

    ghost Value = { past.Bearer };

    ghost view = { λ a. record (past.new_bearer a.g a.id a.n a.first) { holder = a.holder; owned = a.owned; gave = a.gave; terminal = a.terminal; carried = a.carried; is_done = a.is_done; is_dropped = a.is_dropped; is_gone = a.is_gone } };

    ghost inverse = { λ v. record { g = v.g; id = v.id; n = v.n; first = v.first; holder = v.holder; owned = v.owned; gave = v.gave; terminal = v.terminal; carried = v.carried; is_done = v.is_done; is_dropped = v.is_dropped; is_gone = v.is_gone } };
}

/// A secondary node: joined and not left; set to deny; its `want` without an answer; the request that the master took and did not
/// answer yet.
#[derive(Clone, Copy)]
pub struct Second {
    pub(crate) joined: bool,
    pub(crate) denies: bool,
    pub(crate) wants: Option<Want>,
    pub(crate) request: Option<Want>,
}

impl Model for Second {
    ghost use Rattle.claims.specs.Past as past;

    ghost Value = { past.Second };

    ghost view = { λ a. record { joined = a.joined; denies = a.denies; wants = a.wants; request = a.request } };

    ghost inverse = { λ v. record { joined = v.joined; denies = v.denies; wants = v.wants; request = v.request } };
}

impl Second {
    /// A secondary to which nothing happened.
    pub(crate) fn new() -> Second
        ensures { result ≡ new_second }
    {
        Second {
            joined: false,
            denies: false,
            wants: None,
            request: None,
        }
    }
}

impl Bearer {
    /// An establishment to which nothing happened.
    pub(crate) fn new(g: Gen, id: DrbId, n: SnLen, first: u32) -> Bearer
        ensures { result ≡ new_bearer g id n first }
    {
        Bearer {
            g,
            id,
            n,
            first,
            holder: None,
            owned: 0,
            gave: None,
            terminal: None,
            carried: 0,
            is_done: false,
            is_dropped: false,
            is_gone: false,
        }
    }

    /// Its name.
    pub fn g(&self) -> Gen
        ensures { result ≡ self.now.g }
    {
        self.g
    }

    /// Its identity.
    pub fn id(&self) -> DrbId
        ensures { result ≡ self.now.id }
    {
        self.id
    }

    /// The bearer after a change.
    #[tactic(auto, using(crate::proofs::Blank::not_below))]
    pub(crate) fn changed(&self, change: Change) -> Bearer
        ensures { result ≡ changed_by change self.now }
    {
        let mut bearer = *self;
        match change {
            Change::Own(node, g) => {
                bearer.holder = Some((node, g));
                bearer.owned = g;
            }
            Change::Give(node, g) => {
                bearer.holder = left_by(node, bearer.holder);
                bearer.gave = Some((node, g));
            }
            Change::Set(g) => bearer.terminal = Some(g),
            Change::Unset => bearer.terminal = None,
            Change::Drop => bearer.is_dropped = true,
            Change::Done => bearer.is_done = true,
            Change::Carried(g) => bearer.carried = g,
            Change::Gone => {
                bearer.holder = left_by(Node::M, bearer.holder);
                bearer.is_gone = true;
            }
            Change::DroppedAt(node) => bearer.holder = left_by(node, bearer.holder),
        }
        bearer
    }
}

/// The holder, unless it is this node.
fn left_by(node: Node, holder: Option<(Node, Gen)>) -> Option<(Node, Gen)>
    ensures { result ≡ (if holds_any node holder then None else holder) }
{
    match holder {
        None => None,
        Some((at, g)) => {
            if node.number() == at.number() {
                None
            } else {
                Some((at, g))
            }
        }
    }
}
