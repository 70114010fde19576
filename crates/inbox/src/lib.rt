//! The inbox of a node: a queue between workers, under a rule. What the node has taken of a sender, and then what is queued of
//! that sender, is what the sender has pushed.
#![tactic(auto)]

ghost use Rattle.std.specs.Prelude.{◌≡◌, List, [], ◌∷◌, ◌++◌, true, IfOk, MatchResult, MatchOption};
ghost use Rattle.std.specs.List.{AllByRecursion};
ghost use Rattle.crossbeam_queue.specs.Passes.{view, IsPassOf};
ghost use Rattle.dc_base.specs.Nodes.{node_number};
ghost use Rattle.inbox.specs.Inbox.{claim, sender, IsSender, put_of, claims_but, claim_of, view_of, whole, Kept};
ghost use Rattle.journals.specs.declared.entries.Message.{Message};

use crossbeam_queue::protocol::{Join, Lesson, Outcome, Protocol, Split};
use crossbeam_queue::{Pass, RuledArrayQueue};
use journals::Message;
use std::alloc::{AllocError, Global};
use std::collections::LinkedList;

/// How many messages an inbox holds.
const CAPACITY: usize = 64;

/// The right to push as one sender, by its node's number, and what was pushed under it. No value of it is made.
pub struct Claim {
    pub sender: u64,
    pub put: LinkedList<Message>,
}

/// Whether a pass may take messages, what it has taken, and its claims. No value of it is made.
pub struct View {
    pub gets: bool,
    pub got: LinkedList<Message>,
    pub claims: LinkedList<Claim>,
}

/// What is so of an inbox and its passes.
pub struct InOrder;

impl Protocol<Message, View> for InOrder {
    ghost use Rattle.inbox.specs.Inbox.{whole, Delivers};

    ghost holds = { Delivers };

    ghost first = { whole };
}

/// The claim of sender number `P` leaves a pass.
pub struct Cut<const P: u64>;

impl<const P: u64> Split<View> for Cut<P> {
    ghost use Rattle.std.specs.Prelude.{false, []};
    ghost use Rattle.inbox.specs.Inbox.{view_of, claims_but, claim_of};

    ghost left = { λ v. view_of v.gets v.got (claims_but P v.claims) };

    ghost right = { λ v. view_of false [] (claim_of P v.claims) };
}

/// A pass gets the claims of another.
pub struct Back;

impl Join<View> for Back {
    ghost use Rattle.std.specs.Prelude.{false, [], ◌++◌};
    ghost use Rattle.inbox.specs.Inbox.{view_of};

    ghost both = { λ v w. view_of v.gets v.got (v.claims ++ w.claims) };

    ghost spent = { view_of false [] [] };
}

/// A message was pushed.
pub struct Pushed;

impl Outcome<Message, View> for Pushed {
    ghost use Rattle.inbox.specs.Inbox.{pushed_on};

    ghost then = { λ v x w. w ≡ pushed_on v x };
}

/// A message was taken.
pub struct Popped;

impl Outcome<Message, View> for Popped {
    ghost use Rattle.inbox.specs.Inbox.{popped_on};

    ghost then = { λ v x w. w ≡ popped_on v x };
}

/// What the receiver learns at the end.
pub struct Total;

impl Lesson<Message, View> for Total {
    ghost use Rattle.std.specs.List.{AllByRecursion};
    ghost use Rattle.inbox.specs.Inbox.{Kept};

    ghost fact = { λ v items. AllByRecursion (Kept v.got items) v.claims };
}

/// The inbox of a node.
pub type Inbox = RuledArrayQueue<Message, View, InOrder>;

/// A right at an inbox.
pub type Ticket = Pass<Message, View>;

/// An empty inbox of 64 messages, and the one pass with all rights.
pub fn open(alloc: Global) -> Result<(Inbox, Ticket), AllocError>
    ensures { IfOk result (λ r. IsPassOf r.0 r.1 × (view r.1 ≡ whole)) }
{
    Inbox::ruled(alloc, CAPACITY)
}

/// A pass for sender number `P`, whose claim leaves the ticket.
pub fn ticket_of<const P: u64>(inbox: &Inbox, ticket: &mut Ticket) -> Ticket
    requires pass { IsPassOf inbox.now ticket.old }
    requires claim { claim_of P (view ticket.old).claims ≡ claim P [] ∷ [] }
    ensures pass { IsPassOf inbox.now ticket.new × IsPassOf inbox.now result }
    ensures left { view ticket.new ≡ view_of (view ticket.old).gets (view ticket.old).got (claims_but P (view ticket.old).claims) }
    ensures right { view result ≡ sender P [] }
{
    inbox.another::<Cut<P>>(ticket)
}

/// Offers a message. It comes back where the inbox is full, or where another thread is in the way.
pub fn offer(inbox: &Inbox, ticket: &mut Ticket, message: Message) -> Result<(), Message>
    requires pass { IsPassOf inbox.now ticket.old }
    requires right { IsSender (node_number message.link.from) (view ticket.old) }
    ensures pass { IsPassOf inbox.now ticket.new }
    ensures put { MatchResult result (λ _. view ticket.new ≡ sender (node_number message.link.from) (put_of (view ticket.old) ++ message ∷ [])) (λ back. (back ≡ message) × (view ticket.new ≡ view ticket.old)) }
{
    inbox.try_push_as::<Pushed>(ticket, message)
}

/// Takes a message. There may be none because another thread is in the way.
pub fn take(inbox: &Inbox, ticket: &mut Ticket) -> Option<Message>
    requires pass { IsPassOf inbox.now ticket.old }
    requires right { (view ticket.old).gets ≡ true }
    ensures pass { IsPassOf inbox.now ticket.new }
    ensures got { MatchOption result (view ticket.new ≡ view ticket.old) (λ x. view ticket.new ≡ view_of (view ticket.old).gets ((view ticket.old).got ++ x ∷ []) (view ticket.old).claims) }
{
    inbox.try_pop_as::<Popped>(ticket)
}

/// A pass comes back.
pub fn give_back(inbox: &Inbox, ticket: &mut Ticket, other: Ticket)
    requires pass { IsPassOf inbox.now ticket.old × IsPassOf inbox.now other }
    ensures pass { IsPassOf inbox.now ticket.new }
    ensures both { view ticket.new ≡ view_of (view ticket.old).gets (view ticket.old).got ((view ticket.old).claims ++ (view other).claims) }
{
    inbox.absorb::<Back>(ticket, other);
}

/// Of each sender whose claim the pass has, what was taken and then what is left is what was pushed.
pub fn settle(inbox: &Inbox, ticket: &mut Ticket)
    requires pass { IsPassOf inbox.now ticket.old }
    requires right { (view ticket.old).gets ≡ true }
    ensures pass { IsPassOf inbox.now ticket.new }
    ensures same { view ticket.new ≡ view ticket.old }
    ensures kept { (items : List Message) × AllByRecursion (Kept (view ticket.old).got items) (view ticket.old).claims }
{
    inbox.learn_as::<Total>(ticket);
}
