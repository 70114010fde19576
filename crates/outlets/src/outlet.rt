//! The way to one inbox.

ghost use Rattle.std.specs.Prelude.{◌≡◌, ◌++◌, ◌∷◌, [], List, OnOk, ℕ};
ghost use Rattle.std.specs.List.{AllByRecursion};
ghost use Rattle.crossbeam_queue.specs.Passes.{IsPassOf, view};
ghost use Rattle.dc_base.specs.Nodes.{node_number};
ghost use Rattle.inbox.specs.Inbox.{IsSender, put_of};
ghost use Rattle.journals.specs.declared.entries.Message.{Message};
ghost use Rattle.outlets.specs.Ways.{AreOf, IsWay, id_of, with_message};

use dc_base::{Memory, Node};
use inbox::{Inbox, Ticket, offer};
use journals::Message;
use std::alloc::Global;
use std::collections::VecDeque;
use std::marker::Model;

/// A pass for an inbox, and what waits for room there, in the order in which it was sent.
#[derive(Drop)]
pub struct Outlet {
    ticket: Ticket,
    waiting: VecDeque<Message>,
}

impl Model for Outlet {
    ghost use Rattle.outlets.specs.Ways.{Way};

    ghost Value = { Way };

    ghost view = { λ a. record { pass = a.ticket; waiting = a.waiting.items } };
}

// Offers what waits, from the front, until one is refused.
fn offer_waiting(waiting: &mut VecDeque<Message>, ticket: &mut Ticket, inbox: &Inbox, me: Node)
    requires pass { IsPassOf inbox.now ticket.old }
    requires right { IsSender (node_number me) (view ticket.old) }
    requires own { AreOf (node_number me) waiting.old.items }
    ensures pass { IsPassOf inbox.now ticket.new }
    ensures right { IsSender (node_number me) (view ticket.new) }
    ensures own { AreOf (node_number me) waiting.new.items }
    ensures whole { put_of (view ticket.new) ++ waiting.new.items ≡ put_of (view ticket.old) ++ waiting.old.items }
{
    while let Some(message) = waiting.pop_front() {
        if let Err(back) = offer(inbox, ticket, message) {
            waiting.push_front(back).unwrap();
            return;
        }
    }
}

impl Outlet {
    /// With this pass, and nothing waits.
    pub fn new(alloc: Global, ticket: Ticket) -> Outlet
        ensures { result ≡ record { pass = ticket; waiting = [] } }
    {
        Outlet {
            ticket,
            waiting: VecDeque::new(alloc),
        }
    }

    /// Offers what waits, from the front, until one is refused. What was pushed and then what waits stays the same.
    pub fn offer_all(&mut self, inbox: &Inbox, me: Node)
        requires { (all : List Message) × IsWay (id_of inbox.now) (node_number me) all self.old }
        ensures { (all : List Message) → IsWay (id_of inbox.now) (node_number me) all self.old → IsWay (id_of inbox.now) (node_number me) all self.new }
    {
        offer_waiting(&mut self.waiting, &mut self.ticket, inbox, me);
    }

    /// A message waits behind the others.
    pub fn post(&mut self, message: Message) -> Result<(), Memory>
        ensures { OnOk result (self.new ≡ with_message self.old message) }
    {
        self.waiting.push_back(message)?;
        Ok(())
    }

    /// The pass, handed out.
    pub fn into_ticket(self) -> Ticket
        ensures { result ≡ self.pass }
    {
        self.ticket
    }
}
