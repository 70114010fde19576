//! Messages between workers, and the entries of a journal.

use dc_base::{Answer, Event, Flight, Line, LinkId, Seq};

/// A flight on its way from one worker to another, with the stamp of the entry that sent it.
#[derive(Debug, Drop)]
pub struct Message {
    /// The link on which the flight stands: its sender and its receiver are those of the message.
    pub link: LinkId,
    /// The clock of the sender when it was sent.
    pub stamp: u64,
    pub flight: Flight,
}

/// What a worker took in a turn.
#[derive(Debug, Drop)]
pub enum What {
    /// A line of the plan, for its node.
    Driver(Event),
    /// A message, given to its node.
    Step(Message),
    /// A message that a tunnel lost.
    Loss(Message),
}

/// A turn in which a worker took something, with what its node answered and with what came of it.
#[derive(Debug, Drop)]
pub struct JournalEntry {
    /// The clock of the worker: greater than that of each entry before, and than the stamp of the message taken.
    pub stamp: u64,
    /// The number of the turn, from 0.
    pub turn: u64,
    pub what: What,
    pub answer: Answer,
    /// The notes and sends of the node, in their order.
    pub lines: Seq<Line>,
}
