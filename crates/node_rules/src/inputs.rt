//! What a node is given and what it gives: the same for the terminal, the master and the secondaries.

use dc_base::{Answer, Event, Flight, LinkId, Note, Seq};

/// What a node takes: an event of a script that is its own, or a flight from a link of which it is the receiver.
#[derive(Debug, Drop)]
pub enum Input {
    Cmd(Event),
    Come(LinkId, Flight),
}

/// What a node answers, notes and sends, each list in the order in which it happens.
#[derive(Debug, Drop)]
pub struct Outcome {
    pub answer: Answer,
    pub notes: Seq<Note>,
    pub sends: Seq<(LinkId, Flight)>,
}

/// What comes of a step of a node besides its new state: notes and sends, each in the order in which they happen.
#[derive(Debug, Drop)]
pub struct Effects {
    pub notes: Seq<Note>,
    pub sends: Seq<(LinkId, Flight)>,
}
