//! The events of a script, and the lines of its transcript.

ghost use Rattle.std.specs.Prelude.{◌≡◌, IfOk};

use crate::answers::{Answer, Word};
use crate::flights::Flight;
use crate::identities::{DrbId, Gen};
use crate::lists::{Memory, Octets};
use crate::nodes::{Alg, Dir, LinkId, Node, Shape, Want};
use crate::numbers::SnLen;

/// The first line of a script.
#[derive(Clone, Copy, Debug, PartialEq, Eq)]
pub struct Header {
    /// The ciphering algorithm of every bearer.
    pub alg: Alg,
    /// How many SN Counters of the first root key were drawn before, 0 to 65,536.
    pub used: u32,
    /// The octets of the first root key.
    pub root: [u8; 32],
}

/// One event: a command, a submission, a failure, or what happens to a flight.
#[derive(Clone, Debug, Drop, PartialEq, Eq)]
pub enum Event {
    /// Sets a new bearer up.
    Bearer {
        id: DrbId,
        n: SnLen,
        /// The first COUNT of both directions, at most 2^32 - 2.
        first: u32,
        shape: Shape,
        /// Octets.
        threshold: u32,
        policy: u8,
    },
    /// Gives a bearer another shape.
    Reshape {
        id: DrbId,
        shape: Shape,
    },
    /// Drops a bearer.
    Remove {
        id: DrbId,
    },
    /// Adds a secondary node.
    Add {
        node: Node,
    },
    /// Changes to the other secondary node.
    Change,
    /// Releases the secondary node.
    Release,
    /// Gives the secondary node a new key.
    RekeySecond,
    /// Gives the master a new root key.
    RekeyMaster {
        root: [u8; 32],
    },
    /// Makes both ends of a bearer send again what is not confirmed.
    Recover {
        id: DrbId,
    },
    /// Makes the receiving entity at a node send a status report.
    Report {
        node: Node,
        id: DrbId,
    },
    /// Makes a secondary node reject requests, or accept them again.
    Deny {
        node: Node,
        on: bool,
    },
    /// Makes a secondary node ask the master for something.
    Ask {
        node: Node,
        what: Want,
    },
    /// The secondary cell group fails at the terminal.
    ScgFail,
    /// A payload of 1 to 9000 octets is submitted.
    Submit {
        id: DrbId,
        dir: Dir,
        sdu: Octets,
    },
    /// The flight at this place of the link, from 0, is given to the receiver.
    Step {
        link: LinkId,
        index: u32,
    },
    /// It is lost.
    Lose {
        link: LinkId,
        index: u32,
    },
    /// A copy of it is put at the end of the link.
    Again {
        link: LinkId,
        index: u32,
    },
}

/// A consequence of an event that is no send.
#[derive(Clone, Debug, Drop, PartialEq, Eq)]
pub enum Note {
    /// The master begins what a secondary asked for.
    Begin {
        what: Want,
    },
    /// A secondary node accepted its addition.
    Join {
        node: Node,
        g: Gen,
    },
    /// It accepted or was told its release.
    Leave {
        node: Node,
        g: Gen,
    },
    /// Its anchor is frozen and moves.
    Give {
        node: Node,
        id: DrbId,
        g: Gen,
    },
    /// Its anchor is active in this generation.
    Own {
        node: Node,
        id: DrbId,
        g: Gen,
    },
    /// The terminal took this generation of the bearer.
    Set {
        id: DrbId,
        g: Gen,
    },
    /// The terminal dropped the bearer.
    Unset {
        id: DrbId,
    },
    /// A payload is handed up.
    Up {
        node: Node,
        id: DrbId,
        dir: Dir,
        count: u32,
        sdu: Octets,
    },
    /// The window of the submitter begins at this COUNT now.
    Freed {
        id: DrbId,
        dir: Dir,
        count: u32,
    },
    /// A secondary node took the answer to what it asked for: it was done.
    Confirmed {
        node: Node,
    },
    /// It was refused.
    Refused {
        node: Node,
        word: Word,
    },
    /// The open command ended.
    Done,
    /// The open command ended by a rejection.
    Rejected,
}

/// A line of a transcript.
#[derive(Debug, Drop, PartialEq, Eq)]
pub enum Line {
    Event(Event),
    Answer(Answer),
    Note(Note),
    Send(LinkId, Flight),
}

impl Event {
    /// An equal event.
    pub fn copy(&self) -> Result<Event, Memory>
        ensures { IfOk result (λ made. made ≡ self.now) }
    {
        Ok(self.clone()?)
    }
}

impl Note {
    /// An equal note.
    pub fn copy(&self) -> Result<Note, Memory>
        ensures { IfOk result (λ made. made ≡ self.now) }
    {
        Ok(self.clone()?)
    }
}

impl Line {
    /// An equal line.
    pub fn copy(&self) -> Result<Line, Memory>
        ensures { IfOk result (λ made. made ≡ self.now) }
    {
        Ok(match self {
            Line::Event(event) => Line::Event(event.copy()?),
            Line::Answer(answer) => Line::Answer(*answer),
            Line::Note(note) => Line::Note(note.copy()?),
            Line::Send(link, flight) => Line::Send(*link, flight.copy()?),
        })
    }
}
