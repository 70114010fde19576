//! The claims that are decided.

/// A claim that is decided, in the order in which they are tried.
#[derive(Clone, Copy, Debug, PartialEq, Eq)]
pub enum Claim {
    /// The answer to an event is the one that is due, but for whether a window is full, whether COUNTs are used up, and whether a
    /// flight is aged.
    Cause,
    /// A consequence is a note or a send: one event has one answer.
    Consequence,
    /// A send is on one of the 22 links, of the class of its flight, between the ends that a record has; a data PDU on the air
    /// has a COUNT beside it, and a control PDU none.
    OnLink,
    /// A record that carries a plan carries the one that was drawn with its generation.
    Planned,
}

/// A claim that does not hold of an entry.
#[derive(Clone, Copy, Debug, PartialEq, Eq)]
pub struct Broken {
    pub claim: Claim,
    /// The line after the answer that breaks it, from 0; none where the entry as a whole does.
    pub line: Option<usize>,
}
