//! What a line of a script is, or where it is outside the grammar.

use dc_base::Event;
use thiserror::Error;

/// A line of a script after its header.
#[derive(Debug, Drop)]
pub enum Scripted {
    /// One event.
    One(Event),
    /// A step of the first flight of the first link that holds one, until no link holds one.
    Drain,
}

/// Why a line was not read.
#[derive(Clone, Copy, Debug, PartialEq, Eq, Error)]
pub enum LineFault {
    /// The line is outside the grammar: the column, from 1, of the first field that is not allowed at its place after
    /// the fields before it.
    #[error("column {0} is not in the grammar")]
    Column(u32),
    /// There was no memory for the payload.
    #[error("out of memory")]
    Memory,
}
