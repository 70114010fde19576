//! What there is of each node.

use dc_base::{Event, Seq};
use journals::JournalEntry;

/// One value for the terminal, one for the master, and one for each secondary node, which are of one kind.
#[derive(Drop)]
pub struct Nodes<T, M, X> {
    pub t: T,
    pub m: M,
    pub a: X,
    pub b: X,
}

/// What a worker leaves: its journal, and the lines of the plan that it did not take.
#[derive(Debug, Drop)]
pub struct Finished {
    pub journal: Seq<JournalEntry>,
    pub left: Seq<Event>,
}
