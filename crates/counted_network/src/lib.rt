//! The nodes and the links between them, one event at a time, with the counts that the limits of a run are on.
#![tactic(auto)]

mod counting;

pub use counting::CountedNetwork;
