//! The four nodes and the 22 links between them, one event at a time.
#![tactic(auto)]

mod counting;
mod links;
mod network;
mod outcome_lines;
mod world;

pub use counting::Counts;
pub use network::{Happened, Network};
pub use outcome_lines::lines_of;
pub use world::World;
