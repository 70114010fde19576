//! Four nodes at work, each on a thread of its own: their workers are made, run side by side and taken apart again.
#![tactic(auto)]

mod ends;
mod nodes;
mod run;
mod together;

pub use nodes::{Finished, Nodes};
pub use run::run_nodes;
