//! What each node of NR-NR dual connectivity does with one input, from state to state, with its answer and its lines:
//! definitions, over the types that stand here, which the code of the nodes shares.
#![tactic(auto)]

mod acts;
mod bearers;
mod commands;
mod inputs;
mod parts;

pub use acts::Act;
pub use bearers::{AnchorOut, Edges, HalfOut, OnLeg, Weight, Window};
pub use commands::{Change, Command, First, Going, Leaving, Membership, Row, Way};
pub use inputs::{Effects, Input, Outcome};
pub use parts::Part;
