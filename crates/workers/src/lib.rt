//! A node at work on a thread of its own: it takes the lines of its plan and the messages of its inbox, one a turn, writes down
//! what its core answers and what comes of it, and sends that on.
#![tactic(auto)]

mod live_node;
mod stepping;
mod traits;
mod worker;

pub use live_node::{LiveNode, is_ready};
pub use traits::{Gate, Shaper};
pub use worker::{Parts, Worker};
