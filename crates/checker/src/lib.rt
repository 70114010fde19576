//! The claims of a run, decided entry by entry: what the past of the claims has, in queues and maps, and the answer of each claim.
#![tactic(auto)]

mod checker;
mod claim;
mod links;
mod on_link;

pub use checker::Checker;
pub use claim::{Broken, Claim};
