//! What nodes send to one another while each runs on a thread of its own: the inboxes of all nodes, and of each node the ways
//! to them, with what waits for room there.
#![tactic(auto)]

mod boxes;
mod four;
mod outlet;
mod ways;

pub use boxes::{Inboxes, close_all, open_all};
pub use four::Four;
pub use outlet::Outlet;
pub use ways::Outlets;
