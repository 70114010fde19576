//! The command table of the master: what the plans that were carried out made of the bearers, the keys and the secondary node,
//! and the drafts of the commands to come (TS 37.340, 10.2 to 10.5 and 10.7).
#![tactic(auto)]

mod drafts;
mod items;
mod rows;
mod table;

pub use drafts::{Draft, Draws};
pub use table::CommandTable;
