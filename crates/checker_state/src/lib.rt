//! What the past of the claims has of commands, bearers and secondary nodes, kept entry by entry.
#![tactic(auto)]

mod answers;
mod bearers;
mod causes;
mod drafts;
mod judging;
mod lists;
mod planned;
mod rows;
mod state;
mod steps;
mod table;

pub use answers::is_same_answer;
pub use bearers::{Bearer, Change, Second};
pub use rows::{Claimed, Row};
pub use state::State;
pub use table::{Command, Kind, Table};
