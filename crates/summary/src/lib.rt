//! What a run comes to: for each bearer how many payloads were submitted and how many handed up, and how many events,
//! flights and refusals there were.
#![tactic(auto)]

mod summing;
mod tallies;
mod writing;

pub use summing::Summary;
pub use tallies::{Concern, Passed, Tally};
pub use writing::bearer_lines;
