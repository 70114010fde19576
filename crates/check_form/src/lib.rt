//! The form `check`: a transcript is read entry by entry, and each entry is held against the claims that are decided.
#![tactic(auto)]

mod checking;
mod form;
mod outcome;
mod verdict;
mod writing;

pub use checking::check;
pub use form::check_command;
pub use outcome::Outcome;
pub use verdict::Verdict;
