//! The top call: it reads a script line by line, runs the nodes on it, and writes the transcript as it goes.
#![tactic(auto)]

mod command;
mod faults;
mod policies;
mod reading;
mod running;
mod stepping;
mod writing;

pub use command::{is_check, run_command};
pub use faults::write_fault;
pub use policies::{even, second, shipped};
