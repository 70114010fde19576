//! Scripts that are made of a number, run as they are made: the forms `make` and `soak` of the command line.
#![tactic(auto)]

mod form;
mod halt;
mod making;
mod running;
mod turning;
mod writing;

pub use form::made_command;
pub use halt::Halt;
pub use making::{make_script, sum_up};
