//! Large scripts made of a number: what is drawn, the lines round the turns, and the events of a turn that look at no link.
#![tactic(auto)]

mod commands;
mod draws;
mod fixed_lines;
mod forms;

pub use commands::{command, submission};
pub use draws::Draws;
pub use fixed_lines::{closing, made_header, opening};
pub use forms::{MadeForm, Purpose, read_form};
