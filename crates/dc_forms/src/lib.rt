//! The forms of the command line that read no source: `keys`, `nea2` and `show`.
#![tactic(auto)]

mod form;
mod output;
mod pieces;
mod reading;
mod shown;

pub use form::{Form, Kind};
pub use output::run_form;
