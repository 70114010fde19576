//! The lines of a transcript, read: each line that the writer of transcripts makes is read back, and no other text is.
#![tactic(auto)]

mod fault;
mod field_reader;
mod flights;
mod items;
mod named;
mod notes;
mod plans;
mod reading;
mod records;
mod rows;
mod spelling;
mod words;

pub use fault::LineFault;
pub use reading::read_line;
