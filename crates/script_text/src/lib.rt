//! The text of scripts and transcripts: each line is written, and each line of a script is read.
#![tactic(auto)]

mod field_reader;
mod fields;
mod flights;
mod lines;
mod reading;
mod scripted;
mod spelling;
mod words;

pub use lines::{write_event, write_first, write_line, write_lines};
pub use reading::{read_header, read_line};
pub use scripted::{LineFault, Scripted};
