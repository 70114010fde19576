//! The text that scripts and transcripts are made of: the lines of a source, read; words, decimal numbers and octets in
//! hexadecimal digits, read and written.
#![tactic(auto)]

mod hex_text;
mod lines;
mod numbers;
mod writing;

pub use hex_text::hex_octets;
pub use lines::{LineErr, LineReader, MAX_INPUT, MAX_LINE, MAX_READ};
pub use numbers::decimal;
pub use writing::{write_decimal, write_hex, write_text};
