//! A transcript, read entry by entry: the header, and then each event with its answer and all lines up to the next event.
#![tactic(auto)]

mod entries;
mod entry;
mod fault;
mod lines;
mod sorts;

pub use entries::EntryReader;
pub use entry::ReadEntry;
pub use fault::EntryFault;
