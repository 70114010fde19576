//! What the workers of live nodes write of their own steps, and the order in which their journals become one script.
#![tactic(auto)]

mod entries;
mod laws;

pub use entries::{JournalEntry, Message, What};
pub use laws::{each_found, merged_is, sent_before};
