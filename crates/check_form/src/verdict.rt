//! What a check of a transcript comes to.

use checker::Claim;
use transcript_entries::EntryFault;

/// What a check of a transcript comes to.
#[derive(Clone, Copy, Debug, PartialEq, Eq)]
pub enum Verdict {
    /// The octets are a transcript of so many entries, and every claim that is decided holds of each.
    Holds { entries: u32 },
    /// Of all entries before every claim that is decided holds, and this one does not hold of the next: of its line of this
    /// number, from 1, or, where that is the line of its event, of the entry as a whole.
    Fails { line: u64, claim: Claim },
    /// Of all entries before every claim that is decided holds, and no entry came after them.
    Unread(EntryFault),
}
