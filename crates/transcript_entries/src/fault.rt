//! Why no entry of a transcript came.

use dc_base::Memory;
use thiserror::Error;

/// Why no entry came. A reader that answered one of these is not used again.
#[derive(Clone, Copy, Debug, PartialEq, Eq, Error)]
pub enum EntryFault {
    /// The first line outside the grammar of transcripts: its number, and the column of the first field that is not allowed
    /// at its place, both from 1. A line of the wrong sort, as a note before an answer, has column 1; so has an answer that
    /// does not come, in the line after the last.
    #[error("line {line}, column {column} is not in the grammar")]
    BadLine { line: u32, column: usize },
    /// A read of the source failed, and the source's count of faults rose.
    #[error("the source failed")]
    ReadFault,
    /// A line, or all lines up to it, passes a limit: 20,000 octets without LF, 16 MiB, or 2^32 - 2 lines.
    #[error("the transcript is too long")]
    TooLong,
    /// There was no memory.
    #[error("out of memory")]
    Memory,
}

impl From<Memory> for EntryFault {
    ghost use Rattle.std.specs.Prelude.{◌≡◌};
    ghost use Rattle.transcript_entries.specs.declared.fault.EntryFault.TheVariants as fault;

    ghost from_gives = { λ _ e. e ≡ fault.Memory };

    fn from(_memory: Memory) -> EntryFault {
        EntryFault::Memory
    }
}
