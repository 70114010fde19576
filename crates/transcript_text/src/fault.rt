//! Where a text is no line of a transcript.

use dc_base::Memory;
use thiserror::Error;

/// Why a line was not read.
#[derive(Clone, Copy, Debug, PartialEq, Eq, Error)]
pub enum LineFault {
    /// The text is no line of a transcript: the column, from 1, of the first field that is not allowed at its place after
    /// the fields before it.
    #[error("column {0} is not in the grammar")]
    Column(usize),
    /// There was no memory.
    #[error("out of memory")]
    Memory,
}

impl From<Memory> for LineFault {
    ghost use Rattle.std.specs.Prelude.{◌≡◌};
    ghost use Rattle.transcript_text.specs.declared.fault.LineFault.TheVariants as fault;

    ghost from_gives = { λ _ e. e ≡ fault.Memory };

    fn from(_memory: Memory) -> LineFault {
        LineFault::Memory
    }
}
