//! Why a procedure does not go on.

ghost use Rattle.std.specs.Prelude.{◌≡◌};
ghost use Rattle.xn_procs.specs.declared.faults.ProcErr.TheVariants as errors;

use dc_base::{Memory, RecKind, Refusal};
use thiserror::Error;

/// Why a command or a record is not taken.
#[derive(Clone, Copy, Debug, PartialEq, Eq, Error)]
pub enum ProcErr {
    /// The command is refused, for this reason.
    #[error("the command is refused")]
    Refused(Refusal),
    /// A record of this kind has no place in the state (TS 38.423, 10.4).
    #[error("the record is not expected")]
    Unexpected(RecKind),
    /// There was no memory.
    #[error("out of memory")]
    Memory,
}

impl From<Memory> for ProcErr {
    ghost from_gives = { λ _ e. e ≡ errors.Memory };

    fn from(_e: Memory) -> ProcErr {
        ProcErr::Memory
    }
}
