//! Why a script is not made to its end.

use dc_base::Memory;
use thiserror::Error;

/// Why a script is not made, or not summed up.
#[derive(Clone, Copy, Debug, PartialEq, Eq, Error)]
pub enum Halt {
    /// A limit of a run, or of a script, is passed.
    #[error("a limit is passed")]
    TooLong,
    /// There was no memory.
    #[error("out of memory")]
    Memory,
}

impl From<Memory> for Halt {
    ghost use Rattle.std.specs.Prelude.{◌≡◌};
    ghost use Rattle.made_runs.specs.declared.halt.Halt.TheVariants as halt;

    ghost from_gives = { λ _ e. e ≡ halt.Memory };

    fn from(_memory: Memory) -> Halt {
        Halt::Memory
    }
}
