//! How the form `check` ends.

ghost use Rattle.std.specs.Prelude.{◌≡◌};
ghost use Rattle.check_form.specs.Written.{outcome_number};

use transcript_entries::EntryFault;

/// How the form `check` ends.
#[derive(Clone, Copy, Debug, PartialEq, Eq)]
pub enum Outcome {
    /// Every claim that is decided holds of each entry.
    Holds,
    /// An entry breaks one.
    Fails,
    /// No entry came, or there was no memory.
    Unread(EntryFault),
    /// The sink failed.
    WriteFault,
}

impl Outcome {
    /// The number with which the program ends: 0 exactly where every claim that is decided holds.
    pub fn number(self) -> u8
        ensures { result ≡ outcome_number self }
    {
        match self {
            Outcome::Holds => 0,
            Outcome::Unread(EntryFault::BadLine { .. }) => 2,
            Outcome::Unread(EntryFault::ReadFault) => 3,
            Outcome::WriteFault => 4,
            Outcome::Unread(EntryFault::Memory) => 5,
            Outcome::Unread(EntryFault::TooLong) => 6,
            Outcome::Fails => 7,
        }
    }
}
