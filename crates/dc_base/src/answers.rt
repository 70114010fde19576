//! Answers to events, words of refusal, and the status of a run.

ghost use Rattle.std.specs.Prelude.{◌≡◌};

/// Why an event is refused.
#[derive(Clone, Copy, Debug, PartialEq, Eq)]
pub enum Refusal {
    /// There is no such bearer at the node.
    NoBearer,
    /// There is such a bearer already.
    BearerThere,
    /// A command is open.
    Busy,
    /// There is no secondary node.
    NoSecondary,
    /// There is a secondary node already.
    SecondaryThere,
    /// The bearer has this shape already.
    SameShape,
    /// An earlier bearer of this identity used the key (TS 38.331, 5.3.5.6.5: a key is not used again with an identity).
    IdSpent,
    /// Every SN Counter of the current root was drawn.
    CounterSpent,
    /// The root key was named before.
    RootUsed,
    /// No flight stands at this place of the link.
    NoFlight,
    /// The link keeps its order, and this is not its first flight.
    NotFirst,
    /// The link is no tunnel.
    NotTunnel,
    /// The flight is older than the receiver's window.
    Aged,
    /// A whole window of COUNTs, half of the sequence numbers, is on its way.
    Full,
    /// No COUNT is left.
    Exhausted,
    /// There is no policy of this number.
    NoPolicy,
}

/// The answer to an event.
#[derive(Clone, Copy, Debug, PartialEq, Eq)]
pub enum Answer {
    Ok,
    No(Refusal),
}

/// Why a secondary's request is refused (TS 38.423, 8.3).
#[derive(Clone, Copy, Debug, PartialEq, Eq)]
pub enum Word {
    Busy,
    NoSecondary,
    CounterSpent,
    Rejected,
}

/// How a call of the program ended.
#[derive(Clone, Copy, Debug, PartialEq, Eq)]
pub enum Status {
    /// The input was read to its end and all was written.
    Ok,
    /// The command line is none that the call takes.
    Usage,
    /// This line of the input, from 1, is outside the grammar at this column, from 1.
    BadLine { line: u32, column: u32 },
    /// The source failed.
    ReadFault,
    /// The sink failed.
    WriteFault,
    /// There was no memory.
    Memory,
    /// A limit was passed.
    TooLong,
}

impl Status {
    ghost use Rattle.dc_base.specs.Statuses.{status_number};

    /// The number with which the program ends, 0 to 7.
    pub fn number(&self) -> u8
        ensures { result ≡ status_number self.now }
    {
        match self {
            Status::Ok => 0,
            Status::Usage => 1,
            Status::BadLine { .. } => 2,
            Status::ReadFault => 3,
            Status::WriteFault => 4,
            Status::Memory => 5,
            Status::TooLong => 6,
        }
    }
}
