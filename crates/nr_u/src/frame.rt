//! The frames, and why octets are none.

ghost use Rattle.std.specs.Prelude.{◌≡◌};
ghost use Rattle.nr_u.specs.declared.frame.NruErr.TheVariants as errors;

use dc_base::Seq;
use std::alloc::{AllocError, AllocFailed};
use thiserror::Error;

/// Numbers of a tunnel that were lost, from the first to the last (24 bits each, `from` at most
/// `to`).
#[derive(Clone, Copy, Debug, PartialEq, Eq)]
pub struct Range {
    pub from: u32,
    pub to: u32,
}

/// A frame of a tunnel.
#[derive(Debug, Drop)]
pub enum Frame {
    /// DL USER DATA: the number in the tunnel (24 bits), whether user data is with it, and whether
    /// the PDU is sent again.
    User {
        number: u32,
        user: bool,
        repeat: bool,
    },
    /// DL DATA DELIVERY STATUS: the highest PDCP sequence number delivered (18 bits), and the
    /// numbers that were lost.
    Status {
        highest: Option<u32>,
        lost: Seq<Range>,
    },
}

/// Why octets are no frame: the first check that failed, with its place among the octets.
#[derive(Clone, Copy, Debug, PartialEq, Eq, Error)]
pub enum NruErr {
    /// The frame's octets are not all there; the place is their number.
    #[error("short at {place}")]
    Short { place: usize },
    /// The type is none of the two.
    #[error("kind at {place}")]
    Kind { place: usize },
    /// A highest sequence number past 18 bits, or a range out of order.
    #[error("ranges at {place}")]
    Ranges { place: usize },
    /// More than 3 octets stand after the frame; the place is the fourth.
    #[error("trailing at {place}")]
    Trailing { place: usize },
    /// Memory ran out.
    #[error("out of memory")]
    Memory,
}

impl From<AllocError> for NruErr {
    ghost from_gives = { λ _ e. e ≡ errors.Memory };

    fn from(_e: AllocError) -> NruErr {
        NruErr::Memory
    }
}

impl<T: Drop> From<AllocFailed<T>> for NruErr {
    ghost from_gives = { λ _ e. e ≡ errors.Memory };

    fn from(_e: AllocFailed<T>) -> NruErr {
        NruErr::Memory
    }
}
