//! The two ends of a tunnel: what was sent in it, and what came.

mod asking;
mod confirming;
mod entries;
mod gaps;
mod inbound;
mod outbound;

pub use inbound::{Arrival, Inbound};
pub use outbound::{Outbound, Sent, Verdict};

/// How many numbers a tunnel has: they have 24 bits.
const NUMBERS: u32 = 1 << 24;
