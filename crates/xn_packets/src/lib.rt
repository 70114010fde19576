//! What a packet in a tunnel of Xn-U says to the node that takes it (TS 29.281, 5; TS 38.425, 5.5), how each packet is
//! written, and which bearer and generation a flight is of.
#![tactic(auto)]

mod flights;
mod reading;
mod writing;

pub use flights::{flight_named, weight};
pub use reading::{Packet, read_packet};
pub use writing::{down_packet, status_packet, up_packet};
