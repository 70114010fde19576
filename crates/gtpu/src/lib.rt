//! GTP-U packets (TS 29.281): a decoder that lends the parts out of the octets, and an encoder.
//! Of the extension headers it understands the NR RAN container and the PDCP PDU number, in two lengths; a container,
//! a number and a body may stand in a packet of any message type.
#![tactic(auto)]

mod decoding;
mod encoding;
mod extensions;
mod faults;
mod packet;

pub use decoding::decode;
pub use encoding::encode;
pub use faults::GtpErr;
pub use packet::{GtpKind, Packet, PduNumber};
