//! The two ends of a tunnel between an anchor and a host, and the frames between them.
//!
//! The layout of the frames is this product's own. It is modelled on the NR user plane protocol (TS
//! 38.425, 5.5.2): `User` is its DL USER DATA, and `Status` its DL DATA DELIVERY STATUS. `number` is the
//! NR-U Sequence Number, `user` the User data existence flag and `repeat` the Retransmission flag. `highest`
//! is the Highest successfully delivered NR PDCP Sequence Number, and a `Range` has the Start and the End
//! of lost NR-U Sequence Number range. Buffer sizes, data rates and the other fields of the standard are
//! left out.
#![tactic(auto)]

mod decoding;
mod encoding;
mod frame;
mod tunnel;

pub use decoding::decode;
pub use encoding::encode;
pub use frame::{Frame, NruErr, Range};
pub use tunnel::{Arrival, Inbound, Outbound, Sent, Verdict};
