//! The legs of a split bearer (TS 38.323, 5.2.1): which leg a PDU goes to, what was put on each, and how much
//! of it is outstanding; and the stored policies that choose between two legs.
#![tactic(auto)]

mod leg;
mod legs;
mod policies;

pub use leg::Pdu;
pub use legs::{Legs, Route, SentAs};
pub use policies::{Choice, Choose, Policies, Policy};
